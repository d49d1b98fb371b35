ghost use Rattle.pa_core_steps.specs.Turns.{CopiesCanHappen, EventsCanHappen, FreesCanHappen, IssuesCanHappen, ResetsCanHappen, RunsJoin, WritesCanHappen};

/// The law that in a good core each enabled event can happen.
pub fn events_can_happen()
    ensures { EventsCanHappen }
{}

/// The law that two runs, the second of which begins where the first ends, make one run, and leave a good core.
pub fn runs_join()
    ensures { RunsJoin }
{}

/// The law that an owner can free a slot of any length: its content words become poison, and then it gives up its handle.
pub fn frees_can_happen()
    ensures { FreesCanHappen }
{}

/// The law that a handle can be copied.
pub fn copies_can_happen()
    ensures { CopiesCanHappen }
{}

/// The law that a raw_ptr can be reset.
pub fn resets_can_happen()
    ensures { ResetsCanHappen }
{}

/// The law that an owner can write a value to each content word of a slot to which no raw_ptr points.
pub fn writes_can_happen()
    ensures { WritesCanHappen }
{}

/// The law that a free slot can be filled with zeros and issued.
pub fn issues_can_happen()
    ensures { IssuesCanHappen }
{}
