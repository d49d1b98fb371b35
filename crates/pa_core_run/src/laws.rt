ghost use Rattle.pa_core_run.specs.Playing.{FileRunsArePlayed};
ghost use Rattle.pa_core_run.specs.Moves.{TitlesComeAndGo};
ghost use Rattle.pa_core_run.specs.Laws.{MadeRecordsArePlayed, PlayedRecordsMakeARun, PurgedRecordsArePlayed, QuietRecordsArePlayed, RefusedRecordsArePlayed, SpilledRecordsArePlayed, UnmappedRecordsArePlayed};

/// The law that each run in the order of its lines, of a trace within the limits, has a run of the core from its start: its records
/// are played one after the other, each by enabled events, and the core is good at every moment.
pub fn file_runs_are_played()
    ensures { FileRunsArePlayed }
{}

/// The law that a run in the order of its lines has a run of the core, from its start, if each of its records can be
/// played wherever the core shows what comes before it.
pub fn played_records_make_a_run()
    ensures { PlayedRecordsMakeARun }
{}

/// The law that each record on a line without an entry of a journal can be played wherever the core shows what comes before it.
pub fn quiet_records_are_played()
    ensures { QuietRecordsArePlayed }
{}

/// The law that each allocation which finds no room can be played wherever the core shows what comes before it.
pub fn refused_records_are_played()
    ensures { RefusedRecordsArePlayed }
{}

/// The law that each allocation which made a slot can be played wherever the core shows what comes before it: from the thread's list,
/// after a fill, or as a direct map.
pub fn made_records_are_played()
    ensures { MadeRecordsArePlayed }
{}

/// The law that each free or reset with a slot that came to a list which spilled can be
/// played wherever the core shows what comes before it.
pub fn spilled_records_are_played()
    ensures { SpilledRecordsArePlayed }
{}

/// The law that each reset or free which gave back a direct map can be played wherever the core shows what comes before it.
pub fn unmapped_records_are_played()
    ensures { UnmappedRecordsArePlayed }
{}

/// The law that each purge can be played wherever the core shows what comes before it.
pub fn purged_records_are_played()
    ensures { PurgedRecordsArePlayed }
{}

/// The law that the core goes on showing the run while titles are cut out of raw bytes and uncut, and while free slots go from
/// a thread to the roots and come from them.
pub fn titles_come_and_go()
    ensures { TitlesComeAndGo }
{}
