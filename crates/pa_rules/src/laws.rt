ghost use Rattle.pa_rules.specs.Flow.{CachesKeep, IssuesReturn, RunsUntil};
ghost use Rattle.pa_rules.specs.Laws.{LinesDiffer, PlacesAddUp, RecordsAreLines, ReportAddsUp, TitlesFollow};
ghost use Rattle.pa_rules.specs.NextRows.{CopiesAreNext, FreesAreNext, HandlesStay, ReadsAreNext, ResetsAreNext, WritesAreNext};
ghost use Rattle.pa_rules.specs.Sizes.{SizesFit};
ghost use Rattle.pa_rules.specs.Worked.{PurgeIsCached, PurgeIsCounted};

/// The law that titles of one entry of the pool are equal or share no byte over all partitions, and that the entries of
/// the pool which a partition's journal names are its own.
pub fn titles_follow()
    ensures { TitlesFollow }
{}

/// The caches of a run that was worked out by hand are those that the definitions give.
pub fn worked_caches_fit()
    ensures { PurgeIsCached }
{}

/// The law that a slot is in the caches, was issued or came back to the root
/// as often as it left the root and was returned.
pub fn caches_keep()
    ensures { CachesKeep }
{}

/// The law that a slot was issued as often as it was returned, and once more if it isn't free.
pub fn issues_return()
    ensures { IssuesReturn }
{}

/// The law that a run's records, if they are those due, are paired with the ops of all of the trace's lines, none left out.
pub fn records_are_lines()
    ensures { RecordsAreLines }
{}

/// The law that each record of a trace has a line of its own.
pub fn lines_differ()
    ensures { LinesDiffer }
{}

/// The law that the four places of a report's line, in slots, add up to the slots that were made and the direct maps that
/// are mapped at the end of its phase.
pub fn places_add_up()
    ensures { PlacesAddUp }
{}

/// The law that the four places, in slots, add up in every line of a legal run's report.
pub fn report_adds_up()
    ensures { ReportAddsUp }
{}

/// The law that the records up to the end of a phase have one run for each slot, if all records have and none of a
/// later phase found a lower number than one of an earlier phase left.
pub fn runs_until()
    ensures { RunsUntil }
{}

/// The counts of a run that was worked out by hand are those that the definitions give.
pub fn worked_counts_fit()
    ensures { PurgeIsCounted }
{}

/// The law that the slot of a request is that of its class, or of its direct map.
pub fn sizes_fit()
    ensures { SizesFit }
{}

/// The law that a copy does what its row asks, by what `Register::for_copy` says.
pub fn copies_are_next()
    ensures { CopiesAreNext }
{}

/// The law that a reset does what its row asks, by what `Register::for_reset` says.
pub fn resets_are_next()
    ensures { ResetsAreNext }
{}

/// The law that a free does what its row asks, by what `Register::for_free` and `looked_free` say.
pub fn frees_are_next()
    ensures { FreesAreNext }
{}

/// The law that a write does what its row asks, by what `Register::for_write` and `looked_write` say.
pub fn writes_are_next()
    ensures { WritesAreNext }
{}

/// The law that a read does what its row asks, by what `Register::for_read` and `looked_read` say.
pub fn reads_are_next()
    ensures { ReadsAreNext }
{}

/// The law that an allocation and a copy do what their rows ask, by whether the register that they fill has a handle.
pub fn handles_stay()
    ensures { HandlesStay }
{}
