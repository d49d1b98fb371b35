ghost use Rattle.pa_logs.specs.Ending.{ClosesHolding, HeldFollows};
ghost use Rattle.pa_logs.specs.Homes.{HomesFollow};
ghost use Rattle.pa_logs.specs.Indices.{IndicesFollow};
ghost use Rattle.pa_logs.specs.Layers.{LayersFollow};
ghost use Rattle.pa_logs.specs.Lengths.{LengthsFollow};
ghost use Rattle.pa_logs.specs.Listed.{ActsAreTheirs, EntriesInOrder, LinesHaveTheirs, OrdersFollow};
ghost use Rattle.pa_logs.specs.Reads.{ContentsFollow, ReadsFollow};
ghost use Rattle.pa_logs.specs.Reported.{ReportFollows};
ghost use Rattle.pa_logs.specs.Rows.{ThreadsMerge, UsableFollows};
ghost use Rattle.pa_logs.specs.Said.{LayersTellAll};
ghost use Rattle.pa_logs.specs.Seats.{SeatsKnow};
ghost use Rattle.pa_logs.specs.Standing.{ListedWait, StandsHeld, StandsUncut};
ghost use Rattle.pa_logs.specs.Steps.{ContentFollows, HistoriesFollow, SlotsFollow};
ghost use Rattle.pa_logs.specs.Swaps.{CellsFollow, SwapsFollow};
ghost use Rattle.pa_logs.specs.Told.{LogsAreTold};
ghost use Rattle.pa_logs.specs.Touches.{TellsItsMark};
ghost use Rattle.pa_logs.specs.Viewed.{SeenFollows};
ghost use Rattle.pa_logs.specs.Whole.{ClausesAreTold, LegalIsTold};
ghost use Rattle.pa_logs.specs.Worked.{WorkedIsReadOff, WorkedIsSeen};

/// What is weighed over the logs of a view with every stake is weighed over the records.
pub fn logs_are_told()
    ensures { LogsAreTold }
{}

/// A log segment has the step or the look that its record reports, and no other step.
pub fn tells_its_mark()
    ensures { TellsItsMark }
{}

/// Each title's history is that of its slot's steps, if a view's logs are those of the records.
pub fn histories_follow()
    ensures { HistoriesFollow }
{}

/// Each slot has one run, if each has a history by the records.
pub fn slots_follow()
    ensures { SlotsFollow }
{}

/// The content of a slot at a number is that of its history.
pub fn content_follows()
    ensures { ContentFollows }
{}

/// Each read gave its slot's content, or poison: if it was freed, or if its next free was under way.
pub fn reads_follow()
    ensures { ReadsFollow }
{}

/// The contents are those of a legal run, from what each read gave.
pub fn contents_follow()
    ensures { ContentsFollow }
{}

/// No record is before itself, and none finds a lower number of a slot than one before it left.
pub fn seen_follows()
    ensures { SeenFollows }
{}

/// Each entry of a keeper's list is one of a record, and those of a line are what its record entered.
pub fn lines_have_theirs()
    ensures { LinesHaveTheirs }
{}

/// The entries of a list are in the order of a thread's lines, and in that of the phases.
pub fn entries_in_order()
    ensures { EntriesInOrder }
{}

/// The acts of a line in a journal are those that its record entered.
pub fn acts_are_theirs()
    ensures { ActsAreTheirs }
{}

/// A run has the clauses of a legal run but those of the threads' lists and of the report, if all this is known of its
/// records and logs.
pub fn clauses_are_told()
    ensures { ClausesAreTold }
{}

/// A run is legal if all this is known of its records, logs and lists.
pub fn legal_is_told()
    ensures { LegalIsTold }
{}

/// Four records of two threads, with a read in between, meet what the laws of steps and reads require.
pub fn worked_is_read_off()
    ensures { WorkedIsReadOff }
{}

/// The words of a closed region hold a run, if they end with each standing title's history.
pub fn held_follows()
    ensures { HeldFollows }
{}

/// The entries of journals and of the pool are in the order of their threads' lines and of the phases.
pub fn orders_follow()
    ensures { OrdersFollow }
{}

/// Exchanges have one order, that of the cells' list, in which what was seen rises.
pub fn swaps_follow()
    ensures { SwapsFollow }
{}

/// Registers and caches are those of a run, if each thread's are those of its records.
pub fn threads_merge()
    ensures { ThreadsMerge }
{}

/// The usable bytes of a slot that was stepped on are all but its count word.
pub fn usable_follows()
    ensures { UsableFollows }
{}

/// A seat with every stake knows all logs of the records, and what it has seen of a list is theirs.
pub fn seats_know()
    ensures { SeatsKnow }
{}

/// What the seats of those records had seen meets what the law of it requires.
pub fn worked_is_seen()
    ensures { WorkedIsSeen }
{}

/// The cells are those of a legal run, from the cells' list and the answers.
pub fn cells_follow()
    ensures { CellsFollow }
{}

/// The words of a closed region end with each standing title's history, and hold the run,
/// by what the close ensures for its seat.
pub fn closes_holding()
    ensures { ClosesHolding }
{}

/// An entry's index is the length of its list before it, and each entry of the pool is named once.
pub fn indices_follow()
    ensures { IndicesFollow }
{}

/// The journals give each slot one length, and each title that was made that of its slot.
pub fn lengths_follow()
    ensures { LengthsFollow }
{}

/// The report is right, from what threads, roots and lists say at the end of each phase.
pub fn report_follows()
    ensures { ReportFollows }
{}

/// If a title exists, no log says that it was uncut.
pub fn stands_uncut()
    ensures { StandsUncut }
{}

/// The closing seat holds each title that exists and that no log names: it is with its root, or waits with a thread.
pub fn stands_held()
    ensures { StandsHeld }
{}

/// A title that exists, is out of its root and is named by no log is on a thread's list, if free slots wait there.
pub fn listed_wait()
    ensures { ListedWait }
{}

/// The clauses of the pool and of the roots hold, and the closing seat is as required, from what
/// each layer says.
pub fn layers_follow()
    ensures { LayersFollow }
{}

/// Each slot which a record stepped on or looked at has a partition and a length, by the journals.
pub fn homes_follow()
    ensures { HomesFollow }
{}

/// A run is legal, and the closed region holds it, if each layer meets its obligations.
pub fn layers_tell_all()
    ensures { LayersTellAll }
{}
