ghost use Rattle.pa_examples.specs.FirstVersion.{FirstVersionIsKept};
ghost use Rattle.pa_examples.specs.Plain.{PlainPartitionsAreLast};
ghost use Rattle.pa_examples.specs.Worked.{DirectMapIsFiled, DirectMapIsTold, TwoThreadsAreLegal, TwoThreadsAreTold};
ghost use Rattle.pa_examples.specs.WorkedEarly.{EarlyReadIsLegal, EarlyReadIsTold};
ghost use Rattle.pa_examples.specs.WorkedHeld.{MapIsHeld, WordsAreHeld};
ghost use Rattle.pa_examples.specs.WorkedKnown.{DirectMapIsKnown, TwoThreadsAreKnown};
ghost use Rattle.pa_examples.specs.WorkedOnly.{OnlyDirectMaps, OnlyPurge, OnlyWrites};
ghost use Rattle.pa_examples.specs.WorkedPlain.{PlainRunIsRegistered};
ghost use Rattle.pa_examples.specs.WorkedPlayed.{WorkedRunsArePlayed};
ghost use Rattle.pa_examples.specs.WorkedPurge.{PurgeIsFiled, PurgeIsTold};
ghost use Rattle.pa_examples.specs.WorkedWrites.{WritesAreFiled, WritesAreTold};
ghost use Rattle.pa_examples.specs.WrongRuns.{AstrayFails, MapsFail, RefusedFails};
ghost use Rattle.pa_examples.specs.told.AllSaid.{OtherReadsAreLegal, ThreadsClose, ThreadsSay};
ghost use Rattle.pa_examples.specs.told.Entered.{DirectMapHasLists, PurgeHasLists, TwoThreadsHaveLists};
ghost use Rattle.pa_examples.specs.told.Maps.{DirectMapIsPlayedOut};
ghost use Rattle.pa_examples.specs.told.OneThread.{DirectMapIsClosed, PurgeIsClosed};
ghost use Rattle.pa_examples.specs.told.OtherReads.{OtherReadsFit};
ghost use Rattle.pa_examples.specs.told.Purge.{PurgeIsPlayedOut};
ghost use Rattle.pa_examples.specs.told.Threads.{TwoThreadsArePlayedOut};

/// A run of one thread with direct maps, a quarantined one and a refusal, which was worked out by hand, is the run of its
/// trace in the order of its lines. There is such a run, and its trace is within the limits.
pub fn worked_direct_maps_are_legal()
    ensures told { DirectMapIsTold }
    ensures filed { DirectMapIsFiled }
{}

/// A run of two threads, which was worked out by hand, is legal: one reads a slot while the other frees it, finds the
/// allocator's bit, and poison. There is such a run, and its trace is within the limits.
pub fn worked_threads_are_legal()
    ensures told { TwoThreadsAreTold }
    ensures legal { TwoThreadsAreLegal }
{}

/// A run of two threads, which was worked out by hand, is legal: one reads a slot and hands its raw_ptr back before the
/// other frees the slot, and yet finds poison. So the clause of contents lets poison through that no free can have left
/// there by then. There is such a run, and its trace is within the limits.
pub fn worked_early_read_is_legal()
    ensures told { EarlyReadIsTold }
    ensures legal { EarlyReadIsLegal }
{}

/// A run of one thread with writes and reads, which was worked out by hand, is the run of its trace in the order of its
/// lines. There is such a run, and its trace is within the limits.
pub fn worked_writes_are_legal()
    ensures told { WritesAreTold }
    ensures filed { WritesAreFiled }
{}

/// A run of one thread with a purge, which was worked out by hand, is the run of its trace in the order of its lines.
/// There is such a run, and its trace is within the limits.
pub fn worked_purge_is_legal()
    ensures told { PurgeIsTold }
    ensures filed { PurgeIsFiled }
{}

/// The worked runs of one thread are the only legal ones of their traces, but for empty journals and histories at the end:
/// with any other record, entry or number a run isn't legal.
pub fn worked_runs_are_the_only_ones()
    ensures direct_maps { OnlyDirectMaps }
    ensures writes { OnlyWrites }
    ensures purge { OnlyPurge }
{}

/// Two worked runs are held by regions with words that were worked out by hand: a live slot has its value, a quarantined one
/// poison, and what went back has none.
pub fn worked_words_are_held()
    ensures words { WordsAreHeld }
    ensures map { MapIsHeld }
{}

/// All that is required of a run to be shown legal is known of two worked runs, one with direct maps that come and go and one
/// of two threads: so the laws that need it aren't about nothing.
pub fn worked_runs_are_known()
    ensures direct_maps { DirectMapIsKnown }
    ensures threads { TwoThreadsAreKnown }
{}

/// Three runs of one thread, which were worked out by hand, have a run of the core.
pub fn worked_runs_are_played()
    ensures { WorkedRunsArePlayed }
{}

/// In a run of version 3 with a plain partition and one that isn't, which was worked out by hand, each answer is the one that
/// its registers require: a copy of an owner is uncounted in the one, makes a raw_ptr in the other, and is filled before either.
pub fn plain_run_is_registered()
    ensures { PlainRunIsRegistered }
{}

/// A run that was worked out by hand, in which a direct map is said to come again, fails caches at the record that says so.
pub fn maps_fail()
    ensures { MapsFail }
{}

/// A run in which a journal names an entry of the pool that isn't there fails roots at that line, and pool holds.
pub fn refused_fails()
    ensures { RefusedFails }
{}

/// A run in which an allocation got a slot of another partition fails caches at its record, and holders holds.
pub fn astray_fails()
    ensures { AstrayFails }
{}

/// A run of two threads, which was worked out by hand, meets all that is required of annotated records to be shown legal: one thread
/// gives the other a raw_ptr through a cell and frees the slot, while the other reads it and finds poison.
pub fn two_threads_are_told()
    ensures { TwoThreadsArePlayedOut }
{}

/// A run of one thread with a purge, which was worked out by hand, meets all that is required of annotated records: a slot is freed,
/// goes back with the purge and is taken again.
pub fn purge_is_told()
    ensures { PurgeIsPlayedOut }
{}

/// A run of one thread with direct maps, which was worked out by hand, meets all that is required of annotated records: one map goes
/// back as it is freed, one with the reset of its raw_ptr, and for one there is no room.
pub fn direct_map_is_told()
    ensures { DirectMapIsPlayedOut }
{}

/// The lists of the run of two threads meet what is required of lists, of exchanges and of their answers.
pub fn two_threads_have_lists()
    ensures { TwoThreadsHaveLists }
{}

/// The lists of the run with a purge meet what is required of lists.
pub fn purge_has_lists()
    ensures { PurgeHasLists }
{}

/// The lists of the run with direct maps meet what is required of lists.
pub fn direct_map_has_lists()
    ensures { DirectMapHasLists }
{}

/// The read of the two threads may give the content, or find the slot freed:
/// what is required of logs and of what was seen is met by both.
pub fn other_reads_fit()
    ensures { OtherReadsFit }
{}

/// The run of two threads, with each of the three answers that its read may give, meets the obligations of all layers at once.
pub fn threads_say()
    ensures { ThreadsSay }
{}

/// With each of the three answers of its read, the run of two threads meets all that is required of annotated records, and is legal:
/// poison while the free is under way, the content, and that the slot was freed.
pub fn other_reads_are_legal()
    ensures { OtherReadsAreLegal }
{}

/// The seat that closes the run of two threads is as required, with each answer of the read. So the words at the end hold the run.
pub fn threads_close()
    ensures { ThreadsClose }
{}

/// The run with a purge meets the obligations of all layers at once, and the seat that closes it is as required: it owns
/// the slot that was taken again, and has the others free. So the words at the end hold the run.
pub fn purge_closes()
    ensures { PurgeIsClosed }
{}

/// The run of direct maps meets the obligations of all layers at once, and the seat that closes it is as required: it owns the last map,
/// and uncut the two that went back. So the words at the end hold the run.
pub fn direct_map_closes()
    ensures { DirectMapIsClosed }
{}

/// Versions 2 and 3 left version 1 as it was: which class a request has, how many slots of a class a thread keeps, what sums and
/// purges over all classes come to, and that each slot has a reference count: no partition is plain.
pub fn first_version_is_kept()
    ensures { FirstVersionIsKept }
{}

/// The partitions without reference counts are the last ones of a trace, as many as it tells: an allocation asks for a slot there
/// exactly if its partition is one of them.
pub fn plain_partitions_are_last()
    ensures { PlainPartitionsAreLast }
{}
