ghost use Rattle.pa_record.specs.Laws.{TurnsChoose, OutIsOut, FillKeeps, ReturnKeeps, EntryKeeps, JournalLeaves, JournalGrows, EntryIsOne, TitlesAreAsked, OutIsLeft, CallsFit, SpansAreUsed, RootAddsUp};
ghost use Rattle.pa_record.specs.Chosen.{OneIsChosen};
ghost use Rattle.pa_record.specs.Owned.{RootsAreTaken};
ghost use Rattle.pa_record.specs.PoolLaws.{PoolIsSound, PoolGrows, PoolAnswers};
ghost use Rattle.pa_record.specs.Worked.{IsWorked, short_fill_pool, short_fill_journal, short_fill_census, full_region_pool, full_region_journal, full_region_census, direct_map_again_pool, direct_map_again_journal, direct_map_again_census, cache_overflow_pool, cache_overflow_journal, cache_overflow_census, empty_ring_pool, empty_ring_journal, empty_ring_census, purge_pool, purge_journal, purge_census, span_lists_pool, span_lists_journal, span_lists_census};

/// The runs that were worked out by hand are those that the definitions give: each entry of the pool and of the
/// journal fits, and the root has the census of the report at the end.
pub fn worked_runs_fit()
    ensures short_fill { IsWorked 1 short_fill_pool short_fill_journal short_fill_census }
    ensures full_region { IsWorked 1 full_region_pool full_region_journal full_region_census }
    ensures direct_map_again { IsWorked 1 direct_map_again_pool direct_map_again_journal direct_map_again_census }
    ensures cache_overflow { IsWorked 1 cache_overflow_pool cache_overflow_journal cache_overflow_census }
    ensures empty_ring { IsWorked 1 empty_ring_pool empty_ring_journal empty_ring_census }
    ensures purge { IsWorked 1 purge_pool purge_journal purge_census }
    ensures span_lists { IsWorked 4 span_lists_pool span_lists_journal span_lists_census }
{}

/// The law that a list of entries that fit leaves a pool in which the runs that are taken lie in the region and share no
/// super page: so at no time have two partitions one super page.
pub fn pool_is_sound()
    ensures { PoolIsSound }
{}

/// The law that a list of the pool's entries fits with one more entry that fits the pool after it.
pub fn pool_grows()
    ensures { PoolGrows }
{}

/// The law that there is one lowest run of free super pages, or none, and that a run that was given back is free.
pub fn pool_answers()
    ensures { PoolAnswers }
{}

/// The law that the span which a take uses has the greatest turn of those that pass, and the one that is decommitted
/// the least.
pub fn turns_choose()
    ensures { TurnsChoose }
{}

/// The law that a slot which is out of a root can be returned to its span, and that a span's allocated number is that of
/// its slots that are out.
pub fn out_is_out()
    ensures { OutIsOut }
{}

/// The law that a fill keeps a root sound, gives slots that were not out and are out then, and when it gives one.
pub fn fill_keeps()
    ensures { FillKeeps }
{}

/// The law that returns, a purge and direct maps keep a root sound: what is returned isn't out, all else that was out
/// still is, and at most 16 spans stay empty.
pub fn return_keeps()
    ensures { ReturnKeeps }
{}

/// The law that an entry which fits a sound root leaves one: turns rise by at most 32, and a slot that is out stays out
/// until it is given back.
pub fn entry_keeps()
    ensures { EntryKeeps }
{}

/// The law that the titles of a journal which have one entry of the pool are equal or share no byte, and lie in payload
/// or are direct maps between guards.
pub fn journal_leaves()
    ensures { JournalLeaves }
{}

/// The law that a journal goes on fitting while its pool gets entries, and with one more entry that fits.
pub fn journal_grows()
    ensures { JournalGrows }
{}

/// The law that what fits a root is determined: its slots, whether it asked the pool, and whether it was full.
pub fn entry_is_one()
    ensures { EntryIsOne }
{}

/// The law that the entry of the pool to which a title belongs is named by an entry of its own journal.
pub fn titles_are_asked()
    ensures { TitlesAreAsked }
{}

/// The law that a slot or a direct map is out of a root exactly when it left the root once more than it came back.
pub fn out_is_left()
    ensures { OutIsLeft }
{}

/// The law that what a call did is an entry that fits, if the pool's entry for it is the last one.
pub fn calls_fit()
    ensures { CallsFit }
{}

/// The law that each span of a root entered one of the four states, and that their counts add up to the spans.
pub fn spans_are_used()
    ensures { SpansAreUsed }
{}

/// The law that the free slots which a root keeps and the slots and direct maps that are out of it are together the
/// slots that were made and the direct maps that are mapped.
pub fn root_adds_up()
    ensures { RootAddsUp }
{}

/// The law that in a sound root the span which passes a test and has the greatest turn, or the least, is the one that is
/// chosen.
pub fn one_is_chosen()
    ensures { OneIsChosen }
{}

/// The law that each super page and direct map of a root is the run that its entry of the pool took,
/// and that a slot lies in the payload of the super page of its own entry.
pub fn roots_are_taken()
    ensures { RootsAreTaken }
{}
