ghost use Rattle.pa_timeline.specs.Timeline.{TimelinesHaveOutlines};
ghost use Rattle.pa_timeline.specs.Worked.{JournalAndCellHaveNone, PurgesHaveNone, ReadBeforeFreeHasNone, SlotAndCellHaveNone, ThreadsHaveOne, TwoSlotsHaveNone};
ghost use Rattle.pa_timeline.specs.WorkedReads.{CopiedHasNone, GonePoisonHasNone, SecondWordHasNone};

/// A run of two threads, which was worked out by hand, has a timeline: one thread frees a slot while the other reads it, finds the
/// allocator's bit, and poison.
pub fn threads_have_a_timeline()
    ensures { ThreadsHaveOne }
{}

/// A run that has a timeline has an outline: an order of all its steps but the poisonings of content words.
pub fn timelines_have_outlines()
    ensures { TimelinesHaveOutlines }
{}

/// A run of two threads has no outline, and so no timeline: of two slots,
/// each thread's last step on one came before the other's first on the other.
pub fn two_slots_have_no_timeline()
    ensures { TwoSlotsHaveNone }
{}

/// A run of two threads that purge two partitions has no outline: the journals have their purges in orders that contradict each other.
pub fn purges_have_no_timeline()
    ensures { PurgesHaveNone }
{}

/// A run of two threads has no outline: one looks at a slot after the other's copy and then empties a cell, which the other empties before
/// its copy; but the cell has the exchange of the one first.
pub fn slot_and_cell_have_no_timeline()
    ensures { SlotAndCellHaveNone }
{}

/// A run of two threads has no outline: each empties a cell and purges,
/// and the cell has their exchanges in an order that contradicts the journal's.
pub fn journal_and_cell_have_no_timeline()
    ensures { JournalAndCellHaveNone }
{}

/// A run of two threads has no timeline: one reads poison, and hands its raw_ptr to the other, which only then frees the slot.
pub fn read_before_free_has_no_timeline()
    ensures { ReadBeforeFreeHasNone }
{}

/// A run of two threads has no timeline: one reads a content word that the other's free poisons, and finds poison and then the content.
/// Poison stays.
pub fn poison_then_content_has_no_timeline()
    ensures { GonePoisonHasNone }
{}

/// A run of two threads has no timeline: one finds poison in the second content word of a slot that the other frees, and then the content
/// in the first. A free poisons the first word before the second.
pub fn second_word_first_has_no_timeline()
    ensures { SecondWordHasNone }
{}

/// A run of two threads has no timeline: one reads poison and then copies its raw_ptr, the other copies and then frees the slot, and by the
/// slot's numbers the copy of the one came before the other's. So the read was over before the free began.
pub fn read_before_copies_has_no_timeline()
    ensures { CopiedHasNone }
{}
