ghost use Rattle.pa_turns.specs.Laws.{TurnsAreInOrder};

/// The law that a run is in the order of its lines, if each line was played after those before it: its journals, the pool, the exchanges
/// and the numbers found are, and each read gave the content, or poison if the slot was freed.
pub fn turns_are_in_order()
    ensures { TurnsAreInOrder }
{}
