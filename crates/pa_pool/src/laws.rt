ghost use Rattle.pa_pool.specs.Calls.{RunsAreHanded, SeenTakesStay};

/// A seat that has seen a take in the pool's list still has seen it after it has seen more of the list.
pub fn seen_takes_stay()
    ensures { SeenTakesStay }
{}

/// A seat that has super pages as raw, and a lease, can hand them over.
/// The law also says what the note has then, and what stays.
pub fn runs_are_handed()
    ensures { RunsAreHanded }
{}
