ghost use Rattle.std.specs.Prelude.{◌≡◌, ◌↔◌, ℕ, IsTrue, IfSome, IfNone};
ghost use Rattle.pa_slot.specs.Count.{number_of, held_of, refs_of, CanStep, stepped};
ghost use Rattle.pa_slot.specs.Run.{IsReturning};

/// The name of a slot: where it starts, in bytes from the region's first, and which taking of its super page it
/// belongs to (`born`), so that a later slot at the same place has another name.
#[derive(Clone, Copy, Debug, PartialEq, Eq)]
pub struct SlotName {
    pub start: u32,
    pub born: u32,
}

/// A count word, the last 8 bytes of a slot: from bit 0 up the allocator's bit, 23 bits of the count of `raw_ptr`s
/// and 40 bits of the step's number. BackupRefPtr keeps such a count in each slot; the number is this project's.
#[derive(Clone, Copy, Debug, PartialEq, Eq)]
pub struct Word(pub u64);

/// What one step on a count word does: an allocation, a `raw_ptr` more, one less, the allocator's free, and a
/// write of the content by the owner.
#[derive(Clone, Copy, Debug, PartialEq, Eq)]
pub enum Step {
    Issue,
    Copy,
    Reset,
    Free,
    Write,
}

/// How many steps the word has seen, 0 to 2^40 - 1: bits 24 to 63.
pub fn number(w: Word) -> u64
    ensures { result ≡ number_of w.0 }
{
    w.0 >> 24
}

/// Whether the allocator holds the slot: bit 0.
pub fn held(w: Word) -> bool
    ensures { IsTrue result ↔ (held_of w.0 ≡ 1) }
{
    w.0 & 1 == 1
}

/// How many `raw_ptr`s point to the slot, 0 to 2^23 - 1: bits 1 to 23.
pub fn refs(w: Word) -> u64
    ensures { result ≡ refs_of w.0 }
{
    (w.0 % (1 << 24)) >> 1
}

/// Whether the step that found this word returned the slot: the last reset of a slot that was freed, or a free that
/// found no `raw_ptr`.
pub fn returns(step: Step, found: Word) -> bool
    ensures { IsTrue result ↔ IsReturning step found.0 }
{
    match step {
        Step::Reset => !held(found) && refs(found) == 1,
        Step::Free => held(found) && refs(found) == 0,
        Step::Issue | Step::Copy | Step::Write => false,
    }
}

/// The word after a step. `None` exactly when the step isn't enabled at the word, or its number is the greatest,
/// or a copy finds the greatest count.
pub fn apply(w: Word, s: Step) -> Option<Word>
    ensures refused { IfNone result (¬ CanStep s w.0) }
    ensures next { IfSome result (λ v. CanStep s w.0 × (v.0 ≡ stepped s w.0)) }
{
    if can_step(w, s) {
        Some(next(w, s))
    } else {
        None
    }
}

// Whether the step is enabled at the word.
fn can_step(w: Word, s: Step) -> bool
    ensures { IsTrue result ↔ CanStep s w.0 }
{
    let free = !held(w) && refs(w) == 0;
    let enabled = match s {
        Step::Issue => free,
        Step::Copy => !free && refs(w) < (1 << 23) - 1,
        Step::Reset => refs(w) >= 1,
        Step::Free => held(w),
        Step::Write => held(w) && refs(w) == 0,
    };
    enabled && number(w) < (1 << 40) - 1
}

/// The word after a step that is enabled at it.
pub fn next(w: Word, s: Step) -> Word
    requires { CanStep s w.0 }
    ensures { result.0 ≡ stepped s w.0 }
{
    match s {
        Step::Issue => Word(w.0 + (1 << 24) + 1),
        Step::Copy => Word(w.0 + (1 << 24) + 2),
        Step::Reset => Word(w.0 + (1 << 24) - 2),
        Step::Free => Word(w.0 + (1 << 24) - 1),
        Step::Write => Word(w.0 + (1 << 24)),
    }
}
