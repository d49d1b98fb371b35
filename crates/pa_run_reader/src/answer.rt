ghost use Rattle.std.specs.Prelude.{◌≡◌, ℕ, List, Option, ◌++◌, codes, IfSome};
ghost use Rattle.pa_record.specs.Bits.{SeenInBits, AnswerInBits, EntryInBits};
ghost use Rattle.pa_record.specs.Text.{seen_text, seen_text_if, answer_text, entry_text};
ghost use Rattle.pa_record.specs.declared.entry.Entry.{Entry};
ghost use Rattle.pa_record.specs.declared.entry.Seen.{Seen};
ghost use Rattle.pa_record.specs.declared.entry.Answer.{Answer};
ghost use Rattle.pa_run_reader.specs.Reading.{Yields};
ghost use Rattle.pa_run_reader.specs.Records.{seen_in, seen_if_in, made_in, value_in, dangling_in, done_in, second_free_in, not_owner_in, stale_use_in, shared_in, slot_answer_in, plain_answer_in, counted_answer_in, answer_in, record_in};

use crate::field::{NUMBERS, behind, field, slot, small, word};
use pa_record::{Answer, Entry, Seen};
use pa_slot::Word;

// ` SLOT FOUND`.
#[tactic(auto, unfolding(crate::specs::Records::seen_in))]
fn seen(bytes: &[u8]) -> Option<(Seen, &[u8])>
    ensures read { Yields {Y = Seen × List ℕ} (λ x. (x.0, x.1.now)) result (seen_in bytes.now) }
    ensures found { IfSome result (λ x. SeenInBits x.0 × (bytes.now ≡ seen_text x.0 ++ x.1.now)) }
{
    let rest = behind(b" ", bytes)?;
    let (slot, rest) = slot(rest)?;
    let (found, rest) = word(rest)?;
    let found = Word(found);
    Some((Seen { slot, found }, rest))
}

// ` SLOT FOUND`, or nothing.
#[tactic(auto, unfolding(crate::specs::Records::seen_if_in))]
fn seen_if(bytes: &[u8]) -> Option<(Option<Seen>, &[u8])>
    ensures read { Yields {Y = Option Seen × List ℕ} (λ x. (x.0, x.1.now)) result (seen_if_in bytes.now) }
    ensures found { IfSome result (λ x. IfSome x.0 SeenInBits × (bytes.now ≡ seen_text_if x.0 ++ x.1.now)) }
{
    if behind(b" ", bytes).is_none() {
        return Some((None, bytes));
    }
    let (seen, rest) = seen(bytes)?;
    Some((Some(seen), rest))
}

// What follows `made`.
#[tactic(auto, unfolding(crate::specs::Records::made_in))]
fn made(bytes: &[u8]) -> Option<(Answer, &[u8])>
    ensures read { Yields {Y = Answer × List ℕ} (λ x. (x.0, x.1.now)) result (made_in bytes.now) }
    ensures found { IfSome result (λ x. AnswerInBits x.0 × (codes "made" ++ bytes.now ≡ answer_text x.0 ++ x.1.now)) }
{
    let rest = behind(b" ", bytes)?;
    let (slot, rest) = slot(rest)?;
    let (usable, rest) = field(b" ", NUMBERS, rest)?;
    let (found, rest) = word(rest)?;
    let found = Word(found);
    let seen = Seen { slot, found };
    Some((Answer::Made { seen, usable }, rest))
}

// What follows `word`.
#[tactic(auto, unfolding(crate::specs::Records::value_in))]
fn value(bytes: &[u8]) -> Option<(Answer, &[u8])>
    ensures read { Yields {Y = Answer × List ℕ} (λ x. (x.0, x.1.now)) result (value_in bytes.now) }
    ensures found { IfSome result (λ x. AnswerInBits x.0 × (codes "word" ++ bytes.now ≡ answer_text x.0 ++ x.1.now)) }
{
    let (seen, rest) = seen(bytes)?;
    let (value, rest) = word(rest)?;
    Some((Answer::Value { seen, value }, rest))
}

// What follows `dangling`.
#[tactic(auto, unfolding(crate::specs::Records::dangling_in))]
fn dangling(bytes: &[u8]) -> Option<(Answer, &[u8])>
    ensures read { Yields {Y = Answer × List ℕ} (λ x. (x.0, x.1.now)) result (dangling_in bytes.now) }
    ensures found { IfSome result (λ x. AnswerInBits x.0 × (codes "dangling" ++ bytes.now ≡ answer_text x.0 ++ x.1.now)) }
{
    let (seen, rest) = seen(bytes)?;
    let (value, rest) = word(rest)?;
    Some((Answer::Dangling { seen, value }, rest))
}

// What follows `done`.
#[tactic(auto, unfolding(crate::specs::Records::done_in))]
fn done(bytes: &[u8]) -> Option<(Answer, &[u8])>
    ensures read { Yields {Y = Answer × List ℕ} (λ x. (x.0, x.1.now)) result (done_in bytes.now) }
    ensures found { IfSome result (λ x. AnswerInBits x.0 × (codes "done" ++ bytes.now ≡ answer_text x.0 ++ x.1.now)) }
{
    let (seen, rest) = seen(bytes)?;
    Some((Answer::Done { seen }, rest))
}

// What follows `second-free`.
#[tactic(auto, unfolding(crate::specs::Records::second_free_in))]
fn second_free(bytes: &[u8]) -> Option<(Answer, &[u8])>
    ensures read { Yields {Y = Answer × List ℕ} (λ x. (x.0, x.1.now)) result (second_free_in bytes.now) }
    ensures found { IfSome result (λ x. AnswerInBits x.0 × (codes "second-free" ++ bytes.now ≡ answer_text x.0 ++ x.1.now)) }
{
    let (seen, rest) = seen_if(bytes)?;
    Some((Answer::SecondFree { seen }, rest))
}

// What follows `not-owner`.
#[tactic(auto, unfolding(crate::specs::Records::not_owner_in))]
fn not_owner(bytes: &[u8]) -> Option<(Answer, &[u8])>
    ensures read { Yields {Y = Answer × List ℕ} (λ x. (x.0, x.1.now)) result (not_owner_in bytes.now) }
    ensures found { IfSome result (λ x. AnswerInBits x.0 × (codes "not-owner" ++ bytes.now ≡ answer_text x.0 ++ x.1.now)) }
{
    let (seen, rest) = seen(bytes)?;
    Some((Answer::NotOwner { seen }, rest))
}

// What follows `stale-use`.
#[tactic(auto, unfolding(crate::specs::Records::stale_use_in))]
fn stale_use(bytes: &[u8]) -> Option<(Answer, &[u8])>
    ensures read { Yields {Y = Answer × List ℕ} (λ x. (x.0, x.1.now)) result (stale_use_in bytes.now) }
    ensures found { IfSome result (λ x. AnswerInBits x.0 × (codes "stale-use" ++ bytes.now ≡ answer_text x.0 ++ x.1.now)) }
{
    let (seen, rest) = seen_if(bytes)?;
    Some((Answer::StaleUse { seen }, rest))
}

// What follows `shared`.
#[tactic(auto, unfolding(crate::specs::Records::shared_in))]
fn shared(bytes: &[u8]) -> Option<(Answer, &[u8])>
    ensures read { Yields {Y = Answer × List ℕ} (λ x. (x.0, x.1.now)) result (shared_in bytes.now) }
    ensures found { IfSome result (λ x. AnswerInBits x.0 × (codes "shared" ++ bytes.now ≡ answer_text x.0 ++ x.1.now)) }
{
    let (seen, rest) = seen(bytes)?;
    Some((Answer::Shared { seen }, rest))
}

// An answer that names a slot.
#[tactic(auto, unfolding(crate::specs::Records::slot_answer_in))]
fn slot_answer(bytes: &[u8]) -> Option<(Answer, &[u8])>
    ensures read { Yields {Y = Answer × List ℕ} (λ x. (x.0, x.1.now)) result (slot_answer_in bytes.now) }
    ensures found { IfSome result (λ x. AnswerInBits x.0 × (bytes.now ≡ answer_text x.0 ++ x.1.now)) }
{
    if let Some(rest) = behind(b"made", bytes) {
        return made(rest);
    }
    if let Some(rest) = behind(b"done", bytes) {
        return done(rest);
    }
    if let Some(rest) = behind(b"word", bytes) {
        return value(rest);
    }
    if let Some(rest) = behind(b"dangling", bytes) {
        return dangling(rest);
    }
    if let Some(rest) = behind(b"second-free", bytes) {
        return second_free(rest);
    }
    if let Some(rest) = behind(b"not-owner", bytes) {
        return not_owner(rest);
    }
    if let Some(rest) = behind(b"stale-use", bytes) {
        return stale_use(rest);
    }
    if let Some(rest) = behind(b"shared", bytes) {
        return shared(rest);
    }
    None
}

// An answer that is its name alone.
#[tactic(auto, unfolding(crate::specs::Records::plain_answer_in))]
fn plain_answer(bytes: &[u8]) -> Option<(Answer, &[u8])>
    ensures read { Yields {Y = Answer × List ℕ} (λ x. (x.0, x.1.now)) result (plain_answer_in bytes.now) }
    ensures found { IfSome result (λ x. AnswerInBits x.0 × (bytes.now ≡ answer_text x.0 ++ x.1.now)) }
{
    if let Some(rest) = behind(b"stale-reset", bytes) {
        return Some((Answer::StaleReset, rest));
    }
    if let Some(rest) = behind(b"nothing", bytes) {
        return Some((Answer::Nothing, rest));
    }
    if let Some(rest) = behind(b"filled", bytes) {
        return Some((Answer::Filled, rest));
    }
    if let Some(rest) = behind(b"not-ref", bytes) {
        return Some((Answer::NotRef, rest));
    }
    if let Some(rest) = behind(b"out-of-range", bytes) {
        return Some((Answer::OutOfRange, rest));
    }
    if let Some(rest) = behind(b"too-large", bytes) {
        return Some((Answer::TooLarge, rest));
    }
    if let Some(rest) = behind(b"uncounted", bytes) {
        return Some((Answer::Uncounted, rest));
    }
    None
}

// An answer that has a number.
#[tactic(auto, unfolding(crate::specs::Records::counted_answer_in))]
fn counted_answer(bytes: &[u8]) -> Option<(Answer, &[u8])>
    ensures read { Yields {Y = Answer × List ℕ} (λ x. (x.0, x.1.now)) result (counted_answer_in bytes.now) }
    ensures found { IfSome result (λ x. AnswerInBits x.0 × (bytes.now ≡ answer_text x.0 ++ x.1.now)) }
{
    if let Some((entry, rest)) = field(b"full ", NUMBERS, bytes) {
        return Some((Answer::Full { entry }, rest));
    }
    if let Some((entry, rest)) = field(b"swapped ", NUMBERS, bytes) {
        return Some((Answer::Swapped { entry }, rest));
    }
    let (slots, rest) = field(b"purged ", NUMBERS, bytes)?;
    Some((Answer::Purged { slots }, rest))
}

// The answer of an op.
#[tactic(auto, unfolding(crate::specs::Records::answer_in))]
fn answer(bytes: &[u8]) -> Option<(Answer, &[u8])>
    ensures read { Yields {Y = Answer × List ℕ} (λ x. (x.0, x.1.now)) result (answer_in bytes.now) }
    ensures found { IfSome result (λ x. AnswerInBits x.0 × (bytes.now ≡ answer_text x.0 ++ x.1.now)) }
{
    if let Some(found) = slot_answer(bytes) {
        return Some(found);
    }
    if let Some(found) = plain_answer(bytes) {
        return Some(found);
    }
    counted_answer(bytes)
}

// The record whose `e ` was read, with its LF.
#[tactic(auto, unfolding(crate::specs::Records::record_in))]
pub fn record(bytes: &[u8]) -> Option<(Entry, &[u8])>
    ensures read { Yields {Y = Entry × List ℕ} (λ x. (x.0, x.1.now)) result (record_in bytes.now) }
    ensures found { IfSome result (λ x. EntryInBits x.0 × (codes "e " ++ bytes.now ≡ entry_text x.0 ++ x.1.now)) }
{
    let (line, rest) = small(NUMBERS, bytes)?;
    let (thread, rest) = field(b" ", NUMBERS, rest)?;
    let rest = behind(b" ", rest)?;
    let (answer, rest) = answer(rest)?;
    let rest = behind(b"\n", rest)?;
    let entry = Entry {
        line,
        thread,
        answer,
    };
    Some((entry, rest))
}
