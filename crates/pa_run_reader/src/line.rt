ghost use Rattle.std.specs.Prelude.{◌≡◌, ℕ, List, ◌++◌, codes, IfSome, IfNone};
ghost use Rattle.pa_record.specs.Text.{report_text};
ghost use Rattle.pa_run_reader.specs.declared.item.Item.{Item};
ghost use Rattle.pa_run_reader.specs.Item.{ItemInBits, item_text};
ghost use Rattle.pa_run_reader.specs.Reading.{Yields};
ghost use Rattle.pa_run_reader.specs.Lines.{record_item_in, report_item_in, item_in};

use crate::answer::record;
use crate::field::behind;
use crate::item::Item;
use crate::other::{cell, pool, report};
use crate::root::root;

/// The item whose line comes first in the bytes, and the bytes after that line's LF. `None` exactly when the bytes
/// don't begin with the line of an item: if the first line is outside the grammar, or has no LF.
#[tactic(auto, using(crate::proofs::AgainLines::no_item))]
pub fn line_at(bytes: &[u8]) -> Option<(Item, &[u8])>
    ensures fits { IfSome result (λ x. ItemInBits x.0) }
    ensures found { IfSome result (λ x. bytes.now ≡ item_text x.0 ++ x.1.now) }
    ensures none { IfNone result ((i : Item) (rest : List ℕ) → ItemInBits i → bytes.now ≡ item_text i ++ rest → ⊥) }
{
    item(bytes)
}

// The item whose line comes first in the bytes, and the bytes after it, read as `item_in` reads them as a list.
#[tactic(auto, unfolding(crate::specs::Lines::item_in))]
fn item(bytes: &[u8]) -> Option<(Item, &[u8])>
    ensures read { Yields {Y = Item × List ℕ} (λ x. (x.0, x.1.now)) result (item_in bytes.now) }
    ensures fits { IfSome result (λ x. ItemInBits x.0) }
    ensures found { IfSome result (λ x. bytes.now ≡ item_text x.0 ++ x.1.now) }
{
    if let Some(rest) = behind(b"e ", bytes) {
        return record_item(rest);
    }
    if let Some(rest) = behind(b"r ", bytes) {
        return root(rest);
    }
    if let Some(rest) = behind(b"p ", bytes) {
        return pool(rest);
    }
    if let Some(rest) = behind(b"c ", bytes) {
        return cell(rest);
    }
    if let Some(rest) = behind(b"s ", bytes) {
        return report_item(rest);
    }
    if let Some(rest) = behind(b"run 1\n", bytes) {
        return Some((Item::Head, rest));
    }
    let rest = behind(b"end\n", bytes)?;
    Some((Item::End, rest))
}

// The record whose `e ` was read, as an item.
#[tactic(auto, unfolding(crate::specs::Lines::record_item_in))]
fn record_item(bytes: &[u8]) -> Option<(Item, &[u8])>
    ensures read { Yields {Y = Item × List ℕ} (λ x. (x.0, x.1.now)) result (record_item_in bytes.now) }
    ensures fits { IfSome result (λ x. ItemInBits x.0) }
    ensures found { IfSome result (λ x. codes "e " ++ bytes.now ≡ item_text x.0 ++ x.1.now) }
{
    let (entry, rest) = record(bytes)?;
    Some((Item::Record(entry), rest))
}

// The line of the report whose `s ` was read, as an item.
#[tactic(auto, unfolding(crate::specs::Lines::report_item_in))]
fn report_item(bytes: &[u8]) -> Option<(Item, &[u8])>
    ensures read { Yields {Y = Item × List ℕ} (λ x. (x.0, x.1.now)) result (report_item_in bytes.now) }
    ensures fits { IfSome result (λ x. ItemInBits x.0) }
    ensures found { IfSome result (λ x. codes "s " ++ bytes.now ≡ item_text x.0 ++ x.1.now) }
{
    let (line, rest) = report(bytes)?;
    Some((Item::Report(line), rest))
}
