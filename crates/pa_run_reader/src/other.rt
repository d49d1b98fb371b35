ghost use Rattle.std.specs.Prelude.{◌≡◌, ℕ, ◌<◌, List, Option, ◌++◌, codes, IfSome};
ghost use Rattle.pa_record.specs.Bits.{PoolActInBits, HeldInBits, TallyInBits, ReportInBits};
ghost use Rattle.pa_record.specs.Text.{pool_act_text, pool_text, held_text, cell_text, tally_text, report_text};
ghost use Rattle.pa_record.specs.declared.pool.PoolAct.{PoolAct};
ghost use Rattle.pa_record.specs.declared.history.Held.{Held};
ghost use Rattle.pa_record.specs.declared.report.Tally.{Tally};
ghost use Rattle.pa_record.specs.declared.report.ReportLine.{ReportLine};
ghost use Rattle.pa_run_reader.specs.declared.item.Item.{Item};
ghost use Rattle.pa_run_reader.specs.Item.{ItemInBits, item_text};
ghost use Rattle.pa_run_reader.specs.Reading.{Yields};
ghost use Rattle.pa_run_reader.specs.Lines.{take_in, given_back_in, pool_act_in, pool_in, own_in, ref_in, own_or_ref_in, cell_in, tally_in, PlacesFit, StatesFit, places_before, states_before, places_in, states_in, report_of, report_in};
ghost use Rattle.pa_run_reader.specs.declared.other.Places.{Places};
ghost use Rattle.pa_run_reader.specs.declared.other.States.{States};

use crate::field::{NUMBERS, behind, field, slot, small, wide};
use crate::item::Item;
use crate::root::number_or;
use pa_record::{CellEntry, Held, PoolAct, PoolEntry, ReportLine, Tally};
use pa_trace::CELLS;

// What follows `take`.
#[tactic(auto, unfolding(crate::specs::Lines::take_in))]
fn take(bytes: &[u8]) -> Option<(PoolAct, &[u8])>
    ensures read { Yields {Y = PoolAct × List ℕ} (λ x. (x.0, x.1.now)) result (take_in bytes.now) }
    ensures found { IfSome result (λ x. PoolActInBits x.0 × (codes "take " ++ bytes.now ≡ pool_act_text x.0 ++ x.1.now)) }
{
    let (count, rest) = small(NUMBERS, bytes)?;
    let rest = behind(b" ", rest)?;
    let (first, rest) = number_or(b"none", rest)?;
    Some((PoolAct::Take { count, first }, rest))
}

// What follows `give`.
#[tactic(auto, unfolding(crate::specs::Lines::given_back_in))]
fn back(bytes: &[u8]) -> Option<(PoolAct, &[u8])>
    ensures read { Yields {Y = PoolAct × List ℕ} (λ x. (x.0, x.1.now)) result (given_back_in bytes.now) }
    ensures found { IfSome result (λ x. PoolActInBits x.0 × (codes "give " ++ bytes.now ≡ pool_act_text x.0 ++ x.1.now)) }
{
    let (count, rest) = small(NUMBERS, bytes)?;
    let (first, rest) = field(b" ", NUMBERS, rest)?;
    Some((PoolAct::Give { count, first }, rest))
}

// What the pool did.
#[tactic(auto, unfolding(crate::specs::Lines::pool_act_in))]
fn pool_act(bytes: &[u8]) -> Option<(PoolAct, &[u8])>
    ensures read { Yields {Y = PoolAct × List ℕ} (λ x. (x.0, x.1.now)) result (pool_act_in bytes.now) }
    ensures found { IfSome result (λ x. PoolActInBits x.0 × (bytes.now ≡ pool_act_text x.0 ++ x.1.now)) }
{
    if let Some(rest) = behind(b"take ", bytes) {
        return take(rest);
    }
    let rest = behind(b"give ", bytes)?;
    back(rest)
}

// The entry of the pool whose `p ` was read, with its LF.
#[tactic(auto, unfolding(crate::specs::Lines::pool_in))]
pub fn pool(bytes: &[u8]) -> Option<(Item, &[u8])>
    ensures read { Yields {Y = Item × List ℕ} (λ x. (x.0, x.1.now)) result (pool_in bytes.now) }
    ensures fits { IfSome result (λ x. ItemInBits x.0) }
    ensures found { IfSome result (λ x. codes "p " ++ bytes.now ≡ item_text x.0 ++ x.1.now) }
{
    let (index, rest) = small(NUMBERS, bytes)?;
    let (line, rest) = field(b" ", NUMBERS, rest)?;
    let (partition, rest) = field(b" ", NUMBERS, rest)?;
    let rest = behind(b" ", rest)?;
    let (act, rest) = pool_act(rest)?;
    let rest = behind(b"\n", rest)?;
    let entry = PoolEntry {
        line,
        partition,
        act,
    };
    Some((Item::Pool { index, entry }, rest))
}

// What follows `own:`.
#[tactic(auto, unfolding(crate::specs::Lines::own_in))]
fn own_handle(bytes: &[u8]) -> Option<(Held, &[u8])>
    ensures read { Yields {Y = Held × List ℕ} (λ x. (x.0, x.1.now)) result (own_in bytes.now) }
    ensures found { IfSome result (λ x. HeldInBits x.0 × (codes "own:" ++ bytes.now ≡ held_text x.0 ++ x.1.now)) }
{
    let (slot, rest) = slot(bytes)?;
    Some((Held::Own(slot), rest))
}

// What follows `ref:`.
#[tactic(auto, unfolding(crate::specs::Lines::ref_in))]
fn ref_handle(bytes: &[u8]) -> Option<(Held, &[u8])>
    ensures read { Yields {Y = Held × List ℕ} (λ x. (x.0, x.1.now)) result (ref_in bytes.now) }
    ensures found { IfSome result (λ x. HeldInBits x.0 × (codes "ref:" ++ bytes.now ≡ held_text x.0 ++ x.1.now)) }
{
    let (slot, rest) = slot(bytes)?;
    Some((Held::Ref(slot), rest))
}

// `-`, `own:SLOT` or `ref:SLOT`.
#[tactic(auto, unfolding(crate::specs::Lines::own_or_ref_in))]
fn held(bytes: &[u8]) -> Option<(Held, &[u8])>
    ensures read { Yields {Y = Held × List ℕ} (λ x. (x.0, x.1.now)) result (own_or_ref_in bytes.now) }
    ensures found { IfSome result (λ x. HeldInBits x.0 × (bytes.now ≡ held_text x.0 ++ x.1.now)) }
{
    if let Some(rest) = behind(b"-", bytes) {
        return Some((Held::Nothing, rest));
    }
    if let Some(rest) = behind(b"own:", bytes) {
        return own_handle(rest);
    }
    let rest = behind(b"ref:", bytes)?;
    ref_handle(rest)
}

// The exchange whose `c ` was read, with its LF.
#[tactic(auto, unfolding(crate::specs::Lines::cell_in))]
pub fn cell(bytes: &[u8]) -> Option<(Item, &[u8])>
    ensures read { Yields {Y = Item × List ℕ} (λ x. (x.0, x.1.now)) result (cell_in bytes.now) }
    ensures fits { IfSome result (λ x. ItemInBits x.0) }
    ensures found { IfSome result (λ x. codes "c " ++ bytes.now ≡ item_text x.0 ++ x.1.now) }
{
    let (cell, rest) = small(CELLS as u64, bytes)?;
    let (index, rest) = field(b" ", NUMBERS, rest)?;
    let (line, rest) = field(b" ", NUMBERS, rest)?;
    let rest = behind(b" ", rest)?;
    let (gave, rest) = held(rest)?;
    let rest = behind(b" ", rest)?;
    let (found, rest) = held(rest)?;
    let rest = behind(b"\n", rest)?;
    let entry = CellEntry { line, gave, found };
    Some((Item::Cell { cell, index, entry }, rest))
}

// A word, how many slots and how many bytes.
#[tactic(auto, unfolding(crate::specs::Lines::tally_in))]
fn tally<'a>(word: &[u8], bytes: &'a [u8]) -> Option<(Tally, &'a [u8])>
    ensures read { Yields {Y = Tally × List ℕ} (λ x. (x.0, x.1.now)) result (tally_in word.now bytes.now) }
    ensures found { IfSome result (λ x. TallyInBits x.0 × (bytes.now ≡ tally_text word.now x.0 ++ x.1.now)) }
{
    let (slots, rest) = wide(word, bytes)?;
    let (bytes, rest) = wide(b" ", rest)?;
    Some((Tally { slots, bytes }, rest))
}

// A line of the report up to the slots that are with the root.
#[derive(Clone, Copy, Debug, PartialEq, Eq)]
pub struct Places {
    pub phase: u32,
    pub partition: u32,
    pub live: Tally,
    pub quarantined: Tally,
    pub cached: Tally,
    pub root: Tally,
}

// How many spans are in each state.
#[derive(Clone, Copy, Debug, PartialEq, Eq)]
pub struct States {
    pub full: u32,
    pub active: u32,
    pub empty: u32,
    pub decommitted: u32,
}

// `PHASE P live N B quarantined N B cached N B root N B`.
#[tactic(auto, unfolding(crate::specs::Lines::places_in))]
fn places_at(bytes: &[u8]) -> Option<(Places, &[u8])>
    ensures read { Yields {Y = Places × List ℕ} (λ x. (x.0, x.1.now)) result (places_in bytes.now) }
    ensures fits { IfSome result (λ x. PlacesFit x.0) }
    ensures found { IfSome result (λ x. bytes.now ≡ places_before x.0 x.1.now) }
{
    let (phase, rest) = small(NUMBERS, bytes)?;
    let (partition, rest) = field(b" ", NUMBERS, rest)?;
    let (live, rest) = tally(b" live ", rest)?;
    let (quarantined, rest) = tally(b" quarantined ", rest)?;
    let (cached, rest) = tally(b" cached ", rest)?;
    let (root, rest) = tally(b" root ", rest)?;
    let places = Places {
        phase,
        partition,
        live,
        quarantined,
        cached,
        root,
    };
    Some((places, rest))
}

// ` full N active N empty N decommitted N`.
#[tactic(auto, unfolding(crate::specs::Lines::states_in))]
fn states_at(bytes: &[u8]) -> Option<(States, &[u8])>
    ensures read { Yields {Y = States × List ℕ} (λ x. (x.0, x.1.now)) result (states_in bytes.now) }
    ensures fits { IfSome result (λ x. StatesFit x.0) }
    ensures found { IfSome result (λ x. bytes.now ≡ states_before x.0 x.1.now) }
{
    let (full, rest) = field(b" full ", NUMBERS, bytes)?;
    let (active, rest) = field(b" active ", NUMBERS, rest)?;
    let (empty, rest) = field(b" empty ", NUMBERS, rest)?;
    let (decommitted, rest) = field(b" decommitted ", NUMBERS, rest)?;
    let states = States {
        full,
        active,
        empty,
        decommitted,
    };
    Some((states, rest))
}

// The line of the report whose `s ` was read, with its LF.
#[tactic(auto, unfolding(crate::specs::Lines::report_in), using(crate::proofs::Reports::line_spelled))]
pub fn report(bytes: &[u8]) -> Option<(ReportLine, &[u8])>
    ensures read { Yields {Y = ReportLine × List ℕ} (λ x. (x.0, x.1.now)) result (report_in bytes.now) }
    ensures fits { IfSome result (λ x. ReportInBits x.0) }
    ensures found { IfSome result (λ x. codes "s " ++ bytes.now ≡ report_text x.0 ++ x.1.now) }
{
    let (places, rest) = places_at(bytes)?;
    let (committed, rest) = wide(b" committed ", rest)?;
    let (reserved, rest) = wide(b" reserved ", rest)?;
    let (states, rest) = states_at(rest)?;
    let Some(rest) = behind(b"\n", rest) else {
        return None;
    };
    Some((line_of(places, committed, reserved, states), rest))
}

// The line of these parts.
fn line_of(places: Places, committed: u64, reserved: u64, states: States) -> ReportLine
    ensures { result ≡ report_of places committed reserved states }
{
    ReportLine {
        phase: places.phase,
        partition: places.partition,
        live: places.live,
        quarantined: places.quarantined,
        cached: places.cached,
        root: places.root,
        committed,
        reserved,
        full: states.full,
        active: states.active,
        empty: states.empty,
        decommitted: states.decommitted,
    }
}
