ghost use Rattle.std.specs.Prelude.{◌≡◌, ℕ, ◌+◌, ◌%◌, ◌^◌, ◌<◌, []};
ghost use Rattle.atomic_table.specs.Table.{Allows, Splits, Joins};
ghost use Rattle.atomic_table.specs.Table.{State as TableState};
ghost use Rattle.pa_slot.specs.Titles.{poison};
ghost use Rattle.pa_region.specs.declared.view.View.{View};
ghost use Rattle.pa_region.specs.Rule.{IsKept};
ghost use Rattle.pa_region.specs.Start.{first_view};
ghost use Rattle.pa_region.specs.Aware.{IsAware};

use crate::marks::Mark;
use crate::view::View;
use atomic_table::{Join, Play, Seat, Split, Table, TableRule};
use pa_machine::Item;
use pa_slot::{Step, Title};
use std::alloc::Global;
use std::marker::{Brand, PhantomData};

/// What a region is opened with: the number of its words for bytes, and of the counted steps that may be made.
#[derive(Drop)]
pub struct Opening {
    pub words: u32,
    pub budget: u32,
}

/// The region's rule.
pub struct Kept;

impl TableRule<(), View, Opening> for Kept {
    ghost use Rattle.pa_region.specs.Rule.{IsKept};
    ghost use Rattle.pa_region.specs.Start.{first_view};

    ghost holds = { λ key s. IsKept s.words s.views };

    ghost first = { λ key. first_view key.words key.budget };
}

/// The words of a region, which only its seats can change.
pub type Words = Table<(), View, Opening, Kept, Global>;

/// What one step reports to its seat. The call that makes the step picks it.
pub trait Telling {
    ghost use Rattle.std.specs.Prelude.{ℕ};
    ghost use Rattle.atomic_table.specs.Table.{Me};
    ghost use Rattle.pa_region.specs.declared.view.View.{View};

    ghost then: { Me (Unit {0}) View → ℕ → Me (Unit {0}) View → Type 0 };
}

impl Telling for Brand {
    ghost then = { λ _ _ _. Unit {0} };
}

/// A step that reports what was picked, and what the rule says of the view after it.
pub struct Told<T> {
    telling: PhantomData<T>,
}

impl<T: Telling> Play<(), View> for Told<T> {
    ghost use Rattle.pa_region.specs.Aware.{IsAware};

    ghost then = { λ _ me word after. T.then me word after × IsAware after.0 };
}

// One `fetch_add` on a word, for a step on the title.
pub fn add_as<T: Telling>(
    table: &Words,
    seat: &mut Seat<(), View>,
    word: usize,
    value: u64,
    _title: Title,
    _step: Step,
) -> u64
    requires region { (seat.old.table_id ≡ table.now.shared.table_id) × (word < table.now.shared.table_id.words) }
    requires allowed { Allows (λ (s : TableState (Unit {0}) View). IsKept s.words s.views)
        table.now.shared.table_id.slots seat.old.id seat.old.me word (λ n. (n + value) % 2 ^ 64) (T.then seat.old.me) }
    ensures seat { (seat.new.table_id ≡ seat.old.table_id) × (seat.new.id ≡ seat.old.id) }
    ensures told { T.then seat.old.me result seat.new.me }
    ensures aware { IsAware seat.new.me.0 }
{
    table.shared.fetch_add::<Told<T>>(seat, word, value)
}

// One load of the word at that offset in bytes.
pub fn load_as<T: Telling>(table: &Words, seat: &mut Seat<(), View>, word: usize, _at: u32) -> u64
    requires region { (seat.old.table_id ≡ table.now.shared.table_id) × (word < table.now.shared.table_id.words) }
    requires allowed { Allows (λ (s : TableState (Unit {0}) View). IsKept s.words s.views)
        table.now.shared.table_id.slots seat.old.id seat.old.me word (λ n. n) (T.then seat.old.me) }
    ensures seat { (seat.new.table_id ≡ seat.old.table_id) × (seat.new.id ≡ seat.old.id) }
    ensures told { T.then seat.old.me result seat.new.me }
    ensures aware { IsAware seat.new.me.0 }
{
    table.shared.load::<Told<T>>(seat, word)
}

// One load of a word, at which a seat cuts the title or uncuts it.
pub fn title_as<T: Telling>(table: &Words, seat: &mut Seat<(), View>, word: usize, _title: Title)
    requires region { (seat.old.table_id ≡ table.now.shared.table_id) × (word < table.now.shared.table_id.words) }
    requires allowed { Allows (λ (s : TableState (Unit {0}) View). IsKept s.words s.views)
        table.now.shared.table_id.slots seat.old.id seat.old.me word (λ n. n) (T.then seat.old.me) }
    ensures seat { (seat.new.table_id ≡ seat.old.table_id) × (seat.new.id ≡ seat.old.id) }
    ensures told { (found : ℕ) × T.then seat.old.me found seat.new.me }
    ensures aware { IsAware seat.new.me.0 }
{
    table.shared.load::<Told<T>>(seat, word);
}

// One load of word 0, at which a seat makes an entry in a keeper's list.
pub fn enter_as<T: Telling>(table: &Words, seat: &mut Seat<(), View>, _keeper: u32, _entry: &[u64])
    requires region { (seat.old.table_id ≡ table.now.shared.table_id) × (0 < table.now.shared.table_id.words) }
    requires allowed { Allows (λ (s : TableState (Unit {0}) View). IsKept s.words s.views)
        table.now.shared.table_id.slots seat.old.id seat.old.me 0 (λ n. n) (T.then seat.old.me) }
    ensures seat { (seat.new.table_id ≡ seat.old.table_id) × (seat.new.id ≡ seat.old.id) }
    ensures told { (word : ℕ) × T.then seat.old.me word seat.new.me }
    ensures aware { IsAware seat.new.me.0 }
{
    table.shared.load::<Told<T>>(seat, 0);
}

// One `fetch_add` on the totals word of that number, which is this word of the table.
pub fn total_as<T: Telling>(
    table: &Words,
    seat: &mut Seat<(), View>,
    place: usize,
    _word: u32,
    bytes: u64,
) -> u64
    requires region { (seat.old.table_id ≡ table.now.shared.table_id) × (place < table.now.shared.table_id.words) }
    requires allowed { Allows (λ (s : TableState (Unit {0}) View). IsKept s.words s.views)
        table.now.shared.table_id.slots seat.old.id seat.old.me place (λ n. (n + bytes) % 2 ^ 64) (T.then seat.old.me) }
    ensures seat { (seat.new.table_id ≡ seat.old.table_id) × (seat.new.id ≡ seat.old.id) }
    ensures told { T.then seat.old.me result seat.new.me }
    ensures aware { IsAware seat.new.me.0 }
{
    table.shared.fetch_add::<Told<T>>(seat, place, bytes)
}

// One store to the word at that offset in bytes.
pub fn store_as<T: Telling>(
    table: &Words,
    seat: &mut Seat<(), View>,
    word: usize,
    value: u64,
    _at: u32,
)
    requires region { (seat.old.table_id ≡ table.now.shared.table_id) × (word < table.now.shared.table_id.words) }
    requires allowed { Allows (λ (s : TableState (Unit {0}) View). IsKept s.words s.views)
        table.now.shared.table_id.slots seat.old.id seat.old.me word (λ _. value) (λ _. T.then seat.old.me value) }
    ensures seat { (seat.new.table_id ≡ seat.old.table_id) × (seat.new.id ≡ seat.old.id) }
    ensures told { T.then seat.old.me value seat.new.me }
    ensures aware { IsAware seat.new.me.0 }
{
    table.shared.store::<Told<T>>(seat, word, value)
}

// One store of poison to the title's content word with this index.
pub fn poison_as<T: Telling>(
    table: &Words,
    seat: &mut Seat<(), View>,
    word: usize,
    _title: Title,
    _place: u32,
)
    requires region { (seat.old.table_id ≡ table.now.shared.table_id) × (word < table.now.shared.table_id.words) }
    requires allowed { Allows (λ (s : TableState (Unit {0}) View). IsKept s.words s.views)
        table.now.shared.table_id.slots seat.old.id seat.old.me word (λ _. poison) (λ _. T.then seat.old.me poison) }
    ensures seat { (seat.new.table_id ≡ seat.old.table_id) × (seat.new.id ≡ seat.old.id) }
    ensures told { T.then seat.old.me poison seat.new.me }
    ensures aware { IsAware seat.new.me.0 }
{
    table
        .shared
        .store::<Told<T>>(seat, word, 0xefef_efef_efef_efef)
}

/// The two views that a hand makes from one. The call that hands over picks them.
pub trait Handing {
    ghost use Rattle.pa_region.specs.declared.view.View.{View};

    ghost left: { View → View };

    ghost right: { View → View };
}

impl Handing for Brand {
    ghost left = { λ v. v };

    ghost right = { λ v. v };
}

/// A split into the views that were picked.
pub struct Handed<T> {
    handing: PhantomData<T>,
}

impl<T: Handing> Split<View> for Handed<T> {
    ghost left = { T.left };

    ghost right = { T.right };
}

// One load of word 0, at which a new seat gets items, this many counted steps and what is marked.
pub fn hand_as<T: Handing>(
    table: &Words,
    seat: &mut Seat<(), View>,
    _items: &[Item],
    _budget: u32,
    _marks: &[Mark],
) -> Seat<(), View>
    requires region { (seat.old.table_id ≡ table.now.shared.table_id) × (0 < table.now.shared.table_id.words) }
    requires allowed { Splits (λ (s : TableState (Unit {0}) View). IsKept s.words s.views)
        seat.old.id seat.old.me.0 (T.left seat.old.me.0) (T.right seat.old.me.0) }
    ensures seat { (seat.new.table_id ≡ seat.old.table_id) × (seat.new.id ≡ seat.old.id)
        × (seat.new.me ≡ (T.left seat.old.me.0, seat.old.me.1)) }
    ensures other { (result.table_id ≡ seat.old.table_id) × (result.me ≡ (T.right seat.old.me.0, [])) }
{
    table.shared.split_seat::<Handed<T>>(seat)
}

/// The view that a join makes from two, and the one that is left. The call that joins picks them.
pub trait Taking {
    ghost use Rattle.pa_region.specs.declared.view.View.{View};

    ghost both: { View → View → View };

    ghost spent: { View };
}

impl Taking for Brand {
    ghost both = { λ v w. v };

    ghost spent = { first_view 0 0 };
}

/// A join into the view that was picked.
pub struct Taken<T> {
    taking: PhantomData<T>,
}

impl<T: Taking> Join<View> for Taken<T> {
    ghost both = { T.both };

    ghost spent = { T.spent };
}

// One load of word 0, at which a seat gets all that another has.
pub fn take_as<T: Taking>(table: &Words, seat: &mut Seat<(), View>, other: Seat<(), View>)
    requires region { (seat.old.table_id ≡ table.now.shared.table_id) × (other.table_id ≡ table.now.shared.table_id) × (other.me.1 ≡ [])
        × (0 < table.now.shared.table_id.words) }
    requires allowed { Joins (λ (s : TableState (Unit {0}) View). IsKept s.words s.views)
        seat.old.id seat.old.me.0 other.id other.me.0 (T.both seat.old.me.0 other.me.0) T.spent }
    ensures seat { (seat.new.table_id ≡ seat.old.table_id) × (seat.new.id ≡ seat.old.id)
        × (seat.new.me ≡ (T.both seat.old.me.0 other.me.0, seat.old.me.1)) }
{
    table.shared.join_seat::<Taken<T>>(seat, other)
}

// One load of word 0, which changes no view, and reports what the rule says of it.
pub fn tell_as<T: Telling>(table: &Words, seat: &mut Seat<(), View>)
    requires region { (seat.old.table_id ≡ table.now.shared.table_id) × (0 < table.now.shared.table_id.words) }
    requires allowed { Allows (λ (s : TableState (Unit {0}) View). IsKept s.words s.views)
        table.now.shared.table_id.slots seat.old.id seat.old.me 0 (λ n. n) (T.then seat.old.me) }
    ensures seat { (seat.new.table_id ≡ seat.old.table_id) × (seat.new.id ≡ seat.old.id) }
    ensures told { (word : ℕ) × T.then seat.old.me word seat.new.me }
    ensures aware { IsAware seat.new.me.0 }
{
    table.shared.load::<Told<T>>(seat, 0);
}
