ghost use Rattle.std.specs.Prelude.{◌≡◌, ◌+◌, ◌*◌, ◌≤◌, ◌++◌, length};
ghost use Rattle.arrayvec.specs.ArrayVec.{array_vec_len};
ghost use Rattle.pa_record.specs.declared.root.RootEntry.{RootEntry};
ghost use Rattle.pa_record.specs.declared.pool.PoolEntry.{PoolEntry};
ghost use Rattle.pa_record.specs.declared.history.CellEntry.{CellEntry};
ghost use Rattle.pa_record.specs.Numbers.{option_numbers, slot_numbers, numbered_numbers, batch_numbers, root_act_numbers, root_numbers, pool_act_numbers, pool_numbers, held_numbers, cell_numbers};

use crate::{CellEntry, Held, Numbered, PoolAct, PoolEntry, RootAct, RootEntry};
use arrayvec::ArrayVec;
use pa_slot::SlotName;

/// The numbers of a journal's entry, in the order of its fields: a variant is its index in its enum, counted from 0,
/// before its fields; a list is its length before its members; an `Option` is 0, or 1 before its value.
pub fn root_numbers(entry: &RootEntry) -> ArrayVec<u64, 64>
    ensures numbers { result.items ≡ root_numbers entry.now }
{
    let mut numbers = ArrayVec::new();
    numbers.push(u64::from(entry.line));
    push_root_act(&mut numbers, &entry.act);
    numbers
}

/// The numbers of an entry of the pool, as `root_numbers` has them.
pub fn pool_numbers(entry: &PoolEntry) -> ArrayVec<u64, 64>
    ensures numbers { result.items ≡ pool_numbers entry.now }
{
    let mut numbers = ArrayVec::new();
    numbers.push(u64::from(entry.line));
    numbers.push(u64::from(entry.partition));
    push_pool_act(&mut numbers, entry.act);
    numbers
}

/// The numbers of an exchange, as `root_numbers` has them.
pub fn cell_numbers(entry: &CellEntry) -> ArrayVec<u64, 64>
    ensures numbers { result.items ≡ cell_numbers entry.now }
{
    let mut numbers = ArrayVec::new();
    numbers.push(u64::from(entry.line));
    push_held(&mut numbers, entry.gave);
    push_held(&mut numbers, entry.found);
    numbers
}

/// Two entries of one type that have the same numbers are equal.
pub fn one_entry_for_its_numbers()
    ensures root { (a b : RootEntry) → root_numbers a ≡ root_numbers b → a ≡ b }
    ensures pool { (a b : PoolEntry) → pool_numbers a ≡ pool_numbers b → a ≡ b }
    ensures cell { (a b : CellEntry) → cell_numbers a ≡ cell_numbers b → a ≡ b }
{}

// Appends the numbers of what a root did.
fn push_root_act(numbers: &mut ArrayVec<u64, 64>, act: &RootAct)
    requires room { array_vec_len numbers.old ≤ 1 }
    ensures pushed { numbers.new.items ≡ numbers.old.items ++ root_act_numbers act.now }
{
    match act {
        RootAct::Fill { class, pool, slots } => {
            numbers.push(0);
            numbers.push(u64::from(class.number()));
            push_option(numbers, *pool);
            push_batch(numbers, slots.items());
        }
        RootAct::Map { pool, slot, len } => {
            numbers.push(1);
            numbers.push(u64::from(*pool));
            push_slot(numbers, *slot);
            numbers.push(u64::from(*len));
        }
        RootAct::Full { class, pool } => {
            numbers.push(2);
            push_option(numbers, class.map(|class| class.number()));
            numbers.push(u64::from(*pool));
        }
        RootAct::Give { slots } => {
            numbers.push(3);
            push_batch(numbers, slots.items());
        }
        RootAct::Unmap { pool, slot } => {
            numbers.push(4);
            numbers.push(u64::from(*pool));
            push_numbered(numbers, *slot);
        }
        RootAct::Purge => numbers.push(5),
    }
}

// Appends the numbers of what the pool did.
fn push_pool_act(numbers: &mut ArrayVec<u64, 64>, act: PoolAct)
    requires room { array_vec_len numbers.old ≤ 2 }
    ensures pushed { numbers.new.items ≡ numbers.old.items ++ pool_act_numbers act }
{
    match act {
        PoolAct::Take { count, first } => {
            numbers.push(0);
            numbers.push(u64::from(count));
            push_option(numbers, first);
        }
        PoolAct::Give { count, first } => {
            numbers.push(1);
            numbers.push(u64::from(count));
            numbers.push(u64::from(first));
        }
    }
}

// Appends the numbers of a handle.
fn push_held(numbers: &mut ArrayVec<u64, 64>, held: Held)
    requires room { array_vec_len numbers.old ≤ 4 }
    ensures pushed { numbers.new.items ≡ numbers.old.items ++ held_numbers held }
    ensures grown { array_vec_len numbers.new ≤ array_vec_len numbers.old + 3 }
{
    match held {
        Held::Nothing => numbers.push(0),
        Held::Own(slot) => {
            numbers.push(1);
            push_slot(numbers, slot);
        }
        Held::Ref(slot) => {
            numbers.push(2);
            push_slot(numbers, slot);
        }
    }
}

// Appends the length of the batch, and the numbers of its slots.
fn push_batch(numbers: &mut ArrayVec<u64, 64>, slots: &[Numbered])
    requires few { length slots.now ≤ 16 }
    requires room { array_vec_len numbers.old ≤ 5 }
    ensures pushed { numbers.new.items ≡ numbers.old.items ++ batch_numbers slots.now }
{
    numbers.push(slots.len() as u64);
    for slot in slots {
        push_numbered(numbers, *slot);
    }
}

// Appends the numbers of a slot with its number.
fn push_numbered(numbers: &mut ArrayVec<u64, 64>, slot: Numbered)
    requires room { array_vec_len numbers.old + 3 ≤ 64 }
    ensures pushed { numbers.new.items ≡ numbers.old.items ++ numbered_numbers slot }
    ensures grown { array_vec_len numbers.new ≡ array_vec_len numbers.old + 3 }
{
    push_slot(numbers, slot.slot);
    numbers.push(slot.number);
}

// Appends the numbers of a slot's name.
fn push_slot(numbers: &mut ArrayVec<u64, 64>, slot: SlotName)
    requires room { array_vec_len numbers.old + 2 ≤ 64 }
    ensures pushed { numbers.new.items ≡ numbers.old.items ++ slot_numbers slot }
    ensures grown { array_vec_len numbers.new ≡ array_vec_len numbers.old + 2 }
{
    numbers.push(u64::from(slot.start));
    numbers.push(u64::from(slot.born));
}

// Appends 0, or 1 and the number.
fn push_option(numbers: &mut ArrayVec<u64, 64>, n: Option<u32>)
    requires room { array_vec_len numbers.old + 2 ≤ 64 }
    ensures pushed { numbers.new.items ≡ numbers.old.items ++ option_numbers n }
    ensures grown { array_vec_len numbers.new ≤ array_vec_len numbers.old + 2 }
{
    match n {
        None => numbers.push(0),
        Some(n) => {
            numbers.push(1);
            numbers.push(u64::from(n));
        }
    }
}
