ghost use Rattle.std.specs.Prelude.{◌≡◌, ℕ, ◌-◌, ◌*◌, ◌<◌, ◌≤◌, [], length, IfOk};
ghost use Rattle.atomic_table.specs.Seated.{TableId};
ghost use Rattle.pa_slot.specs.declared.word.Step.TheVariants.{Issue};
ghost use Rattle.pa_slot.specs.Titles.{IsWellFormed, count_place, content_count, content_place};
ghost use Rattle.pa_layout.specs.Limits.{region_supers, most_words};
ghost use Rattle.pa_slot.specs.Holdings.{RawByte};
ghost use Rattle.pa_region.specs.Views.{held_of_view, logged_of, HasTitle, HasStake, HasEveryStake, least_stake};
ghost use Rattle.pa_region.specs.Moves.{CanCount};
ghost use Rattle.pa_region.specs.Marks.{AreStakes};
ghost use Rattle.pa_region.specs.Aware.{IsAware};
ghost use Rattle.pa_region.specs.Shares.{Share, IsSeatSound, IsStepMade, IsSealedMade, byte_word_count, adds};
ghost use Rattle.pa_region.specs.Loads.{CanLoad, LoadTells};
ghost use Rattle.pa_region.specs.Stores.{CanStore, after_store, StoreTells, CanPoison, after_poison};
ghost use Rattle.pa_region.specs.Start.{first_view};
ghost use Rattle.pa_region.specs.Totals.{added_to, after_add, CanAdd};
ghost use Rattle.pa_region.specs.Ends.{IsEnd};

use crate::closed::Closed;
use crate::marks::{Stakes, least};
use crate::rule::{Opening, Words, add_as, load_as, poison_as, store_as, total_as};
use crate::view::View;
use atomic_table::Table;
use pa_slot::{OutOfMemory, Step, Title, Word};
use std::alloc::Global;
use std::marker::{Brand, Model};

/// The words of one reserved region: its bytes, and after them 16 totals words. Threads share it by `&`, and each changes it by
/// single atomic steps with a seat of its own. Contracts see which region it is.
#[derive(Drop)]
pub struct Region {
    pub(crate) table: Words,
}

impl Model for Region {
    ghost Value = { TableId };

    ghost view = { λ r. r.table.shared.table_id };

    ghost invariant = { λ r. (r.table.shared.table_id.slots ≡ 0) × (16 ≤ r.table.shared.table_id.words) };
}

/// A share of a region: what its holder has of it and knows of it. It has no bytes of the region. Contracts see
/// which region it is of, and its view.
#[derive(Drop)]
pub struct Seat {
    pub(crate) seat: atomic_table::Seat<(), View>,
    // Which of the 16 stakes it has.
    pub(crate) stakes: Stakes,
}

impl Model for Seat {
    ghost Value = { Share };

    ghost view = { λ s. record { region = s.seat.table_id; view = s.seat.me.0 } };

    ghost invariant = { λ s.
        (s.seat.me.1 ≡ []) × IsSeatSound s.seat.table_id s.seat.me.0 × AreStakes s.stakes s.seat.me.0 × IsAware s.seat.me.0 };
}

impl Seat {
    /// The number of the seat's least stake, 0 to 15.
    pub fn stake(&self) -> u32
        requires { HasStake self.now.view }
        ensures { result ≡ least_stake self.now.view.stakes }
    {
        least(&self.stakes)
    }

    /// A title that the seat holds free, or has a handle of, is in the seat's region, which has at most 64 super pages. The
    /// seat's list of words is as long. It costs nothing: it hands on what the seat's type keeps.
    pub fn placed(&self, title: Title)
        requires { HasTitle self.now.view title }
        ensures small { byte_word_count self.now.region ≤ most_words }
        ensures well { IsWellFormed (byte_word_count self.now.region) title }
        ensures long { length self.now.view.words ≡ byte_word_count self.now.region }
    {
        // Naming the seat inside gives its proof what the type keeps.
        // So do the lines like this one below, here and in the other files.
        let _ = &self.seat;
        let _ = title;
    }
}

impl Seat {
    /// What the rule says of the seat's view. Its list of words is as long as the region's, and its raw bytes lie in the
    /// region. It costs nothing: it hands on what the seat's type keeps.
    pub fn aware(&self)
        ensures aware { IsAware self.now.view }
        ensures long { length self.now.view.words ≡ byte_word_count self.now.region }
        ensures raw { (b : ℕ) → 0 < held_of_view self.now.view (RawByte b) → b < 8 * byte_word_count self.now.region }
    {
        let _ = &self.seat;
    }
}

impl Region {
    /// A region of this many super pages of 2,097,152 bytes, with all words 0, and its first seat: it holds all bytes
    /// as raw, and has the right to make `budget` counted steps, every stake,
    /// every keeper with an empty list, and every lease.
    pub fn new(alloc: Global, supers: u32, budget: u32) -> Result<(Region, Seat), OutOfMemory>
        requires supers { (1 ≤ supers) × (supers ≤ region_supers) }
        requires budget { budget ≤ 65536 }
        ensures words { IfOk result (λ r. byte_word_count r.0 ≡ 262144 * supers) }
        ensures region { IfOk result (λ r. r.1.region ≡ r.0) }
        ensures view { IfOk result (λ r. r.1.view ≡ first_view (262144 * supers) budget) }
    {
        let words = supers * 262144;
        let zeros = vec![in alloc; 0u64; words as usize + 16]?;
        let opening = Opening { words, budget };
        let (table, seat) = Table::of_words(alloc, zeros.as_slice(), &opening)?;
        Ok((
            Region { table },
            Seat {
                seat,
                stakes: [true; 16],
            },
        ))
    }

    /// One step on the title's count word, which changes number, count and bit at once.
    /// It returns the word that it found.
    pub fn count_step(&self, seat: &mut Seat, title: Title, step: Step) -> Word
        requires region { seat.old.region ≡ self.now }
        requires able { CanCount step title seat.old.view }
        ensures { IsStepMade step title result.0 seat.old seat.new }
    {
        let _ = &seat.seat;
        let word = count_index(title);
        Word(add_as::<Brand>(&self.table, &mut seat.seat, word, added(step), title, step))
    }

    /// An issue of the title whose Own is sealed: no copy of it can be made. It is one step on the title's count word, and
    /// in logs it is an issue. It returns the word that it found.
    pub fn count_sealed(&self, seat: &mut Seat, title: Title) -> Word
        requires region { seat.old.region ≡ self.now }
        requires able { CanCount Issue title seat.old.view }
        ensures { IsSealedMade title result.0 seat.old seat.new }
    {
        let _ = &seat.seat;
        let place = count_index(title);
        Word(add_as::<Brand>(
            &self.table,
            &mut seat.seat,
            place,
            added(Step::Issue),
            title,
            Step::Issue,
        ))
    }

    /// The word at the offset `at`, in bytes: a raw word, a word of a title that the seat holds free, or with a stake a word
    /// of a title that it has a handle of.
    pub fn load(&self, seat: &mut Seat, at: u32) -> u64
        requires region { seat.old.region ≡ self.now }
        requires able { CanLoad at seat.old.view }
        ensures region { seat.new.region ≡ seat.old.region }
        ensures told { LoadTells at seat.old.view result seat.new.view }
    {
        let _ = &seat.seat;
        load_as::<Brand>(&self.table, &mut seat.seat, (at / 8) as usize, at)
    }

    /// Stores the value in the word at the offset `at`, in bytes: a raw word, a content word of a title that the seat
    /// holds free, or one of its Own if no Ref points to that.
    pub fn store(&self, seat: &mut Seat, at: u32, value: u64)
        requires region { seat.old.region ≡ self.now }
        requires able { CanStore at seat.old.view }
        ensures region { seat.new.region ≡ seat.old.region }
        ensures view { seat.new.view ≡ after_store at value seat.old.view }
        ensures owns { StoreTells at seat.old.view seat.new.view }
    {
        let _ = &seat.seat;
        store_as::<Brand>(&self.table, &mut seat.seat, (at / 8) as usize, value, at)
    }

    /// Poisons the content word with this index, from 0, of the seat's Own: the next one.
    pub fn poison_next(&self, seat: &mut Seat, title: Title, word: u32)
        requires region { seat.old.region ≡ self.now }
        requires able { CanPoison title word seat.old.view }
        ensures region { seat.new.region ≡ seat.old.region }
        ensures view { seat.new.view ≡ after_poison title word seat.old.view }
    {
        let _ = &seat.seat;
        let place = content_index(title, word);
        poison_as::<Brand>(&self.table, &mut seat.seat, place, title, word)
    }

    /// Adds this many bytes to the totals word of this number, from 0. The seat's least stake owes as much to the words of that
    /// kind. The sum fits the word.
    pub fn add_total(&self, seat: &mut Seat, word: u32, bytes: u64)
        requires region { seat.old.region ≡ self.now }
        requires able { CanAdd word bytes seat.old.view }
        ensures region { seat.new.region ≡ seat.old.region }
        ensures view { seat.new.view ≡ after_add word bytes seat.old.view }
    {
        let _ = &seat.seat;
        let place = self.table.word_count() - 16 + word as usize;
        total_as::<Brand>(&self.table, &mut seat.seat, place, word, bytes);
    }

    /// The totals word of this number, from 0, in bytes. A seat that has every stake knows that it is the sum of what was added to it.
    pub fn read_total(&self, seat: &mut Seat, word: u32) -> u64
        requires region { seat.old.region ≡ self.now }
        requires word { word < 16 }
        ensures seat { seat.new ≡ seat.old }
        ensures sum { HasEveryStake seat.old.view → result ≡ logged_of seat.old.view (added_to word) }
    {
        let _ = &seat.seat;
        let place = self.table.word_count() - 16 + word as usize;
        load_as::<Brand>(&self.table, &mut seat.seat, place, word)
    }

    /// The region's words at the end, once all stakes are back in one seat.
    pub fn close(self, seat: Seat) -> Closed
        requires region { seat.region ≡ self }
        requires stakes { HasEveryStake seat.view }
        ensures words { length result ≡ byte_word_count self }
        ensures end { IsEnd result seat.view }
    {
        let Region { table } = self;
        let Seat { seat, stakes: _ } = seat;
        Closed::of(table.close_with(seat))
    }
}

// Which word of the region is the title's count word.
fn count_index(title: Title) -> usize
    requires { (words : ℕ) × IsWellFormed words title }
    ensures { result ≡ count_place title }
{
    (title.start / 8 + (title.len / 8 - 1)) as usize
}

// Which word of the region is the title's content word with this index.
fn content_index(title: Title, word: u32) -> usize
    requires { word < content_count title }
    ensures { result ≡ content_place title word }
{
    title.start as usize / 8 + word as usize
}

// What a step adds to the count word.
fn added(step: Step) -> u64
    ensures { result ≡ adds step }
{
    match step {
        Step::Issue => (1 << 24) + 1,
        Step::Copy => (1 << 24) + 2,
        Step::Reset => (1 << 24) - 2,
        Step::Free => (1 << 24) - 1,
        Step::Write => 1 << 24,
    }
}
