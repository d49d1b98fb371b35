ghost use Rattle.std.specs.Prelude.{◌≡◌, ◌≢◌, ℕ, ◌+◌, ◌*◌, ◌<◌, ◌≤◌, [], ◌∷◌, ◌++◌, length, Some, IfOk, IfErr, OnOk, OnErr, All, AllPairs, Contains, map};
ghost use Rattle.pa_record.specs.declared.root.RootAct.TheVariants.{Give, Purge};
ghost use Rattle.pa_record.specs.Numbers.{root_numbers};
ghost use Rattle.pa_record.specs.Census.{census};
ghost use Rattle.pa_region.specs.Views.{least_stake, seen_of};
ghost use Rattle.pa_region.specs.Lending.{CanLend, Lends};
ghost use Rattle.pa_region.specs.Lists.{list_of, IsBeginning};
ghost use Rattle.pa_records.specs.Records.{HasSpans};
ghost use Rattle.pa_root.specs.Keeping.{IsRootSound};
ghost use Rattle.pa_root.specs.Laws.{IsFirstView, first_state};
ghost use Rattle.pa_root.specs.Handing.{HasOnly, HasSeenFill, numbered_by, root_entry, PurgeEnters, GiveTakes};

use crate::append::{append, make_room};
use crate::lends::show_seen;
use crate::numbers::numbers_seen;
use arrayvec::ArrayVec;
use pa_record::{Census, RootAct, RootEntry};
use pa_region::{Name, Note, Region, Seat};
use pa_shelf::Shelf;
use pa_slot::{OutOfMemory, Title};
use std::alloc::Global;
use std::marker::{Model, PhantomData};

/// The root of partition `P`, 0 to 3, of the region that the name says. It is kept behind a lock. Contracts see it as the view of
/// its seat, its journal, and what the journal replays to. Its spans are records in the metadata pages, and their free slots are in chains.
#[derive(Drop)]
pub struct Root<N: Name, const P: u32> {
    pub(crate) ledger: Ledger<P>,
    pub(crate) shelf: Shelf,
    of: PhantomData<N>,
}

// The journal of the root of partition `P`, and the root's seat, which keeps its list.
#[derive(Drop)]
pub(crate) struct Ledger<const P: u32> {
    pub(crate) seat: Seat,
    pub(crate) journal: Vec<RootEntry>,
}

impl<N: Name, const P: u32> Model for Root<N, P> {
    ghost use Rattle.std.specs.Prelude.{◌≡◌, ◌≤◌, length};
    ghost use Rattle.pa_root.specs.Keeping.{RootState};
    ghost use Rattle.pa_root.specs.Kept.{IsKept, state_of};

    ghost Value = { RootState };

    ghost view = { λ r. state_of r.ledger.seat.view r.ledger.journal.items };

    ghost invariant = { λ r. (r.ledger.seat.region ≡ N.region) × (length r.ledger.journal.items ≤ 2147483647)
        × IsKept P r.ledger.seat.view r.ledger.journal.items r.shelf };
}

impl<N: Name, const P: u32> Root<N, P> {
    /// A root without super pages, with memory for as many as a region has. The note has keeper `P` with an empty list, and nothing else.
    pub fn open(alloc: Global, note: Note) -> Result<Root<N, P>, OutOfMemory>
        requires region { note.region ≡ N.region }
        requires first { IsFirstView P note.view }
        ensures first { IfOk result (λ r. r ≡ first_state note.view) }
    {
        let shelf = Shelf::new(alloc)?;
        Ok(Root {
            ledger: Ledger {
                seat: note.seat(),
                journal: Vec::new(alloc),
            },
            shelf,
            of: PhantomData,
        })
    }

    /// What the type keeps of the root. It costs nothing.
    pub fn kept(&self)
        ensures sound { IsRootSound P self.now }
        ensures spans { HasSpans self.now.view.words self.now.root }
    {
        let _ = &self.ledger.seat;
    }

    /// Returns slots to their spans, in the titles' order, as an op of the line lets them go. The note holds these titles
    /// free, 1 to 16, each once, and nothing else, and has seen a fill of this root that names each. The note and the titles
    /// come back only if this runs out of memory, and nothing changed then.
    pub fn give_back(
        &mut self,
        region: &Region,
        seat: &mut Seat,
        line: u32,
        note: Note,
        titles: ArrayVec<Title, 16>,
    ) -> Result<(), (Note, ArrayVec<Title, 16>)>
        requires regions { (region.now ≡ N.region) × (seat.old.region ≡ N.region) × (note.region ≡ N.region) }
        requires lender { CanLend seat.old.view }
        requires some { 1 ≤ length titles.items }
        requires has { HasOnly titles.items note.view }
        requires once { AllPairs ◌≢◌ titles.items }
        requires named { (t : Title) → Contains titles.items t → HasSeenFill P note.view t }
        ensures region { seat.new.region ≡ N.region }
        ensures again { CanLend seat.new.view }
        ensures took { OnOk result
            (GiveTakes (least_stake seat.old.view.stakes) P line seat.old.view seat.new.view note.view titles.items) }
        ensures journal { OnOk result
            (self.new.journal ≡ self.old.journal ++ root_entry line (Give (numbered_by note.view titles.items)) ∷ []) }
        ensures handed { IfErr result (λ r. (r.0 ≡ note) × (r.1.items ≡ titles.items)) }
        ensures err { OnErr result ((self.new ≡ self.old) × (seat.new ≡ seat.old)) }
    {
        let Ok(()) = make_room(&mut self.ledger.journal) else {
            return Err((note, titles));
        };
        self.ledger.seat.aware();
        note.aware();
        region.take(&mut self.ledger.seat, note);
        self.ledger.seat.aware();
        let slots = numbers_seen(region, &mut self.ledger.seat, titles.as_slice());
        self.shelf
            .give_all(region, &mut self.ledger.seat, titles.as_slice());
        let entry = RootEntry {
            line,
            act: RootAct::Give { slots },
        };
        append(
            region,
            seat,
            &mut self.ledger.seat,
            P,
            &mut self.ledger.journal,
            entry,
        );
        Ok(())
    }

    /// Decommits every empty span, as an op of the line asks. If it runs out of memory, nothing changed.
    pub fn purge(&mut self, region: &Region, seat: &mut Seat, line: u32) -> Result<(), OutOfMemory>
        requires regions { (region.now ≡ N.region) × (seat.old.region ≡ N.region) }
        requires lender { CanLend seat.old.view }
        ensures region { seat.new.region ≡ N.region }
        ensures again { CanLend seat.new.view }
        ensures entered { OnOk result (PurgeEnters (least_stake seat.old.view.stakes) P line seat.old.view seat.new.view) }
        ensures journal { OnOk result (self.new.journal ≡ self.old.journal ++ root_entry line Purge ∷ []) }
        ensures err { OnErr result ((self.new ≡ self.old) × (seat.new ≡ seat.old)) }
    {
        make_room(&mut self.ledger.journal)?;
        self.shelf.purge(region, &mut self.ledger.seat);
        let entry = RootEntry {
            line,
            act: RootAct::Purge,
        };
        append(
            region,
            seat,
            &mut self.ledger.seat,
            P,
            &mut self.ledger.journal,
            entry,
        );
        Ok(())
    }

    /// What the root has, by its journal so far: its free slots, its bytes, and its spans by their states. The caller's seat
    /// has seen then what the root's has: the whole journal, and the entries of the pool that it names. It makes no entry.
    pub fn census(&mut self, region: &Region, seat: &mut Seat) -> Census
        requires regions { (region.now ≡ N.region) × (seat.old.region ≡ N.region) }
        ensures region { seat.new.region ≡ N.region }
        ensures census { result ≡ census self.old.root }
        ensures journal { self.new.journal ≡ self.old.journal }
        ensures root { self.new.root ≡ self.old.root }
        ensures keeps { Lends (least_stake seat.old.view.stakes) [] seat.old.view seat.new.view }
        ensures kept { Lends 0 [] self.old.view self.new.view }
        ensures seen { (t : Title) → seen_of self.old.view t ≤ seen_of seat.new.view t }
        ensures listed { map (λ m. m.numbers) (list_of P seat.new.view) ≡ map root_numbers self.old.journal }
        ensures pools { IsBeginning (list_of 4 self.old.view) (list_of 4 seat.new.view) }
    {
        self.ledger.seat.aware();
        show_seen(region, seat, &mut self.ledger.seat);
        self.ledger.seat.aware();
        show_seen(region, &mut self.ledger.seat, seat);
        self.ledger.seat.aware();
        seat.aware();
        self.shelf.census(region, &mut self.ledger.seat)
    }

    /// The journal, in order.
    pub fn journal(&self) -> &[RootEntry]
        ensures { result.now ≡ self.now.journal }
    {
        &self.ledger.journal
    }

    /// The journal, and the root's whole seat.
    pub fn close(self) -> (Vec<RootEntry>, Note)
        ensures kept { IsRootSound P self }
        ensures spans { HasSpans self.view.words self.root }
        ensures journal { result.0.items ≡ self.journal }
        ensures note { (result.1.region ≡ N.region) × (result.1.view ≡ self.view) }
    {
        let Root {
            ledger,
            shelf: _,
            of: _,
        } = self;
        let Ledger { seat, journal } = ledger;
        (journal, seat.note())
    }
}
