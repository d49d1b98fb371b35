//! Scripts of calls, played on a root over a region.
ghost use Rattle.std.specs.Prelude.{◌≡◌, ◌*◌, ◌<◌, ◌≤◌, length};
ghost use Rattle.pa_layout.specs.Limits.{most_supers};
ghost use Rattle.pa_region.specs.Lending.{CanLend};
ghost use Rattle.pa_region.specs.Shares.{byte_word_count};
ghost use Rattle.pa_direct.specs.Shapes.{IsDirectSize};
ghost use Rattle.pa_pool.specs.Pools.{CanOpen};
ghost use Rattle.pa_root.specs.Laws.{IsFirstView};

use arrayvec::ArrayVec;
use pa_buckets::Class;
use pa_direct::{GREATEST_SIZE, shape};
use pa_pool::Pool;
use pa_record::{Census, RootEntry};
use pa_region::{Mark, Name, Note, Region, Seat};
use pa_root::{Root, show_seen};
use pa_slot::{OutOfMemory, Title};
use std::alloc::Global;
use std::marker::{Brand, Model, PhantomData};
use std::sync::{Mutex, Wait};

// One call of a script.
#[derive(Clone, Copy)]
pub(crate) enum Call {
    // A fill of the class with this number.
    Fill(u32),
    // The slots of a fill go back that are at this place among those that are held.
    Give(usize),
    Purge,
    // A direct map for a request of this many bytes.
    Map(u32),
    // The direct map at this place goes back.
    Unmap(usize),
}

// A call and the line of its op.
#[derive(Clone, Copy)]
pub(crate) struct Line {
    pub line: u32,
    pub call: Call,
}

// What a script left: the journal and the census of its root.
#[derive(Drop)]
pub(crate) struct Left {
    pub journal: Vec<RootEntry>,
    pub census: Census,
}

// Slots of one fill, and a note that has them and has seen the fill.
#[derive(Drop)]
struct Held<N: Name> {
    note: Note,
    titles: ArrayVec<Title, 16>,
    of: PhantomData<N>,
}

impl<N: Name> Model for Held<N> {
    ghost use Rattle.std.specs.Prelude.{◌≡◌, List};
    ghost use Rattle.pa_slot.specs.declared.title.Title.{Title};
    ghost use Rattle.pa_test_root.specs.RootScripts.{CanGoBack};

    ghost Value = { List Title };

    ghost view = { λ h. h.titles.items };

    ghost invariant = { λ h. (h.note.region ≡ N.region) × CanGoBack 0 h.note.view h.titles.items };
}

// A direct map, and a note that has its title and has seen the entry that made it.
#[derive(Drop)]
struct Mapped<N: Name> {
    note: Note,
    title: Title,
    of: PhantomData<N>,
}

impl<N: Name> Model for Mapped<N> {
    ghost use Rattle.std.specs.Prelude.{◌≡◌};
    ghost use Rattle.pa_slot.specs.declared.title.Title.{Title};
    ghost use Rattle.pa_test_root.specs.RootScripts.{CanMapGoBack};

    ghost Value = { Title };

    ghost view = { λ m. m.title };

    ghost invariant = { λ m. (m.note.region ≡ N.region) × CanMapGoBack 0 m.note.view m.title };
}

// What is played on: a root and its pool, and what is held.
#[derive(Drop)]
struct Stage<N: Name> {
    root: Root<N, 0>,
    pool: Mutex<Pool<N>>,
    held: Vec<Held<N>>,
    maps: Vec<Mapped<N>>,
}

// A fill, and its slots.
fn fill<N: Name, R: Wait>(
    rt: &R,
    region: &Region,
    seat: &mut Seat,
    root: &mut Root<N, 0>,
    pool: &Mutex<Pool<N>>,
    line: u32,
    class: Class,
) -> Option<Held<N>>
    requires regions { (region.now ≡ N.region) × (seat.old.region ≡ N.region) }
    requires lender { CanLend seat.old.view }
    ensures region { seat.new.region ≡ N.region }
    ensures again { CanLend seat.new.view }
{
    match root.fill(rt, region, seat, pool, line, class) {
        Ok((note, titles)) => {
            let mut own = note.seat();
            show_seen(region, seat, &mut own);
            Some(Held {
                note: own.note(),
                titles,
                of: PhantomData,
            })
        }
        Err(_) => None,
    }
}

// A direct map for a request of this many bytes.
fn map<N: Name, R: Wait>(
    rt: &R,
    region: &Region,
    seat: &mut Seat,
    root: &mut Root<N, 0>,
    pool: &Mutex<Pool<N>>,
    line: u32,
    size: u32,
) -> Option<Mapped<N>>
    requires regions { (region.now ≡ N.region) × (seat.old.region ≡ N.region) }
    requires lender { CanLend seat.old.view }
    requires size { IsDirectSize size }
    ensures region { seat.new.region ≡ N.region }
    ensures again { CanLend seat.new.view }
{
    let shape = shape(size)?;
    match root.map(rt, region, seat, pool, line, shape) {
        Ok((note, title)) => {
            let mut own = note.seat();
            show_seen(region, seat, &mut own);
            Some(Mapped {
                note: own.note(),
                title,
                of: PhantomData,
            })
        }
        Err(_) => None,
    }
}

// One call of a script. What isn't held isn't given back.
fn play_line<N: Name, R: Wait>(
    rt: &R,
    region: &Region,
    seat: &mut Seat,
    stage: &mut Stage<N>,
    at: Line,
) -> Result<(), OutOfMemory>
    requires regions { (region.now ≡ N.region) × (seat.old.region ≡ N.region) }
    requires lender { CanLend seat.old.view }
    ensures region { seat.new.region ≡ N.region }
    ensures again { CanLend seat.new.view }
{
    let line = at.line;
    let root = &mut stage.root;
    match at.call {
        Call::Fill(number) => {
            let class = Class::of(number).ok_or(OutOfMemory)?;
            if let Some(held) = fill(rt, region, seat, root, &stage.pool, line, class) {
                stage.held.push(held)?;
            }
        }
        Call::Give(place) => {
            if place < stage.held.len() {
                let Held { note, titles, .. } = stage.held.remove(place);
                root.give_back(region, seat, line, note, titles)
                    .map_err(|_back| OutOfMemory)?;
            }
        }
        Call::Purge => root.purge(region, seat, line)?,
        Call::Map(size) => {
            if size > 917_496 && size <= GREATEST_SIZE {
                if let Some(mapped) = map(rt, region, seat, root, &stage.pool, line, size) {
                    stage.maps.push(mapped)?;
                }
            }
        }
        Call::Unmap(place) => {
            if place < stage.maps.len() {
                let Mapped { note, title, .. } = stage.maps.remove(place);
                root.unmap(rt, region, seat, &stage.pool, line, note, title)
                    .map_err(|_back| OutOfMemory)?;
            }
        }
    }
    Ok(())
}

// Plays a script on a root of partition 0, over this many super pages. The notes are the root's and the pool's.
fn play_by<N: Name, R: Wait>(
    rt: &R,
    alloc: Global,
    region: &Region,
    seat: &mut Seat,
    notes: (Note, Note),
    supers: u32,
    script: &[Line],
) -> Result<Left, OutOfMemory>
    requires regions { (region.now ≡ N.region) × (seat.old.region ≡ N.region) }
    requires notes { (notes.0.region ≡ N.region) × (notes.1.region ≡ N.region) }
    requires lender { CanLend seat.old.view }
    requires first { IsFirstView 0 notes.0.view }
    requires whole { byte_word_count N.region ≡ 262144 * supers }
    requires able { CanOpen supers notes.1.view }
{
    let mut stage = Stage::<N> {
        root: Root::open(alloc, notes.0)?,
        pool: Mutex::new(Pool::open(alloc, notes.1, supers)?),
        held: Vec::new(alloc),
        maps: Vec::new(alloc),
    };
    for i in 0..script.len() {
        play_line(rt, region, seat, &mut stage, script[i])?;
    }
    let census = stage.root.census(region, seat);
    let (journal, _note) = stage.root.close();
    Ok(Left { journal, census })
}

// All that neither the root's seat nor the pool's has.
const OTHERS: [Mark; 20] = [
    Mark::Stake(0),
    Mark::Stake(1),
    Mark::Stake(2),
    Mark::Stake(3),
    Mark::Stake(4),
    Mark::Stake(5),
    Mark::Stake(6),
    Mark::Stake(7),
    Mark::Stake(8),
    Mark::Stake(9),
    Mark::Stake(10),
    Mark::Stake(11),
    Mark::Stake(12),
    Mark::Stake(13),
    Mark::Stake(14),
    Mark::Stake(15),
    Mark::Keeper(1),
    Mark::Keeper(2),
    Mark::Keeper(3),
    Mark::Keeper(5),
];

// Plays a script over a new region of this many super pages.
pub(crate) fn play<R: Wait>(
    rt: &R,
    alloc: Global,
    supers: u32,
    script: &[Line],
) -> Result<Left, OutOfMemory>
    requires supers { (1 ≤ supers) × (supers ≤ most_supers) }
{
    let (region, mut first) = Region::new(alloc, supers, 0)?;
    let mut seat = region.hand(&mut first, &[], 0, &OTHERS).seat();
    let root = region.hand(&mut first, &[], 0, &[Mark::Keeper(0)]);
    let notes = (root, first.note());
    play_by::<Brand, R>(rt, alloc, &region, &mut seat, notes, supers, script)
}
