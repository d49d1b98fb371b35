ghost use Rattle.std.specs.Prelude.{◌≡◌, ◌<◌, length};

use pa_machine::{Core, Event, Item, StepFault, core_run};
use pa_slot::{OutOfMemory, POISON, Step, Title};
use std::alloc::Global;
use std::test::Fail;

const TITLE: Title = Title {
    start: 0,
    len: 24,
    born: 0,
};

const NEXT: Title = Title {
    start: 24,
    len: 16,
    born: 0,
};

fn count(actor: u32, step: Step) -> Event {
    Event::Count {
        actor,
        title: TITLE,
        step,
    }
}

fn seal(actor: u32) -> Event {
    Event::Sealed {
        actor,
        title: TITLE,
    }
}

fn cut(actor: u32, title: Title) -> Event {
    Event::Cut { actor, title }
}

fn store(actor: u32, at: u32, value: u64) -> Event {
    Event::Store { actor, at, value }
}

fn poison(actor: u32) -> Event {
    Event::Poison {
        actor,
        title: TITLE,
    }
}

fn load(actor: u32, at: u32) -> Event {
    Event::Load { actor, at }
}

fn hand(from: u32, to: u32, item: Item) -> Event {
    Event::Hand { from, to, item }
}

fn uncut(actor: u32) -> Event {
    Event::Uncut {
        actor,
        title: TITLE,
    }
}

// What a core of 64 bytes shows: what some events returned and the words after them,
// and what one event more returned and the words after it.
#[derive(Clone, Copy, PartialEq, Eq)]
struct Shown {
    first: Result<(), (u32, StepFault)>,
    between: [u64; 8],
    second: Result<(), (u32, StepFault)>,
    last: [u64; 8],
}

// The eight words of a core of 64 bytes.
fn words(core: &Core) -> [u64; 8]
    requires { length core.now.words ≡ 8 }
{
    let w = |at: u32| core.word(at);
    [w(0), w(8), w(16), w(24), w(32), w(40), w(48), w(56)]
}

// Three actors play these events, and then this one.
fn played(alloc: Global, events: &[Event], next: Event) -> Result<Shown, OutOfMemory>
    requires { length events.now < 1000 }
{
    let mut core = Core::new(alloc, 64, 3)?;
    let first = core_run(&mut core, events);
    let between = words(&core);
    let second = core_run(&mut core, &[next]);
    let last = words(&core);
    Ok(Shown {
        first,
        between,
        second,
        last,
    })
}

// Whether the events of `lead` happen, `refused` doesn't, and the core is as after `lead`: its words are, and it plays on alike.
fn is_refused(
    alloc: Global,
    lead: &[Event],
    refused: Event,
    next: Event,
) -> Result<bool, OutOfMemory> {
    if lead.len() > 100 {
        return Ok(false);
    }
    let mut events = Vec::with_capacity(alloc, lead.len() + 1)?;
    events.extend_from_slice(lead)?;
    events.push(refused)?;
    let due = played(alloc, lead, next)?;
    let found = played(alloc, &events, next)?;
    let as_due = Shown {
        first: Err((lead.len() as u32, StepFault::NotEnabled)),
        ..due
    };
    Ok(due.first == Ok(()) && due.second == Ok(()) && found == as_due)
}

#[test]
fn refuses_counted_steps(rt: HostRuntime) -> Result<(), Fail> {
    let issued = [cut(0, TITLE), count(0, Step::Issue)];
    let rows: [(&[Event], Event, Event); 11] = [
        (&[], count(0, Step::Issue), cut(0, TITLE)),
        (
            &[cut(0, TITLE), store(0, 0, 5)],
            count(0, Step::Issue),
            store(0, 0, 0),
        ),
        (
            &[cut(0, TITLE)],
            count(1, Step::Issue),
            count(0, Step::Issue),
        ),
        (&issued, count(0, Step::Issue), count(0, Step::Copy)),
        (&issued, count(1, Step::Copy), count(0, Step::Copy)),
        (
            &[issued[0], issued[1], store(0, 0, 7)],
            count(0, Step::Copy),
            store(0, 8, 7),
        ),
        (&issued, count(0, Step::Reset), count(0, Step::Write)),
        (&issued, count(0, Step::Free), poison(0)),
        (
            &[issued[0], issued[1], poison(0)],
            count(0, Step::Free),
            poison(0),
        ),
        (
            &[issued[0], issued[1], store(0, 0, 7)],
            count(0, Step::Write),
            store(0, 8, 7),
        ),
        (
            &[issued[0], issued[1], count(0, Step::Copy)],
            count(0, Step::Write),
            count(0, Step::Reset),
        ),
    ];
    for (lead, refused, next) in rows {
        assert!(rt;
            is_refused(rt.alloc(), lead, refused, next)?,
            "{refused:?} after {lead:?}"
        );
    }
    Ok(())
}

#[test]
fn refuses_copies_of_sealed_owns(rt: HostRuntime) -> Result<(), Fail> {
    let sealed = [cut(0, TITLE), seal(0)];
    let rows: [(&[Event], Event, Event); 8] = [
        (&sealed, count(0, Step::Copy), count(0, Step::Write)),
        (
            &[cut(0, TITLE), seal(0), hand(0, 1, Item::Own(TITLE))],
            count(1, Step::Copy),
            hand(1, 0, Item::Own(TITLE)),
        ),
        (
            &[cut(0, TITLE), seal(0), count(0, Step::Write)],
            count(0, Step::Copy),
            store(0, 0, 7),
        ),
        (&sealed, seal(0), poison(0)),
        (&sealed, count(0, Step::Issue), poison(0)),
        (&[], seal(0), cut(0, TITLE)),
        (&[cut(0, TITLE), store(0, 0, 5)], seal(0), store(0, 0, 0)),
        (&[cut(0, TITLE)], seal(1), seal(0)),
    ];
    for (lead, refused, next) in rows {
        assert!(rt;
            is_refused(rt.alloc(), lead, refused, next)?,
            "{refused:?} after {lead:?}"
        );
    }
    Ok(())
}

#[test]
fn refuses_stores_loads_and_poison(rt: HostRuntime) -> Result<(), Fail> {
    let issued = [cut(0, TITLE), count(0, Step::Issue)];
    let rows: [(&[Event], Event, Event); 11] = [
        (&[], store(1, 0, 1), store(0, 0, 1)),
        (&[], store(0, 4, 1), store(0, 8, 1)),
        (&[cut(0, TITLE)], store(0, 16, 1), store(0, 8, 1)),
        (
            &[issued[0], issued[1], count(0, Step::Copy)],
            store(0, 0, 1),
            count(0, Step::Reset),
        ),
        (
            &[issued[0], issued[1], poison(0)],
            store(0, 8, 1),
            poison(0),
        ),
        (&issued, poison(1), poison(0)),
        (
            &[issued[0], issued[1], poison(0), poison(0)],
            poison(0),
            count(0, Step::Free),
        ),
        (&[], load(1, 0), load(0, 0)),
        (&[], load(0, 64), load(0, 56)),
        (&issued, load(1, 16), load(0, 16)),
        (&[], load(3, 0), load(0, 0)),
    ];
    for (lead, refused, next) in rows {
        assert!(rt;
            is_refused(rt.alloc(), lead, refused, next)?,
            "{refused:?} after {lead:?}"
        );
    }
    Ok(())
}

#[test]
fn refuses_hands_cuts_and_uncuts(rt: HostRuntime) -> Result<(), Fail> {
    let issued = [cut(0, TITLE), count(0, Step::Issue)];
    let raw = |start: u32, len: u32| Item::Raw { start, len };
    let rows: [(&[Event], Event, Event); 13] = [
        (
            &[cut(0, TITLE)],
            hand(0, 1, raw(16, 16)),
            hand(0, 1, raw(24, 16)),
        ),
        (&[], hand(0, 3, raw(0, 8)), hand(0, 2, raw(3, 2))),
        (
            &[cut(0, TITLE)],
            hand(0, 1, Item::Own(TITLE)),
            hand(0, 1, Item::Free(TITLE)),
        ),
        (
            &issued,
            hand(0, 1, Item::Free(TITLE)),
            hand(0, 1, Item::Own(TITLE)),
        ),
        (&issued, hand(0, 1, Item::Ref(TITLE)), count(0, Step::Copy)),
        (
            &[issued[0], issued[1], store(0, 0, 7)],
            hand(0, 1, Item::Own(TITLE)),
            store(0, 8, 7),
        ),
        (&[store(0, 16, 1)], cut(0, TITLE), store(0, 16, 0)),
        (
            &[cut(0, TITLE)],
            cut(0, Title { born: 1, ..TITLE }),
            cut(0, NEXT),
        ),
        (&[], cut(0, Title { len: 8, ..TITLE }), cut(0, TITLE)),
        (&[], cut(0, Title { start: 4, ..TITLE }), cut(0, TITLE)),
        (
            &[hand(0, 1, raw(3, 1))],
            cut(0, TITLE),
            hand(1, 0, raw(3, 1)),
        ),
        (&issued, uncut(0), count(0, Step::Write)),
        (&[cut(0, TITLE)], uncut(1), uncut(0)),
    ];
    for (lead, refused, next) in rows {
        assert!(rt;
            is_refused(rt.alloc(), lead, refused, next)?,
            "{refused:?} after {lead:?}"
        );
    }
    Ok(())
}

#[test]
fn last_reset_returns(rt: HostRuntime) -> Result<(), Fail> {
    let mut core = Core::new(rt.alloc(), 64, 3)?;
    let freed = [
        cut(0, TITLE),
        hand(0, 1, Item::Free(TITLE)),
        count(1, Step::Issue),
        store(1, 0, 7),
        store(1, 8, 7),
        count(1, Step::Write),
        count(1, Step::Copy),
        hand(1, 2, Item::Ref(TITLE)),
        poison(1),
        poison(1),
        count(1, Step::Free),
    ];
    assert!(rt; core_run(&mut core, &freed) == Ok(()));
    assert!(rt; words(&core) == [POISON, POISON, 0x0400_0002, 0, 0, 0, 0, 0]);
    assert!(rt; core.step(&load(2, 8)) == Ok(()));
    assert!(rt; core.step(&count(2, Step::Reset)) == Ok(()));
    assert!(rt; core.word(16) == 0x0500_0000);
    assert!(rt; core.step(&uncut(1)) == Err(StepFault::NotEnabled));
    assert!(rt; core.step(&uncut(2)) == Ok(()));
    Ok(())
}

#[test]
fn sealed_free_returns(rt: HostRuntime) -> Result<(), Fail> {
    let mut core = Core::new(rt.alloc(), 64, 1)?;
    let freed = [
        cut(0, TITLE),
        seal(0),
        store(0, 0, 7),
        store(0, 8, 7),
        count(0, Step::Write),
        poison(0),
        poison(0),
        count(0, Step::Free),
    ];
    assert!(rt; core_run(&mut core, &freed) == Ok(()));
    assert!(rt; words(&core) == [POISON, POISON, 0x0300_0000, 0, 0, 0, 0, 0]);
    // The next Own of the title isn't sealed.
    let copied = [
        store(0, 0, 0),
        store(0, 8, 0),
        count(0, Step::Issue),
        count(0, Step::Copy),
    ];
    assert!(rt; core_run(&mut core, &copied) == Ok(()));
    assert!(rt; core.word(16) == 0x0500_0003);
    Ok(())
}
