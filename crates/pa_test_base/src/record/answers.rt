use pa_record::{Answer, Entry, Seen, push_entry};
use pa_slot::{SlotName, Word};
use pa_text::Text;
use std::test::Fail;

// The slot at the start of the first payload page, with this word.
fn seen(found: u64) -> Seen {
    Seen {
        slot: SlotName {
            start: 0x4000,
            born: 0,
        },
        found: Word(found),
    }
}

// Appends the line of thread 0 with this answer.
fn push(out: &mut Text, line: u32, answer: Answer) -> Result<(), Fail> {
    Ok(push_entry(
        out,
        &Entry {
            line,
            thread: 0,
            answer,
        },
    )?)
}

#[test]
fn each_answer_with_a_word_is_printed(rt: HostRuntime) -> Result<(), Fail> {
    let mut out = Text::new(rt.alloc());
    push(
        &mut out,
        2,
        Answer::Made {
            seen: seen(0),
            usable: 8,
        },
    )?;
    push(
        &mut out,
        3,
        Answer::Done {
            seen: seen(0x01000001),
        },
    )?;
    push(
        &mut out,
        4,
        Answer::Value {
            seen: seen(0x03000003),
            value: 5,
        },
    )?;
    push(
        &mut out,
        5,
        Answer::Dangling {
            seen: seen(0x03000002),
            value: 0xefef_efef_efef_efef,
        },
    )?;
    push(&mut out, 6, Answer::SecondFree { seen: None })?;
    push(
        &mut out,
        7,
        Answer::SecondFree {
            seen: Some(seen(0x03000002)),
        },
    )?;
    push(
        &mut out,
        8,
        Answer::NotOwner {
            seen: seen(0x02000003),
        },
    )?;
    push(&mut out, 9, Answer::StaleUse { seen: None })?;
    push(
        &mut out,
        10,
        Answer::StaleUse {
            seen: Some(seen(0x03000002)),
        },
    )?;
    push(
        &mut out,
        11,
        Answer::Shared {
            seen: seen(0x03000003),
        },
    )?;
    let text = b"e 2 0 made 00004000.0 8 0000000000000000
e 3 0 done 00004000.0 0000000001000001
e 4 0 word 00004000.0 0000000003000003 0000000000000005
e 5 0 dangling 00004000.0 0000000003000002 efefefefefefefef
e 6 0 second-free
e 7 0 second-free 00004000.0 0000000003000002
e 8 0 not-owner 00004000.0 0000000002000003
e 9 0 stale-use
e 10 0 stale-use 00004000.0 0000000003000002
e 11 0 shared 00004000.0 0000000003000003
";
    assert!(rt; out.as_slice() == text.as_slice());
    Ok(())
}

#[test]
fn each_answer_without_a_word_is_printed(rt: HostRuntime) -> Result<(), Fail> {
    let mut out = Text::new(rt.alloc());
    push(&mut out, 2, Answer::StaleReset)?;
    push(&mut out, 3, Answer::Nothing)?;
    push(&mut out, 4, Answer::Filled)?;
    push(&mut out, 5, Answer::NotRef)?;
    push(&mut out, 6, Answer::OutOfRange)?;
    push(&mut out, 7, Answer::TooLarge)?;
    push(&mut out, 8, Answer::Full { entry: 63 })?;
    push(&mut out, 9, Answer::Swapped { entry: 1 })?;
    push_entry(
        &mut out,
        &Entry {
            line: 65536,
            thread: 15,
            answer: Answer::Purged { slots: 7 },
        },
    )?;
    let text = b"e 2 0 stale-reset
e 3 0 nothing
e 4 0 filled
e 5 0 not-ref
e 6 0 out-of-range
e 7 0 too-large
e 8 0 full 63
e 9 0 swapped 1
e 65536 15 purged 7
";
    assert!(rt; out.as_slice() == text.as_slice());
    Ok(())
}
