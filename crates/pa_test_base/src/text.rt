use pa_slot::SlotName;
use pa_text::{Text, push_byte, push_number, push_slot, push_word, word_at};
use std::test::Fail;

// The text grows past its spare bytes, is cut, and grows again over what was cut off.
#[test]
fn a_text_grows_and_is_cut(rt: HostRuntime) -> Result<(), Fail> {
    let mut text = Text::with_capacity(rt.alloc(), 3)?;
    for _ in 0..3000u32 {
        text.push(b"abc")?;
    }
    assert!(rt; text.len() == 9000);
    text.truncate(9001);
    text.truncate(4);
    text.push(b"")?;
    text.push(b"xy")?;
    text.append(b"-many-")?;
    text.push(b"z")?;
    assert!(rt; text.as_slice() == b"abcaxy-many-z".as_slice());
    assert!(rt; text.into_vec().as_slice() == b"abcaxy-many-z".as_slice());
    Ok(())
}

#[test]
fn numbers_words_and_names_are_spelled(rt: HostRuntime) -> Result<(), Fail> {
    let mut out = Text::new(rt.alloc());
    push_number(&mut out, 0)?;
    push_byte(&mut out, b' ')?;
    push_number(&mut out, 4294967295)?;
    push_byte(&mut out, b' ')?;
    push_number(&mut out, u64::MAX)?;
    push_byte(&mut out, b' ')?;
    push_word(&mut out, 0x0123_4567_89ab_cdef)?;
    push_byte(&mut out, b' ')?;
    push_slot(
        &mut out,
        SlotName {
            start: 0x4000,
            born: 0,
        },
    )?;
    push_byte(&mut out, b' ')?;
    push_slot(
        &mut out,
        SlotName {
            start: 0xfedc_ba98,
            born: 17,
        },
    )?;
    let text = b"0 4294967295 18446744073709551615 0123456789abcdef 00004000.0 fedcba98.17";
    assert!(rt; out.as_slice() == text.as_slice());
    Ok(())
}

// The least and the greatest number of each length up to six digits.
#[test]
fn numbers_of_each_length_are_spelled(rt: HostRuntime) -> Result<(), Fail> {
    let mut out = Text::new(rt.alloc());
    let numbers: [u64; 11] = [
        9, 10, 99, 100, 999, 1000, 9999, 10_000, 99_999, 100_000, 999_999,
    ];
    for n in numbers {
        push_number(&mut out, n)?;
        push_byte(&mut out, b' ')?;
    }
    let text = b"9 10 99 100 999 1000 9999 10000 99999 100000 999999 ";
    assert!(rt; out.as_slice() == text.as_slice());
    Ok(())
}

// Sixteen digits are read, whatever follows them, and fewer or others are not.
#[test]
fn words_are_read(rt: HostRuntime) {
    let read: [(&[u8], u64, &[u8]); 5] = [
        (b"0000000000000000", 0, b""),
        (b"0123456789abcdef", 0x0123_4567_89ab_cdef, b""),
        (b"fedcba98765432100", 0xfedc_ba98_7654_3210, b"0"),
        (b"ffffffffffffffff\n", u64::MAX, b"\n"),
        (b"efefefefefefefef g", 0xefef_efef_efef_efef, b" g"),
    ];
    for (bytes, value, rest) in read {
        assert!(rt; word_at(bytes) == Some((value, rest)));
    }
    let refused: [&[u8]; 9] = [
        b"",
        b"000000000000000",
        b"000000000000000 0",
        b"000000000000000A",
        b"F000000000000000",
        b"g000000000000000",
        b"0x00000000000000",
        b"+000000000000000",
        b"-000000000000000",
    ];
    for bytes in refused {
        assert!(rt; word_at(bytes) == None);
    }
}
