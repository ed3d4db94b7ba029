//! Lines written token by token.

use itoa::Buffer;
use std::test::Fail;
use text_tokens::Lines;

/// A text of so many lines, each with a number, is the same bytes put
/// one behind the other in a vector.
#[test]
fn lines_go_on_behind_their_room(rt: HostRuntime) -> Result<(), Fail> {
    let mut lines = Lines::new(rt.alloc());
    let mut plain = Vec::new(rt.alloc());
    for number in 0..2000u32 {
        lines.begin("line")?;
        lines.unsigned(u64::from(number))?;
        lines.word("of")?;
        lines.number(number)?;
        lines.end()?;
        let mut buffer = Buffer::new();
        let digits = buffer.format(number).as_bytes();
        plain.extend_from_slice(b"line ")?;
        plain.extend_from_slice(digits)?;
        plain.extend_from_slice(b" of ")?;
        plain.extend_from_slice(digits)?;
        plain.push(b'\n')?;
    }
    let text = lines.text();
    assert!(rt; text.bytes() == plain.as_slice());
    Ok(())
}

/// A word that is longer than any room.
#[test]
fn a_long_word_is_a_token(rt: HostRuntime) -> Result<(), Fail> {
    let mut long = String::new(rt.alloc());
    for _ in 0..500 {
        long.push_str("a_long_word")?;
    }
    let mut lines = Lines::new(rt.alloc());
    lines.begin("to")?;
    lines.word(long.as_str())?;
    lines.unsigned(5)?;
    let text = lines.text();
    let mut plain = String::from_str(rt.alloc(), "to ")?;
    plain.push_str(long.as_str())?;
    plain.push_str(" 5")?;
    assert!(rt; text.bytes() == plain.as_str().as_bytes());
    Ok(())
}

/// Numbers that are written where they stay, and the same numbers copied.
#[test]
fn numbers_are_put_as_they_are_copied(rt: HostRuntime) -> Result<(), Fail> {
    let mut put = Lines::new(rt.alloc());
    let mut copied = Lines::new(rt.alloc());
    for number in [
        0,
        7,
        9,
        10,
        42,
        99,
        100,
        256,
        999,
        1000,
        4096,
        9999,
        10_000,
        65_536,
        99_999,
        100_000,
        1_048_576,
        4_294_967_296,
        18_446_744_073_709_551_615,
    ] {
        put.unsigned(number)?;
        copied.number(number)?;
    }
    for number in [
        -9_223_372_036_854_775_808,
        -100_000,
        -99_999,
        -4096,
        -10,
        -9,
        -1,
        0,
        1,
        10,
        4095,
        99_999,
        9_223_372_036_854_775_807,
    ] {
        put.signed(number)?;
        copied.number(number)?;
    }
    let put = put.text();
    let copied = copied.text();
    assert!(rt; put.bytes() == copied.bytes());
    Ok(())
}

#[test]
fn a_section_of_words_and_numbers_is_printed(rt: HostRuntime) -> Result<(), Fail> {
    let mut lines = Lines::new(rt.alloc());
    lines.open_section("shape")?;
    lines.begin("area")?;
    lines.number(-4096i16)?;
    lines.number(0u16)?;
    lines.word("+")?;
    lines.end()?;
    lines.close_section()?;
    let text = lines.text();
    assert!(rt; text.bytes() == b"shape\narea -4096 0 +\nend\n".as_slice());
    Ok(())
}
