use decimal_text::{LONGEST_TEXT, RateFault, read_rate};
use std::alloc::Global;
use std::test::Fail;
use test_rows::assert_rows;

const SPELLINGS: &[(&[u8], Result<u32, RateFault>)] = &[
    (b"0.00042", Ok(420_000)),
    (b"1", Ok(1_000_000_000)),
    (b"9E-05", Ok(90_000)),
    (b".5", Ok(500_000_000)),
    (b"1.", Ok(1_000_000_000)),
    (b"0.1e1", Ok(1_000_000_000)),
    (b"0", Ok(0)),
    (b"", Err(RateFault::NoNumber)),
    (b".", Err(RateFault::NoNumber)),
    (b"-1", Err(RateFault::NoNumber)),
    (b"+1", Err(RateFault::NoNumber)),
    (b"1e", Err(RateFault::NoNumber)),
    (b"1e0000", Err(RateFault::NoNumber)),
    (b"0x1", Err(RateFault::NoNumber)),
    (b"1.000000001", Err(RateFault::AboveOne)),
    (b"0.0000000001", Err(RateFault::TooFine)),
    (b"1E-999", Err(RateFault::TooFine)),
    // Texts that are both above 1 and too fine.
    (b"1.0000000001", Err(RateFault::AboveOne)),
    (b"7.5E-05", Ok(75_000)),
    (b"4.8E-06", Ok(4_800)),
    (b"6E-07", Ok(600)),
    (b"6e-7", Ok(600)),
    (b"0.000000001", Ok(1)),
    (b"0.0000000010", Ok(1)),
    (b"1e+0", Ok(1_000_000_000)),
    (b"10e-1", Ok(1_000_000_000)),
    (b"1000E-3", Ok(1_000_000_000)),
    (b"00.25", Ok(250_000_000)),
    (b"0e999", Ok(0)),
    (b"1e999", Err(RateFault::AboveOne)),
    (b"999999999e-999", Err(RateFault::TooFine)),
    (b"1e-", Err(RateFault::NoNumber)),
    (b"1..2", Err(RateFault::NoNumber)),
    (b" 1", Err(RateFault::NoNumber)),
];

fn is_read(text: &[u8], expected: Result<u32, RateFault>) -> bool {
    text.len() <= LONGEST_TEXT && read_rate(text) == expected
}

#[test]
fn spellings_and_their_rates(rt: HostRuntime) {
    assert_rows!(rt; (text, expected) in SPELLINGS => is_read(text, *expected); "{text:?}");
}

// A text of zeros except for its first and its last byte.
fn longest_text(alloc: Global, first: u8, last: u8) -> Result<Vec<u8>, Fail> {
    let mut text = vec![in alloc; b'0'; LONGEST_TEXT - 1]?;
    if let Some(byte) = text.as_mut_slice().first_mut() {
        *byte = first;
    }
    text.push(last)?;
    Ok(text)
}

// The first and the last byte of a longest text, and its rate.
const LONGEST_TEXTS: &[(u8, u8, Result<u32, RateFault>)] = &[
    (b'0', b'0', Ok(0)),
    (b'0', b'1', Ok(1_000_000_000)),
    (b'.', b'1', Err(RateFault::TooFine)),
    (b'1', b'1', Err(RateFault::AboveOne)),
];

#[test]
fn the_longest_texts(rt: HostRuntime) -> Result<(), Fail> {
    assert_rows!(rt; (first, last, expected) in LONGEST_TEXTS => {
        let text = longest_text(rt.alloc(), *first, *last)?;
        text.len() == LONGEST_TEXT && is_read(&text, *expected)
    }; "from {first} to {last}");
    Ok(())
}
