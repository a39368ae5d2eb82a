//! Printed numbers: which words are one, and what decimal digits spell.

use super::made::residue;
use long_numbers::is_number;
use naturals::Natural;
use std::alloc::{AllocError, Global};
use std::test::Fail;

/// How many digits 3, 0, 7, 4, 1 .. (each 7 more than the last, by its last digit) a number has, and its remainder.
const DIGITS: [(usize, u64); 11] = [
    (0, 0),
    (1, 3),
    (2, 30),
    (18, 307418529630741852),
    (19, 768342287093724578),
    (20, 765893843296163933),
    (37, 739657684757944098),
    (38, 479047819938359129),
    (39, 178792180956203397),
    (57, 2111411801599134423),
    (3000, 1171228117003713967),
];

/// Words, and whether they are a number as the listing writes it.
const WORDS: [(&[u8], bool); 32] = [
    (b"0", true),
    (b"7", true),
    (b"10", true),
    (b"-1", true),
    (b"-18446744073709551616", true),
    (b"1/2", true),
    (b"-1/2", true),
    (b"100/3", true),
    (b"18446744073709551616/18446744073709551617", true),
    (
        b"340282366920938463463374607431768211457/340282366920938463463374607431768211456",
        true,
    ),
    (b"", false),
    (b"-", false),
    (b"/", false),
    (b"-0", false),
    (b"+1", false),
    (b"00", false),
    (b"01", false),
    (b"-01", false),
    (b"1/", false),
    (b"/2", false),
    (b"1/1", false),
    (b"0/1", false),
    (b"0/2", false),
    (b"1/0", false),
    (b"0/0", false),
    (b"2/4", false),
    (b"1/02", false),
    (b"1/-2", false),
    (b"1/2/3", false),
    (b"1 ", false),
    (b"1a", false),
    (b"36893488147419103232/18446744073709551616", false),
];

fn digits(alloc: Global, count: usize) -> Result<Vec<u8>, AllocError> {
    let mut text = Vec::new(alloc);
    let mut digit: u8 = 3;
    for _ in 0..count {
        text.push(b'0' + digit % 10)?;
        digit = (digit % 10) + 7;
    }
    Ok(text)
}

fn spelled(alloc: Global, digits: &[u8]) -> Result<Option<u64>, AllocError> {
    if !digits.iter().all(|b| b.is_ascii_digit()) {
        return Ok(None);
    }
    let number = Natural::from_digits(alloc, digits)?;
    Ok(Some(residue(&number)))
}

#[test]
fn digits_are_read(rt: HostRuntime) -> Result<(), Fail> {
    for (count, wanted) in DIGITS {
        let text = digits(rt.alloc(), count)?;
        assert_eq!(rt; spelled(rt.alloc(), &text)?, Some(wanted));
    }
    Ok(())
}

#[test]
fn printed_numbers(rt: HostRuntime) -> Result<(), Fail> {
    for (word, wanted) in WORDS {
        assert_eq!(rt; is_number(rt.alloc(), word)?, wanted);
    }
    Ok(())
}
