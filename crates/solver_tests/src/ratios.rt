//! Fractions that need not be in lowest terms, tried on numbers at their limits.

use crate::texts::{Parts, fraction};
use lp_model::Ratio;
use std::test::Fail;

/// 2^124, 2^125 and 2^126.
const POWER_124: i128 = 21267647932558653966460912964485513216;

const POWER_125: i128 = 42535295865117307932921825928971026432;

const POWER_126: i128 = 85070591730234615865843651857942052864;

/// A fraction by terms that may have a common divisor.
fn ratio(terms: Parts) -> Result<Ratio, Fail> {
    let (numerator, denominator) = terms;
    if denominator < 1 || numerator == i128::MIN {
        return Err(Fail::from("no fraction"));
    }
    Ok(Ratio::new(numerator, denominator))
}

/// Terms, and those of the same number in lowest terms.
const NUMBERS: [(Parts, Parts); 7] = [
    ((4, 6), (2, 3)),
    ((-4, 6), (-2, 3)),
    ((0, 6), (0, 1)),
    ((6, 6), (1, 1)),
    ((-12, 6), (-2, 1)),
    ((POWER_126, POWER_125), (2, 1)),
    ((i128::MAX, i128::MAX), (1, 1)),
];

#[test]
fn ratios_are_numbers(rt: HostRuntime) -> Result<(), Fail> {
    for (terms, lowest) in &NUMBERS {
        let number = ratio(*terms)?;
        let wanted = fraction(*lowest)?;
        assert_eq!(rt; number.terms(), *terms);
        assert_eq!(rt; number.reduced(), wanted);
        assert_eq!(rt; Ratio::of(wanted).terms(), *lowest);
        assert_eq!(rt; number.neg().reduced(), wanted.neg());
        assert_eq!(rt; number.is_zero(), lowest.0 == 0);
        assert_eq!(rt; number.sign() as i128, lowest.0.signum());
        assert_eq!(rt; Ratio::of(wanted).as_whole().is_some(), lowest.1 == 1);
    }
    Ok(())
}

/// Terms, a limit, and whether the number is below it, and above it. A product of terms and limits of the last six doesn't fit 128 bits.
const ORDERS: [(Parts, Parts, bool, bool); 11] = [
    ((4, 6), (2, 3), false, false),
    ((-4, 6), (-2, 3), false, false),
    ((0, 6), (0, 1), false, false),
    ((3, 6), (2, 3), true, false),
    ((-3, 6), (-2, 3), false, true),
    ((POWER_126, 4), (POWER_125, 3), false, true),
    ((-POWER_126, 4), (-POWER_125, 3), true, false),
    ((POWER_126, 6), (POWER_125, 3), false, false),
    ((POWER_126, 8), (POWER_124, 1), true, false),
    (
        (POWER_126, POWER_126 - 1),
        (POWER_126 - 1, POWER_126 - 2),
        true,
        false,
    ),
    (
        (POWER_126 - 1, POWER_126 - 2),
        (POWER_126, POWER_126 - 1),
        false,
        true,
    ),
];

#[test]
fn ratios_are_ordered(rt: HostRuntime) -> Result<(), Fail> {
    for (terms, limit, below, above) in &ORDERS {
        let number = ratio(*terms)?;
        let limit = fraction(*limit)?;
        assert_eq!(rt; number.is_below(limit), *below, "{limit}");
        assert_eq!(rt; number.is_above(limit), *above, "{limit}");
    }
    Ok(())
}
