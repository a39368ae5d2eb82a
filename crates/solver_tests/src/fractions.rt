//! The exact values, tried on numbers at their limits.

use crate::texts::{Parts, fraction};
use exact_values::gcd;
use frac128::{Frac, Op, Refused};
use std::alloc::Global;
use std::cmp::Ordering;
use std::test::Fail;

const MAX: i128 = i128::MAX;

const POWER_70: i128 = 1 << 70;

const POWER_100: i128 = 1 << 100;

const POWER_125: i128 = 1 << 125;

const POWER_126: i128 = 1 << 126;

/// 3^50, and that less 2^70.
const THREES: i128 = 717897987691852588770249;

const LESS: i128 = THREES - POWER_70;

/// What the method of an operation answers, where it may be called.
fn by_method(op: Op, left: Frac, right: Frac) -> Option<Result<Frac, Refused>> {
    match op {
        Op::Add => Some(left.add(right)),
        Op::Sub => Some(left.sub(right)),
        Op::Mul => Some(left.mul(right)),
        Op::Div if !right.is_zero() => Some(left.div(right)),
        Op::Div => None,
    }
}

/// What the operation answers that is applied, where it may be.
fn applied(op: Op, left: Frac, right: Frac) -> Option<Result<Frac, Refused>> {
    if right.is_zero() {
        return None;
    }
    Some(op.apply(left, right))
}

/// The fraction of these parts, where there are any.
fn fitting(parts: Option<Parts>) -> Result<Option<Frac>, Fail> {
    match parts {
        Some(parts) => Ok(Some(fraction(parts)?)),
        None => Ok(None),
    }
}

/// An operation on two fractions, and what it makes: nothing, where that doesn't fit.
type Operation = (Op, Parts, Parts, Option<Parts>);

const OPERATIONS: [Operation; 12] = [
    (Op::Add, (1, 3), (1, 6), Some((1, 2))),
    (
        Op::Add,
        (1, POWER_126),
        (1, POWER_126),
        Some((1, POWER_125)),
    ),
    (Op::Add, (MAX, 1), (1, 1), None),
    (Op::Add, (1, POWER_70), (1, THREES), None),
    (Op::Sub, (MAX, 1), (MAX, 1), Some((0, 1))),
    (Op::Sub, (-MAX, 1), (1, 1), None),
    (Op::Sub, (1, 1), (1, 3), Some((2, 3))),
    (Op::Mul, (POWER_100, 3), (3, POWER_100), Some((1, 1))),
    (Op::Mul, (POWER_126, 1), (2, 1), None),
    (Op::Mul, (POWER_126, 1), (-2, 1), None),
    (Op::Div, (1, 6), (-1, 3), Some((-1, 2))),
    (Op::Div, (2, 1), (1, MAX), None),
];

#[test]
fn operations_are_exact(rt: HostRuntime) -> Result<(), Fail> {
    for (op, left, right, wanted) in &OPERATIONS {
        let (left, right) = (fraction(*left)?, fraction(*right)?);
        let refused = Refused {
            op: *op,
            left,
            right,
        };
        let wanted = fitting(*wanted)?.ok_or(refused);
        assert_eq!(rt;
            by_method(*op, left, right),
            Some(wanted),
            "{left} and {right}"
        );
        assert_eq!(rt;
            applied(*op, left, right),
            Some(wanted),
            "{left} and {right}"
        );
    }
    Ok(())
}

/// A fraction, two factors whose product is taken from it, and what is left: nothing, where that doesn't fit.
type Difference = (Parts, Parts, Parts, Option<Parts>);

const DIFFERENCES: [Difference; 5] = [
    (
        (1, POWER_70),
        (LESS, THREES),
        (1, POWER_70),
        Some((1, THREES)),
    ),
    (
        (1, POWER_70),
        (1, POWER_70),
        (LESS, THREES),
        Some((1, THREES)),
    ),
    (
        (-1, POWER_70),
        (LESS, THREES),
        (-1, POWER_70),
        Some((-1, THREES)),
    ),
    ((1, 1), (1, 3), (1, 3), Some((8, 9))),
    ((MAX, 1), (1, 1), (-1, 1), None),
];

#[test]
fn products_are_subtracted(rt: HostRuntime) -> Result<(), Fail> {
    for (from, left, right, wanted) in &DIFFERENCES {
        let (left, right) = (fraction(*left)?, fraction(*right)?);
        let rest = fraction(*from)?.sub_product(left, right);
        assert_eq!(rt; rest, fitting(*wanted)?);
    }
    // the product of the first of these doesn't fit
    let (factor, small) = (fraction((LESS, THREES))?, fraction((1, POWER_70))?);
    assert!(rt; factor.mul(small).is_err());
    Ok(())
}

const ORDERS: [(Parts, Parts, Ordering); 4] = [
    ((MAX - 2, MAX - 1), (MAX - 1, MAX), Ordering::Less),
    ((2 - MAX, MAX - 1), (1 - MAX, MAX), Ordering::Greater),
    ((-6, 4), (0, 1), Ordering::Less),
    ((2, 4), (3, 6), Ordering::Equal),
];

/// A fraction, its numerator and denominator in lowest terms, its sign and its text.
type Reading = (Parts, Parts, i8, &'static str);

const READINGS: [Reading; 5] = [
    ((-6, 4), (-3, 2), -1, "-3/2"),
    ((0, 1), (0, 1), 0, "0"),
    (
        (1, MAX),
        (1, MAX),
        1,
        "1/170141183460469231731687303715884105727",
    ),
    ((-4, 6), (-2, 3), -1, "-2/3"),
    ((8, 4), (2, 1), 1, "2"),
];

fn reads(alloc: Global, reading: &Reading) -> Result<bool, Fail> {
    let value = fraction(reading.0)?;
    let text = format!(in alloc; "{value}")?;
    Ok(
        (value.num(), value.den()) == reading.1
            && value.sign() == reading.2
            && text.as_str() == reading.3,
    )
}

#[test]
fn fractions_are_ordered_and_read(rt: HostRuntime) -> Result<(), Fail> {
    for (left, right, wanted) in &ORDERS {
        let (left, right) = (fraction(*left)?, fraction(*right)?);
        let found = (left.compare(right), left.cmp(&right), left < right);
        assert_eq!(rt; found, (*wanted, *wanted, wanted.is_lt()));
    }
    for reading in &READINGS {
        assert!(rt; reads(rt.alloc(), reading)?, "{}", reading.3);
    }
    let refusal = Refused {
        op: Op::Mul,
        left: Frac::whole(MAX),
        right: Frac::whole(2),
    };
    assert_eq!(rt;
        format!(in rt.alloc(); "{refusal}")?.as_str(),
        "170141183460469231731687303715884105727 * 2 has no exact result in 128 bits"
    );
    Ok(())
}

const DIVISORS: [(u128, u128, u128); 7] = [
    (12, 18, 6),
    (0, 7, 7),
    (7, 0, 7),
    (0, 0, 0),
    (1267650600228229401496703205376, 717897987691852588770249, 1),
    (
        7605903601369376408980219232256,
        11408855402054064613470328848384,
        3802951800684688204490109616128,
    ),
    (1267650600228229401496703205376, 96, 32),
];

#[test]
fn greatest_common_divisors(rt: HostRuntime) {
    for (left, right, wanted) in DIVISORS {
        assert_eq!(rt; gcd(left, right), wanted, "{left} and {right}");
    }
}
