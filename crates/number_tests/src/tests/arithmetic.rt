//! The arithmetic of natural numbers, against tables of remainders by a prime of 61 bits.

use super::made::{number, number_in_parts, residue};
use naturals::{Natural, gcd};
use std::alloc::{AllocError, Global};
use std::cmp::Ordering;
use std::test::Fail;

/// The seeds and the words of two numbers, and the remainders of their sum, their difference, their product, the quotient of
/// the first by the second and what is left (0 where that is 0), and their greatest common divisor.
const ROWS: [(u64, usize, u64, usize, [u64; 6]); 15] = [
    (1, 0, 2, 0, [0, 0, 0, 0, 0, 0]),
    (1, 1, 2, 0, [1082269761, 1082269761, 0, 0, 0, 1082269761]),
    (1, 0, 2, 1, [2164539522, 2164539522, 0, 0, 0, 2164539522]),
    (
        1,
        1,
        2,
        1,
        [
            3246809283,
            1082269761,
            36772661936300291,
            0,
            1082269761,
            1082269761,
        ],
    ),
    (
        3,
        2,
        4,
        1,
        [
            1715591997605859,
            1715583339447771,
            1817157774184849450,
            1236940904448151755,
            49645395,
            3,
        ],
    ),
    (
        5,
        3,
        6,
        2,
        [
            1836343053210803845,
            1829480702538793721,
            2174947861660124465,
            1418380010845019677,
            839895811028802986,
            1,
        ],
    ),
    (
        7,
        3,
        8,
        3,
        [
            1418568948542078847,
            541403660660002036,
            486520783319490239,
            0,
            1591504148547885381,
            1,
        ],
    ),
    (0, 1, 0, 1, [14, 0, 49, 1, 0, 7]),
    (
        0,
        5,
        9,
        1,
        [
            9740460616,
            2305842999473298869,
            319164599328183,
            1427642290568685806,
            384584565,
            3,
        ],
    ),
    (
        0,
        157,
        0,
        157,
        [35184372088830, 0, 2305807824975822848, 1, 0, 17592186044415],
    ),
    (
        0,
        157,
        10,
        1,
        [
            17603008742025,
            17581363346805,
            1452586790864814080,
            1145328733918158247,
            5279096145,
            15,
        ],
    ),
    (
        11,
        157,
        12,
        157,
        [
            1412164482710797977,
            202595339128398308,
            806058941734425102,
            0,
            1757706076398046810,
            1,
        ],
    ),
    (
        13,
        157,
        14,
        78,
        [
            91786016566390342,
            1623998846257023598,
            319460945022204346,
            669092218932296604,
            1673141036000319851,
            1,
        ],
    ),
    (
        15,
        78,
        16,
        157,
        [
            1600616186324604367,
            1158875060234994247,
            16170430908545434,
            0,
            220870563044805060,
            1,
        ],
    ),
    (
        17,
        40,
        18,
        39,
        [
            1933982680907673958,
            1539140468094205064,
            139275570951443189,
            1551120315772651688,
            1744463220154166035,
            1,
        ],
    ),
];

/// The same of a common factor and two more, with the remainder of the greatest common divisor of both products.
const FACTORS: [(u64, usize, u64, usize, u64, usize, u64); 6] = [
    (21, 1, 22, 1, 23, 1, 22727402837),
    (24, 20, 25, 30, 26, 31, 70929282490876674),
    (27, 100, 28, 57, 29, 57, 120083852719548611),
    (30, 157, 31, 1, 32, 1, 1524679225200052751),
    (0, 100, 33, 10, 34, 20, 72057594037927935),
    (35, 1, 36, 156, 37, 156, 37878917347),
];

/// Which two Fibonacci numbers follow one another, their remainders, and their greatest common divisor.
const FIBONACCI: [(u32, u64, u64, u64); 6] = [
    (2, 1, 2, 1),
    (93, 670945369053406983, 1293530146158671559, 1),
    (94, 1293530146158671559, 1964475515212078542, 1),
    (186, 2001120005961139636, 133805124077074378, 1),
    (1000, 100192510155549716, 1915107753508655910, 1),
    (14000, 1612246263879327793, 576185218270069590, 1),
];

/// A limb with all its bits set, and one with its top bit alone.
const MAX: u64 = u64::MAX;

const TOP: u64 = 9223372036854775808;

/// Two numbers that are Euclid's quotients in turn, mostly of 33 bits or more, how many there are, the remainders of the two numbers to which they
/// lead, and their greatest common divisor.
const LARGE_QUOTIENTS: [((u64, u64), u32, [u64; 3]); 6] = [
    (
        (4294967297, 8589934591),
        60,
        [1535680804760021175, 1083717314658549808, 15],
    ),
    (
        (1099511627775, 1125899906842631),
        200,
        [1911326010769475651, 406065948754035038, 35],
    ),
    (
        (TOP / 2 + 1, TOP - 1),
        40,
        [1033280565865645645, 158557635650287143, 1],
    ),
    (
        (MAX, TOP),
        100,
        [929984040678200598, 1033473986416960296, 7],
    ),
    ((MAX, 3), 90, [1822653533310092257, 1489153294509507326, 9]),
    (
        (18156696999170608891, 18294645453284151237),
        60,
        [1917304010403216949, 855792636148522907, 7],
    ),
];

/// Limbs of a number and of a divisor, and of the quotient and the remainder. The estimate of a digit is too large in some.
const QUOTIENTS: [(&[u64], &[u64], &[u64], &[u64]); 13] = [
    (
        &[0, 0, TOP, TOP - 1],
        &[1, 0, TOP],
        &[MAX - 1],
        &[2, MAX, TOP - 1],
    ),
    (&[3, 0, TOP], &[1, 0, TOP / 4], &[3], &[0, 0, TOP / 4]),
    (&[0, MAX - 1, TOP], &[MAX, TOP], &[MAX], &[MAX, TOP - 1]),
    (
        &[0, TOP, MAX, TOP - 1],
        &[MAX, TOP],
        &[4, MAX - 1],
        &[4, TOP - 6],
    ),
    (&[0, 0, 1], &[MAX, MAX], &[1], &[1]),
    (&[MAX, MAX, MAX], &[MAX, MAX], &[0, 1], &[MAX]),
    (
        &[MAX, MAX - 1, MAX, MAX - 1],
        &[MAX, MAX, MAX],
        &[MAX - 1],
        &[MAX - 2, MAX, MAX],
    ),
    (&[0, 0, 0, 1], &[1, 1], &[0, MAX], &[0, 1]),
    (&[5], &[7], &[], &[5]),
    (&[7], &[7], &[1], &[]),
    (&[0, MAX, TOP - 1], &[MAX, TOP], &[MAX - 1], &[MAX - 1, 1]),
    (&[2, 0, 0, TOP], &[1, 0, 0, TOP], &[1], &[1]),
    (
        &[0, 0, 0, TOP - 1, TOP],
        &[MAX, MAX, TOP],
        &[0, MAX],
        &[0, MAX],
    ),
];

/// The seeds and the parts of two numbers, and the remainder of their product: on both sides of the length from which products are
/// made of halves, one number much longer than the other, runs of zeros, and words with all their bits set.
const PRODUCTS: [(u64, (usize, usize, usize), u64, (usize, usize, usize), u64); 15] = [
    (21, (63, 0, 0), 22, (63, 0, 0), 1995853065683816706),
    (21, (64, 0, 0), 22, (63, 0, 0), 1919522126583992835),
    (23, (64, 0, 0), 24, (64, 0, 0), 2136183311031113382),
    (25, (65, 0, 0), 26, (64, 0, 0), 1046938147672306321),
    (27, (129, 0, 0), 28, (128, 0, 0), 2294078386291353860),
    (29, (64, 0, 0), 30, (300, 0, 0), 1082155874087409789),
    (31, (300, 0, 0), 32, (151, 0, 0), 1772170036025857271),
    (33, (300, 0, 0), 34, (150, 0, 0), 589337655166775141),
    (35, (7, 0, 0), 36, (1000, 0, 0), 173869496293490532),
    (0, (64, 0, 0), 0, (64, 0, 0), 261121),
    (0, (130, 0, 0), 0, (131, 0, 0), 2251799662690305),
    (37, (1, 126, 1), 38, (1, 126, 1), 846529636941758120),
    (39, (40, 100, 1), 0, (1, 64, 64), 862518610393246864),
    (41, (1, 200, 0), 42, (70, 100, 90), 1955950951437263696),
    (43, (520, 0, 0), 45, (519, 0, 0), 2238547518913684169),
];

fn distance(alloc: Global, a: &Natural, b: &Natural) -> Result<Natural, AllocError> {
    if let Some(rest) = a.difference(alloc, b)? {
        return Ok(rest);
    }
    Ok(b.difference(alloc, a)?.unwrap_or(Natural::zero(alloc)))
}

fn quotient_and_rest(alloc: Global, a: &Natural, b: &Natural) -> Result<(u64, u64), AllocError> {
    if b.is_zero() {
        return Ok((0, 0));
    }
    let (quotient, rest) = a.quotient(alloc, b)?;
    Ok((residue(&quotient), residue(&rest)))
}

fn remainders(alloc: Global, a: &Natural, b: &Natural) -> Result<[u64; 6], AllocError> {
    let sum = a.sum(alloc, b)?;
    let rest = distance(alloc, a, b)?;
    let product = a.product(alloc, b)?;
    let (quotient, left) = quotient_and_rest(alloc, a, b)?;
    let divisor = gcd(alloc, a, b)?;
    Ok([
        residue(&sum),
        residue(&rest),
        residue(&product),
        quotient,
        left,
        residue(&divisor),
    ])
}

fn row(alloc: Global, seeds: (u64, u64), words: (usize, usize)) -> Result<[u64; 6], AllocError> {
    let a = number(alloc, seeds.0, words.0)?;
    let b = number(alloc, seeds.1, words.1)?;
    remainders(alloc, &a, &b)
}

fn common(alloc: Global, factor: &Natural, x: &Natural, y: &Natural) -> Result<u64, AllocError> {
    let a = factor.product(alloc, x)?;
    let b = factor.product(alloc, y)?;
    let divisor = gcd(alloc, &a, &b)?;
    Ok(residue(&divisor))
}

fn of_quotients(
    alloc: Global,
    quotients: (u64, u64),
    count: u32,
    last: u64,
) -> Result<[u64; 3], AllocError> {
    let mut a = Natural::zero(alloc);
    let mut b = Natural::from_word(alloc, last)?;
    for k in 0..count {
        let quotient = if k % 2 == 0 { quotients.0 } else { quotients.1 };
        let product = b.product(alloc, &Natural::from_word(alloc, quotient)?)?;
        let next = a.sum(alloc, &product)?;
        a = b;
        b = next;
    }
    let divisor = gcd(alloc, &a, &b)?;
    Ok([residue(&a), residue(&b), residue(&divisor)])
}

fn of(alloc: Global, limbs: &[u64]) -> Result<Natural, AllocError> {
    Ok(Natural::from_limbs(Vec::from_slice(alloc, limbs)?))
}

fn divides_so(alloc: Global, case: (&[u64], &[u64], &[u64], &[u64])) -> Result<bool, AllocError> {
    let a = of(alloc, case.0)?;
    let b = of(alloc, case.1)?;
    if b.is_zero() {
        return Ok(false);
    }
    let (quotient, rest) = a.quotient(alloc, &b)?;
    Ok(quotient.limbs() == case.2 && rest.limbs() == case.3)
}

#[test]
fn numbers_of_few_and_many_words(rt: HostRuntime) -> Result<(), Fail> {
    for (seed, words, other, more, wanted) in ROWS {
        assert_eq!(rt; row(rt.alloc(), (seed, other), (words, more))?, wanted);
    }
    Ok(())
}

#[test]
fn common_divisors(rt: HostRuntime) -> Result<(), Fail> {
    let alloc = rt.alloc();
    for (g, g_words, x, x_words, y, y_words, wanted) in FACTORS {
        let factor = number(alloc, g, g_words)?;
        let first = number(alloc, x, x_words)?;
        let second = number(alloc, y, y_words)?;
        assert_eq!(rt; common(alloc, &factor, &first, &second)?, wanted);
    }
    for (n, first, second, divisor) in FIBONACCI {
        assert_eq!(rt;
            of_quotients(alloc, (1, 1), n, 1)?,
            [first, second, divisor]
        );
    }
    for (quotients, count, wanted) in LARGE_QUOTIENTS {
        let made = of_quotients(alloc, quotients, count, wanted[2])?;
        assert_eq!(rt; made, wanted);
    }
    Ok(())
}

#[test]
fn quotients_of_hard_digits(rt: HostRuntime) -> Result<(), Fail> {
    for case in QUOTIENTS {
        assert!(rt; divides_so(rt.alloc(), case)?);
    }
    Ok(())
}

#[test]
fn products_of_long_numbers(rt: HostRuntime) -> Result<(), Fail> {
    let alloc = rt.alloc();
    for (a, a_parts, b, b_parts, wanted) in PRODUCTS {
        let first = number_in_parts(alloc, a, a_parts)?;
        let second = number_in_parts(alloc, b, b_parts)?;
        let product = first.product(alloc, &second)?;
        assert_eq!(rt; residue(&product), wanted);
    }
    Ok(())
}
