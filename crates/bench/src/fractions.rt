//! The operations of `frac128` over fixed tables of fractions.

ghost use Rattle.std.specs.Prelude.{pos, ◌≤ℤ◌};

use exact_values::gcd;
use frac128::{Frac, Op};
use std::cmp::Ordering;
use std::io;

/// How many fractions a table has.
const ROWS: usize = 64;

/// The greatest primes of 62 and of 120 bits.
const PRIME_62: i128 = 4611686018427387847;

const PRIME_120: i128 = 1329227995784915872903807060280344457;

/// A factor of 80 bits that the related denominators share.
const SHARED: i128 = 604462909807314587353111;

/// Which fractions a table has.
#[derive(Clone, Copy)]
enum Table {
    /// Whole numbers of 40 bits.
    Whole,
    /// Parts of 20 bits.
    Short,
    /// Parts of 62 bits.
    Word,
    /// Parts of 60 bits over 100, where the denominators share 80 bits.
    Related,
    /// Parts of 126 bits.
    Wide,
    /// 1 over a prime of 62 bits, and then 1 less that prime over others of 62 bits: what a pivot works on.
    Pivot,
    /// The same with 120 bits.
    WidePivot,
    /// The ratios of neighbouring Fibonacci numbers, which only the last of many quotients tells apart.
    Close,
}

#[derive(Clone, Copy)]
enum Work {
    Operation(Op),
    Compare,
    Divisor,
    SubProduct,
}

/// What a run over a table comes to.
#[derive(Clone, Copy)]
struct Outcome {
    digest: u128,
    refusals: u64,
}

/// The next of a fixed series of numbers (Knuth's linear generator for 64 bits).
fn next(seed: u64) -> u64 {
    seed.wrapping_mul(6364136223846793005)
        .wrapping_add(1442695040888963407)
}

fn fraction(table: Table, a: u64, b: u64, c: u64, d: u64) -> Frac {
    match table {
        Table::Whole => Frac::whole((a >> 24) as i128),
        Table::Short => Frac::new((a >> 44) as i128, (c >> 44) as i128 + 1),
        Table::Word => Frac::new((a >> 2) as i128, (c >> 2) as i128 + 1),
        Table::Related => Frac::new((a >> 4) as i128, ((c >> 44) as i128 + 1) * SHARED),
        Table::Wide => {
            let high = (a >> 2) as i128 * 18446744073709551616;
            let low = (c >> 2) as i128 * 18446744073709551616;
            Frac::new(high + b as i128, low + d as i128 + 1)
        }
        Table::Pivot => less_over(PRIME_62, (a >> 2) as i128 + 1),
        Table::WidePivot => {
            let high = (a >> 8) as i128 * 18446744073709551616;
            less_over(PRIME_120, high + b as i128 + 1)
        }
        Table::Close => Frac::ONE,
    }
}

/// 1 less a/b, where both have fewer than 126 bits.
fn less_over(a: i128, b: i128) -> Frac
    requires a_low { pos 0 ≤ℤ a }
    requires b_low { pos 1 ≤ℤ b }
{
    Frac::new(b - a, b)
}

/// From F(120)/F(121) on.
fn neighbours() -> [Frac; ROWS] {
    let mut rows = [Frac::ONE; ROWS];
    let (mut low, mut high) = (5358359254990966640871840i128, 8670007398507948658051921i128);
    for row in rows.iter_mut() {
        if 0 < low && 0 < high {
            *row = Frac::new(low, high);
        }
        if let Some(next) = low.checked_add(high) {
            low = high;
            high = next;
        }
    }
    rows
}

/// Whether its fractions are those of pivots, with their own signs.
fn is_of_pivots(table: Table) -> bool {
    match table {
        Table::Pivot | Table::WidePivot => true,
        _ => false,
    }
}

fn fractions(table: Table) -> [Frac; ROWS] {
    if let Table::Close = table {
        return neighbours();
    }
    let mut seed = 1;
    let mut rows = [Frac::ONE; ROWS];
    for row in rows.iter_mut() {
        let a = next(seed);
        let b = next(a);
        let c = next(b);
        seed = next(c);
        let x = fraction(table, a, b, c, seed);
        *row = if seed & 4096 == 0 || is_of_pivots(table) {
            x
        } else {
            x.neg()
        };
    }
    match table {
        Table::Pivot => rows[0] = Frac::new(1, PRIME_62),
        Table::WidePivot => rows[0] = Frac::new(1, PRIME_120),
        _ => {}
    }
    rows
}

fn digest_of(x: Frac) -> u128 {
    x.num().unsigned_abs() ^ x.den().unsigned_abs()
}

/// The outcome with an answer or a refusal.
fn with_answer(so_far: Outcome, answer: Option<Frac>) -> Outcome {
    let Outcome { digest, refusals } = so_far;
    match answer {
        Some(z) => Outcome {
            digest: digest ^ digest_of(z),
            refusals,
        },
        None => Outcome {
            digest,
            refusals: refusals.wrapping_add(1),
        },
    }
}

/// The outcome with the work on `x` and `y`, or, where it takes three, on `first` less `x` times `first`.
fn work_on(work: Work, x: Frac, y: Frac, first: Frac, so_far: Outcome) -> Outcome {
    let Outcome { digest, refusals } = so_far;
    match work {
        Work::Operation(Op::Div) if y.is_zero() => so_far,
        Work::Operation(op) => with_answer(so_far, op.apply(x, y).ok()),
        Work::SubProduct => with_answer(so_far, first.sub_product(x, first)),
        Work::Compare => Outcome {
            digest: digest ^ ((x.compare(y) == Ordering::Less) as u128),
            refusals,
        },
        Work::Divisor => Outcome {
            digest: digest ^ gcd(x.num().unsigned_abs(), y.den().unsigned_abs()),
            refusals,
        },
    }
}

fn run(table: Table, work: Work, turns: u32) -> Outcome {
    let rows = fractions(table);
    let mut outcome = Outcome {
        digest: 0,
        refusals: 0,
    };
    for _ in 0..turns {
        for (k, x) in rows.iter().enumerate() {
            outcome = work_on(work, *x, rows[(k + 1) % ROWS], rows[0], outcome);
        }
    }
    outcome
}

fn table_named(word: &str) -> Option<Table> {
    match word {
        "whole" => Some(Table::Whole),
        "short" => Some(Table::Short),
        "word" => Some(Table::Word),
        "related" => Some(Table::Related),
        "wide" => Some(Table::Wide),
        "close" => Some(Table::Close),
        "pivot" => Some(Table::Pivot),
        "widepivot" => Some(Table::WidePivot),
        _ => None,
    }
}

fn work_named(word: &str) -> Option<Work> {
    match word {
        "add" => Some(Work::Operation(Op::Add)),
        "sub" => Some(Work::Operation(Op::Sub)),
        "mul" => Some(Work::Operation(Op::Mul)),
        "div" => Some(Work::Operation(Op::Div)),
        "compare" => Some(Work::Compare),
        "gcd" => Some(Work::Divisor),
        "subproduct" => Some(Work::SubProduct),
        _ => None,
    }
}

const TABLES: [&str; 6] = ["whole", "short", "word", "related", "wide", "close"];

const PIVOTS: [&str; 2] = ["pivot", "widepivot"];

const WORKS: [&str; 6] = ["add", "sub", "mul", "div", "compare", "gcd"];

pub fn report(rt: &impl Print, table: &str, work: &str, turns: u32) -> io::Result<()> {
    match (table_named(table), work_named(work)) {
        (Some(over), Some(kind)) => {
            let Outcome { digest, refusals } = run(over, kind, turns);
            println!(rt; "{table} {work}: {digest}, refused {refusals}")
        }
        _ => println!(rt; "{table} {work}: unknown"),
    }
}

/// What each operation comes to over each table.
pub fn report_all(rt: &impl Print) -> io::Result<()> {
    for table in TABLES {
        for work in WORKS {
            report(rt, table, work, 1)?;
        }
    }
    for table in PIVOTS {
        report(rt, table, "subproduct", 1)?;
    }
    Ok(())
}
