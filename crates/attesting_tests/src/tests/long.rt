// What the checker of any length finds.
use super::last_values::{CONTINUATIONS, LAST_VALUES};
use super::listings::{Edit, Finding, edited, finds, first_wrong};
use super::long_plans::{CHAIN, CHAIN_OBJECTIVE, CHAIN_RHS, LONG_DIRECTION, LONG_RAY};
use super::plans::STORE;
use super::random_plans::{
    CUT_SECOND_ROW, CUT_THIRD_ROW, CUT_VERDICT, FIRST_PLAN, MISSING_ROW, RandomPlan, SECOND_PLAN,
    THIRD_PLAN, WRONG_LETTER, WRONG_SLACK,
};
use super::refused::{FAR_POINT, GREAT};
use checks_of_128_bits::Of128Bits;
use checks_of_any_length::OfAnyLength;
use std::alloc::Global;
use std::test::Fail;
use test_decks::parts::{PLAN_COLUMNS, PLAN_ROWS};
use test_decks::programs::SOLVE;

#[test]
fn long_numbers_are_tested(rt: HostRuntime) -> Result<(), Fail> {
    assert_eq!(rt;
        first_wrong::<OfAnyLength>(
            rt.alloc(),
            &[
                &CHAIN,
                &CHAIN_OBJECTIVE,
                &CHAIN_RHS,
                &LONG_RAY,
                &LONG_DIRECTION
            ]
        )?,
        None
    );
    Ok(())
}

#[test]
fn random_plans_are_tested(rt: HostRuntime) -> Result<(), Fail> {
    let plans: [&RandomPlan; 9] = [
        &FIRST_PLAN,
        &SECOND_PLAN,
        &THIRD_PLAN,
        &WRONG_LETTER,
        &WRONG_SLACK,
        &MISSING_ROW,
        &CUT_VERDICT,
        &CUT_SECOND_ROW,
        &CUT_THIRD_ROW,
    ];
    for plan in plans {
        assert!(rt; plan.is_found::<OfAnyLength>(rt.alloc())?, "{}", plan.name);
    }
    Ok(())
}

// A test that 128 bits refuse is made.
#[test]
fn no_test_is_refused(rt: HostRuntime) -> Result<(), Fail> {
    for (listing, found) in [
        (&GREAT, Finding::Wrong(4)),
        (&FAR_POINT, Finding::Attested(3)),
    ] {
        let text = listing.text.concat(rt.alloc())?;
        assert!(rt;
            finds::<OfAnyLength>(rt.alloc(), listing.job, &text, found)?,
            "{}",
            listing.name
        );
    }
    Ok(())
}

// Where a parametric run ends at a value that no cell holds, the walk goes on, also with another run that begins there.
#[test]
fn long_last_values_are_left(rt: HostRuntime) -> Result<(), Fail> {
    assert_eq!(rt; first_wrong::<OfAnyLength>(rt.alloc(), &LAST_VALUES)?, None);
    for continuation in &CONTINUATIONS {
        assert!(rt;
            continuation.is_found::<OfAnyLength>(rt.alloc())?,
            "{}",
            continuation.name
        );
    }
    Ok(())
}

// The word UNCHECKED says nothing of a verdict here. By 128 bits it is wrong where the test is made.
#[test]
fn an_unchecked_verdict_is_tested(rt: HostRuntime) -> Result<(), Fail> {
    let (alloc, store) = (rt.alloc(), &STORE);
    let text = edited(
        alloc,
        &store.text.concat(alloc)?,
        Edit::Text(b"CHECKED", b"UNCHECKED MUL 2 3"),
    )?;
    let text = text.unwrap_or(Vec::new(alloc));
    assert!(rt; finds::<OfAnyLength>(alloc, store.job, &text, Finding::Attested(5))?);
    assert!(rt; finds::<Of128Bits>(alloc, store.job, &text, Finding::Wrong(4))?);
    Ok(())
}

const COUNTED: &[u8] = b"NAME          T
ROWS
 N  COST
 N  SUM
COLUMNS
    X         SUM       1
ENDATA
";

// A plan whose column stands at a number of so many ones.
fn plan_of_ones(alloc: Global, digits: usize) -> Result<Vec<u8>, Fail> {
    let mut ones = Vec::new(alloc);
    for _ in 0..digits {
        ones.push(b'1')?;
    }
    let pieces: [&[u8]; 11] = [
        b"CONVERT T        ROWS 2 COLUMNS 1 ENTRIES 1
SETUP   T        MIN
PRIMAL OPTIMAL STEPS 0 OBJECTIVE 0 CHECKED
",
        PLAN_ROWS,
        b"    1 COST     BS 0 0 NONE NONE 0\n    2 SUM      BS ",
        &ones,
        b" -",
        &ones,
        b" NONE NONE 0\n",
        PLAN_COLUMNS,
        b"    3 X        BS ",
        &ones,
        b" 0 0 NONE 0\nEND 0\n",
    ];
    Ok(pieces.concat(alloc)?)
}

#[test]
fn numbers_of_100000_digits_are_read(rt: HostRuntime) -> Result<(), Fail> {
    let alloc = rt.alloc();
    for (digits, found) in [
        (100_000, Finding::Attested(4)),
        (100_001, Finding::Unchecked(4)),
    ] {
        let text = plan_of_ones(alloc, digits)?;
        assert!(rt;
            finds::<OfAnyLength>(alloc, &[SOLVE, COUNTED], &text, found)?,
            "{digits}"
        );
    }
    Ok(())
}
