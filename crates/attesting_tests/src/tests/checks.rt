// What the checker of 128 bits finds, and what both checkers find alike.
use super::jobs::JOBS;
use super::listings::first_wrong;
use super::parametric_runs::{
    INFEASIBLE_PAST, LAMPS, MILK, RHS_INTERVALS, RHS_POINT, TWO_INTERVALS, UNBOUNDED_OPENING,
};
use super::plans::{BLANKS, STORE, TESTPROB, TIES, TWO_SOLUTIONS};
use super::refused::{
    BAD_INSERT_REFUSED, FAR_POINT, GREAT, INSERT_REFUSED, RANGE_AFTER_PRIMAL, RANGE_REFUSED,
};
use super::verdicts::{CONFLICT, INFEASIBLE, UNBOUNDED};
use checks_of_128_bits::Of128Bits;
use checks_of_any_length::OfAnyLength;
use listing_claims::Checks;
use std::alloc::Global;
use std::test::Fail;

#[test]
fn listings_are_attested(rt: HostRuntime) -> Result<(), Fail> {
    assert_eq!(rt;
        first_wrong::<Of128Bits>(rt.alloc(), &[&STORE, &TESTPROB, &CONFLICT])?,
        None
    );
    Ok(())
}

#[test]
fn refused_operations_are_reported(rt: HostRuntime) -> Result<(), Fail> {
    assert_eq!(rt;
        first_wrong::<Of128Bits>(rt.alloc(), &[&GREAT, &FAR_POINT])?,
        None
    );
    Ok(())
}

#[test]
fn jobs_decide_what_is_due(rt: HostRuntime) -> Result<(), Fail> {
    assert_eq!(rt; first_wrong::<Of128Bits>(rt.alloc(), &JOBS)?, None);
    Ok(())
}

// The first of the listings with short numbers that is answered otherwise by a checker.
fn first_wrong_in_short<T: Checks>(
    alloc: Global,
) -> Result<Option<(&'static str, &'static str)>, Fail> {
    first_wrong::<T>(
        alloc,
        &[
            &TWO_SOLUTIONS,
            &TIES,
            &BLANKS,
            &INFEASIBLE,
            &UNBOUNDED,
            &TWO_INTERVALS,
            &LAMPS,
            &UNBOUNDED_OPENING,
            &INFEASIBLE_PAST,
            &MILK,
            &RHS_INTERVALS,
            &RHS_POINT,
            &RANGE_REFUSED,
            &RANGE_AFTER_PRIMAL,
            &INSERT_REFUSED,
            &BAD_INSERT_REFUSED,
        ],
    )
}

// A selection that is refused is among them.
#[test]
fn short_numbers_are_answered_alike(rt: HostRuntime) -> Result<(), Fail> {
    assert_eq!(rt; first_wrong_in_short::<Of128Bits>(rt.alloc())?, None);
    assert_eq!(rt; first_wrong_in_short::<OfAnyLength>(rt.alloc())?, None);
    Ok(())
}
