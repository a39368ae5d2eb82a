//! Decks of bases, written out: the cards of a small problem's opening basis, of its optimal one, and of another.

ghost use Rattle.lp_definitions.specs.Basis.{IsBasis};

use crate::decks::{problem_of, selected};
use crate::engines::placed;
use basis_deck::punch_basis;
use job_devices::SureSink;
use lp_model::{Basis, Lp, Sense, Status};
use std::alloc::Global;
use std::test::Fail;
use test_decks::problems::SMALL;

/// Takes a nonbasic to its upper limit, if it has one.
fn raise(lp: &Lp, basis: &mut Basis, q: u32) -> bool
    requires { IsBasis lp.now basis.old }
    ensures { IsBasis lp.now basis.new }
{
    let size = lp.number_of_variables();
    if q == 0 || q > size || basis.status(q) == Status::Bs || lp.upper_limit(q).is_none() {
        return false;
    }
    basis.flip(q, Status::Ul);
    true
}

/// The basis with these columns in place of rows, and this column at its upper limit. In SMALL, COST, UPR, LOR and EQ have the numbers 1
/// to 4, and A, B and C 5 to 7; B opens at its upper limit.
struct Case {
    pairs: &'static [(u32, u32)],
    up: Option<u32>,
    cards: u32,
    deck: &'static [u8],
}

const CASES: [Case; 3] = [
    Case {
        pairs: &[],
        up: None,
        cards: 2,
        deck: b"NAME          SMALL\nENDATA\n",
    },
    Case {
        pairs: &[(4, 7)],
        up: Some(5),
        cards: 4,
        deck: b"NAME          SMALL\n XL C         EQ\n UL A\nENDATA\n",
    },
    Case {
        pairs: &[(2, 7), (4, 5)],
        up: None,
        cards: 4,
        deck: b"NAME          SMALL\n XU A         UPR\n XL C         EQ\nENDATA\n",
    },
];

/// Whether the basis has so many cards of this text.
fn is_punched(alloc: Global, case: &Case) -> Result<bool, Fail> {
    let problem = problem_of(alloc, SMALL)?;
    let lp = selected(alloc, &problem, Sense::Min)?;
    let mut basis = placed(alloc, &lp, case.pairs)?;
    if let Some(q) = case.up
        && !raise(&lp, &mut basis, q)
    {
        return Ok(false);
    }
    let mut sink = SureSink::new(alloc)?;
    let answer = punch_basis(&problem, &lp, &basis, &mut sink);
    Ok(answer == Ok(case.cards) && sink.bytes() == case.deck)
}

#[test]
fn a_basis_is_punched(rt: HostRuntime) -> Result<(), Fail> {
    for (place, case) in CASES.iter().enumerate() {
        assert!(rt; is_punched(rt.alloc(), case)?, "the basis at {place}");
    }
    Ok(())
}
