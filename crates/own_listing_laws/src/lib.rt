//! The listing that a run itself prints is never found wrong. The functions here do nothing. Each promises a law, so that the check
//! proves it.
#![tactic(auto)]

ghost use Rattle.own_listing_laws.specs.Laws.{ReadsBack, TestsPass, JudgedRight, WalksOn, NeverWrong};
ghost use Rattle.own_listing_laws.specs.Attestable.{ComesAttested};
ghost use Rattle.own_listing_laws.specs.AnyLength.{NeverWrongAtAnyLength, JudgedRightAtAnyLength};
ghost use Rattle.own_listing_laws.specs.WholeRuns.{ComesAttestedAtAnyLength};

/// What a run prints of a linear program is read back of its text.
pub fn reads_back()
    ensures { ReadsBack }
{}

/// A test of what a run prints never fails.
pub fn tests_pass()
    ensures { TestsPass }
{}

/// A verdict of PRIMAL or DUAL with the word CHECKED, and the SOLUTION that shows it, are judged right.
pub fn judged_right()
    ensures { JudgedRight }
{}

/// And the walk goes on past it.
pub fn walks_on()
    ensures { WalksOn }
{}

/// The listing of a run is never found wrong.
pub fn never_wrong()
    ensures { NeverWrong }
{}

/// In numbers of any length it isn't found wrong either.
pub fn never_wrong_at_any_length()
    ensures { NeverWrongAtAnyLength }
{}

/// And each verdict, each SOLUTION and each parametric run is judged right.
pub fn judged_right_at_any_length()
    ensures { JudgedRightAtAnyLength }
{}

/// The listing of an attestable run is attested.
pub fn comes_attested()
    ensures { ComesAttested }
{}

/// And in numbers of any length that of each run in which nothing is open.
pub fn comes_attested_at_any_length()
    ensures { ComesAttestedAtAnyLength }
{}
