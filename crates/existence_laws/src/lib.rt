//! What there is: rates of each nonsingular set of variables, or a dependency; and the interval in which conditions hold. The functions do
//! nothing. Each promises laws, so that the check proves them.
#![tactic(auto)]

ghost use Rattle.existence_laws.specs.Bases.{BasisExistence};
ghost use Rattle.existence_laws.specs.Intervals.{IntervalsExist};
ghost use Rattle.existence_laws.specs.Ranges.{RangesExist};

/// Each set of as many variables as there are rows is nonsingular and has rates, or a first column of it depends on those before it; each
/// nonsingular basis has a tableau.
pub fn basis_existence()
    ensures { BasisExistence }
{}

/// The numbers at which finitely many conditions hold are those between two ends.
pub fn intervals_exist()
    ensures { IntervalsExist }
{}

/// Each optimal basis has the three lists of intervals that RANGE prints.
pub fn ranges_exist()
    ensures { RangesExist }
{}
