// Claims and numbers, as the listing has them.

use frac128::{Frac, Refused};
use listing_tables::Sheet;
use listing_words::Number;
use lp_model::NoMemory;
use name_table::Name;
use parametric_request::Change;
use thiserror::Error;

/// Why an answer isn't taken.
#[derive(Clone, Copy, Debug, Error)]
pub enum Stop {
    /// It isn't of its form, or it fails a test.
    #[error("the answer isn't of its form, or its numbers don't prove it")]
    Wrong,
    /// An operation of a test is refused, or a number is too long.
    #[error("an operation is refused, or a number is too long")]
    Unchecked,
    /// There is no memory.
    #[error("no memory")]
    NoMemory,
}

impl From<NoMemory> for Stop {
    ghost use Rattle.std.specs.Prelude.{◌≡◌};
    ghost use Rattle.listing_claims.specs.declared.claims.Stop.TheVariants as stops;

    ghost from_gives = { λ _ stop. stop ≡ stops.NoMemory };

    fn from(_refused: NoMemory) -> Stop {
        Stop::NoMemory
    }
}

impl From<Refused> for Stop {
    ghost use Rattle.std.specs.Prelude.{◌≡◌};
    ghost use Rattle.listing_claims.specs.declared.claims.Stop.TheVariants as stops;

    ghost from_gives = { λ _ stop. stop ≡ stops.Unchecked };

    fn from(_refused: Refused) -> Stop {
        Stop::Unchecked
    }
}

/// A parametric run that is asked for: the name of the row or set that changes, what changes by it, and the first and the last value. The
/// first one is of any length, as it may be where a run before it ended.
#[derive(Drop)]
pub struct AskedRun<'a> {
    pub name: Name,
    pub change: Change,
    pub from: Number<'a>,
    pub to: Frac,
}

/// A parametric run, and the sheet of which it is asked for.
#[derive(Clone, Copy)]
pub struct SheetRun<'a, 'b> {
    pub sheet: Sheet<'a>,
    pub request: &'a AskedRun<'b>,
}

/// A point, and a direction in which it goes on.
#[derive(Drop)]
pub struct Pair<'a> {
    pub point: Vec<Number<'a>>,
    pub direction: Vec<Number<'a>>,
}

/// What a verdict says of a linear program, with the numbers that are to prove it.
#[derive(Drop)]
pub enum Claim<'a> {
    /// There is a best point, with this objective.
    Optimal(Number<'a>),
    /// The lower limit of this variable is greater than its upper one.
    Crossed(u32),
    /// No point is feasible, by these multipliers.
    Infeasible(Vec<Number<'a>>),
    /// There is no best point, since one with this objective goes on in a direction.
    Unbounded(Number<'a>, Pair<'a>),
}

/// What SOLUTION prints of a point: the activities and the prices of all variables, and the slacks of the rows.
#[derive(Drop)]
pub struct Printed<'a> {
    pub point: Vec<Number<'a>>,
    pub prices: Vec<Number<'a>>,
    pub slacks: Vec<Number<'a>>,
}

/// The lines of an interval: the values and the prices of the variables, with their rates.
#[derive(Drop)]
pub struct Columns<'a> {
    pub value: Vec<Number<'a>>,
    pub value_rate: Vec<Number<'a>>,
    pub price: Vec<Number<'a>>,
    pub price_rate: Vec<Number<'a>>,
}

/// An interval of a parametric run: where it ends, and its lines.
#[derive(Drop)]
pub struct Part<'a> {
    pub to: Number<'a>,
    pub columns: Columns<'a>,
}

/// An interval in its place: whether it is the first of its run, where it begins, and the rest of it.
#[derive(Clone, Copy)]
pub struct PlacedPart<'a, 'b> {
    pub is_first: bool,
    pub from: &'a Number<'b>,
    pub part: &'a Part<'b>,
}

/// How a parametric run closes, with the numbers that are to prove it.
#[derive(Drop)]
pub enum Closing<'a> {
    /// At its last value.
    At(Number<'a>),
    /// Past this value there is no best point.
    Unbounded(Number<'a>, Pair<'a>),
    /// Past this value no point is feasible.
    Infeasible(Number<'a>, Vec<Number<'a>>),
}
