//! The problems, as free decks, and the linear programs of decks.

ghost use Rattle.std.specs.Prelude.{◌≡◌, None, IfOk};

use card_reader::read_job;
use job_devices::SureSource;
use lp_model::{Lp, Sense};
use lp_setup::{Choice, SetupOptions, select};
use mps_convert::convert;
use problem_file::Problem;
use std::alloc::Global;
use std::test::Fail;

/// COST, LIM1, LIM2 and MYEQN have the numbers 1 to 4, and X, Y and Z 5 to 7. The least cost is 54.
pub const TESTPROB: &[u8] = b"NAME          TESTPROB  FREE
ROWS
 N COST
 L LIM1
 G LIM2
 E MYEQN
COLUMNS
 X COST 1 LIM1 1
 X LIM2 1
 Y COST 4 LIM1 1
 Y MYEQN -1
 Z COST 9 LIM2 1
 Z MYEQN 1
RHS
 B LIM1 5 LIM2 10
 B MYEQN 7
BOUNDS
 UP S X 4
 LO S Y -1
 UP S Y 1
ENDATA
";

/// The same where Z is at most 3, which no point keeps.
pub const SHORT_OF_Z: &[u8] = b"NAME          TESTPROB  FREE
ROWS
 N COST
 L LIM1
 G LIM2
 E MYEQN
COLUMNS
 X COST 1 LIM1 1
 X LIM2 1
 Y COST 4 LIM1 1
 Y MYEQN -1
 Z COST 9 LIM2 1
 Z MYEQN 1
RHS
 B LIM1 5 LIM2 10
 B MYEQN 7
BOUNDS
 UP S X 4
 LO S Y -1
 UP S Y 1
 UP S Z 3
ENDATA
";

/// Beale's problem, at which a path without the least-index rule comes back to where it began.
pub const BEALE: &[u8] = b"NAME          BEALE     FREE
ROWS
 N COST
 L A
 L B
 L C
COLUMNS
 X1 COST -0.75 A 0.25
 X1 B 0.5
 X2 COST 150 A -60
 X2 B -90
 X3 COST -0.02 A -0.04
 X3 B -0.02 C 1
 X4 COST 6 A 9
 X4 B 3
RHS
 R C 1
ENDATA
";

/// Chvatal's problem, which cycles where the variable with the greatest rate comes in. The greatest objective is sought.
pub const CHVATAL: &[u8] = b"NAME          CHVATAL   FREE
ROWS
 N GAIN
 L A
 L B
 L C
COLUMNS
 X1 GAIN 10 A 0.5
 X1 B 0.5 C 1
 X2 GAIN -57 A -5.5
 X2 B -1.5
 X3 GAIN -9 A -2.5
 X3 B -0.5
 X4 GAIN -24 A 9
 X4 B 1
RHS
 R C 1
ENDATA
";

/// Kuhn's problem, which cycles where the variable with the least rate comes in.
pub const KUHN: &[u8] = b"NAME          KUHN      FREE
ROWS
 N COST
 L A
 L B
 L C
COLUMNS
 X1 COST -2 A -2
 X1 B 1 C 2
 X2 COST -3 A -9
 X2 B 3 C 3
 X3 COST 1 A 1
 X3 B -1 C -1
 X4 COST 12 A 9
 X4 B -6 C -12
RHS
 R C 2
ENDATA
";

/// The problem of a deck.
pub fn problem_of(alloc: Global, deck: &[u8]) -> Result<Problem, Fail> {
    let mut source = SureSource::new(alloc, deck)?;
    let cards = read_job(alloc, &mut source)?;
    let last = cards.count();
    if last == 0 {
        return Err(Fail::from("no card"));
    }
    let problem = convert(alloc, &cards, 1, last, None)
        .ok()
        .ok_or("a problem")?;
    Ok(problem)
}

/// The linear program of a problem, with the first set of each kind that it has.
pub fn selected(alloc: Global, problem: &Problem, sense: Sense) -> Result<Lp, Fail>
    ensures { IfOk result (λ lp. lp.change ≡ None) }
{
    let options = SetupOptions {
        bound: problem.bounds().first().map(|set| set.name),
        range: problem.ranges().first().map(|set| set.name),
        sense,
    };
    let choice = Choice {
        objective: None,
        rhs: None,
        options,
    };
    let lp = select(alloc, problem, &choice)
        .ok()
        .ok_or("a linear program")?;
    if lp.change.is_some() {
        return Err(Fail::from("a change"));
    }
    Ok(lp)
}

/// The linear program of a deck, with the first set of each kind that it has.
pub fn program_of(alloc: Global, deck: &[u8], sense: Sense) -> Result<Lp, Fail>
    ensures { IfOk result (λ lp. lp.change ≡ None) }
{
    let problem = problem_of(alloc, deck)?;
    selected(alloc, &problem, sense)
}
