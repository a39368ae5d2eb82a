//! The machine of a run, over whatever SETUP keeps: its cells, the problems on file, the setup and the mark; the statements that ask
//! nothing of linear programming, as TITLE, MOVE, CONVERT, REVISE and BCDOUT; what the present cells select; what follows a finding; and
//! how a run ends.
#![tactic(auto)]

mod act;
mod bcdout;
mod cells;
mod describing;
mod end;
mod ending;
mod finding;
mod kept;
mod machine;
mod selecting;
mod solving;
mod taking;
mod title;

pub use act::{Act, AfterStatement, Halt};
pub use end::{End, Place, SingularBasis};
pub use ending::ending_of;
pub use finding::{Finding, act_of, mark_left, refused};
pub use kept::Kept;
pub use machine::{MAX_EXECUTED, Machine, problem_on_file, wanted_name};
pub use selecting::{Refusal, present_choice, select_present};
pub use solving::{SolvingVerb, solver_of};
pub use taking::DeckVerb;
