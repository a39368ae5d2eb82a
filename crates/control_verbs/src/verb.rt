// Statements, and their verbs with their arguments.

use crate::text::Text;
use control_definitions::{Demand, NameCell, NumberCell};
use frac128::Frac;
use lp_definitions::Sense;
use name_table::Name;
use std::marker::Model;

/// The options of SETUP: the bound set and the range set, if one is to apply, and what is to be best.
#[derive(Clone, Copy, Debug)]
pub struct SetupOptions {
    pub bound: Option<Name>,
    pub range: Option<Name>,
    pub sense: Sense,
}

impl Model for SetupOptions {
    ghost use Rattle.control_definitions.specs.Program.{SetupOptions as Options};

    ghost Value = { Options };

    ghost view = { λ options. record { bound = options.bound; range = options.range; sense = options.sense } };

    ghost inverse = { λ options. record { bound = options.bound; range = options.range; sense = options.sense } };
}

/// A verb with its arguments. `L` is what stands for a label: its name on a card, and a position in a program. A position is
/// the number of a statement, from 1, or one more than their count for the program's end.
#[derive(Debug, Drop)]
pub enum Verb<L> {
    Initialz,
    Title(Text),
    MoveName(NameCell, Name),
    MoveNumber(NumberCell, Frac),
    /// The steps that one verb may take.
    MoveLimit(Option<u32>),
    Mvadr(Demand, L),
    Goto(L),
    Convert,
    Setup(SetupOptions),
    Primal,
    Dual,
    Revise,
    Ranging,
    Paraobj,
    Pararhs,
    Solution,
    Bcdout,
    Punch,
    Insert,
    Exit,
}

/// A verb with the number of its card.
#[derive(Debug, Drop)]
pub struct Statement<L> {
    pub card: u32,
    pub verb: Verb<L>,
}
