// The reports of a run, and their texts.
ghost use Rattle.job_devices.specs.Text.{Writes};
ghost use Rattle.report_text.specs.Views.{IsReport, text_view};

use crate::ending::put_ending;
use crate::parametric::{ParametricReport, put_parametric};
use crate::plain::{put_basis_out, put_bcd_out, put_filed, put_inserted, put_setup, put_title};
use crate::ranges::put_ranges;
use crate::solution::put_solution;
use crate::verdict::put_verdict;
use card_definitions::CardFault;
use frac128::{Frac, Refused};
use job_devices::{Sink, WriteStop};
use listing_definitions::{Mark, Solver, VerbFault};
use listing_tables::{Ranging, Sheet, Standing};
use lp_definitions::{Evidence, Sense};
use lp_model::{Basis, Direction, Outcome, ParaRun, Point, Prices, RangeReport};
use name_table::Name;

/// What a statement of a run prints, or the end of the run.
#[derive(Clone, Copy, Debug)]
pub enum Report<'a> {
    /// The text of a TITLE.
    Title {
        text: &'a [u8],
    },
    /// A problem that was converted and filed, with its size.
    Converted {
        name: Name,
        rows: u32,
        columns: u32,
        entries: u32,
    },
    /// A problem that was made of another one and filed, with its size.
    Revised {
        name: Name,
        rows: u32,
        columns: u32,
        entries: u32,
    },
    /// A problem that was set up.
    SetUp {
        name: Name,
        sense: Sense,
    },
    /// A problem that was punched, with the number of its cards.
    BcdOut {
        name: Name,
        cards: u32,
    },
    /// The deck of a basis that was punched, by the name of its problem, with the number of its cards.
    BasisOut {
        name: Name,
        cards: u32,
    },
    /// A basis that was taken from a deck, by the name of the deck, with the number of its basic columns.
    Inserted {
        name: Name,
        basic: u32,
    },
    /// How the path of a solving verb ended, with the first operation that its check was refused, if one was.
    Solved {
        by: Solver,
        sheet: Sheet<'a>,
        outcome: &'a Outcome,
        refused: Option<Refused>,
    },
    /// A basis with its point and its prices, and the slack of each row: its right-hand side less its activity.
    Solution {
        mark: Mark,
        sheet: Sheet<'a>,
        basis: &'a Basis,
        point: &'a Point,
        prices: &'a Prices,
        slack: &'a [Frac],
    },
    /// A basis with its point, and the intervals in which it stays optimal.
    Ranges {
        sheet: Sheet<'a>,
        basis: &'a Basis,
        point: &'a Point,
        report: &'a RangeReport,
    },
    /// A parametric run: its first value, the row or set that changes, the greatest value asked for, its intervals and its end.
    Parametric {
        by: Solver,
        sheet: Sheet<'a>,
        change: Name,
        from: Frac,
        to: Frac,
        run: &'a ParaRun,
    },
    /// The end of the run.
    End(Ending<'a>),
}

/// How a run ends. A card is named by its number in the job, from 1.
#[derive(Clone, Copy, Debug)]
pub enum Ending<'a> {
    /// The run ends by itself, with this code.
    Code(u8),
    /// The words of the command line are refused.
    Words,
    /// A control card is refused.
    Control {
        fault: u8,
        card: u32,
    },
    /// A statement is refused.
    Verb {
        fault: VerbFault,
        card: u32,
    },
    /// The basis that a deck gives is singular. The dependency has a coefficient for each variable.
    Singular {
        card: u32,
        sheet: Sheet<'a>,
        dependency: &'a Direction,
    },
    /// The prices of the present basis aren't those of an optimal one: that of this variable is the first that is wrong.
    WrongPrices {
        card: u32,
        variable: u32,
    },
    /// A card of a deck is refused: a fault of a number has its number, and one of a bad character its column.
    Deck {
        fault: u8,
        card: u32,
        number: Option<u8>,
        column: Option<u8>,
    },
    /// The cards of the job are refused.
    Card(CardFault),
    /// The statement of this card has made as many steps as the limit allows.
    Limit {
        limit: u32,
        card: u32,
    },
    /// The run has made as many statements as it may.
    Statements,
    /// An operation is refused in the statement of this card. Where there is a basis, `way` marks the basics that the evidence
    /// speaks of.
    Overflow {
        evidence: &'a Evidence,
        basis: Option<&'a Basis>,
        way: &'a [bool],
        card: u32,
    },
    /// The job can't be read.
    ReadFault,
    /// The punch can't be written.
    PunchFault,
    /// There is no memory.
    Memory,
}

/// Writes the text of a report. At a stop a prefix of it is written.
pub fn text_of<P: Sink>(report: &Report<'_>, print: &mut P) -> Result<(), WriteStop>
    requires { IsReport report.now }
    ensures { Writes (P.taken print.old) (P.taken print.new) result (text_view report.now) }
{
    match *report {
        Report::Title { text } => put_title(print, text),
        Report::Converted {
            name,
            rows,
            columns,
            entries,
        } => put_filed(print, b"CONVERT", name, rows, columns, entries),
        Report::Revised {
            name,
            rows,
            columns,
            entries,
        } => put_filed(print, b"REVISE ", name, rows, columns, entries),
        Report::SetUp { name, sense } => put_setup(print, name, sense),
        Report::BcdOut { name, cards } => put_bcd_out(print, name, cards),
        Report::BasisOut { name, cards } => put_basis_out(print, name, cards),
        Report::Inserted { name, basic } => put_inserted(print, name, basic),
        Report::Solved {
            by,
            sheet,
            outcome,
            refused,
        } => put_verdict(print, by, sheet, outcome, refused),
        Report::Solution {
            mark,
            sheet,
            basis,
            point,
            prices,
            slack,
        } => {
            let standing = Standing {
                basis,
                point,
                prices,
                slack,
            };
            put_solution(print, mark, sheet, standing)
        }
        Report::Ranges {
            sheet,
            basis,
            point,
            report,
        } => {
            let ranging = Ranging {
                basis,
                point,
                report,
            };
            put_ranges(print, sheet, ranging)
        }
        Report::Parametric {
            by,
            sheet,
            change,
            from,
            to,
            run,
        } => {
            let report = ParametricReport {
                change,
                from,
                to,
                run,
            };
            put_parametric(print, by, sheet, report)
        }
        Report::End(ending) => put_ending(print, ending),
    }
}
