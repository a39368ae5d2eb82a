// SOLUTION and RANGE.
ghost use Rattle.std.specs.Prelude.{◌≡◌, ℕ, None, Some, IfSome, List};
ghost use Rattle.problem_definitions.specs.Problem.{Problem};
ghost use Rattle.problem_file.specs.Filed.{filed_under};
ghost use Rattle.lp_definitions.specs.Basis.{Basics, IsOptimalBasis};
ghost use Rattle.listing_tables.specs.Lines.{solution_lines, range_lines};
ghost use Rattle.listing_tables.specs.Sheets.{IsSheet};
ghost use Rattle.basis_values.specs.Calls.{IsAtBasis, StaysAt};
ghost use Rattle.answer_definitions.specs.Sections.{IsSolutionOf, IsRanged};
ghost use Rattle.verb_answers.specs.Answers.{sheet_view, AreSolutionValues, AreRanged};
ghost use Rattle.fitting_answers.specs.Real.{linear_programming_of_128_bits};
ghost use Rattle.setup_verbs.specs.Standing.{IsReady, IsSolved, StaysSound};
ghost use Rattle.setup_verbs.specs.Statements.{ExecutesOnAny};
ghost use Rattle.run_machine.specs.Findings.{ReportsFinding};
ghost use Rattle.showing_verbs.specs.Shown.{IsSameSetup, LinesFound, RangesFound, ViewFound, Shows, verb_of, view_of};
ghost use Rattle.showing_verbs.specs.declared.present.View.TheVariants as views;

use job_devices::Sink;
use listing_definitions::{Mark, VerbFault};
use listing_tables::Sheet;
use lp_model::{Basis, Engine, Rates, Stop};
use problem_file::ProblemFile;
use report_sizes::recall_solution;
use report_text::{Report, text_of};
use run_machine::{Act, Finding, Halt, Machine, Refusal, act_of, problem_on_file};
use setup_verbs::{Setup, overflow_at};
use std::alloc::Global;
use verb_answers::{Ranged, SolutionValues, ranges_of, solution_of};

/// A verb that shows the present basis.
#[derive(Clone, Copy, Debug)]
pub enum ShowingVerb {
    Solution,
    Ranging,
}

/// What is shown of a basis: its point and its prices, with the mark of the verdict; or the intervals in which it stays optimal.
#[derive(Clone, Copy)]
pub enum View {
    Lines(Mark),
    Intervals,
}

// What a verb shows with this mark, or why it is refused.
fn view_of(verb: ShowingVerb, mark: Option<Mark>) -> Result<View, VerbFault>
    ensures { result ≡ view_of verb mark }
{
    match (verb, mark) {
        (_, None) => Err(VerbFault::NotSolved),
        (ShowingVerb::Solution, Some(mark)) => Ok(View::Lines(mark)),
        (ShowingVerb::Ranging, Some(Mark::Optimal)) => Ok(View::Intervals),
        (ShowingVerb::Ranging, Some(Mark::Infeasible | Mark::Unbounded)) => {
            Err(VerbFault::NotOptimal)
        }
    }
}

// Prints the point and the prices of a basis.
fn print_lines<P: Sink>(
    sheet: Sheet<'_>,
    basis: &Basis,
    mark: Mark,
    viewed: &SolutionValues,
    print: &mut P,
) -> Result<Finding, Halt>
    requires sheet { IsSheet sheet }
    requires no_change { sheet.lp.now.change ≡ None }
    requires listed { AreSolutionValues sheet.lp.now basis.now viewed.now }
    requires viewed { IsSolutionOf (sheet_view sheet) basis.now
        (solution_lines sheet.problem.now sheet.lp.now basis.now viewed.now.point viewed.now.prices
        viewed.now.slack.items) }
    ensures { (before : List Basics) →
        ReportsFinding (LinesFound (sheet_view sheet.entry) basis.now before mark)
        (P.taken print.old) (P.taken print.new) result }
{
    recall_solution(sheet, basis, &viewed.point, &viewed.prices, &viewed.slack);
    let report = Report::Solution {
        mark,
        sheet,
        basis,
        point: &viewed.point,
        prices: &viewed.prices,
        slack: &viewed.slack,
    };
    text_of(&report, print)?;
    Ok(Finding::Printed)
}

// Prints the intervals of a basis.
fn print_ranges<P: Sink>(
    sheet: Sheet<'_>,
    basis: &Basis,
    ranged: &Ranged,
    print: &mut P,
) -> Result<Finding, Halt>
    requires sheet { IsSheet sheet }
    requires no_change { sheet.lp.now.change ≡ None }
    requires listed { AreRanged sheet.lp.now basis.now ranged.now }
    requires ranged { IsRanged (sheet_view sheet) basis.now
        (range_lines sheet.lp.now basis.now ranged.now.point ranged.now.report
        sheet.problem.now) }
    ensures { (before : List Basics) →
        ReportsFinding (RangesFound (sheet_view sheet.entry) basis.now before) (P.taken print.old)
        (P.taken print.new) result }
{
    let report = Report::Ranges {
        sheet,
        basis,
        point: &ranged.point,
        report: &ranged.report,
    };
    text_of(&report, print)?;
    Ok(Finding::Printed)
}

// Makes what is shown of a basis, and prints it.
fn show_basis<P: Sink, R: Rates>(
    alloc: Global,
    sheet: Sheet<'_>,
    basis: &Basis,
    rates: &mut R,
    view: View,
    print: &mut P,
) -> Result<Finding, Halt>
    requires sheet { IsSheet sheet }
    requires no_change { sheet.lp.now.change ≡ None }
    requires optimal { view ≡ views.Intervals → IsOptimalBasis sheet.lp.now basis.now }
    requires rates { IsAtBasis (R.state rates.old) sheet.lp.now basis.now }
    ensures tells { ReportsFinding (ViewFound view (sheet_view sheet.entry) basis.now
        (R.state rates.old).waypoints) (P.taken print.old) (P.taken print.new) result }
    ensures rates { StaysAt (R.state rates.old) (R.state rates.new) sheet.entry.lp.now basis.now }
{
    match view {
        View::Lines(mark) => match solution_of(alloc, sheet, basis, rates) {
            Ok(viewed) => print_lines(sheet, basis, mark, &viewed, print),
            Err(Stop::Overflow(evidence)) => overflow_at(alloc, sheet.lp, basis, rates, evidence),
            Err(Stop::NoMemory) => Err(Halt::NoMemory),
        },
        View::Intervals => match ranges_of(alloc, sheet, basis, rates) {
            Ok(ranged) => print_ranges(sheet, basis, &ranged, print),
            Err(Stop::Overflow(evidence)) => overflow_at(alloc, sheet.lp, basis, rates, evidence),
            Err(Stop::NoMemory) => Err(Halt::NoMemory),
        },
    }
}

// Shows the present basis of a setup.
fn show_setup<E: Engine, P: Sink>(
    alloc: Global,
    file: &ProblemFile,
    setup: &mut Setup<E>,
    view: View,
    print: &mut P,
) -> Result<Finding, Halt>
    requires ready { IsReady file.now setup.old }
    requires optimal { view ≡ views.Intervals → IsOptimalBasis setup.old.lp setup.old.basis }
    ensures tells { (problem : Problem ℕ) → filed_under setup.old.name file.now ≡ Some problem →
        ReportsFinding (Shows view problem setup.old) (P.taken print.old) (P.taken print.new)
        result }
    ensures ready { IsReady file.now setup.new }
    ensures same { IsSameSetup setup.old setup.new }
{
    let problem = problem_on_file(file, &setup.name);
    let sheet = Sheet {
        problem,
        lp: &setup.lp,
    };
    show_basis(alloc, sheet, &setup.basis, &mut setup.engine, view, print)
}

/// SOLUTION and RANGE: prints the point and the prices of the present basis, or the intervals in which it stays optimal. It needs a setup
/// and a mark, RANGE the mark OPTIMAL, and speaks of the linear program that PRIMAL solved.
pub fn show_present<E: Engine, P: Sink>(
    alloc: Global,
    machine: &mut Machine<Setup<E>>,
    print: &mut P,
    card: u32,
    verb: ShowingVerb,
) -> Result<Act, Halt>
    requires ready { IfSome machine.old.setup (IsReady machine.old.file) }
    requires solved { IfSome machine.old.mark
        (λ mark. IfSome machine.old.setup
        (IsSolved mark machine.old.cells.xobj machine.old.cells.xrhs machine.old.file)) }
    ensures acts { ExecutesOnAny linear_programming_of_128_bits (verb_of verb) card
        (P.taken print.old) (P.taken print.new) machine.old machine.new result }
    ensures sound { StaysSound machine.old machine.new }
{
    let Some(setup) = &mut machine.setup else {
        return Refusal::Fault(VerbFault::NoSetup).act(card);
    };
    let view = match view_of(verb, machine.mark) {
        Ok(view) => view,
        Err(fault) => return Refusal::Fault(fault).act(card),
    };
    let finding = show_setup(alloc, &machine.file, setup, view, print)?;
    Ok(act_of(&machine.cells, card, finding))
}
