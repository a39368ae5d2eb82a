// PARAOBJ and PARARHS.
ghost use Rattle.std.specs.Prelude.{◌≡◌, ◌≢◌, ◌≤◌, ℕ, Option, IfSome, IfOk, IfErr, length};
ghost use Rattle.problem_definitions.specs.Problem.{Problem};
ghost use Rattle.problem_file.specs.Filed.{filed_under};
ghost use Rattle.frac128.specs.declared.Refused.{Refused as RefusedOperation};
ghost use Rattle.lp_model.specs.declared.reports.ParaReport.TheVariants as para_reports;
ghost use Rattle.basis_values.specs.Calls.{IsAtBasis};
ghost use Rattle.report_text.specs.Verdicts.{IsOutcome};
ghost use Rattle.report_text.specs.Parametric.{IsParametric};
ghost use Rattle.fitting_answers.specs.Real.{linear_programming_of_128_bits};
ghost use Rattle.fitting_answers.specs.Fitting.{EvidenceFits};
ghost use Rattle.verb_answers.specs.Reports.{sheet_view};
ghost use Rattle.verb_answers.specs.RunReports.{IsAnswered, IsPrintable};
ghost use Rattle.run_machine.specs.Standing.{AreDemands};
ghost use Rattle.setup_verbs.specs.Standing.{IsReady, StaysSound};
ghost use Rattle.setup_verbs.specs.Statements.{ExecutesOnAny};
ghost use Rattle.run_machine.specs.Findings.{ReportsFinding};
ghost use Rattle.parametric_request.specs.Asking.{verb_of};
ghost use Rattle.solving_verbs.specs.ParametricVerbs.{refusal_of, parametric_run_view, BeginsRun, StopsParametricRun, ParametricRunFinds, ReportsAnswer};
ghost use Rattle.solving_verbs.specs.ParametricVerbs.{ParametricRuns, IsRunOverflow, value_left, cells_left};

use crate::requested_run::{ParametricRun, run_of};
use crate::solving::mark_of;
use bounded_primal::PrimalStop;
use frac128::{Frac, Refused};
use job_devices::Sink;
use listing_definitions::VerbFault;
use listing_tables::Sheet;
use lp_definitions::Evidence;
use lp_model::{Basis, Engine, Lp, Outcome, ParaEnd, ParaReport, ParaRun, Rates};
use parametric_request::{ParametricVerb, RequestStop, request_of};
use problem_file::ProblemFile;
use report_sizes::{recall_chain, recall_verdict};
use report_text::{Report, text_of};
use run_cells::{Cells, NumberCell};
use run_machine::{Act, Finding, Halt, Machine, Refusal, act_of, problem_on_file, refused};
use setup_verbs::{Setup, overflow_at, select_again};
use std::alloc::Global;
use verb_answers::{RunReport, objective_run_of, rhs_run_of};

// The number of the formula of a row's limit at a value of the parameter.
const LIMIT_FORMULA: u8 = 13;

// Makes the run from a basis.
fn run_from<R: Rates>(
    alloc: Global,
    sheet: Sheet<'_>,
    basis: &mut Basis,
    rates: &mut R,
    parametric_run: &ParametricRun,
) -> Result<RunReport, PrimalStop>
    requires { BeginsRun sheet (R.state rates.old) basis.old parametric_run.now }
    ensures answered { IfOk result (IsAnswered sheet.entry (parametric_run_view parametric_run.now)
        basis.old basis.new (R.state rates.old).waypoints (R.state rates.new).waypoints) }
    ensures printable { IfOk result (λ answer. IsPrintable sheet.entry answer.report) }
    ensures stops { IfErr result (StopsParametricRun sheet.entry
        (parametric_run_view parametric_run.now) basis.old basis.new (R.state rates.old).waypoints
        (R.state rates.new).waypoints) }
    ensures rates { IsAtBasis (R.state rates.new) sheet.entry.lp.now basis.new }
{
    match parametric_run {
        ParametricRun::Row { run, .. } => objective_run_of(alloc, sheet, basis, rates, run),
        ParametricRun::Set { run, .. } => rhs_run_of(alloc, sheet, basis, rates, run),
    }
}

// Prints the verdict on an opening that isn't optimal.
fn print_opening<P: Sink>(
    sheet: Sheet<'_>,
    parametric_run: &ParametricRun,
    outcome: &Outcome,
    refused: Option<Refused>,
    print: &mut P,
) -> Result<Finding, Halt>
    requires { IsOutcome sheet outcome.now }
    ensures { ReportsAnswer sheet.entry parametric_run.now
        (record { report = para_reports.Opening outcome.now; refused = refused })
        (P.taken print.old) (P.taken print.new) result }
{
    recall_verdict(sheet, outcome, &refused);
    let verdict = Report::Solved {
        by: parametric_run.solver(),
        sheet,
        outcome,
        refused,
    };
    text_of(&verdict, print)?;
    Ok(Finding::Ended(mark_of(outcome)))
}

// The value at which a run ends.
fn last_value(run: &ParaRun, to: Frac) -> Frac
    ensures { result ≡ value_left to run.now.end }
{
    match &run.end {
        ParaEnd::AtMax => to,
        ParaEnd::Unbounded { past, .. } | ParaEnd::Infeasible { past, .. } => *past,
    }
}

// Prints the intervals of a run and its end.
fn print_chain<P: Sink>(
    sheet: Sheet<'_>,
    parametric_run: &ParametricRun,
    run: &ParaRun,
    print: &mut P,
) -> Result<Finding, Halt>
    requires { IsParametric sheet run.now }
    ensures { (refused : Option RefusedOperation) → ReportsAnswer sheet.entry parametric_run.now
        (record { report = para_reports.Run run.now; refused = refused })
        (P.taken print.old) (P.taken print.new) result }
{
    let to = parametric_run.to();
    recall_chain(sheet, to, run);
    let report = Report::Parametric {
        by: parametric_run.solver(),
        sheet,
        change: parametric_run.change(),
        from: parametric_run.from(),
        to,
        run,
    };
    text_of(&report, print)?;
    Ok(Finding::RanThrough(last_value(run, to)))
}

// Prints what a run has come to.
fn print_run<P: Sink>(
    sheet: Sheet<'_>,
    parametric_run: &ParametricRun,
    answer: &RunReport,
    print: &mut P,
) -> Result<Finding, Halt>
    requires { IsPrintable sheet answer.now.report }
    ensures { ReportsAnswer sheet.entry parametric_run.now answer.now (P.taken print.old)
        (P.taken print.new) result }
{
    match &answer.report {
        ParaReport::Opening(outcome) => {
            print_opening(sheet, parametric_run, outcome, answer.refused, print)
        }
        ParaReport::Run(run) => print_chain(sheet, parametric_run, run, print),
    }
}

// An operation of a run is refused: at a basis, or in a limit of a row at the first value, which has no place.
fn overflow_in<R: Rates>(
    alloc: Global,
    lp: &Lp,
    basis: &Basis,
    rates: &R,
    evidence: Evidence,
) -> Result<Finding, Halt>
    requires rates { IsAtBasis (R.state rates.now) lp.now basis.now }
    requires way { evidence.formula ≢ 13 → evidence.way ≤ length (R.state rates.now).waypoints }
    ensures tells { IsRunOverflow basis.now (R.state rates.now).waypoints evidence result }
    ensures fits { EvidenceFits evidence }
{
    if evidence.formula == LIMIT_FORMULA {
        return Ok(Finding::Overflow {
            evidence,
            place: None,
        });
    }
    overflow_at(alloc, lp, basis, rates, evidence)
}

// Makes the run from a basis, and prints what it has come to.
fn follow<P: Sink, R: Rates>(
    alloc: Global,
    sheet: Sheet<'_>,
    basis: &mut Basis,
    rates: &mut R,
    parametric_run: &ParametricRun,
    print: &mut P,
) -> Result<Finding, Halt>
    requires { BeginsRun sheet (R.state rates.old) basis.old parametric_run.now }
    ensures tells { ReportsFinding (ParametricRunFinds (sheet_view sheet.entry) basis.old basis.new
        (parametric_run_view parametric_run.now) (R.state rates.old).waypoints
        (R.state rates.new).waypoints) (P.taken print.old) (P.taken print.new) result }
    ensures rates { IsAtBasis (R.state rates.new) sheet.entry.lp.now basis.new }
{
    match run_from(alloc, sheet, basis, rates, parametric_run) {
        Ok(answer) => print_run(sheet, parametric_run, &answer, print),
        Err(PrimalStop::Limit) => Ok(Finding::Limit),
        Err(PrimalStop::Overflow(evidence)) => {
            overflow_in(alloc, sheet.lp, basis, rates, evidence)
        }
        Err(PrimalStop::NoMemory) => Err(Halt::NoMemory),
    }
}

// Why a statement does nothing, where nothing is asked for.
fn refusal_of(stop: RequestStop) -> Refusal
    ensures { result ≡ refusal_of stop }
{
    match stop {
        RequestStop::Fault(fault) => Refusal::Fault(fault),
        RequestStop::NoMemory => Refusal::NoMemory,
    }
}

// Selects by the cells as they stand, and makes the run that a verb asks for, from the present basis of a setup.
fn find<E: Engine, P: Sink>(
    alloc: Global,
    cells: &Cells,
    file: &ProblemFile,
    setup: &mut Setup<E>,
    verb: ParametricVerb,
    print: &mut P,
) -> Result<Finding, Halt>
    requires { IsReady file.now setup.old }
    ensures tells { (problem : Problem ℕ) → filed_under setup.old.name file.now ≡ Some problem →
        ReportsFinding (ParametricRuns problem cells.now verb setup.old setup.new)
        (P.taken print.old) (P.taken print.new) result }
    ensures ready { IsReady file.now setup.new }
{
    let problem = problem_on_file(file, &setup.name);
    if let Err(refusal) = select_again(alloc, problem, cells, setup) {
        return refused(refusal);
    }
    let request = match request_of(alloc, problem, cells, verb) {
        Ok(request) => request,
        Err(stop) => return refused(refusal_of(stop)),
    };
    let parametric_run = run_of(request, cells.steps_allowed());
    let sheet = Sheet {
        problem,
        lp: &setup.lp,
    };
    follow(
        alloc,
        sheet,
        &mut setup.basis,
        &mut setup.engine,
        &parametric_run,
        print,
    )
}

// A run that has gone on leaves its last value in XPARAM.
fn leave_value(cells: &mut Cells, finding: &Finding)
    ensures { cells.new ≡ cells_left finding.now cells.old }
{
    if let Finding::RanThrough(value) = finding {
        cells.move_number(NumberCell::Xparam, *value);
    }
}

/// PARAOBJ and PARARHS: selects again by the cells as they stand, and makes the run of the objective or of the right-hand side from
/// XPARAM to XPARMAX, from the present basis. Its intervals and its end are printed, its last value is left in XPARAM, and the next
/// statement follows. An opening that isn't optimal prints its verdict and goes by the demand, if that is set. Neither leaves a mark.
///
/// The statement is refused where there is no setup, where the cells select nothing, where XCHROW names no N row or XCHCOL no
/// right-hand side set, and where XPARMAX isn't set or is less than XPARAM. It ends the run where the run along the parameter goes on
/// past the limit of steps, and where an operation is refused. Where there is no memory, nothing is printed.
pub fn show_parametric_run<E: Engine, P: Sink>(
    alloc: Global,
    machine: &mut Machine<Setup<E>>,
    print: &mut P,
    card: u32,
    verb: ParametricVerb,
) -> Result<Act, Halt>
    requires demands { AreDemands machine.old.cells }
    requires ready { IfSome machine.old.setup (IsReady machine.old.file) }
    ensures acts { ExecutesOnAny linear_programming_of_128_bits (verb_of verb) card
        (P.taken print.old) (P.taken print.new) machine.old machine.new result }
    ensures sound { StaysSound machine.old machine.new }
{
    let Some(setup) = &mut machine.setup else {
        return Refusal::Fault(VerbFault::NoSetup).act(card);
    };
    machine.mark = None;
    let finding = find(alloc, &machine.cells, &machine.file, setup, verb, print)?;
    leave_value(&mut machine.cells, &finding);
    Ok(act_of(&machine.cells, card, finding))
}
