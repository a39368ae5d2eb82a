// The end of a listing.
ghost use Rattle.std.specs.Prelude.{◌≡◌};
ghost use Rattle.job_devices.specs.Causes.{Rose};
ghost use Rattle.job_devices.specs.declared.device.WriteStop as stops;
ghost use Rattle.run_machine.specs.declared.act.Halt.TheVariants as halts;
ghost use Rattle.run_machine.specs.Ends.{end_view};
ghost use Rattle.control_run.specs.Statuses.{code_of, IsStatusOfRun};
ghost use Rattle.control_run.specs.Finishing.{Finishes, FinishesHalted, cut_status};
ghost use Rattle.listing_definitions.specs.Ending.{status_of, PunchFault};

use crate::status::RunStatus;
use job_devices::{Sink, WriteStop};
use report_text::{Ending, Report, text_of};
use run_machine::{End, Halt, ending_of};

// The status of an end.
fn status_of(end: &End) -> RunStatus
    ensures code { code_of result ≡ status_of (end_view end.now) }
    ensures own { IsStatusOfRun result }
{
    match end {
        End::Done => RunStatus::Done,
        End::Infeasible => RunStatus::Infeasible,
        End::Unbounded => RunStatus::Unbounded,
        End::Verb { .. } | End::Singular { .. } | End::WrongPrices { .. } => RunStatus::Verb,
        End::Deck(_) => RunStatus::Deck,
        End::Limit { .. } => RunStatus::Limit,
        End::Statements => RunStatus::Statements,
        End::Overflow { .. } => RunStatus::Overflow,
        End::Memory => RunStatus::Memory,
    }
}

// The status where the print took no more.
fn status_of_cut(stop: WriteStop) -> RunStatus
    ensures cut { result ≡ cut_status stop }
    ensures own { IsStatusOfRun result }
{
    match stop {
        WriteStop::Failed => RunStatus::PrintFault,
        WriteStop::NoMemory => RunStatus::Memory,
    }
}

/// Ends the listing, and answers how the run ended.
pub fn finish<P: Sink>(print: &mut P, end: &End) -> RunStatus
    ensures finishes { Finishes (P.taken print.old) (P.taken print.new) (end_view end.now) result }
    ensures own { IsStatusOfRun result }
{
    match text_of(&Report::End(ending_of(end)), print) {
        Ok(()) => status_of(end),
        Err(stop) => status_of_cut(stop),
    }
}

// Ends the listing after a fault of the punch.
fn finish_punch_fault<P: Sink>(print: &mut P) -> RunStatus
    ensures finishes { Finishes (P.taken print.old) (P.taken print.new) PunchFault result }
    ensures own { IsStatusOfRun result }
{
    match text_of(&Report::End(Ending::PunchFault), print) {
        Ok(()) => RunStatus::PunchFault,
        Err(stop) => status_of_cut(stop),
    }
}

// Ends the listing where the punch took no more of a deck.
fn finish_punch_cut<P: Sink>(print: &mut P, stop: WriteStop) -> RunStatus
    ensures finishes { FinishesHalted (P.taken print.old) (P.taken print.new)
        (halts.Punch stop) result }
    ensures own { IsStatusOfRun result }
{
    match stop {
        WriteStop::Failed => finish_punch_fault(print),
        WriteStop::NoMemory => finish(print, &End::Memory),
    }
}

/// Ends the listing where a statement comes to nothing, and answers how the run ended. Where the print took no more, nothing is
/// printed.
pub fn finish_halted<P: Sink>(print: &mut P, halt: Halt) -> RunStatus
    ensures finishes { FinishesHalted (P.taken print.old) (P.taken print.new) halt result }
    ensures own { IsStatusOfRun result }
{
    match halt {
        Halt::Print(stop) => status_of_cut(stop),
        Halt::Punch(stop) => finish_punch_cut(print, stop),
        Halt::NoMemory => finish(print, &End::Memory),
    }
}
