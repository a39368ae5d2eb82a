// The end of a job whose program isn't run.
ghost use Rattle.std.specs.Prelude.{◌≡◌};
ghost use Rattle.control_run.specs.Finishing.{cut_status};
ghost use Rattle.mps_cli.specs.Endings.{EndsWith, status_at};

use control_run::RunStatus;
use job_devices::{Sink, WriteStop};
use job_program::EarlyStop;
use report_text::{Report, text_of};

// The status of a job that is stopped before its program is run.
fn status_of(stop: EarlyStop) -> RunStatus
    ensures { result ≡ status_at stop }
{
    match stop {
        EarlyStop::Words => RunStatus::Words,
        EarlyStop::ReadFault => RunStatus::ReadFault,
        EarlyStop::Card(_) => RunStatus::Card,
        EarlyStop::Control(_) => RunStatus::Control,
        EarlyStop::Memory => RunStatus::Memory,
    }
}

// The status where the print took no more.
fn status_of_cut(stop: WriteStop) -> RunStatus
    ensures { result ≡ cut_status stop }
{
    match stop {
        WriteStop::Failed => RunStatus::PrintFault,
        WriteStop::NoMemory => RunStatus::Memory,
    }
}

/// Prints a listing that has this end alone, and answers how the job ended. A stop of the print comes before it.
pub fn end_job<P: Sink>(print: &mut P, stop: EarlyStop) -> RunStatus
    ensures { EndsWith (P.taken print.old) (P.taken print.new) stop result }
{
    match text_of(&Report::End(stop.ending()), print) {
        Ok(()) => status_of(stop),
        Err(cut) => status_of_cut(cut),
    }
}
