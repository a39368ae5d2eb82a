// The cards and the program of a job.
ghost use Rattle.std.specs.Prelude.{◌≡◌, IfOk, IfErr, IsErrOf, OnOk};
ghost use Rattle.card_reader.specs.Reading.{ReadsJob, ReadsPrefix};
ghost use Rattle.job_devices.specs.Causes.{Rose};
ghost use Rattle.job_program.specs.Stops.{ReportsEarlyStop, ArePrepared, HasStopCause};

use crate::stop::EarlyStop;
use card_reader::{Cards, read_job};
use control_compiler::{Program, compile};
use job_devices::Source;
use std::alloc::Global;

/// The cards of a job, and the program that they begin with.
#[derive(Drop)]
pub struct Prepared {
    pub cards: Cards,
    pub program: Program,
}

/// Reads a job and compiles its program. Its cards are judged before its program, and nothing is compiled of a job that isn't read whole.
pub fn prepare<S: Source>(alloc: Global, job: &mut S) -> Result<Prepared, EarlyStop>
    ensures prepared { IfOk result (ArePrepared (S.given job.old).left) }
    ensures read { OnOk result (ReadsJob (S.given job.old).left (S.given job.new).left) }
    ensures stop { IfErr result (ReportsEarlyStop (S.given job.old).left) }
    ensures cause { IfErr result (HasStopCause
        (Rose (S.given job.old).faults (S.given job.new).faults)
        (ReadsJob (S.given job.old).left (S.given job.new).left)) }
    ensures quiet { (IsErrOf result EarlyStop.ReadFault → ⊥) →
        (S.given job.new).faults ≡ (S.given job.old).faults }
    ensures no_further { ReadsPrefix (S.given job.old).left (S.given job.new).left }
{
    let cards = read_job(alloc, job)?;
    let program = compile(alloc, &cards)?;
    Ok(Prepared { cards, program })
}
