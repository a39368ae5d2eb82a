// The sink that makes the punch file.
ghost use Rattle.std.specs.Prelude.{◌≡◌, ◌≤◌, length, take, None, IfSome, IsSome, OnOk, is_ok, if◌then◌else◌};
ghost use Rattle.std.specs.Result.{result_ok};
ghost use Rattle.job_devices.specs.Calls.{IsWrite};

use crate::{Sink, StreamSink, WriteStop};
use std::fs::File;
use std::rt::Files;

const PUNCH: &str = "PUNCH";

/// Writes to the file `PUNCH` in the present folder, which it creates at its first write. It counts as a fault each write that
/// finds no file and can't create it, and each that a `StreamSink` would count.
#[derive(Drop)]
pub struct PunchFile<R: Files> {
    files: R,
    file: Option<StreamSink<R::File>>,
    faults: u64,
}

impl<R: Files> PunchFile<R> {
    ghost use Rattle.job_devices.specs.Punch.{punch_file, punch_faults, FileTakes};

    /// A sink that has created no file yet, with no fault.
    pub fn new(files: R) -> PunchFile<R>
        ensures file { punch_file result ≡ None }
        ensures faults { punch_faults result ≡ 0 }
    {
        PunchFile {
            files,
            file: None,
            faults: 0,
        }
    }

    // Writes to the file, which it creates where it isn't there yet. None where one of the two failed.
    fn take(&mut self, piece: &[u8]) -> Option<usize>
        ensures bound { IfSome result (λ taken. taken ≤ length piece.now) }
        ensures some { IfSome result (λ taken. taken ≡ 0 → length piece.now ≡ 0) }
        ensures file { IsSome result → IsSome (punch_file self.new) }
        ensures kept { IsSome (punch_file self.old) → IsSome (punch_file self.new) }
        ensures bytes { FileTakes R.File.contents (punch_file self.old) (punch_file self.new)
            result piece.now }
        ensures faults { punch_faults self.new ≡ punch_faults self.old }
    {
        if self.file.is_none() {
            let file = File::create(&self.files, PUNCH).ok()?;
            self.file = Some(StreamSink::new(file));
        }
        match &mut self.file {
            Some(sink) => sink.write(piece).ok(),
            None => None,
        }
    }
}

impl<R: Files> Sink for PunchFile<R> {
    ghost use Rattle.job_devices.specs.Causes.{next_count};
    ghost use Rattle.job_devices.specs.States.{untold_sink};
    ghost use Rattle.job_devices.specs.Punch.{punch_file, punch_faults, FileTakes};

    ghost taken = { λ s. untold_sink (punch_faults s) };

    fn write(&mut self, piece: &[u8]) -> Result<usize, WriteStop>
        ensures write { IsWrite (untold_sink (punch_faults self.old))
            (untold_sink (punch_faults self.new)) result piece.now }

        // A byte is taken only where the file is there, and once created it stays.
        ensures file { OnOk result (IsSome (punch_file self.new)) }
        ensures kept { IsSome (punch_file self.old) → IsSome (punch_file self.new) }
        ensures writer { FileTakes R.File.contents (punch_file self.old) (punch_file self.new)
            (result_ok result) piece.now }
        ensures count { punch_faults self.new ≡ (if is_ok result then punch_faults self.old else
            next_count (punch_faults self.old)) }
    {
        match self.take(piece) {
            Some(taken) => Ok(taken),
            None => {
                self.faults = self.faults.saturating_add(1);
                Err(WriteStop::Failed)
            }
        }
    }
}
