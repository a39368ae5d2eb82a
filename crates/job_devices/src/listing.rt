// The source that reads the listing file.
ghost use Rattle.std.specs.Prelude.{◌≡◌, ◌<◌, ◌≤◌, length, None, IfSome, IsSome, OnOk, is_ok, if◌then◌else◌};
ghost use Rattle.std.specs.Result.{result_ok};
ghost use Rattle.job_devices.specs.Calls.{IsRead};

use crate::{Failed, Source, StreamSource};
use std::fs::File;
use std::rt::Files;

const LISTING: &str = "LISTING";

/// Reads the file `LISTING` in the present folder, which it opens at its first read. It counts as a fault each read that finds no open
/// file and can't open it, and each that a `StreamSource` would count.
#[derive(Drop)]
pub struct ListingFile<R: Files> {
    files: R,
    file: Option<StreamSource<R::File>>,
    faults: u64,
}

impl<R: Files> ListingFile<R> {
    ghost use Rattle.job_devices.specs.Listing.{listing_file, listing_faults, FileGives};

    /// A source that has opened no file yet, with no fault.
    pub fn new(files: R) -> ListingFile<R>
        ensures file { listing_file result ≡ None }
        ensures faults { listing_faults result ≡ 0 }
    {
        ListingFile {
            files,
            file: None,
            faults: 0,
        }
    }

    // Reads from the file, which it opens where it isn't open yet. None where one of the two failed.
    fn give(&mut self, buf: &mut [u8]) -> Option<usize>
        requires { 0 < length buf.old }
        ensures bound { IfSome result (λ count. count ≤ length buf.new) }
        ensures file { IsSome result → IsSome (listing_file self.new) }
        ensures kept { IsSome (listing_file self.old) → IsSome (listing_file self.new) }
        ensures bytes { FileGives R.File.remaining (listing_file self.old) (listing_file self.new)
            result buf.new }
        ensures faults { listing_faults self.new ≡ listing_faults self.old }
    {
        if self.file.is_none() {
            let file = File::open(&self.files, LISTING).ok()?;
            self.file = Some(StreamSource::new(file));
        }
        match &mut self.file {
            Some(source) => source.read(buf).ok(),
            None => None,
        }
    }
}

impl<R: Files> Source for ListingFile<R> {
    ghost use Rattle.job_devices.specs.Causes.{next_count};
    ghost use Rattle.job_devices.specs.States.{untold_source};
    ghost use Rattle.job_devices.specs.Listing.{listing_file, listing_faults, FileGives};

    ghost given = { λ s. untold_source (listing_faults s) };

    fn read(&mut self, buf: &mut [u8]) -> Result<usize, Failed>
        requires { 0 < length buf.old }
        ensures read { IsRead (untold_source (listing_faults self.old))
            (untold_source (listing_faults self.new)) result buf.new }

        // A byte is given only where the file is open, and once opened it stays so.
        ensures file { OnOk result (IsSome (listing_file self.new)) }
        ensures kept { IsSome (listing_file self.old) → IsSome (listing_file self.new) }
        ensures reader { FileGives R.File.remaining (listing_file self.old) (listing_file self.new)
            (result_ok result) buf.new }
        ensures count { listing_faults self.new ≡ (if is_ok result then listing_faults self.old else
            next_count (listing_faults self.old)) }
    {
        match self.give(buf) {
            Some(count) => Ok(count),
            None => {
                self.faults = self.faults.saturating_add(1);
                Err(Failed)
            }
        }
    }
}
