//! `mps360long`: reads a job on standard input and its listing in the file `LISTING` of the present folder, and prints on standard output
//! what the listing is found to be, by numbers of any length.
#![tactic(auto)]

use checks_of_any_length::OfAnyLength;
use listing_check::run_checker;
use std::process::ExitCode;

fn main(rt: HostRuntime) -> ExitCode {
    run_checker::<OfAnyLength>(&rt)
}
