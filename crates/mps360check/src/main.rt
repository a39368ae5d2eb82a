//! `mps360check`: reads a job on standard input and its listing in the file `LISTING` of the present folder, and prints on standard output
//! what the listing is found to be.
#![tactic(auto)]

use checks_of_128_bits::Of128Bits;
use listing_check::run_checker;
use std::process::ExitCode;

fn main(rt: HostRuntime) -> ExitCode {
    run_checker::<Of128Bits>(&rt)
}
