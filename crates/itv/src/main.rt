//! The program: a run on its words, on the files of the system and on standard output, which ends with the status of the run. After the run it
//! says on standard error what a person wants to know of it, and the status stays.
//! The contract of `itv_cli::run` says what a run writes, how it ends, and when. The program is one call of `told`, whose contract says what
//! the status means. It is the contract of `itv_cli::program`.
#![tactic(auto)]

mod look_dir;
mod saying;

use saying::told;
use std::process::ExitCode;

fn main(rt: HostRuntime) -> ExitCode {
    told(&rt)
}
