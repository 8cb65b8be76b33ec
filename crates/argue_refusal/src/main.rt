//! The program again, for one more stored run: one with words, files and a status other than 0. So a program that
//! takes its words, its files or its status amiss is caught wherever the programs are run.
#![tactic(auto)]

use argue_program::run_process;
use std::process::ExitCode;

fn main(rt: HostRuntime) -> ExitCode {
    run_process(&rt)
}
