//! The program `bwingest`: its commands, over standard input and output.
#![tactic(auto)]

mod build;

use std::process::ExitCode;

fn main(rt: HostRuntime) -> ExitCode {
    bw_process::run(rt, build::BUILD)
}
