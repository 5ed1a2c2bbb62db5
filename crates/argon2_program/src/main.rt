//! The program `argon2`: hashes a password, verifies one, or says whether a rehash is needed.
#![tactic(auto)]

pub use argon2_commands::{Answer, Command, CommandLine, Fault, OfProcess, run, start};
use std::process::ExitCode;

/// Runs the program on the process's arguments and its three standard streams.
fn main(rt: HostRuntime) -> ExitCode {
    start(
        &rt,
        rt.alloc(),
        &OfProcess(&rt),
        &mut rt.stdin(),
        &mut rt.stdout(),
        &mut rt.stderr(),
    )
}
