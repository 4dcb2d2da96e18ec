//! Reading of queries: takes a query's bytes from the standard input, and prints a line on how they are read.
#![tactic(auto)]

mod fault;
mod input;
mod run;

use crate::run::run;
use std::io::Write;
use std::process::ExitCode;

fn main(rt: HostRuntime) -> ExitCode {
    let alloc = rt.alloc();
    let mut out = rt.stdout();
    match run(alloc, rt.stdin(), &mut out) {
        Ok(()) => ExitCode::from(0),
        Err(fault) => {
            // where the error output takes nothing, the exit status still tells the fault
            let _ = rt.stderr().write_all(fault.line());
            ExitCode::from(fault.code())
        }
    }
}
