//! Operators on tables: makes tables with as many rows as the standard input has bytes, runs each operator
//! that the words name, or all, and prints a line for each.
#![tactic(auto)]

mod fault;
mod input;
mod kernels;
mod run;
mod tables;

use crate::fault::Fault;
use crate::run::run;
use std::env;
use std::io::Write;
use std::process::ExitCode;

fn main(rt: HostRuntime) -> ExitCode {
    let alloc = rt.alloc();
    let mut out = rt.stdout();
    let done = match env::args(&rt) {
        Ok(mut words) => {
            let _program = words.next();
            run(alloc, words, rt.stdin(), &mut out)
        }
        Err(_) => Err(Fault::Usage),
    };
    match done {
        Ok(()) => ExitCode::from(0),
        Err(fault) => {
            // where the error output takes nothing, the exit status still tells the fault
            let _ = rt.stderr().write_all(fault.line());
            ExitCode::from(fault.code())
        }
    }
}
