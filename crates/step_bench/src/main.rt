//! Steps over a document: reads its bytes from the standard input, takes a step on each axis that the
//! words name, or on all twelve, and prints a line for each.
#![tactic(auto)]

mod axes;
mod context;
mod fault;
mod input;
mod line;
mod run;
mod step;

use crate::fault::Fault;
use crate::run::run;
use std::env;
use std::io::Write;
use std::process::ExitCode;

fn main(rt: HostRuntime) -> ExitCode {
    let alloc = rt.alloc();
    let mut out = rt.stdout();
    let done = match env::args(&rt) {
        Ok(mut words) => {
            let _program = words.next();
            run(alloc, words, rt.stdin(), &mut out)
        }
        Err(_) => Err(Fault::Usage),
    };
    match done {
        Ok(()) => ExitCode::from(0),
        Err(fault) => {
            // where the error output takes nothing, the exit status still tells the fault
            let _ = rt.stderr().write_all(fault.line());
            ExitCode::from(fault.code())
        }
    }
}
