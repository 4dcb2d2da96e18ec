//! The work of the program over a reader and a writer.
ghost use Rattle.std.specs.Prelude.{◌≡◌, ℕ, List, IfOk, OnOk};
ghost use Rattle.xq_parser.specs.Query.{Faults};
ghost use Rattle.query_bench.specs.Run.{Says, Runs};

use crate::fault::Fault;
use crate::input::read_all;
use std::alloc::Global;
use std::io::{Read, Write};
use xq_parser::{ParseFault, parse};

/// The line on a text that isn't read.
#[tactic(auto, using(crate::proofs::Readings::says_syntax, crate::proofs::Readings::says_deep, crate::proofs::Readings::says_left))]
fn line_of_fault(fault: ParseFault) -> Result<&'static [u8], Fault>
    ensures { (text : List ℕ) → Faults text fault → IfOk result (λ line. Says text line.now) }
{
    match fault {
        ParseFault::Syntax => Ok(b"no query\n"),
        ParseFault::TooDeep(_) => Ok(b"too deep\n"),
        ParseFault::LeftOut(_) => Ok(b"left out\n"),
        ParseFault::NoMemory => Err(Fault::NoMemory),
    }
}

/// The line on how a text is read.
fn line_of(alloc: Global, text: &[u8]) -> Result<&'static [u8], Fault>
    ensures { IfOk result (λ line. Says text.now line.now) }
{
    match parse(alloc, text) {
        Ok(_query) => Ok(b"query\n"),
        Err(fault) => line_of_fault(fault),
    }
}

/// Reads a query, and writes the line on it.
pub fn run<R: Read + Drop, W: Write>(alloc: Global, input: R, out: &mut W) -> Result<(), Fault>
    ensures { OnOk result (Runs (R.remaining input) (W.contents out.old) (W.contents out.new)) }
{
    let bytes = read_all(alloc, input)?;
    let line = line_of(alloc, bytes.as_slice())?;
    match out.write_all(line) {
        Ok(()) => Ok(()),
        Err(_) => Err(Fault::Write),
    }
}
