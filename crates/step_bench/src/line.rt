//! The line of a step.
ghost use Rattle.std.specs.Prelude.{◌≡◌, ◌++◌, decimal, OnOk, IfOk};
ghost use Rattle.step_bench.specs.Line.{line_of};

use crate::axes::name_of;
use crate::step::Taken;
use itoa::Buffer;
use std::alloc::{AllocError, Global};
use xq_base::Axis;

/// Appends a word and a number.
fn push_number(word: &[u8], number: u64, line: &mut Vec<u8>) -> Result<(), AllocError>
    ensures { OnOk result (line.new.items ≡ line.old.items ++ word.now ++ decimal number) }
{
    line.extend_from_slice(word)?;
    let mut buffer = Buffer::new();
    line.extend_from_slice(buffer.format(number).as_bytes())?;
    Ok(())
}

/// The line of a step.
pub fn line_of(alloc: Global, axis: Axis, taken: Taken) -> Result<Vec<u8>, AllocError>
    ensures { IfOk result (λ line. line.items ≡ line_of axis taken) }
{
    let mut line = Vec::from_slice(alloc, name_of(axis).as_bytes())?;
    push_number(b" context ", taken.tally.context, &mut line)?;
    push_number(b" result ", taken.tally.result, &mut line)?;
    push_number(b" skipped ", taken.tally.skipped, &mut line)?;
    push_number(b" read ", taken.tally.read, &mut line)?;
    push_number(b" hits ", taken.hits, &mut line)?;
    line.extend_from_slice(b"\n")?;
    Ok(line)
}
