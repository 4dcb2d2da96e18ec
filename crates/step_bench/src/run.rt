//! The work of the program over a reader and a writer.
ghost use Rattle.std.specs.Prelude.{◌≡◌, ◌≤◌, ◌∷◌, [], IfOk, OnOk, false, length, map, string_bytes};
ghost use Rattle.doc_table.specs.Places.{is_lone};
ghost use Rattle.staircase.specs.Hits.{Ascending};
ghost use Rattle.staircase.specs.Joins.{AreNodes};
ghost use Rattle.step_bench.specs.Axes.{AreChosen, name_of};
ghost use Rattle.doc_shred.specs.Limits.{document_limit};
ghost use Rattle.step_bench.specs.Input.{IsTreeOf};
ghost use Rattle.step_bench.specs.Run.{Prints, Runs};

use crate::axes::{AXES, axis_named};
use crate::context::context_of;
use crate::fault::Fault;
use crate::input::read_all;
use crate::line::line_of;
use crate::step::take_step;
use doc_shred::shred;
use doc_table::Fragment;
use staircase::Ctx;
use std::alloc::Global;
use std::env::Args;
use std::io::{Read, Write};
use xq_base::{Axis, HashKeys, Pool};

/// The axes of these names.
fn axes_named(alloc: Global, words: Args) -> Result<Vec<Axis>, Fault>
    ensures { IfOk result (λ axes. map name_of axes.items ≡ map string_bytes words.rest.items) }
{
    let mut axes = Vec::new(alloc);
    for word in words {
        match axis_named(word.as_str()) {
            Some(axis) => axes.push(axis)?,
            None => return Err(Fault::Usage),
        }
    }
    Ok(axes)
}

/// The axes that the words name; all twelve, where there is no word.
fn axes_of(alloc: Global, words: Args) -> Result<Vec<Axis>, Fault>
    ensures { IfOk result (λ axes. AreChosen (map string_bytes words.rest.items) axes.items) }
{
    let mut axes = axes_named(alloc, words)?;
    if axes.is_empty() {
        axes.extend_from_slice(&AXES)?;
    }
    Ok(axes)
}

/// The tree of a document's bytes. Its root is no attribute.
#[tactic(auto, using(crate::proofs::Root::document_not_lone))]
fn tree_of(alloc: Global, bytes: &[u8]) -> Result<Fragment, Fault>
    requires { length bytes.now ≤ document_limit }
    ensures tree { IfOk result (λ tree. IsTreeOf bytes.now tree) }
    ensures root { IfOk result (λ tree. is_lone tree ≡ false) }
{
    let mut pool = Pool::new(alloc, HashKeys::new(1, 2));
    let tree = shred(alloc, bytes, &mut pool)?;
    Ok(tree)
}

/// Takes the step on an axis, and writes its line.
#[tactic(auto, using(crate::proofs::PrintedLines::line_printed))]
fn write_step<W: Write>(
    alloc: Global,
    tree: &Fragment,
    axis: Axis,
    context: &[Ctx],
    out: &mut W,
) -> Result<(), Fault>
    requires ascending { Ascending context.now }
    requires nodes { AreNodes tree.now context.now }
    ensures { OnOk result (Prints (axis ∷ []) tree.now context.now (W.contents out.old) (W.contents out.new)) }
{
    let taken = take_step(alloc, tree, axis, context)?;
    let line = line_of(alloc, axis, taken)?;
    match out.write_all(line.as_slice()) {
        Ok(()) => Ok(()),
        Err(_) => Err(Fault::Write),
    }
}

/// Takes the steps on some axes, and writes a line for each.
#[tactic(auto, using(crate::proofs::PrintedLines::none_printed, crate::proofs::PrintedLines::take_whole))]
fn write_steps<W: Write>(
    alloc: Global,
    tree: &Fragment,
    axes: &[Axis],
    context: &[Ctx],
    out: &mut W,
) -> Result<(), Fault>
    requires ascending { Ascending context.now }
    requires nodes { AreNodes tree.now context.now }
    ensures { OnOk result (Prints axes.now tree.now context.now (W.contents out.old) (W.contents out.new)) }
{
    for axis in axes {
        write_step(alloc, tree, *axis, context, out)?;
    }
    Ok(())
}

/// Reads a document, and writes the line of the step on each axis that the words name.
pub fn run<R: Read + Drop, W: Write>(
    alloc: Global,
    words: Args,
    input: R,
    out: &mut W,
) -> Result<(), Fault>
    ensures { OnOk result (Runs (R.remaining input) (map string_bytes words.rest.items) (W.contents out.old) (W.contents out.new)) }
{
    let axes = axes_of(alloc, words)?;
    let bytes = read_all(alloc, input)?;
    let tree = tree_of(alloc, bytes.as_slice())?;
    let context = context_of(alloc, &tree)?;
    write_steps(alloc, &tree, axes.as_slice(), context.as_slice(), out)
}
