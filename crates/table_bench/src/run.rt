//! The work of the program over a reader and a writer.
ghost use Rattle.std.specs.Prelude.{◌≡◌, ◌<◌, ◌≤◌, ◌++◌, ◌∷◌, ◌^◌, [], IfOk, OnOk, length, map, string_bytes, decimal};
ghost use Rattle.std.specs.Io.KnownBytes.{Appends};
ghost use Rattle.table_bench.specs.Kernels.{name_of, AreChosen};
ghost use Rattle.table_bench.specs.Run.{many_of, line_with, lines_of, Runs};
ghost use Rattle.table_bench.specs.Tables.{left_cols, right_cols, second_cols, table_with};

use crate::fault::Fault;
use crate::input::read_all;
use crate::kernels::{KERNELS, Kernel, kernel_named, name_of, op_of};
use crate::tables::table_with;
use doc_table::Store;
use itoa::Buffer;
use plan_dag::Col;
use std::alloc::{AllocError, Global};
use std::env::Args;
use std::io::{Read, Write};
use table_ops::{Table, apply};
use xq_base::{HashKeys, Pool, Want};

/// The operators of these names.
fn kernels_named(alloc: Global, words: Args) -> Result<Vec<Kernel>, Fault>
    ensures { IfOk result (λ kernels. map name_of kernels.items ≡ map string_bytes words.rest.items) }
{
    let mut kernels = Vec::new(alloc);
    for word in words {
        match kernel_named(word.as_str()) {
            Some(kernel) => kernels.push(kernel)?,
            None => return Err(Fault::Usage),
        }
    }
    Ok(kernels)
}

/// The operators that the words name; all, where there is no word.
fn kernels_of(alloc: Global, words: Args) -> Result<Vec<Kernel>, Fault>
    ensures { IfOk result (λ kernels. AreChosen (map string_bytes words.rest.items) kernels.items) }
{
    let mut kernels = kernels_named(alloc, words)?;
    if kernels.is_empty() {
        kernels.extend_from_slice(&KERNELS)?;
    }
    Ok(kernels)
}

/// The number of rows of an operator over two tables; a union is of the first with itself.
fn many_of(
    alloc: Global,
    kernel: Kernel,
    left: &Table,
    right: &Table,
    many: u32,
) -> Result<u64, Want>
    requires left { left.now ≡ table_with left_cols many }
    requires right { right.now ≡ table_with right_cols many }
    ensures { IfOk result (λ rows. rows ≡ many_of kernel many) }
{
    match kernel {
        Kernel::Union => rows_of(alloc, kernel, left, left, many),
        _ => rows_of(alloc, kernel, left, right, many),
    }
}

/// The number of rows of an operator over its inputs.
fn rows_of(
    alloc: Global,
    kernel: Kernel,
    left: &Table,
    right: &Table,
    many: u32,
) -> Result<u64, Want>
    requires left { left.now ≡ table_with left_cols many }
    requires right { right.now ≡ table_with (second_cols kernel) many }
    ensures { IfOk result (λ rows. rows ≡ many_of kernel many) }
{
    let store = Store::new(alloc);
    let mut pool = Pool::new(alloc, HashKeys::new(1, 2));
    let table = apply(alloc, &op_of(kernel), left, right, &store, &mut pool)?;
    Ok(table.height() as u64)
}

/// Appends a word and a number.
fn push_number(word: &[u8], number: u64, line: &mut Vec<u8>) -> Result<(), AllocError>
    ensures { OnOk result (line.new.items ≡ line.old.items ++ word.now ++ decimal number) }
{
    line.extend_from_slice(word)?;
    let mut buffer = Buffer::new();
    line.extend_from_slice(buffer.format(number).as_bytes())?;
    Ok(())
}

/// The line of an operator.
fn line_with(alloc: Global, kernel: Kernel, many: u32, rows: u64) -> Result<Vec<u8>, AllocError>
    ensures { IfOk result (λ line. line.items ≡ line_with kernel many rows) }
{
    let mut line = Vec::from_slice(alloc, name_of(kernel).as_bytes())?;
    push_number(b" input ", many as u64, &mut line)?;
    push_number(b" rows ", rows, &mut line)?;
    line.extend_from_slice(b"\n")?;
    Ok(line)
}

/// Runs an operator, and writes its line.
#[tactic(auto, using(crate::proofs::PrintedLines::line_printed))]
fn write_kernel<W: Write>(
    alloc: Global,
    kernel: Kernel,
    left: &Table,
    right: &Table,
    many: u32,
    out: &mut W,
) -> Result<(), Fault>
    requires left { left.now ≡ table_with left_cols many }
    requires right { right.now ≡ table_with right_cols many }
    ensures { OnOk result (Appends (W.contents out.old) (W.contents out.new) (lines_of many (kernel ∷ []))) }
{
    let rows = many_of(alloc, kernel, left, right, many)?;
    let line = line_with(alloc, kernel, many, rows)?;
    match out.write_all(line.as_slice()) {
        Ok(()) => Ok(()),
        Err(_) => Err(Fault::Write),
    }
}

/// Runs some operators, and writes a line for each.
#[tactic(auto, using(crate::proofs::PrintedLines::none_printed, crate::proofs::PrintedLines::take_whole))]
fn write_kernels<W: Write>(
    alloc: Global,
    kernels: &[Kernel],
    left: &Table,
    right: &Table,
    many: u32,
    out: &mut W,
) -> Result<(), Fault>
    requires left { left.now ≡ table_with left_cols many }
    requires right { right.now ≡ table_with right_cols many }
    ensures { OnOk result (Appends (W.contents out.old) (W.contents out.new) (lines_of many kernels.now)) }
{
    for kernel in kernels {
        write_kernel(alloc, *kernel, left, right, many, out)?;
    }
    Ok(())
}

/// Makes tables with as many rows as the input has bytes, and writes the line of each operator that the
/// words name.
pub fn run<R: Read + Drop, W: Write>(
    alloc: Global,
    words: Args,
    input: R,
    out: &mut W,
) -> Result<(), Fault>
    ensures { OnOk result (Runs (R.remaining input) (map string_bytes words.rest.items) (W.contents out.old) (W.contents out.new)) }
{
    let kernels = kernels_of(alloc, words)?;
    let bytes = read_all(alloc, input)?;
    let many = bytes.len() as u32;
    let left = table_with(alloc, &[Col(0), Col(1), Col(2)], many)?;
    let right = table_with(alloc, &[Col(3), Col(4), Col(5)], many)?;
    write_kernels(alloc, kernels.as_slice(), &left, &right, many, out)
}
