//! Pieces of content: each is read and put into the builder.
ghost use Rattle.std.specs.Prelude.{◌≡◌, ◌<◌, ◌+◌, ◌-◌, ◌^◌, ◌⊎◌, true, false, length, IfOk, Err, None};
ghost use Rattle.doc_table.specs.Spine.{is_some_open, rows_in, text_last};
ghost use Rattle.doc_shred.specs.declared.fault.Fault.TheVariants.{Malformed};
ghost use Rattle.doc_shred.specs.Reading as r;
ghost use Rattle.doc_shred.specs.Standing.{IsLater, CommentAdded, InstructionAdded, TextAdded, ElementClosed, OtherEnd, Takes, IsState, HasRoom, Passed, IsMalformed, ContentRead, NoContent};
ghost use Rattle.doc_shred.specs.Walk.{marked, texted};

use crate::bytes::comes_word;
use crate::content::text_run;
use crate::fault::Fault;
use crate::markup::{comment, end_tag, instruction};
use crate::names::OpenNames;
use crate::tags::start_tag;
use doc_table::FragmentBuilder;
use std::alloc::Global;
use xq_base::Pool;

/// Reads a comment and adds it.
pub fn add_comment<'a>(
    pool: &mut Pool,
    builder: &mut FragmentBuilder,
    bytes: &'a [u8],
) -> Result<&'a [u8], Fault>
    requires { Takes builder.old }
    ensures later { IsLater pool.old pool.new }
    ensures added { IfOk result (λ rest. CommentAdded pool.new builder.old builder.new bytes.now rest.now) }
    ensures refused { result ≡ Err Malformed → r.comment bytes.now ≡ None }
{
    let Some((value, rest)) = comment(bytes) else {
        return Err(Fault::Malformed);
    };
    let value = pool.intern(value)?;
    builder.comment(value)?;
    Ok(rest)
}

/// Reads an instruction and adds it.
pub fn add_instruction<'a>(
    pool: &mut Pool,
    builder: &mut FragmentBuilder,
    bytes: &'a [u8],
) -> Result<&'a [u8], Fault>
    requires { Takes builder.old }
    ensures later { IsLater pool.old pool.new }
    ensures added { IfOk result (λ rest. InstructionAdded pool.new builder.old builder.new bytes.now rest.now) }
    ensures refused { result ≡ Err Malformed → r.instruction bytes.now ≡ None }
{
    let Some(((name, value), rest)) = instruction(bytes) else {
        return Err(Fault::Malformed);
    };
    let name = pool.intern(name)?;
    let value = pool.intern(value)?;
    builder.pi(name, value)?;
    Ok(rest)
}

/// Reads an end tag and closes the innermost open element.
pub fn close_element<'a>(
    builder: &mut FragmentBuilder,
    names: &mut OpenNames<'a>,
    bytes: &'a [u8],
) -> Result<&'a [u8], Fault>
    requires { is_some_open builder.old.nodes ≡ true }
    ensures closed { IfOk result (λ rest. ElementClosed names.old names.new builder.old builder.new bytes.now rest.now) }
    ensures refused { result ≡ Err Malformed → (r.end_tag bytes.now ≡ None) ⊎ OtherEnd names.old bytes.now }
{
    let Some((name, rest)) = end_tag(bytes) else {
        return Err(Fault::Malformed);
    };
    let Some(open) = names.pop() else {
        return Err(Fault::Malformed);
    };
    if name != open {
        return Err(Fault::Malformed);
    }
    builder.close();
    Ok(rest)
}

/// Reads the characters before the next piece of markup and adds them as a text, unless there are
/// none.
pub fn add_text<'a>(
    alloc: Global,
    pool: &mut Pool,
    builder: &mut FragmentBuilder,
    bytes: &'a [u8],
) -> Result<&'a [u8], Fault>
    requires takes { Takes builder.old }
    requires calm { text_last builder.old.nodes ≡ false }
    ensures later { IsLater pool.old pool.new }
    ensures added { IfOk result (λ rest. TextAdded pool.new builder.old builder.new bytes.now rest.now) }
    ensures refused { result ≡ Err Malformed → r.text_run bytes.now ≡ None }
{
    let (text, rest) = match text_run(alloc, bytes) {
        Err(error) => return Err(error),
        Ok(read) => read,
    };
    let text = text.as_str();
    if text.is_empty() {
        return Ok(rest);
    }
    let value = pool.intern(text)?;
    builder.text(value)?;
    Ok(rest)
}

/// Reads a piece of markup and puts it into the builder.
fn piece<'a>(
    alloc: Global,
    pool: &mut Pool,
    builder: &mut FragmentBuilder,
    names: &mut OpenNames<'a>,
    bytes: &'a [u8],
) -> Result<&'a [u8], Fault>
    requires state { IsState names.old builder.old }
    requires room { HasRoom builder.old bytes.now }
    ensures later { IsLater pool.old pool.new }
    ensures passed { IfOk result (λ rest. Passed marked pool.new names.old names.new builder.old builder.new bytes.now rest.now) }
    ensures refused { result ≡ Err Malformed → IsMalformed marked pool.new names.old builder.old bytes.now }
{
    if comes_word(b"</", bytes) {
        return close_element(builder, names, bytes);
    }
    if comes_word(b"<!--", bytes) {
        return add_comment(pool, builder, bytes);
    }
    if comes_word(b"<?", bytes) {
        return add_instruction(pool, builder, bytes);
    }
    start_tag(alloc, pool, builder, names, bytes)
}

/// Reads the characters before the next piece of markup, and that piece.
fn turn<'a>(
    alloc: Global,
    pool: &mut Pool,
    builder: &mut FragmentBuilder,
    names: &mut OpenNames<'a>,
    bytes: &'a [u8],
) -> Result<&'a [u8], Fault>
    requires state { IsState names.old builder.old }
    requires room { HasRoom builder.old bytes.now }
    requires calm { text_last builder.old.nodes ≡ false }
    ensures later { IsLater pool.old pool.new }
    ensures passed { IfOk result (λ rest. Passed texted pool.new names.old names.new builder.old builder.new bytes.now rest.now) }
    ensures refused { result ≡ Err Malformed → IsMalformed texted pool.new names.old builder.old bytes.now }
{
    let rest = match add_text(alloc, pool, builder, bytes) {
        Err(error) => return Err(error),
        Ok(rest) => rest,
    };
    piece(alloc, pool, builder, names, rest)
}

/// Reads content, while elements are open.
pub fn content<'a>(
    alloc: Global,
    pool: &mut Pool,
    builder: &mut FragmentBuilder,
    names: &mut OpenNames<'a>,
    bytes: &'a [u8],
) -> Result<&'a [u8], Fault>
    requires state { IsState names.old builder.old }
    requires room { HasRoom builder.old bytes.now }
    requires calm { text_last builder.old.nodes ≡ false }
    ensures later { IsLater pool.old pool.new }
    ensures found { IfOk result (λ rest. ContentRead pool.new names.old builder.old builder.new bytes.now rest.now) }
    ensures refused { result ≡ Err Malformed → NoContent pool.new names.old builder.old bytes.now }
{
    let mut rest = bytes;
    for _turn in 0..bytes.len() + 1 {
        if names.is_empty() {
            return Ok(rest);
        }
        match turn(alloc, pool, builder, names, rest) {
            Err(error) => return Err(error),
            Ok(after) => rest = after,
        }
    }
    Err(Fault::Malformed)
}
