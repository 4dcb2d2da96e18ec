//! Whole documents: the prolog, the root element, and what follows it.
ghost use Rattle.std.specs.Prelude.{◌≡◌, ◌<◌, ◌+◌, ◌-◌, [], false, length, IfOk, IfErr, OnOk, Err, None};
ghost use Rattle.doc_table.specs.Spine.{opened, empty_spine};
ghost use Rattle.doc_table.specs.Tree.{OfDocument};
ghost use Rattle.doc_shred.specs.declared.fault.Fault.TheVariants.{Malformed};
ghost use Rattle.doc_shred.specs.Reading as r;
ghost use Rattle.doc_shred.specs.Standing.{IsLater, IsState, HasRoom, MiscAdded, MiscsRead, NoMiscs, RootRead, NoRoot};
ghost use Rattle.doc_shred.specs.Refusals.{TypeRead, TypeRefused, PrologRead, PrologRefused, DocumentRead, DocumentRefused};
ghost use Rattle.doc_shred.specs.Views.{lent_of};
ghost use Rattle.doc_shred.specs.Walk as w;
ghost use Rattle.doc_table.specs.Limits.{size_limit};

use crate::bytes::{Class, comes, comes_word, split_run};
use crate::fault::Fault;
use crate::names::OpenNames;
use crate::pieces::{add_comment, add_instruction, content};
use crate::prolog::{declaration, doctype, is_known_encoding};
use crate::refusal::{ShredFault, refusal};
use crate::tags::start_tag;
use doc_table::{FragmentBuilder, Kind};
use std::alloc::Global;
use xq_base::Pool;

/// Whether white space, a comment or an instruction comes next.
fn has_misc(bytes: &[u8]) -> bool
    ensures { result ≡ w.has_misc bytes.now }
{
    comes(Class::Blank, bytes) || comes_word(b"<!--", bytes) || comes_word(b"<?", bytes)
}

/// Reads white space, a comment or an instruction outside the root element (XML 1.0, section 2.8,
/// production 27).
fn misc<'a>(
    pool: &mut Pool,
    builder: &mut FragmentBuilder,
    bytes: &'a [u8],
) -> Result<&'a [u8], Fault>
    requires state { IsState [] builder.old }
    requires room { HasRoom builder.old bytes.now }
    ensures later { IsLater pool.old pool.new }
    ensures added { IfOk result (λ rest. MiscAdded pool.new builder.old builder.new bytes.now rest.now) }
    ensures refused { result ≡ Err Malformed → r.misc bytes.now ≡ None }
{
    if comes(Class::Blank, bytes) {
        let (_, rest) = split_run(Class::Blank, bytes);
        return Ok(rest);
    }
    if comes_word(b"<!--", bytes) {
        return add_comment(pool, builder, bytes);
    }
    add_instruction(pool, builder, bytes)
}

/// Reads what may stand before or after the root element.
fn miscs<'a>(
    pool: &mut Pool,
    builder: &mut FragmentBuilder,
    bytes: &'a [u8],
) -> Result<&'a [u8], Fault>
    requires state { IsState [] builder.old }
    requires room { HasRoom builder.old bytes.now }
    ensures later { IsLater pool.old pool.new }
    ensures read { IfOk result (λ rest. MiscsRead pool.new builder.old builder.new bytes.now rest.now) }
    ensures refused { result ≡ Err Malformed → NoMiscs pool.new builder.old bytes.now }
{
    let mut rest = bytes;
    for _turn in 0..bytes.len() + 1 {
        if !has_misc(rest) {
            return Ok(rest);
        }
        match misc(pool, builder, rest) {
            Err(error) => return Err(error),
            Ok(after) => rest = after,
        }
    }
    Err(Fault::Malformed)
}

/// Reads the root element.
fn root<'a>(
    alloc: Global,
    pool: &mut Pool,
    builder: &mut FragmentBuilder,
    bytes: &'a [u8],
) -> Result<&'a [u8], Fault>
    requires state { IsState [] builder.old }
    requires room { HasRoom builder.old bytes.now }
    ensures later { IsLater pool.old pool.new }
    ensures read { IfOk result (λ rest. RootRead pool.new builder.old builder.new bytes.now rest.now) }
    ensures refused { result ≡ Err Malformed → NoRoot pool.new builder.old bytes.now }
{
    let mut names = OpenNames::new(alloc);
    let rest = match start_tag(alloc, pool, builder, &mut names, bytes) {
        Err(error) => return Err(error),
        Ok(rest) => rest,
    };
    content(alloc, pool, builder, &mut names, rest)
}

/// What follows an XML declaration, with the encoding that it names, or the whole text.
fn head(text: &[u8]) -> (Option<&[u8]>, &[u8])
    ensures encoding { lent_of result.0 ≡ (w.head text.now).0 }
    ensures rest { result.1.now ≡ (w.head text.now).1 }
{
    match declaration(text) {
        Some(read) => read,
        None => (None, text),
    }
}

/// Whether an encoding was named that isn't read.
fn is_unknown(encoding: Option<&[u8]>) -> bool
    ensures { result ≡ w.is_unknown (lent_of encoding.entry) }
{
    match encoding {
        None => false,
        Some(name) => !is_known_encoding(name),
    }
}

/// Reads a document type declaration, where there is one, and what may follow it.
fn typed<'a>(
    pool: &mut Pool,
    builder: &mut FragmentBuilder,
    bytes: &'a [u8],
) -> Result<&'a [u8], ShredFault>
    requires state { IsState [] builder.old }
    requires room { HasRoom builder.old bytes.now }
    ensures later { IsLater pool.old pool.new }
    ensures read { IfOk result (λ rest. TypeRead pool.new builder.old builder.new bytes.now rest.now) }
    ensures refused { IfErr result (TypeRefused pool.new builder.old bytes.now) }
{
    if !comes_word(b"<!DOCTYPE", bytes) {
        return Ok(bytes);
    }
    let Some((closing, rest)) = doctype(bytes) else {
        return Err(ShredFault::NotWellFormed);
    };
    if closing == b'[' {
        return Err(ShredFault::Unsupported);
    }
    match miscs(pool, builder, rest) {
        Err(error) => Err(refusal(error)),
        Ok(rest) => Ok(rest),
    }
}

/// Reads the prolog: a declaration, comments, instructions and white space, and a document type
/// declaration (XML 1.0, section 2.8, production 22).
fn prolog<'a>(
    pool: &mut Pool,
    builder: &mut FragmentBuilder,
    text: &'a [u8],
) -> Result<&'a [u8], ShredFault>
    requires empty { builder.old ≡ opened OfDocument empty_spine }
    requires room { length text.now + 3 < size_limit }
    ensures later { IsLater pool.old pool.new }
    ensures read { IfOk result (λ rest. PrologRead pool.new builder.new text.now rest.now) }
    ensures refused { IfErr result (PrologRefused text.now) }
{
    let (encoding, rest) = head(text);
    if is_unknown(encoding) {
        return Err(ShredFault::Unsupported);
    }
    let rest = match miscs(pool, builder, rest) {
        Err(error) => return Err(refusal(error)),
        Ok(rest) => rest,
    };
    typed(pool, builder, rest)
}

/// Reads a whole text into an empty builder: afterwards the document is open, with its children.
pub fn document(
    alloc: Global,
    pool: &mut Pool,
    builder: &mut FragmentBuilder,
    text: &[u8],
) -> Result<(), ShredFault>
    requires empty { builder.old ≡ empty_spine }
    requires room { length text.now + 3 < size_limit }
    ensures later { IsLater pool.old pool.new }
    ensures read { OnOk result (DocumentRead pool.new builder.new text.now) }
    ensures refused { IfErr result (DocumentRefused text.now) }
{
    if builder.open(Kind::Document, None).is_err() {
        return Err(ShredFault::NoMemory);
    }
    let rest = match prolog(pool, builder, text) {
        Err(error) => return Err(error),
        Ok(rest) => rest,
    };
    let rest = match root(alloc, pool, builder, rest) {
        Err(error) => return Err(refusal(error)),
        Ok(rest) => rest,
    };
    let rest = match miscs(pool, builder, rest) {
        Err(error) => return Err(refusal(error)),
        Ok(rest) => rest,
    };
    if !rest.is_empty() {
        return Err(ShredFault::NotWellFormed);
    }
    Ok(())
}
