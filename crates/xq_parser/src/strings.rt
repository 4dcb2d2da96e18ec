//! What strings and pieces of direct constructors stand for: line ends, references, doubled quotes.
ghost use Rattle.std.specs.Prelude.{◌≡◌, ◌≤◌, ◌<◌, ◌+◌, length, false, IfOk, slice_range};
ghost use Rattle.xq_ast.specs.Direct as direct;
ghost use Rattle.xq_ast.specs.Pieces as pieces;
ghost use Rattle.xq_ast.specs.Values as spec;
ghost use Rattle.xq_parser.specs.Strings.{LineAdded, reference_step, value_step, added};

use sqlite_items::Items;
use std::alloc::{AllocError, Global};
use xq_ast::leaf::{ContentRun, ValueRun};
use xq_ast::look::Look;
use xq_lexer::bytes::{Class, byte, name_run_end, run_end};
use xq_lexer::references::reference;

/// The bytes between two places, as far as they stand in the text.
#[tactic(auto, using(crate::proofs::Parts::up_to_end, crate::proofs::Parts::none_between))]
fn part(text: &[u8], from: usize, to: usize) -> &[u8]
    ensures { result.now ≡ slice_range text.now from to }
{
    let end = to.min(text.len());
    if from < end { &text[from..end] } else { b"" }
}

/// Adds a byte as a part of a line, and says whether it is a carriage return.
fn push_byte(found: &mut Vec<u8>, after: bool, byte: u8) -> Result<bool, AllocError>
    ensures { IfOk result (λ now. LineAdded found.old.items found.new.items after now byte) }
{
    if byte == b'\r' {
        found.push(b'\n')?;
        return Ok(true);
    }
    if byte == b'\n' && after {
        return Ok(false);
    }
    found.push(byte)?;
    Ok(false)
}

/// The bytes with a line feed for each line end (XQuery 1.0, appendix A.2.3).
fn lines(alloc: Global, bytes: &[u8]) -> Result<Items<u8>, AllocError>
    ensures { IfOk result (λ found. found ≡ spec.lines_from false bytes.now) }
{
    let mut found = Vec::new(alloc);
    let mut after = false;
    for byte in bytes {
        after = push_byte(&mut found, after, *byte)?;
    }
    Ok(Items::from_vec(found))
}

/// The text between two places with a line feed for each line end (XQuery 1.0, appendix A.2.3).
pub fn lines_of(alloc: Global, text: &[u8], from: usize, to: usize) -> Result<Items<u8>, AllocError>
    ensures { IfOk result (λ found. found ≡ spec.lines_of text.now from to) }
{
    lines(alloc, part(text, from, to))
}

/// The character of the reference at a place in UTF-8, or nothing where none stands there (XQuery 1.0,
/// section 3.1.1).
#[tactic(auto, using(crate::proofs::Parts::no_reference))]
fn referred(alloc: Global, text: &[u8], at: usize) -> Result<Items<u8>, AllocError>
    ensures { IfOk result (λ found. found ≡ direct.referred text.now at) }
{
    if at > text.len() {
        return Ok(Items::new(alloc));
    }
    match reference(text, at) {
        None => Ok(Items::new(alloc)),
        Some((c, _)) => {
            let mut bytes = [0; 4];
            Items::from_slice(alloc, c.encode_utf8(&mut bytes).as_bytes())
        }
    }
}

/// The second of two quotes between two places.
fn second(alloc: Global, text: &[u8], at: usize, to: usize) -> Result<Items<u8>, AllocError>
    ensures { IfOk result (λ found. found ≡ spec.lines_of text.now (at + 1) to) }
{
    match at.checked_add(1) {
        Some(from) => lines_of(alloc, text, from, to),
        None => Ok(Items::new(alloc)),
    }
}

/// What a piece of a value between two places stands for, by its class (XQuery 1.0, productions 99 to 101).
pub fn value_run(
    alloc: Global,
    kind: Look,
    text: &[u8],
    at: usize,
    to: usize,
) -> Result<ValueRun, AllocError>
    ensures { IfOk result (λ run. run ≡ direct.value_run kind text.now at to) }
{
    match kind {
        Look::Chars => Ok(ValueRun::Chars(lines_of(alloc, text, at, to)?)),
        Look::Reference => Ok(ValueRun::Reference(referred(alloc, text, at)?)),
        Look::DoubledOpen => Ok(ValueRun::OpenBrace),
        Look::DoubledClose => Ok(ValueRun::CloseBrace),
        _ => Ok(ValueRun::Quote(second(alloc, text, at, to)?)),
    }
}

/// The characters of a CDATA section between two places.
fn section(alloc: Global, text: &[u8], at: usize, to: usize) -> Result<Items<u8>, AllocError>
    ensures { IfOk result (λ found. found ≡ pieces.cdata_value text.now at to) }
{
    match at.checked_add(9) {
        Some(from) => lines_of(alloc, text, from, to.saturating_sub(3)),
        None => Ok(Items::new(alloc)),
    }
}

/// What a piece of content between two places stands for, by its class (XQuery 1.0, production 101).
pub fn content_run(
    alloc: Global,
    kind: Look,
    text: &[u8],
    at: usize,
    to: usize,
) -> Result<ContentRun, AllocError>
    ensures { IfOk result (λ run. run ≡ direct.content_run kind text.now at to) }
{
    match kind {
        Look::Chars => Ok(ContentRun::Chars(lines_of(alloc, text, at, to)?)),
        Look::Cdata => Ok(ContentRun::Cdata(section(alloc, text, at, to)?)),
        Look::Reference => Ok(ContentRun::Reference(referred(alloc, text, at)?)),
        Look::DoubledOpen => Ok(ContentRun::OpenBrace),
        _ => Ok(ContentRun::CloseBrace),
    }
}

/// Where the name of the instruction at a place ends.
fn target_end(text: &[u8], at: usize) -> usize
    requires { at < length text.now }
    ensures { result ≡ pieces.target_end text.now at }
{
    name_run_end(true, text, at + 2)
}

/// The name of the instruction at a place (XQuery 1.0, section 3.7.2).
pub fn target(alloc: Global, text: &[u8], at: usize) -> Result<Items<u8>, AllocError>
    requires { at < length text.now }
    ensures { IfOk result (λ found. found ≡ pieces.target text.now at) }
{
    Items::from_slice(alloc, part(text, at + 2, target_end(text, at)))
}

/// The characters of the instruction between two places (XQuery 1.0, section 3.7.2).
pub fn instruction_value(
    alloc: Global,
    text: &[u8],
    at: usize,
    to: usize,
) -> Result<Items<u8>, AllocError>
    requires { at < length text.now }
    ensures { IfOk result (λ found. found ≡ pieces.instruction_value text.now at to) }
{
    let from = run_end(Class::White, text, target_end(text, at));
    lines_of(alloc, text, from, to.saturating_sub(2))
}

/// Adds the character of the reference at a place, and gives the place after it.
fn push_reference(found: &mut Vec<u8>, text: &[u8], at: usize) -> Result<Option<usize>, AllocError>
    requires { at ≤ length text.now }
    ensures { IfOk result (λ next. (found.new.items, next) ≡ added found.old.items (reference_step text.now at)) }
{
    match reference(text, at) {
        None => Ok(None),
        Some((c, next)) => {
            let mut bytes = [0; 4];
            found.extend_from_slice(c.encode_utf8(&mut bytes).as_bytes())?;
            Ok(Some(next))
        }
    }
}

/// Adds what stands at a place between the quotes of a string, and gives the place after it.
fn push_step(
    found: &mut Vec<u8>,
    quote: u8,
    text: &[u8],
    at: usize,
) -> Result<Option<usize>, AllocError>
    requires { at + 2 ≤ length text.now }
    ensures { IfOk result (λ next. (found.new.items, next) ≡ added found.old.items (value_step quote text.now at)) }
{
    let b = byte(text, at);
    if b == quote {
        found.push(quote)?;
        return Ok(Some(at + 2));
    }
    if b == b'&' {
        return push_reference(found, text, at);
    }
    if b == b'\r' {
        found.push(b'\n')?;
        let next = if byte(text, at + 1) == b'\n' {
            at + 2
        } else {
            at + 1
        };
        return Ok(Some(next));
    }
    found.push(b)?;
    Ok(Some(at + 1))
}

/// The value of the string between two places, its quotes included: doubled quotes, references and line
/// ends read (XQuery 1.0, section 3.1.1).
pub fn string_value(
    alloc: Global,
    text: &[u8],
    from: usize,
    to: usize,
) -> Result<Items<u8>, AllocError>
    requires { to ≤ length text.now }
    ensures { IfOk result (λ found. found ≡ spec.string_value text.now from to) }
{
    let mut found = Vec::new(alloc);
    if from >= to {
        return Ok(Items::from_vec(found));
    }
    let quote = byte(text, from);
    let last = to - 1;
    let mut at = from + 1;
    for _turn in from..to {
        if at >= last {
            return Ok(Items::from_vec(found));
        }
        match push_step(&mut found, quote, text, at)? {
            None => return Ok(Items::from_vec(found)),
            Some(next) => at = next,
        }
    }
    Ok(Items::from_vec(found))
}
