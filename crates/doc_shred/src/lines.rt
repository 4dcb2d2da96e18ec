//! The text of a document: its bytes without a mark, with one kind of line ends.
ghost use Rattle.std.specs.Prelude.{◌≡◌, ◌≤◌, ◌+◌, ◌++◌, length, false, IfOk, OnErr};
ghost use Rattle.std.specs.Cow.{cow_slice_items};
ghost use Rattle.doc_shred.specs.Document.{without_mark, lines_from, lines_joined};
ghost use Rattle.doc_shred.specs.Standing.{LineAdded};

use crate::bytes::strip;
use std::alloc::{AllocError, Global};
use std::borrow::CowSlice;

/// The bytes without a byte order mark at their start (XML 1.0, section 4.3.3).
#[tactic(auto, using(crate::proofs::LineLaws::marked, crate::proofs::LineLaws::unmarked))]
pub fn without_mark(bytes: &[u8]) -> &[u8]
    ensures { result.now ≡ without_mark bytes.now }
{
    match strip(b"\xEF\xBB\xBF", bytes) {
        Some(rest) => rest,
        None => bytes,
    }
}

/// Adds a byte, and says whether it is a carriage return.
fn push_byte(out: &mut Vec<u8>, after: bool, byte: u8) -> Result<bool, AllocError>
    ensures { IfOk result (λ now. LineAdded out.old.items out.new.items after now byte) }
{
    if byte == b'\r' {
        out.push(b'\n')?;
        return Ok(true);
    }
    if byte == b'\n' && after {
        return Ok(false);
    }
    out.push(byte)?;
    Ok(false)
}

/// The bytes, copied with a line feed for each line end.
fn joined(alloc: Global, bytes: &[u8]) -> Result<Vec<u8>, AllocError>
    ensures { IfOk result (λ text. text.items ≡ lines_joined bytes.now) }
{
    let mut out = Vec::new(alloc);
    let mut after = false;
    for byte in bytes {
        after = push_byte(&mut out, after, *byte)?;
    }
    Ok(out)
}

/// The bytes with a line feed for each line end, which are the same where no carriage return stands
/// among them (XML 1.0, section 2.11).
#[tactic(auto, using(crate::proofs::LineLaws::no_returns))]
pub fn join_lines(alloc: Global, bytes: &[u8]) -> Result<CowSlice<'_, u8>, AllocError>
    ensures { IfOk result (λ text. cow_slice_items text ≡ lines_joined bytes.now) }
{
    if !bytes.contains(&b'\r') {
        return Ok(CowSlice::Borrowed(bytes));
    }
    let text = joined(alloc, bytes)?;
    Ok(CowSlice::Owned(text))
}
