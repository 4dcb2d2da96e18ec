//! How types are written.
ghost use Rattle.std.specs.Prelude.{◌≡◌, ◌++◌, ◌≤◌, OnOk, IfOk};
ghost use Rattle.xq_types.specs.Held.{kinds_in, typ_of};
ghost use Rattle.xq_types.specs.Spelling as spec;
ghost use Rattle.xq_types.specs.Spelling.{number_mark};
ghost use Rattle.xq_types.specs.Written.{with_word, with_atoms, with_trees, with_leaves};

use crate::kinds::{KindSet, has_none};
use crate::typ::XqType;
use std::alloc::Global;
use xq_base::Want;

/// Adds bytes at the end.
fn write_bytes(text: &mut Vec<u8>, bytes: &[u8]) -> Result<(), Want>
    ensures { OnOk result (text.new.items ≡ text.old.items ++ bytes.now) }
{
    if text.extend_from_slice(bytes).is_err() {
        return Err(Want);
    }
    Ok(())
}

/// Adds a word, if it is to stand there.
fn write_word(text: &mut Vec<u8>, stands: bool, word: &[u8]) -> Result<(), Want>
    ensures { OnOk result (text.new.items ≡ with_word stands word.now text.old.items) }
{
    if !stands {
        return Ok(());
    }
    if text.is_empty() {
        return write_bytes(text, word);
    }
    write_bytes(text, b"|")?;
    write_bytes(text, word)
}

/// Adds the kinds of atomic values.
fn write_atoms(text: &mut Vec<u8>, kinds: KindSet) -> Result<(), Want>
    ensures { OnOk result (text.new.items ≡ with_atoms (kinds_in kinds) text.old.items) }
{
    write_word(text, kinds[0], b"integer")?;
    write_word(text, kinds[1], b"string")?;
    write_word(text, kinds[2], b"boolean")?;
    write_word(text, kinds[3], b"untyped")
}

/// Adds elements, attributes and texts.
fn write_trees(text: &mut Vec<u8>, kinds: KindSet) -> Result<(), Want>
    ensures { OnOk result (text.new.items ≡ with_trees (kinds_in kinds) text.old.items) }
{
    write_word(text, kinds[4], b"element")?;
    write_word(text, kinds[5], b"attribute")?;
    write_word(text, kinds[6], b"text")
}

/// Adds comments, instructions and documents.
fn write_leaves(text: &mut Vec<u8>, kinds: KindSet) -> Result<(), Want>
    ensures { OnOk result (text.new.items ≡ with_leaves (kinds_in kinds) text.old.items) }
{
    write_word(text, kinds[7], b"comment")?;
    write_word(text, kinds[8], b"pi")?;
    write_word(text, kinds[9], b"document")
}

/// Adds what says how many items there are.
fn write_mark(text: &mut Vec<u8>, least: u8, most: u8) -> Result<(), Want>
    ensures { OnOk result (text.new.items ≡ text.old.items ++ number_mark least most) }
{
    if most == 1 {
        if least == 1 {
            return Ok(());
        }
        return write_bytes(text, b"?");
    }
    if least == 1 {
        return write_bytes(text, b"+");
    }
    write_bytes(text, b"*")
}

/// Adds the kinds of a type, and how many items there are.
fn write_type(text: &mut Vec<u8>, ty: XqType) -> Result<(), Want>
    ensures { OnOk result (text.new.items ≡ with_leaves (kinds_in ty.kinds) (with_trees (kinds_in ty.kinds) (with_atoms (kinds_in ty.kinds) text.old.items)) ++ number_mark ty.least ty.most) }
{
    write_atoms(text, ty.kinds)?;
    write_trees(text, ty.kinds)?;
    write_leaves(text, ty.kinds)?;
    write_mark(text, ty.least, ty.most)
}

/// A type as it is written: its kinds joined by `|`, and then nothing, `?`, `*` or `+`; or `empty` (own rule).
///
/// Errors: `Want`, where memory is wanting.
pub fn type_text(alloc: Global, ty: XqType) -> Result<Vec<u8>, Want>
    requires least { ty.least ≤ 1 }
    requires most { ty.most ≤ 2 }
    ensures { IfOk result (λ text. text.items ≡ spec.type_text (typ_of ty)) }
{
    let mut text = Vec::new(alloc);
    if ty.most == 0 || has_none(ty.kinds) {
        write_bytes(&mut text, b"empty")?;
        return Ok(text);
    }
    write_type(&mut text, ty)?;
    Ok(text)
}
