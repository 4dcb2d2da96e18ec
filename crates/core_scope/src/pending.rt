//! Pieces of direct content, or of an attribute's value, that become one text (XQuery 1.0, sections 3.7.1.1
//! and 3.7.1.3).
ghost use Rattle.std.specs.Prelude.{◌≡◌, ◌++◌, ◌&&◌, false, None, IfOk, OnOk, map};
ghost use Rattle.std.specs.List.{list_all};
ghost use Rattle.doc_table.specs.OtherTexts.{Grows};
ghost use Rattle.xq_base.specs.Texts as texts;
ghost use Rattle.core_scope.specs.Literals as spec;
ghost use Rattle.core_scope.specs.Matching as fits;
ghost use Rattle.core_scope.specs.Pending.{added_run, added_value, begins_with_run, begins_with_value, pending_run, pending_value};
ghost use Rattle.core_scope.specs.Standing.{Lasting};
ghost use Rattle.core_scope.specs.Syn.{Parts, Values, resolved};

use crate::leaves::text;
use crate::resolving::Resolved;
use sqlite_items::Items;
use std::alloc::Global;
use std::marker::Model;
use xq_ast::leaf::{ContentRun, TextRun, ValueRun};
use xq_ast::node::{Part, ValuePart};
use xq_base::{Pool, TextId, Want};

/// What a piece of content stands for.
fn content_text(run: &ContentRun) -> &[u8]
    ensures { result.now ≡ spec.content_text run.now }
{
    match run {
        ContentRun::Chars(t) => t.as_slice(),
        ContentRun::Cdata(t) => t.as_slice(),
        ContentRun::Reference(t) => t.as_slice(),
        ContentRun::OpenBrace => b"{",
        ContentRun::CloseBrace => b"}",
    }
}

fn is_space(byte: u8) -> bool
    ensures { result ≡ texts.is_space byte }
{
    byte == 32 || byte == 9 || byte == 10 || byte == 13
}

/// Whether all bytes are white space.
fn is_white(bytes: &[u8]) -> bool
    ensures { result ≡ list_all texts.is_space bytes.now }
{
    for byte in bytes {
        if !is_space(*byte) {
            return false;
        }
    }
    true
}

/// Whether a piece is white space that is written as itself.
fn is_white_piece(run: &ContentRun) -> bool
    ensures { result ≡ spec.is_white_piece run.now }
{
    match run {
        ContentRun::Chars(t) => is_white(t.as_slice()),
        ContentRun::Cdata(_) => false,
        ContentRun::Reference(_) => false,
        ContentRun::OpenBrace => false,
        ContentRun::CloseBrace => false,
    }
}

/// A run of content whose end isn't seen: its place, its text, and whether it is boundary space so far.
#[derive(Drop)]
struct Run {
    offset: u64,
    text: Vec<u8>,
    is_boundary: bool,
}

/// A run that is one piece so far.
fn begun(alloc: Global, offset: u64, bytes: &[u8], is_boundary: bool) -> Result<Run, Want>
    ensures { IfOk result (λ r. (r.text.items ≡ bytes.now) × (r.is_boundary ≡ is_boundary)) }
{
    let text = Vec::from_slice(alloc, bytes)?;
    Ok(Run {
        offset,
        text,
        is_boundary,
    })
}

/// A run with a piece more.
fn continued(run: Run, bytes: &[u8], white: bool) -> Result<Run, Want>
    ensures { IfOk result (λ r. (r.text.items ≡ run.text.items ++ bytes.now) × (r.is_boundary ≡ (run.is_boundary && white))) }
{
    let Run {
        offset,
        mut text,
        is_boundary,
    } = run;
    text.extend_from_slice(bytes)?;
    Ok(Run {
        offset,
        text,
        is_boundary: is_boundary && white,
    })
}

/// The run of content that may go on, if there is one.
#[derive(Drop)]
pub struct PendingRun {
    alloc: Global,
    run: Option<Run>,
}

impl Model for PendingRun {
    ghost use Rattle.std.specs.Prelude.{Bool, List, Option, option_map, ℕ};

    ghost Value = { Option (List ℕ × Bool) };

    ghost view = { λ p. option_map (λ r. (r.text.items, r.is_boundary)) p.run };
}

impl PendingRun {
    /// No run. It takes no memory.
    pub fn new(alloc: Global) -> PendingRun
        ensures { result ≡ None }
    {
        PendingRun { alloc, run: None }
    }

    /// A piece more.
    ///
    /// Errors: `Want`, where memory is wanting.
    pub fn add(&mut self, offset: u64, piece: &ContentRun) -> Result<(), Want>
        ensures { OnOk result (self.new ≡ added_run self.old (spec.content_text piece.now) (spec.is_white_piece piece.now)) }
    {
        let white = is_white_piece(piece);
        let bytes = content_text(piece);
        let run = match self.run.take() {
            None => begun(self.alloc, offset, bytes, white)?,
            Some(run) => continued(run, bytes, white)?,
        };
        self.run = Some(run);
        Ok(())
    }

    /// Puts the run behind parts, if there is one: no piece follows it.
    ///
    /// Errors: `Want`, where memory is wanting.
    #[tactic(auto, using(crate::proofs::Merging::run_ends))]
    pub fn end(
        &mut self,
        parts: &mut Items<Part<TextRun, Resolved>>,
        pool: &mut Pool,
    ) -> Result<(), Want>
        ensures stands { OnOk result (Lasting pool.new (λ later. (rest : Parts resolved) → begins_with_run rest ≡ false → fits.parts_before later parts.new rest ≡ fits.parts_before later parts.old (pending_run self.old rest))) }
        ensures none { OnOk result (self.new ≡ None) }
        ensures keeps { Grows pool.old pool.new }
    {
        match self.run.take() {
            None => Ok(()),
            Some(run) => {
                let id = text(run.text.as_slice(), pool)?;
                parts.push(Part::Run(
                    run.offset,
                    TextRun {
                        text: id,
                        is_boundary: run.is_boundary,
                    },
                ))?;
                Ok(())
            }
        }
    }
}

fn blank_for(byte: u8) -> u8
    ensures { result ≡ spec.blank_for byte }
{
    if byte == 9 || byte == 10 { 32 } else { byte }
}

/// Characters behind a text, with a blank for each tab and line end.
fn add_blanked(text: &mut Vec<u8>, bytes: &[u8]) -> Result<(), Want>
    ensures { OnOk result (text.new.items ≡ text.old.items ++ map spec.blank_for bytes.now) }
{
    for byte in bytes {
        text.push(blank_for(*byte))?;
    }
    Ok(())
}

/// What a piece of a value stands for, behind a text.
fn add_piece(text: &mut Vec<u8>, piece: &ValueRun) -> Result<(), Want>
    ensures { OnOk result (text.new.items ≡ text.old.items ++ spec.value_text piece.now) }
{
    match piece {
        ValueRun::Chars(t) => add_blanked(text, t.as_slice()),
        ValueRun::Reference(t) => {
            text.extend_from_slice(t.as_slice())?;
            Ok(())
        }
        ValueRun::OpenBrace => {
            text.push(123)?;
            Ok(())
        }
        ValueRun::CloseBrace => {
            text.push(125)?;
            Ok(())
        }
        ValueRun::Quote(t) => {
            text.extend_from_slice(t.as_slice())?;
            Ok(())
        }
    }
}

/// A run of a value whose end isn't seen: its place and its text.
#[derive(Drop)]
struct Value {
    offset: u64,
    text: Vec<u8>,
}

/// A run with a piece more.
fn lengthened(run: Value, piece: &ValueRun) -> Result<Value, Want>
    ensures { IfOk result (λ r. r.text.items ≡ run.text.items ++ spec.value_text piece.now) }
{
    let Value { offset, mut text } = run;
    add_piece(&mut text, piece)?;
    Ok(Value { offset, text })
}

/// The run of a value that may go on, if there is one.
#[derive(Drop)]
pub struct PendingValue {
    alloc: Global,
    run: Option<Value>,
}

impl Model for PendingValue {
    ghost use Rattle.std.specs.Prelude.{List, Option, option_map, ℕ};

    ghost Value = { Option (List ℕ) };

    ghost view = { λ p. option_map (λ r. r.text.items) p.run };
}

impl PendingValue {
    /// No run. It takes no memory.
    pub fn new(alloc: Global) -> PendingValue
        ensures { result ≡ None }
    {
        PendingValue { alloc, run: None }
    }

    /// A piece more.
    ///
    /// Errors: `Want`, where memory is wanting.
    pub fn add(&mut self, offset: u64, piece: &ValueRun) -> Result<(), Want>
        ensures { OnOk result (self.new ≡ added_value self.old (spec.value_text piece.now)) }
    {
        let run = match self.run.take() {
            None => {
                let mut text = Vec::new(self.alloc);
                add_piece(&mut text, piece)?;
                Value { offset, text }
            }
            Some(run) => lengthened(run, piece)?,
        };
        self.run = Some(run);
        Ok(())
    }

    /// Puts the run behind parts, if there is one: no piece follows it.
    ///
    /// Errors: `Want`, where memory is wanting.
    #[tactic(auto, using(crate::proofs::Merging::value_ends))]
    pub fn end(
        &mut self,
        parts: &mut Items<ValuePart<TextId, Resolved>>,
        pool: &mut Pool,
    ) -> Result<(), Want>
        ensures stands { OnOk result (Lasting pool.new (λ later. (rest : Values resolved) → begins_with_value rest ≡ false → fits.values_before later parts.new rest ≡ fits.values_before later parts.old (pending_value self.old rest))) }
        ensures none { OnOk result (self.new ≡ None) }
        ensures keeps { Grows pool.old pool.new }
    {
        match self.run.take() {
            None => Ok(()),
            Some(run) => {
                let id = text(run.text.as_slice(), pool)?;
                parts.push(ValuePart::Run(run.offset, id))?;
                Ok(())
            }
        }
    }
}
