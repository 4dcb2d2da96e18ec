//! The Core of constructors (Formal Semantics, section 4.7).
ghost use Rattle.std.specs.Prelude.{◌≡◌, IfOk, [], ◌∷◌, None, false};
ghost use Rattle.doc_table.specs.Tree.{CommentNode, InstructionNode, text_in};
ghost use Rattle.core_meaning.specs.Erasure.{Texts, core_of};
ghost use Rattle.core_meaning.specs.Erasure as erased;
ghost use Rattle.core_meaning.specs.PlainCore as c;
ghost use Rattle.core_scope.specs.Syn as s;
ghost use Rattle.core_normal.specs.Contents.{behind_part, core_at, joined, kept_apart, name_in, named_by, normed_attributes, normed_content, normed_name, normed_parts, normed_values, or_empty, some_in, value_in};
ghost use Rattle.core_normal.specs.Making.{HasEmpty, Makes_, Norms, cores_in};
ghost use Rattle.core_normal.specs.Pieces.{one, text_lit, value_of};
ghost use Rattle.core_normal.specs.Trees as trees;

use crate::bodies::{State, Tree};
use crate::leaves::build_kind;
use crate::make::{both, build_named, build_plain, call_one, called, empty, text};
use crate::maker::{Maker, Nested};
use crate::pieces::{Context, text_node};
use core_meaning::{BuildKind, Core};
use sqlite_items::{Boxed, Items};
use std::alloc::Global;
use xq_ast::leaf;
use xq_ast::leaf::{Name, TextRun};
use xq_ast::node::{Attribute, BuildName, Part, ValuePart};
use xq_base::{Fun, TextId, Want};

/// A constructor with or without a name.
fn built(
    alloc: Global,
    offset: u64,
    what: BuildKind,
    name: Option<Core>,
    content: Core,
) -> Result<Core, Want>
    ensures { IfOk result (λ core. (t : Texts) → core_of t core ≡ c.Build offset (erased.node_kind what) (named_by (core_at t name)) (core_of t content)) }
{
    match name {
        None => {
            let core = build_plain(alloc, offset, what, content)?;
            Ok(core)
        }
        Some(name) => {
            let core = build_named(alloc, offset, what, name, content)?;
            Ok(core)
        }
    }
}

/// A direct comment (XQuery 1.0, section 3.7.2).
pub fn comment(alloc: Global, offset: u64, content: TextId) -> Result<Core, Want>
    ensures { IfOk result (λ core. (t : Texts) → core_of t core ≡ c.Build offset CommentNode c.no_cores (text_lit offset (text_in t content))) }
{
    let inside = text(offset, content);
    let core = build_plain(alloc, offset, BuildKind::Comment, inside)?;
    Ok(core)
}

/// A direct instruction (XQuery 1.0, section 3.7.2).
pub fn instruction(alloc: Global, offset: u64, name: TextId, content: TextId) -> Result<Core, Want>
    ensures { IfOk result (λ core. (t : Texts) → core_of t core ≡ c.Build offset InstructionNode (one (text_lit offset (text_in t name))) (text_lit offset (text_in t content))) }
{
    let target = text(offset, name);
    let inside = text(offset, content);
    let core = build_named(alloc, offset, BuildKind::Pi, target, inside)?;
    Ok(core)
}

/// What was gathered, with one part more.
fn join(alloc: Global, offset: u64, before: Option<Core>, a: Core) -> Result<Core, Want>
    ensures { IfOk result (λ core. (t : Texts) → core_of t core ≡ joined offset (core_at t before) (core_of t a)) }
{
    match before {
        None => Ok(a),
        Some(e) => {
            let core = both(alloc, offset, e, a)?;
            Ok(core)
        }
    }
}

/// What was gathered, or the empty sequence.
fn gathered(offset: u64, all: Option<Core>) -> Core
    ensures { (t : Texts) → core_of t result ≡ or_empty offset (core_at t all) }
{
    match all {
        None => empty(offset),
        Some(e) => e,
    }
}

/// What was gathered, with an empty text behind it where braces are neighbours.
fn apart(
    alloc: Global,
    offset: u64,
    behind: bool,
    before: Option<Core>,
) -> Result<Option<Core>, Want>
    ensures { IfOk result (λ all. (t : Texts) → HasEmpty t → core_at t all ≡ kept_apart offset behind (core_at t before)) }
{
    if behind {
        let node = text_node(alloc, offset, TextId(0))?;
        let core = join(alloc, offset, before, node)?;
        return Ok(Some(core));
    }
    Ok(before)
}

/// Whether a brace may have a brace as its neighbour behind a part.
fn is_behind(part: &Part<TextRun, Tree>, behind: bool) -> bool
    ensures { result ≡ behind_part part.now behind }
{
    match part {
        Part::Run(_, run) => run.is_boundary && behind,
        Part::Brace(_, _) => true,
        Part::Inner(_) => false,
    }
}

/// The value of an attribute (XQuery 1.0, section 3.7.1.1).
fn attribute_value(offset: u64, mut parts: Items<Core>) -> Core
    ensures { (t : Texts) → HasEmpty t → core_of t result ≡ value_of offset (cores_in t parts) }
{
    if parts.len() > 1 {
        return called(offset, Fun::Concat, parts);
    }
    match parts.pop() {
        None => text(offset, TextId(0)),
        Some(only) => only,
    }
}

impl<'q, N: Nested> Maker<'q, N> {
    /// The name of a constructor with a word.
    fn build_name(
        &self,
        offset: u64,
        name: &BuildName<TextId, Tree>,
        state: &mut State,
        focus: Option<Context>,
    ) -> Result<Option<Core>, Want>
        requires { N.norms self.now.nested self.now.levels }
        ensures { Makes_ name_in self.now.bodies.now state.old focus (normed_name self.now.bodies.now (λ t. trees.name t name.now) offset) result state.new }
    {
        match name {
            BuildName::Absent => Ok(None),
            BuildName::Named(written) => {
                let literal = text(offset, written.text);
                Ok(Some(literal))
            }
            BuildName::Computed(e) => {
                let inner = e.get();
                let core = self.expr(inner, state, focus)?;
                Ok(Some(core))
            }
        }
    }

    /// The content of a constructor with a word.
    fn build_content(
        &self,
        offset: u64,
        content: &Option<Boxed<Tree>>,
        state: &mut State,
        focus: Option<Context>,
    ) -> Result<Core, Want>
        requires { N.norms self.now.nested self.now.levels }
        ensures { Makes_ core_of self.now.bodies.now state.old focus (normed_content self.now.bodies.now (λ t. trees.maybe t content.now) offset) result state.new }
    {
        match content {
            None => Ok(empty(offset)),
            Some(e) => {
                let inner = e.get();
                let core = self.expr(inner, state, focus)?;
                Ok(core)
            }
        }
    }

    /// A constructor with a word (XQuery 1.0, section 3.7.3).
    pub fn build(
        &self,
        offset: u64,
        what: leaf::BuildKind,
        name: &BuildName<TextId, Tree>,
        content: &Option<Boxed<Tree>>,
        state: &mut State,
        focus: Option<Context>,
    ) -> Result<Core, Want>
        requires { N.norms self.now.nested self.now.levels }
        ensures { Norms self.now.bodies.now state.old focus (λ t. s.build offset what (trees.name t name.now) (trees.maybe t content.now)) result state.new }
    {
        let called = self.build_name(offset, name, state, focus)?;
        let inside = self.build_content(offset, content, state, focus)?;
        let kind = build_kind(what);
        let core = built(self.alloc, offset, kind, called, inside)?;
        Ok(core)
    }

    /// A part of an attribute's value.
    fn value_part(
        &self,
        offset: u64,
        part: &ValuePart<TextId, Tree>,
        state: &mut State,
        focus: Option<Context>,
    ) -> Result<Core, Want>
        requires { N.norms self.now.nested self.now.levels }
        ensures { Makes_ value_in self.now.bodies.now state.old focus (normed_values self.now.bodies.now (λ t. trees.values t (part.now ∷ [])) offset) result state.new }
    {
        match part {
            ValuePart::Run(_, content) => {
                let core = text(offset, *content);
                Ok(core)
            }
            ValuePart::Brace(_, e) => {
                let inner = e.get();
                let value = self.expr(inner, state, focus)?;
                let core = call_one(self.alloc, offset, Fun::ContentText, value)?;
                Ok(core)
            }
        }
    }

    /// The parts of an attribute's value (XQuery 1.0, section 3.7.1.1).
    fn values(
        &self,
        offset: u64,
        parts: &[ValuePart<TextId, Tree>],
        state: &mut State,
        focus: Option<Context>,
    ) -> Result<Items<Core>, Want>
        requires { N.norms self.now.nested self.now.levels }
        ensures { Makes_ cores_in self.now.bodies.now state.old focus (normed_values self.now.bodies.now (λ t. trees.values t parts.now) offset) result state.new }
    {
        let mut made = Items::new(self.alloc);
        for part in parts {
            let core = self.value_part(offset, part, state, focus)?;
            made.push(core)?;
        }
        Ok(made)
    }

    /// An attribute behind what was gathered.
    fn attribute(
        &self,
        offset: u64,
        attribute: &Attribute<TextId, TextId, Tree>,
        before: Option<Core>,
        state: &mut State,
        focus: Option<Context>,
    ) -> Result<Core, Want>
        requires { N.norms self.now.nested self.now.levels }
        ensures { Makes_ some_in self.now.bodies.now state.old focus (normed_attributes self.now.bodies.now offset (attribute.now ∷ []) (λ t. core_at t before)) result state.new }
    {
        let at = attribute.name.offset;
        let parts = attribute.value.as_slice();
        let values = self.values(at, parts, state, focus)?;
        let name = text(at, attribute.name.text);
        let value = attribute_value(at, values);
        let one = build_named(self.alloc, at, BuildKind::Attribute, name, value)?;
        let core = join(self.alloc, offset, before, one)?;
        Ok(core)
    }

    /// Attributes (XQuery 1.0, section 3.7.1.1), one after the other.
    fn attributes(
        &self,
        offset: u64,
        attributes: &[Attribute<TextId, TextId, Tree>],
        state: &mut State,
        focus: Option<Context>,
    ) -> Result<Option<Core>, Want>
        requires { N.norms self.now.nested self.now.levels }
        ensures { Makes_ core_at self.now.bodies.now state.old focus (normed_attributes self.now.bodies.now offset attributes.now (λ t. None)) result state.new }
    {
        let mut before = None;
        for attribute in attributes {
            let core = self.attribute(offset, attribute, before, state, focus)?;
            before = Some(core);
        }
        Ok(before)
    }

    /// A part of content behind what was gathered (XQuery 1.0, section 3.7.1.3).
    fn part(
        &self,
        offset: u64,
        part: &Part<TextRun, Tree>,
        behind: bool,
        before: Option<Core>,
        state: &mut State,
        focus: Option<Context>,
    ) -> Result<Option<Core>, Want>
        requires { N.norms self.now.nested self.now.levels }
        ensures { Makes_ core_at self.now.bodies.now state.old focus (normed_parts self.now.bodies.now offset (part.now ∷ []) behind (λ t. core_at t before)) result state.new }
    {
        match part {
            Part::Run(_, run) => {
                if run.is_boundary {
                    return Ok(before);
                }
                let node = text_node(self.alloc, offset, run.text)?;
                let core = join(self.alloc, offset, before, node)?;
                Ok(Some(core))
            }
            Part::Brace(_, e) => {
                let inner = e.get();
                let value = self.expr(inner, state, focus)?;
                let all = apart(self.alloc, offset, behind, before)?;
                let core = join(self.alloc, offset, all, value)?;
                Ok(Some(core))
            }
            Part::Inner(e) => {
                let inner = e.get();
                let value = self.expr(inner, state, focus)?;
                let core = join(self.alloc, offset, before, value)?;
                Ok(Some(core))
            }
        }
    }

    /// The parts of content behind what was gathered.
    fn parts(
        &self,
        offset: u64,
        parts: &[Part<TextRun, Tree>],
        before: Option<Core>,
        state: &mut State,
        focus: Option<Context>,
    ) -> Result<Option<Core>, Want>
        requires { N.norms self.now.nested self.now.levels }
        ensures { Makes_ core_at self.now.bodies.now state.old focus (normed_parts self.now.bodies.now offset parts.now false (λ t. core_at t before)) result state.new }
    {
        let mut left = before;
        let mut behind = false;
        for part in parts {
            left = self.part(offset, part, behind, left, state, focus)?;
            behind = is_behind(part, behind);
        }
        Ok(left)
    }

    /// A direct element (XQuery 1.0, section 3.7.1).
    pub fn element(
        &self,
        offset: u64,
        name: &Name<TextId>,
        attributes: &[Attribute<TextId, TextId, Tree>],
        parts: &[Part<TextRun, Tree>],
        state: &mut State,
        focus: Option<Context>,
    ) -> Result<Core, Want>
        requires { N.norms self.now.nested self.now.levels }
        ensures { Norms self.now.bodies.now state.old focus (λ t. s.element offset (text_in t name.now.text) (trees.attributes t attributes.now) (trees.parts t parts.now)) result state.new }
    {
        let first = self.attributes(offset, attributes, state, focus)?;
        let all = self.parts(offset, parts, first, state, focus)?;
        let content = gathered(offset, all);
        let literal = text(offset, name.text);
        let core = build_named(self.alloc, offset, BuildKind::Element, literal, content)?;
        Ok(core)
    }
}
