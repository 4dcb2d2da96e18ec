//! The resolved forms of constructors. Neighbouring pieces of content or of a value become one text.
ghost use Rattle.std.specs.Prelude.{◌≡◌, ℕ, IfOk, OnOk, map};
ghost use Rattle.doc_table.specs.OtherTexts.{Grows};
ghost use Rattle.core_scope.specs.Matching as fits;
ghost use Rattle.core_scope.specs.Matching.{NodeStands};
ghost use Rattle.core_scope.specs.Open.{open_in};
ghost use Rattle.core_scope.specs.Pending as pending_;
ghost use Rattle.core_scope.specs.Standing.{Lasting};
ghost use Rattle.core_scope.specs.Syn.{Parts, Values, resolved};
ghost use Rattle.xq_ast.specs.declared.node.Node.TheVariants as n;

use crate::bindings::Bindings;
use crate::leaves::name as resolved_name;
use crate::pending::{PendingRun, PendingValue};
use crate::resolving::{Inner, Read, Resolved, Resolver};
use sqlite_items::{Boxed, Items};
use xq_ast::leaf::{BuildKind, ContentRun, Name, TextRun, ValueRun};
use xq_ast::node::{Attribute, BuildName, Node, Part, ValuePart};
use xq_base::{Pool, TextId, Want};

impl<'s, 'a, N: Inner<'a>> Resolver<'s, 'a, N> {
    /// The name of a constructor with a word.
    fn build_name(
        &self,
        name: &'a BuildName<Items<u8>, Read>,
        names: &mut Bindings<'a>,
        pool: &mut Pool,
    ) -> Result<BuildName<TextId, Resolved>, Want>
        requires { N.resolves self.now.inner self.now.depth }
        ensures stands { IfOk result (λ x. Lasting pool.new (λ later. fits.name_in later x ≡ fits.name_for self.now.functions.now (open_in names.old) name.now)) }
        ensures keeps { Grows pool.old pool.new }
        ensures names { OnOk result (open_in names.new ≡ open_in names.old) }
    {
        match name {
            BuildName::Absent => Ok(BuildName::Absent),
            BuildName::Named(written) => {
                let found = resolved_name(written, pool)?;
                Ok(BuildName::Named(found))
            }
            BuildName::Computed(e) => {
                let found = self.boxed(e, names, pool)?;
                Ok(BuildName::Computed(found))
            }
        }
    }

    /// A constructor with a word.
    #[tactic(auto, using(crate::proofs::Forming::build_stands))]
    pub fn build(
        &self,
        offset: u64,
        kind: BuildKind,
        name: &'a BuildName<Items<u8>, Read>,
        content: &'a Option<Boxed<Read>>,
        names: &mut Bindings<'a>,
        pool: &mut Pool,
    ) -> Result<Resolved, Want>
        requires { N.resolves self.now.inner self.now.depth }
        ensures stands { IfOk result (λ r. NodeStands self.now.functions.now (open_in names.old) (n.Build offset kind name.now content.now) pool.new r) }
        ensures keeps { Grows pool.old pool.new }
        ensures names { OnOk result (open_in names.new ≡ open_in names.old) }
    {
        let name = self.build_name(name, names, pool)?;
        let content = self.maybe(content, names, pool)?;
        Ok(Node::Build(offset, kind, name, content))
    }

    /// A part of a value behind others.
    #[tactic(auto, using(crate::proofs::Merging::value_brace_stands))]
    fn value(
        &self,
        part: &'a ValuePart<ValueRun, Read>,
        pending: &mut PendingValue,
        found: &mut Items<ValuePart<TextId, Resolved>>,
        names: &mut Bindings<'a>,
        pool: &mut Pool,
    ) -> Result<(), Want>
        requires { N.resolves self.now.inner self.now.depth }
        ensures stands { OnOk result (Lasting pool.new (λ later. (rest : Values resolved) → fits.values_before later found.new (pending_.pending_value pending.new rest) ≡ fits.values_before later found.old (pending_.pending_value pending.old (fits.value_for self.now.functions.now (open_in names.old) part.now rest)))) }
        ensures keeps { Grows pool.old pool.new }
        ensures names { OnOk result (open_in names.new ≡ open_in names.old) }
    {
        match part {
            ValuePart::Run(offset, run) => pending.add(*offset, run),
            ValuePart::Brace(offset, e) => {
                pending.end(found, pool)?;
                let inner = self.boxed(e, names, pool)?;
                found.push(ValuePart::Brace(*offset, inner))?;
                Ok(())
            }
        }
    }

    /// A value.
    fn values(
        &self,
        parts: &'a [ValuePart<ValueRun, Read>],
        names: &mut Bindings<'a>,
        pool: &mut Pool,
    ) -> Result<Items<ValuePart<TextId, Resolved>>, Want>
        requires { N.resolves self.now.inner self.now.depth }
        ensures stands { IfOk result (λ vs. Lasting pool.new (λ later. fits.values_in later vs ≡ fits.values_for self.now.functions.now (open_in names.old) parts.now)) }
        ensures keeps { Grows pool.old pool.new }
        ensures names { OnOk result (open_in names.new ≡ open_in names.old) }
    {
        let mut found = Items::new(self.alloc);
        let mut pending = PendingValue::new(self.alloc);
        for part in parts {
            self.value(part, &mut pending, &mut found, names, pool)?;
        }
        pending.end(&mut found, pool)?;
        Ok(found)
    }

    /// Attributes.
    fn attributes(
        &self,
        attributes: &'a [Attribute<Items<u8>, ValueRun, Read>],
        names: &mut Bindings<'a>,
        pool: &mut Pool,
    ) -> Result<Items<Attribute<TextId, TextId, Resolved>>, Want>
        requires { N.resolves self.now.inner self.now.depth }
        ensures stands { IfOk result (λ found. Lasting pool.new (λ later. map (fits.attribute_in later) found ≡ map (fits.attribute_for self.now.functions.now (open_in names.old)) attributes.now)) }
        ensures keeps { Grows pool.old pool.new }
        ensures names { OnOk result (open_in names.new ≡ open_in names.old) }
    {
        let mut found = Items::new(self.alloc);
        for attribute in attributes {
            let one = self.attribute(attribute, names, pool)?;
            found.push(one)?;
        }
        Ok(found)
    }

    /// An attribute.
    fn attribute(
        &self,
        attribute: &'a Attribute<Items<u8>, ValueRun, Read>,
        names: &mut Bindings<'a>,
        pool: &mut Pool,
    ) -> Result<Attribute<TextId, TextId, Resolved>, Want>
        requires { N.resolves self.now.inner self.now.depth }
        ensures stands { IfOk result (λ x. Lasting pool.new (λ later. fits.attribute_in later x ≡ fits.attribute_for self.now.functions.now (open_in names.old) attribute.now)) }
        ensures keeps { Grows pool.old pool.new }
        ensures names { OnOk result (open_in names.new ≡ open_in names.old) }
    {
        let name = resolved_name(&attribute.name, pool)?;
        let value = self.values(attribute.value.as_slice(), names, pool)?;
        Ok(Attribute { name, value })
    }

    /// A part of content behind others.
    #[tactic(auto, using(crate::proofs::Merging::brace_stands, crate::proofs::Merging::inner_stands))]
    fn part(
        &self,
        part: &'a Part<ContentRun, Read>,
        pending: &mut PendingRun,
        found: &mut Items<Part<TextRun, Resolved>>,
        names: &mut Bindings<'a>,
        pool: &mut Pool,
    ) -> Result<(), Want>
        requires { N.resolves self.now.inner self.now.depth }
        ensures stands { OnOk result (Lasting pool.new (λ later. (rest : Parts resolved) → fits.parts_before later found.new (pending_.pending_run pending.new rest) ≡ fits.parts_before later found.old (pending_.pending_run pending.old (fits.part_for self.now.functions.now (open_in names.old) part.now rest)))) }
        ensures keeps { Grows pool.old pool.new }
        ensures names { OnOk result (open_in names.new ≡ open_in names.old) }
    {
        match part {
            Part::Run(offset, run) => pending.add(*offset, run),
            Part::Brace(offset, e) => {
                pending.end(found, pool)?;
                let inner = self.boxed(e, names, pool)?;
                found.push(Part::Brace(*offset, inner))?;
                Ok(())
            }
            Part::Inner(e) => {
                pending.end(found, pool)?;
                let inner = self.boxed(e, names, pool)?;
                found.push(Part::Inner(inner))?;
                Ok(())
            }
        }
    }

    /// Content.
    fn parts(
        &self,
        parts: &'a [Part<ContentRun, Read>],
        names: &mut Bindings<'a>,
        pool: &mut Pool,
    ) -> Result<Items<Part<TextRun, Resolved>>, Want>
        requires { N.resolves self.now.inner self.now.depth }
        ensures stands { IfOk result (λ ps. Lasting pool.new (λ later. fits.parts_in later ps ≡ fits.parts_for self.now.functions.now (open_in names.old) parts.now)) }
        ensures keeps { Grows pool.old pool.new }
        ensures names { OnOk result (open_in names.new ≡ open_in names.old) }
    {
        let mut found = Items::new(self.alloc);
        let mut pending = PendingRun::new(self.alloc);
        for part in parts {
            self.part(part, &mut pending, &mut found, names, pool)?;
        }
        pending.end(&mut found, pool)?;
        Ok(found)
    }

    /// A direct element.
    #[tactic(auto, using(crate::proofs::Forming::element_stands))]
    pub fn element(
        &self,
        offset: u64,
        name: &'a Name<Items<u8>>,
        attributes: &'a [Attribute<Items<u8>, ValueRun, Read>],
        parts: &'a [Part<ContentRun, Read>],
        names: &mut Bindings<'a>,
        pool: &mut Pool,
    ) -> Result<Resolved, Want>
        requires { N.resolves self.now.inner self.now.depth }
        ensures stands { IfOk result (λ r. NodeStands self.now.functions.now (open_in names.old) (n.Element offset name.now attributes.now parts.now) pool.new r) }
        ensures keeps { Grows pool.old pool.new }
        ensures names { OnOk result (open_in names.new ≡ open_in names.old) }
    {
        let name = resolved_name(name, pool)?;
        let attributes = self.attributes(attributes, names, pool)?;
        let parts = self.parts(parts, names, pool)?;
        Ok(Node::Element(offset, name, attributes, parts))
    }
}
