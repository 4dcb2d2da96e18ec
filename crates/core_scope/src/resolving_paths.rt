//! The resolved form of a path.
ghost use Rattle.std.specs.Prelude.{◌≡◌, ℕ, IfOk, OnOk, map};
ghost use Rattle.doc_table.specs.OtherTexts.{Grows};
ghost use Rattle.core_scope.specs.Matching as fits;
ghost use Rattle.core_scope.specs.Matching.{NodeStands};
ghost use Rattle.core_scope.specs.Open.{open_in};
ghost use Rattle.core_scope.specs.Standing.{Lasting};
ghost use Rattle.xq_ast.specs.declared.node.Node.TheVariants as n;

use crate::bindings::Bindings;
use crate::leaves::test;
use crate::resolving::{Inner, Read, Resolved, Resolver};
use sqlite_items::Items;
use xq_ast::node::{Behind, Node, Start, Step, StepKind};
use xq_base::{Pool, TextId, Want};

impl<'s, 'a, N: Inner<'a>> Resolver<'s, 'a, N> {
    /// What a step walks, or a primary.
    fn head(
        &self,
        kind: &'a StepKind<Items<u8>, Read>,
        names: &mut Bindings<'a>,
        pool: &mut Pool,
    ) -> Result<StepKind<TextId, Resolved>, Want>
        requires { N.resolves self.now.inner self.now.depth }
        ensures stands { IfOk result (λ x. Lasting pool.new (λ later. fits.head_in later x ≡ fits.head_for self.now.functions.now (open_in names.old) kind.now)) }
        ensures keeps { Grows pool.old pool.new }
        ensures names { OnOk result (open_in names.new ≡ open_in names.old) }
    {
        match kind {
            StepKind::Walk(axis, name) => {
                let found = test(name, pool)?;
                Ok(StepKind::Walk(*axis, found))
            }
            StepKind::Primary(primary) => {
                let found = self.boxed(primary, names, pool)?;
                Ok(StepKind::Primary(found))
            }
        }
    }

    /// A step with its predicates.
    fn step(
        &self,
        step: &'a Step<Items<u8>, Read>,
        names: &mut Bindings<'a>,
        pool: &mut Pool,
    ) -> Result<Step<TextId, Resolved>, Want>
        requires { N.resolves self.now.inner self.now.depth }
        ensures stands { IfOk result (λ x. Lasting pool.new (λ later. fits.step_in later x ≡ fits.step_for self.now.functions.now (open_in names.old) step.now)) }
        ensures keeps { Grows pool.old pool.new }
        ensures names { OnOk result (open_in names.new ≡ open_in names.old) }
    {
        let kind = self.head(&step.kind, names, pool)?;
        let predicates = self.all(step.predicates.as_slice(), names, pool)?;
        Ok(Step {
            offset: step.offset,
            kind,
            predicates,
        })
    }

    /// Steps behind slashes.
    fn behinds(
        &self,
        behinds: &'a [Behind<Items<u8>, Read>],
        names: &mut Bindings<'a>,
        pool: &mut Pool,
    ) -> Result<Items<Behind<TextId, Resolved>>, Want>
        requires { N.resolves self.now.inner self.now.depth }
        ensures stands { IfOk result (λ xs. Lasting pool.new (λ later. map (fits.behind_in later) xs ≡ map (fits.behind_for self.now.functions.now (open_in names.old)) behinds.now)) }
        ensures keeps { Grows pool.old pool.new }
        ensures names { OnOk result (open_in names.new ≡ open_in names.old) }
    {
        let mut found = Items::new(self.alloc);
        for behind in behinds {
            let step = self.step(&behind.step, names, pool)?;
            found.push(Behind {
                slashes: behind.slashes,
                step,
            })?;
        }
        Ok(found)
    }

    /// A path.
    #[tactic(auto, using(crate::proofs::Forming::path_stands))]
    pub fn path(
        &self,
        start: Start,
        first: &'a Step<Items<u8>, Read>,
        more: &'a [Behind<Items<u8>, Read>],
        names: &mut Bindings<'a>,
        pool: &mut Pool,
    ) -> Result<Resolved, Want>
        requires { N.resolves self.now.inner self.now.depth }
        ensures stands { IfOk result (λ r. NodeStands self.now.functions.now (open_in names.old) (n.Path start first.now more.now) pool.new r) }
        ensures keeps { Grows pool.old pool.new }
        ensures names { OnOk result (open_in names.new ≡ open_in names.old) }
    {
        let first = self.step(first, names, pool)?;
        let more = self.behinds(more, names, pool)?;
        Ok(Node::Path(start, first, more))
    }
}
