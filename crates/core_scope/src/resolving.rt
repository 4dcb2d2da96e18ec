//! The resolved form of an expression. What nests is resolved by a parameter, so that each form is proved by
//! itself.
ghost use Rattle.std.specs.Prelude.{◌≡◌, ℕ, IfOk, OnOk, map};
ghost use Rattle.doc_table.specs.OtherTexts.{Grows};
ghost use Rattle.core_scope.specs.Matching as fits;
ghost use Rattle.core_scope.specs.Matching.{NodeStands};
ghost use Rattle.core_scope.specs.Open.{open_in};
ghost use Rattle.core_scope.specs.Standing.{Lasting};

use crate::bindings::Bindings;
use crate::leaves::{integer, name, referred, text};
use crate::signatures::Functions;
use sqlite_items::{Boxed, Items};
use std::alloc::Global;
use xq_ast::node::{AsRead, AsResolved, Node};
use xq_base::{Pool, Want};

/// An expression as it is read, and one whose names are resolved.
pub type Read = Node<AsRead>;

pub type Resolved = Node<AsResolved>;

/// How an expression in another one is resolved, at so many levels.
pub trait Inner<'a>: Copy {
    ghost resolves: { Self → ℕ → Type 0 };

    fn resolve(
        self,
        node: &'a Read,
        functions: &Functions<'a>,
        names: &mut Bindings<'a>,
        pool: &mut Pool,
        depth: usize,
    ) -> Result<Resolved, Want>
        requires { resolves self depth }
        ensures stands { IfOk result (λ r. NodeStands functions.now (open_in names.old) node.now pool.new r) }
        ensures keeps { Grows pool.old pool.new }
        ensures names { OnOk result (open_in names.new ≡ open_in names.old) };
}

/// A function that resolves.
#[derive(Clone, Copy)]
pub struct Through<F> {
    pub function: F,
}

impl<
    'a,
    F: Fn(&'a Read, &Functions<'a>, &mut Bindings<'a>, &mut Pool, usize) -> Result<Resolved, Want>
        + Copy,
> Inner<'a> for Through<F> {
    ghost use Rattle.std.specs.Prelude.{◌≡◌, IfOk, OnOk};
    ghost use Rattle.doc_table.specs.OtherTexts.{Grows};
    ghost use Rattle.core_scope.specs.Matching.{NodeStands};
    ghost use Rattle.core_scope.specs.Open.{open_in};

    ghost resolves = { λ s d. ((n : _) (fs : _) (w : _) (p : _) → F.pre s.function n fs w p d) × ((n : _) (fs : _) (w : _) (p : _) (x : _) (v : _) (q : _) → F.post s.function n fs w p d x v q → IfOk x (λ r. NodeStands fs.now (open_in w.now) n.now q.now r) × Grows p.now q.now × OnOk x (open_in v.now ≡ open_in w.now)) };

    fn resolve(
        self,
        node: &'a Read,
        functions: &Functions<'a>,
        names: &mut Bindings<'a>,
        pool: &mut Pool,
        depth: usize,
    ) -> Result<Resolved, Want> {
        (self.function)(node, functions, names, pool, depth)
    }
}

/// What the forms of expressions have in common: the declared functions, how many levels may still nest, and
/// how what nests is resolved.
#[derive(Clone, Copy)]
pub struct Resolver<'s, 'a, N> {
    pub alloc: Global,
    pub functions: &'s Functions<'a>,
    pub depth: usize,
    pub inner: N,
}

impl<'s, 'a, N: Inner<'a>> Resolver<'s, 'a, N> {
    /// An expression in another one.
    pub fn boxed(
        &self,
        node: &'a Boxed<Read>,
        names: &mut Bindings<'a>,
        pool: &mut Pool,
    ) -> Result<Boxed<Resolved>, Want>
        requires { N.resolves self.now.inner self.now.depth }
        ensures stands { IfOk result (λ r. NodeStands self.now.functions.now (open_in names.old) node.now pool.new r) }
        ensures keeps { Grows pool.old pool.new }
        ensures names { OnOk result (open_in names.new ≡ open_in names.old) }
    {
        let found = self
            .inner
            .resolve(node.get(), self.functions, names, pool, self.depth)?;
        let found = Boxed::new(self.alloc, found)?;
        Ok(found)
    }

    /// Expressions in turn.
    pub fn all(
        &self,
        nodes: &'a [Read],
        names: &mut Bindings<'a>,
        pool: &mut Pool,
    ) -> Result<Items<Resolved>, Want>
        requires { N.resolves self.now.inner self.now.depth }
        ensures stands { IfOk result (λ rs. Lasting pool.new (λ later. map (fits.node_in later) rs ≡ map (fits.node_for self.now.functions.now (open_in names.old)) nodes.now)) }
        ensures keeps { Grows pool.old pool.new }
        ensures names { OnOk result (open_in names.new ≡ open_in names.old) }
    {
        let mut found = Items::new(self.alloc);
        for node in nodes {
            let one = self
                .inner
                .resolve(node, self.functions, names, pool, self.depth)?;
            found.push(one)?;
        }
        Ok(found)
    }

    /// An expression in another one, if it is there.
    pub fn maybe(
        &self,
        node: &'a Option<Boxed<Read>>,
        names: &mut Bindings<'a>,
        pool: &mut Pool,
    ) -> Result<Option<Boxed<Resolved>>, Want>
        requires { N.resolves self.now.inner self.now.depth }
        ensures stands { IfOk result (λ r. Lasting pool.new (λ later. fits.maybe_in later r ≡ fits.maybe_for self.now.functions.now (open_in names.old) node.now)) }
        ensures keeps { Grows pool.old pool.new }
        ensures names { OnOk result (open_in names.new ≡ open_in names.old) }
    {
        match node {
            None => Ok(None),
            Some(node) => {
                let found = self.boxed(node, names, pool)?;
                Ok(Some(found))
            }
        }
    }

    /// An expression by its form.
    fn node(
        &self,
        node: &'a Read,
        names: &mut Bindings<'a>,
        pool: &mut Pool,
    ) -> Result<Resolved, Want>
        requires { N.resolves self.now.inner self.now.depth }
        ensures stands { IfOk result (λ r. NodeStands self.now.functions.now (open_in names.old) node.now pool.new r) }
        ensures keeps { Grows pool.old pool.new }
        ensures names { OnOk result (open_in names.new ≡ open_in names.old) }
    {
        match node {
            Node::Comma(at, first, more) => self.comma(*at, first, more.as_slice(), names, pool),
            Node::Flwor(at, clauses, condition, keys, body) => self.flwor(
                *at,
                clauses.as_slice(),
                condition,
                keys.as_slice(),
                body,
                names,
                pool,
            ),
            Node::Quantified(at, quantifier, binds, body) => {
                self.quantified(*at, *quantifier, binds.as_slice(), body, names, pool)
            }
            Node::If(at, condition, first, second) => {
                self.conditional(*at, condition, first, second, names, pool)
            }
            Node::Chain(at, first, rights) => {
                self.chain(*at, first, rights.as_slice(), names, pool)
            }
            Node::Signed(at, signs, operand) => {
                self.signed(*at, signs.as_slice(), operand, names, pool)
            }
            Node::Instance(at, operand, ty) => self.instance(*at, operand, ty, names, pool),
            Node::Treat(at, operand, ty) => self.treat(*at, operand, ty, names, pool),
            Node::Castable(at, operand, name, optional) => {
                self.castable(*at, operand, name, *optional, names, pool)
            }
            Node::Cast(at, operand, name, optional) => {
                self.cast(*at, operand, name, *optional, names, pool)
            }
            Node::Path(start, first, more) => {
                self.path(*start, first, more.as_slice(), names, pool)
            }
            Node::Paren(at, inner) => self.paren(*at, inner, names, pool),
            Node::Call(at, name, arguments) => {
                self.call(*at, name, arguments.as_slice(), names, pool)
            }
            Node::Build(at, kind, name, content) => {
                self.build(*at, *kind, name, content, names, pool)
            }
            Node::Element(at, name, attributes, parts) => self.element(
                *at,
                name,
                attributes.as_slice(),
                parts.as_slice(),
                names,
                pool,
            ),
            _ => self.leaf(node, names, pool),
        }
    }

    /// An expression in which no other one stands.
    #[tactic(auto, using(crate::proofs::Forming::root_stands, crate::proofs::Forming::dot_stands, crate::proofs::Forming::integer_stands, crate::proofs::Forming::text_stands, crate::proofs::Forming::comment_stands, crate::proofs::Forming::instruction_stands, crate::proofs::Forming::var_stands))]
    fn leaf(
        &self,
        node: &'a Read,
        names: &mut Bindings<'a>,
        pool: &mut Pool,
    ) -> Result<Resolved, Want>
        ensures stands { IfOk result (λ r. NodeStands self.now.functions.now (open_in names.old) node.now pool.new r) }
        ensures keeps { Grows pool.old pool.new }
        ensures names { OnOk result (open_in names.new ≡ open_in names.old) }
    {
        match node {
            Node::Root(at) => Ok(Node::Root(*at)),
            Node::Dot(at) => Ok(Node::Dot(*at)),
            Node::Integer(at, digits) => Ok(Node::Integer(*at, integer(digits.as_slice()))),
            Node::Var(at, name) => {
                let variable = referred(names.get(name.text.as_slice()))?;
                Ok(Node::Var(*at, variable))
            }
            Node::Text(at, string) => {
                let string = text(string.as_slice(), pool)?;
                Ok(Node::Text(*at, string))
            }
            Node::Comment(at, string) => {
                let string = text(string.as_slice(), pool)?;
                Ok(Node::Comment(*at, string))
            }
            Node::Instruction(at, target, string) => {
                let target = name(target, pool)?;
                let string = text(string.as_slice(), pool)?;
                Ok(Node::Instruction(*at, target, string))
            }
            _ => Err(Want),
        }
    }
}

/// The resolved form of an expression with these visible variables and declared functions.
///
/// `depth` counts down so that the resolving is seen to end; no tree is as deep as a number can say.
/// Errors: `Want`, where memory is wanting.
pub fn resolve_at<'a>(
    node: &'a Read,
    functions: &Functions<'a>,
    names: &mut Bindings<'a>,
    pool: &mut Pool,
    depth: usize,
) -> Result<Resolved, Want>
    ensures stands { IfOk result (λ r. NodeStands functions.now (open_in names.old) node.now pool.new r) }
    ensures keeps { Grows pool.old pool.new }
    ensures names { OnOk result (open_in names.new ≡ open_in names.old) }
{
    if depth == 0 {
        return Err(Want);
    }
    Resolver {
        alloc: names.alloc(),
        functions,
        depth: depth - 1,
        inner: Through {
            function: resolve_at,
        },
    }
    .node(node, names, pool)
}

/// The resolved form of an expression of a query.
///
/// Errors: `Want`, where memory is wanting.
pub fn resolve_expression<'a>(
    node: &'a Boxed<Read>,
    functions: &Functions<'a>,
    names: &mut Bindings<'a>,
    pool: &mut Pool,
) -> Result<Boxed<Resolved>, Want>
    ensures stands { IfOk result (λ r. NodeStands functions.now (open_in names.old) node.now pool.new r) }
    ensures keeps { Grows pool.old pool.new }
    ensures names { OnOk result (open_in names.new ≡ open_in names.old) }
{
    let alloc = names.alloc();
    let found = resolve_at(node.get(), functions, names, pool, usize::MAX)?;
    let found = Boxed::new(alloc, found)?;
    Ok(found)
}
