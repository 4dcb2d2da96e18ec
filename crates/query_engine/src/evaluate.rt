//! The value of a Core, or its first failure: the plain evaluator, which goes by the definition.
ghost use Rattle.std.specs.Prelude.{◌≡◌, pos, ◌∷◌, ◌++◌, ◌+◌, [], List, IfOk, IfErr, IfSome, true, false, length};
ghost use Rattle.xq_base.specs.Answers.{check_rank};
ghost use Rattle.xq_base.specs.declared.fun.Fun.TheVariants as fun;
ghost use Rattle.xq_base.specs.declared.item.Atom.TheVariants as atom;
ghost use Rattle.xq_base.specs.declared.item.Item.TheVariants as held;
ghost use Rattle.doc_table.specs.Documents.{documents_in};
ghost use Rattle.doc_table.proofs.Documents.{root_ref};
ghost use Rattle.doc_table.specs.Functions.{fun_answer};
ghost use Rattle.doc_table.specs.Given.{is_given};
ghost use Rattle.doc_table.specs.Items.{TextItem, item_of};
ghost use Rattle.doc_table.specs.Stores.{AreGiven};
ghost use Rattle.doc_table.specs.StoredItems.{meanings, trees_of};
ghost use Rattle.doc_table.specs.Tree.{text_in};
ghost use Rattle.doc_table.specs.Values.{Items};
ghost use Rattle.core_meaning.specs.Erasure.{core_of};
ghost use Rattle.core_meaning.specs.declared.node.CoreKind.TheVariants as form;
ghost use Rattle.core_meaning.specs.PlainCore as p;
ghost use Rattle.core_meaning.specs.Size.{nodes};
ghost use Rattle.query_engine.specs.declared.evaluate.EvalFault.TheVariants.{NoMemory};
ghost use Rattle.query_engine.specs.Evaluated.{Runs};
ghost use Rattle.query_engine.specs.Evaluating.{bindings_of, env_of, Fits, AllFit, EnvFits, lesser_failed, RuleGives, CoreGives, TurnsGive, SoFar, IsStep};

use crate::size::size;
use core_meaning::{Core, CoreKind, VarId};
use doc_table::Store;
use std::alloc::{AllocError, AllocFailed, Global};
use xq_base::{Atom, Code, FragKey, Fun, Item, NodeRef, Pool, TextId, Want};

/// A variable with its items.
#[derive(Drop)]
pub struct Binding {
    pub var: u32,
    pub items: Vec<Item>,
}

/// A failure: the number of its node, the place of the node in the query, and the code.
#[derive(Clone, Copy, Debug, PartialEq, Eq)]
pub struct Failed {
    pub site: u64,
    pub offset: u64,
    pub code: Code,
}

/// Why a Core has no value.
#[derive(Clone, Copy, Debug, PartialEq, Eq)]
pub enum EvalFault {
    NoMemory,
    Reached(Failed),
}

impl From<AllocError> for EvalFault {
    ghost from_gives = { λ _ e. e ≡ NoMemory };

    fn from(_e: AllocError) -> EvalFault {
        EvalFault::NoMemory
    }
}

impl<T: Drop> From<AllocFailed<T>> for EvalFault {
    ghost from_gives = { λ _ e. e ≡ NoMemory };

    fn from(_e: AllocFailed<T>) -> EvalFault {
        EvalFault::NoMemory
    }
}

impl From<Want> for EvalFault {
    ghost from_gives = { λ _ e. e ≡ NoMemory };

    fn from(_e: Want) -> EvalFault {
        EvalFault::NoMemory
    }
}

/// A value, and the number of the first node behind the one that has it.
#[derive(Drop)]
pub struct Value {
    pub items: Vec<Item>,
    pub next: u64,
}

/// What the turns of a loop have found so far.
#[derive(Drop)]
pub enum Found {
    Items(Vec<Item>),
    Failing(Failed),
}

/// Integers, sequences, bindings, and either sums or documents, over a store and a pool.
#[derive(Clone, Copy)]
pub struct Evaluator<'a> {
    pub alloc: Global,
    pub store: &'a Store,
    pub pool: &'a Pool,
    /// Whether sums may occur; where they may, calls of `doc` may not.
    pub sums: bool,
}

/// The place of a code in the order of checks at one node.
fn rank(code: Code) -> u8
    ensures { result ≡ check_rank code }
{
    match code {
        Code::XPTY0004 => 0,
        Code::FORG0001 => 1,
        Code::FORG0006 => 2,
        Code::FOAR0001 => 3,
        Code::FOAR0002 => 4,
        Code::XPTY0019 => 5,
        Code::XPTY0018 => 6,
        Code::XPTY0020 => 7,
        Code::XPDY0050 => 8,
        Code::XPDY0002 => 9,
        Code::FODC0002 => 10,
        Code::FORG0003 => 11,
        Code::FORG0004 => 12,
        Code::FORG0005 => 13,
        Code::FOER0000 => 14,
        Code::XQDY0074 => 15,
        Code::XQDY0041 => 16,
        Code::XQDY0064 => 17,
        Code::XQTY0024 => 18,
        Code::XQDY0025 => 19,
        Code::XQDY0072 => 20,
        Code::XQDY0026 => 21,
        _ => 22,
    }
}

/// The lesser failure, by node and then by check.
fn lesser(first: Failed, second: Failed) -> Failed
    ensures { result ≡ lesser_failed first second }
{
    let sooner = second.site < first.site
        || second.site == first.site && rank(second.code) < rank(first.code);
    if sooner { second } else { first }
}

/// The number so many nodes behind another one.
fn behind(site: u64, nodes: u64) -> Result<u64, EvalFault>
    ensures number { IfOk result (λ n. n ≡ site + nodes) }
    ensures fault { IfErr result (λ e. e ≡ NoMemory) }
{
    match site.checked_add(nodes) {
        Some(number) => Ok(number),
        None => Err(EvalFault::NoMemory),
    }
}

/// The place of an item, counted from 1.
fn place_of(index: usize) -> Result<i64, EvalFault>
    ensures place { IfOk result (λ place. place ≡ pos (index + 1)) }
    ensures fault { IfErr result (λ e. e ≡ NoMemory) }
{
    let Some(place) = index.checked_add(1) else {
        return Err(EvalFault::NoMemory);
    };
    match i64::try_from(place) {
        Ok(place) => Ok(place),
        Err(_) => Err(EvalFault::NoMemory),
    }
}

/// Items of one node alone, with the number of the node behind it.
fn copied(alloc: Global, items: &[Item], site: u64) -> Result<Value, EvalFault>
    ensures value { IfOk result (λ v. (v.items.items ≡ items.now) × (v.next ≡ site + 1)) }
    ensures fault { IfErr result (λ e. e ≡ NoMemory) }
{
    let next = behind(site, 1)?;
    let mut found = Vec::new(alloc);
    found.extend_from_slice(items)?;
    Ok(Value { items: found, next })
}

/// Items and those of what comes after them, the last parts of a node.
fn joined(items: Vec<Item>, more: Value) -> Result<Value, EvalFault>
    ensures value { IfOk result (λ v. (v.items.items ≡ items.items ++ more.items.items) × (v.next ≡ more.next + 1)) }
    ensures fault { IfErr result (λ e. e ≡ NoMemory) }
{
    let next = behind(more.next, 1)?;
    let mut items = items;
    items.extend_from_slice(more.items.as_slice())?;
    Ok(Value { items, next })
}

/// The items of a node's last part, as those of the node.
fn passed(found: Value) -> Result<Value, EvalFault>
    ensures value { IfOk result (λ v. (v.items.items ≡ found.items.items) × (v.next ≡ found.next + 1)) }
    ensures fault { IfErr result (λ e. e ≡ NoMemory) }
{
    let next = behind(found.next, 1)?;
    Ok(Value {
        items: found.items,
        next,
    })
}

fn alone(alloc: Global, item: Item) -> Result<Vec<Item>, EvalFault>
    ensures value { IfOk result (λ found. found.items ≡ item ∷ []) }
    ensures fault { IfErr result (λ e. e ≡ NoMemory) }
{
    let mut found = Vec::new(alloc);
    found.push(item)?;
    Ok(found)
}

/// These bindings and one inside them.
fn extended(alloc: Global, env: &[Binding], inner: Binding) -> Result<Vec<Binding>, EvalFault>
    ensures value { IfOk result (λ found. bindings_of found.items ≡ (inner.var, inner.items.items) ∷ bindings_of env.now) }
    ensures fault { IfErr result (λ e. e ≡ NoMemory) }
{
    let mut found = Vec::new(alloc);
    found.push(inner)?;
    for binding in env {
        let mut items = Vec::new(alloc);
        items.extend_from_slice(binding.items.as_slice())?;
        found.push(Binding {
            var: binding.var,
            items,
        })?;
    }
    Ok(found)
}

/// The number of a literal text.
fn literal_text(core: &Core) -> Option<TextId>
    ensures { IfSome result (λ id. core.now.kind ≡ form.Lit (atom.Str id)) }
{
    match &core.kind {
        CoreKind::Lit(value) => match *value {
            Atom::Str(id) => Some(id),
            _ => None,
        },
        _ => None,
    }
}

/// One turn more of a loop.
fn one_more(found: Found, turn: Result<Value, EvalFault>) -> Result<Found, EvalFault>
    ensures ok { IfOk result (IsStep found turn) }
    ensures err { IfErr result (λ e. e ≡ NoMemory) }
{
    match (found, turn) {
        (_, Err(EvalFault::NoMemory)) => Err(EvalFault::NoMemory),
        (Found::Items(mut items), Ok(more)) => {
            items.extend_from_slice(more.items.as_slice())?;
            Ok(Found::Items(items))
        }
        (Found::Items(_), Err(EvalFault::Reached(failed))) => Ok(Found::Failing(failed)),
        (Found::Failing(failed), Ok(_)) => Ok(Found::Failing(failed)),
        (Found::Failing(first), Err(EvalFault::Reached(second))) => {
            Ok(Found::Failing(lesser(first, second)))
        }
    }
}

impl<'a> Evaluator<'a> {
    /// The items of a variable.
    fn look_up<'b>(&self, env: &'b [Binding], var: u32) -> &'b [Item]
        requires { EnvFits self.now.sums self.now.store.now (bindings_of env.now) }
        ensures value { env_of self.now.pool.now self.now.store.now (bindings_of env.now) var ≡ meanings self.now.pool.now self.now.store.now result.now }
        ensures fits { AllFit self.now.sums self.now.store.now result.now }
    {
        match env.split_first() {
            None => &[],
            Some((first, rest)) => {
                if var == first.var {
                    first.items.as_slice()
                } else {
                    self.look_up(rest, var)
                }
            }
        }
    }

    /// The value of a Core whose first node has a number, or the least failure that it reaches.
    #[cycle(eval)]
    pub fn eval(&self, core: &Core, site: u64, env: &[Binding]) -> Result<Value, EvalFault>
        requires core { Runs self.now.sums self.now.pool.now core.now }
        requires env { EnvFits self.now.sums self.now.store.now (bindings_of env.now) }
        requires names { AreGiven self.now.pool.now self.now.store.now.docs }
        ensures { CoreGives self.now.sums self.now.pool.now self.now.store.now site (core_of self.now.pool.now core.now) (env_of self.now.pool.now self.now.store.now (bindings_of env.now)) result }
    {
        match &core.kind {
            CoreKind::Lit(Atom::Int(value)) => copied(self.alloc, &[Item::Int(*value)], site),
            CoreKind::Empty => copied(self.alloc, &[], site),
            CoreKind::Var(x) => copied(self.alloc, self.look_up(env, x.0), site),
            CoreKind::Seq(first, second) => self.sequence(first.get(), second.get(), site, env),
            CoreKind::Let(var, bound, body) => {
                self.bound(*var, bound.get(), body.get(), site, env)
            }
            CoreKind::For {
                var,
                pos,
                seq,
                body,
            } => self.each((*var, *pos), seq.get(), body.get(), site, env),
            // A Core that runs has no other calls.
            CoreKind::Call(fun, arguments) => match *fun {
                Fun::Add => match arguments.as_slice() {
                    [first, second] => self.sum(first, second, core.offset, site, env),
                    _ => Err(EvalFault::NoMemory),
                },
                Fun::Doc => match arguments.as_slice() {
                    [name] => match literal_text(name) {
                        Some(id) => self.document(id, core.offset, site),
                        None => Err(EvalFault::NoMemory),
                    },
                    _ => Err(EvalFault::NoMemory),
                },
                _ => Err(EvalFault::NoMemory),
            },
            // No other form runs.
            _ => Err(EvalFault::NoMemory),
        }
    }

    #[cycle(eval)]
    fn sequence(
        &self,
        first: &Core,
        second: &Core,
        site: u64,
        env: &[Binding],
    ) -> Result<Value, EvalFault>
        requires first { Runs self.now.sums self.now.pool.now first.now }
        requires second { Runs self.now.sums self.now.pool.now second.now }
        requires env { EnvFits self.now.sums self.now.store.now (bindings_of env.now) }
        requires names { AreGiven self.now.pool.now self.now.store.now.docs }
        ensures { CoreGives self.now.sums self.now.pool.now self.now.store.now site (p.Seq 0 (core_of self.now.pool.now first.now) (core_of self.now.pool.now second.now)) (env_of self.now.pool.now self.now.store.now (bindings_of env.now)) result }
    {
        match self.eval(first, site, env) {
            Err(fault) => Err(fault),
            Ok(found) => match self.eval(second, found.next, env) {
                Err(fault) => Err(fault),
                Ok(more) => joined(found.items, more),
            },
        }
    }

    #[cycle(eval)]
    fn bound(
        &self,
        var: VarId,
        value: &Core,
        body: &Core,
        site: u64,
        env: &[Binding],
    ) -> Result<Value, EvalFault>
        requires value { Runs self.now.sums self.now.pool.now value.now }
        requires body { Runs self.now.sums self.now.pool.now body.now }
        requires env { EnvFits self.now.sums self.now.store.now (bindings_of env.now) }
        requires names { AreGiven self.now.pool.now self.now.store.now.docs }
        ensures { CoreGives self.now.sums self.now.pool.now self.now.store.now site (p.Let 0 var.0 (core_of self.now.pool.now value.now) (core_of self.now.pool.now body.now)) (env_of self.now.pool.now self.now.store.now (bindings_of env.now)) result }
    {
        match self.eval(value, site, env) {
            Err(fault) => Err(fault),
            Ok(found) => {
                let binding = Binding {
                    var: var.0,
                    items: found.items,
                };
                match extended(self.alloc, env, binding) {
                    Err(_) => Err(EvalFault::NoMemory),
                    Ok(inner) => match self.eval(body, found.next, inner.as_slice()) {
                        Err(fault) => Err(fault),
                        Ok(value) => passed(value),
                    },
                }
            }
        }
    }

    #[cycle(eval)]
    fn each(
        &self,
        vars: (VarId, VarId),
        seq: &Core,
        body: &Core,
        site: u64,
        env: &[Binding],
    ) -> Result<Value, EvalFault>
        requires seq { Runs self.now.sums self.now.pool.now seq.now }
        requires body { Runs self.now.sums self.now.pool.now body.now }
        requires env { EnvFits self.now.sums self.now.store.now (bindings_of env.now) }
        requires names { AreGiven self.now.pool.now self.now.store.now.docs }
        ensures { CoreGives self.now.sums self.now.pool.now self.now.store.now site (p.For 0 vars.0.0 vars.1.0 (core_of self.now.pool.now seq.now) (core_of self.now.pool.now body.now)) (env_of self.now.pool.now self.now.store.now (bindings_of env.now)) result }
    {
        match self.eval(seq, site, env) {
            Err(fault) => Err(fault),
            Ok(found) => {
                match self.turns(vars, body, found.items.as_slice(), found.next, env) {
                    Err(fault) => Err(fault),
                    Ok(items) => self.counted(items, body, found.next),
                }
            }
        }
    }

    /// The items of a loop, with the number of the node behind the loop.
    fn counted(&self, items: Vec<Item>, body: &Core, site: u64) -> Result<Value, EvalFault>
        ensures value { IfOk result (λ v. (v.items.items ≡ items.items) × (v.next ≡ site + nodes (core_of self.now.pool.now body.now) + 1)) }
        ensures fault { IfErr result (λ e. e ≡ NoMemory) }
    {
        let Some(nodes) = size(body, self.pool) else {
            return Err(EvalFault::NoMemory);
        };
        let last = behind(site, nodes)?;
        let next = behind(last, 1)?;
        Ok(Value { items, next })
    }

    /// A loop's body at each item. All turns are reached, whichever fail.
    #[cycle(eval)]
    fn turns(
        &self,
        vars: (VarId, VarId),
        body: &Core,
        items: &[Item],
        site: u64,
        env: &[Binding],
    ) -> Result<Vec<Item>, EvalFault>
        requires body { Runs self.now.sums self.now.pool.now body.now }
        requires items { AllFit self.now.sums self.now.store.now items.now }
        requires env { EnvFits self.now.sums self.now.store.now (bindings_of env.now) }
        requires names { AreGiven self.now.pool.now self.now.store.now.docs }
        ensures { TurnsGive self.now.sums self.now.pool.now self.now.store.now site (core_of self.now.pool.now body.now) vars.0.0 vars.1.0 (env_of self.now.pool.now self.now.store.now (bindings_of env.now)) items.now result }
    {
        let mut found = Found::Items(Vec::new(self.alloc));
        for (index, item) in items.iter().enumerate() {
            found = self.turn(vars, body, (index, *item), site, env, found)?;
        }
        match found {
            Found::Items(items) => Ok(items),
            Found::Failing(failed) => Err(EvalFault::Reached(failed)),
        }
    }

    /// A loop's body at one item, after some turns.
    #[cycle(eval)]
    fn turn(
        &self,
        vars: (VarId, VarId),
        body: &Core,
        at: (usize, Item),
        site: u64,
        env: &[Binding],
        found: Found,
    ) -> Result<Found, EvalFault>
        requires body { Runs self.now.sums self.now.pool.now body.now }
        requires item { Fits self.now.sums self.now.store.now at.1 }
        requires env { EnvFits self.now.sums self.now.store.now (bindings_of env.now) }
        requires names { AreGiven self.now.pool.now self.now.store.now.docs }
        ensures ok { (all rest : Items) → SoFar self.now.sums self.now.pool.now self.now.store.now site (core_of self.now.pool.now body.now) vars.0.0 vars.1.0 (env_of self.now.pool.now self.now.store.now (bindings_of env.now)) all (at.0 + 1) (item_of self.now.pool.now (trees_of self.now.store.now) at.1 ∷ rest) found → IfOk result (SoFar self.now.sums self.now.pool.now self.now.store.now site (core_of self.now.pool.now body.now) vars.0.0 vars.1.0 (env_of self.now.pool.now self.now.store.now (bindings_of env.now)) all (at.0 + 1 + 1) rest) }
        ensures err { IfErr result (λ e. e ≡ NoMemory) }
    {
        let place = place_of(at.0)?;
        let item = Binding {
            var: vars.0.0,
            items: alone(self.alloc, at.1)?,
        };
        let place = Binding {
            var: vars.1.0,
            items: alone(self.alloc, Item::Int(place))?,
        };
        let outer = extended(self.alloc, env, item)?;
        let inner = extended(self.alloc, outer.as_slice(), place)?;
        one_more(found, self.eval(body, site, inner.as_slice()))
    }

    /// A sum of two operands; its own node stands behind theirs.
    #[cycle(eval)]
    fn sum(
        &self,
        first: &Core,
        second: &Core,
        offset: u64,
        site: u64,
        env: &[Binding],
    ) -> Result<Value, EvalFault>
        requires sums { self.now.sums ≡ true }
        requires first { Runs self.now.sums self.now.pool.now first.now }
        requires second { Runs self.now.sums self.now.pool.now second.now }
        requires env { EnvFits self.now.sums self.now.store.now (bindings_of env.now) }
        requires names { AreGiven self.now.pool.now self.now.store.now.docs }
        ensures { CoreGives self.now.sums self.now.pool.now self.now.store.now site (p.Call offset fun.Add (p.one_core (core_of self.now.pool.now first.now) (p.one_core (core_of self.now.pool.now second.now) p.no_cores))) (env_of self.now.pool.now self.now.store.now (bindings_of env.now)) result }
    {
        match self.eval(first, site, env) {
            Err(fault) => Err(fault),
            Ok(found) => match self.eval(second, found.next, env) {
                Err(fault) => Err(fault),
                Ok(more) => self.added(
                    found.items.as_slice(),
                    more.items.as_slice(),
                    offset,
                    more.next,
                ),
            },
        }
    }

    /// The rule of a sum at its node.
    fn added(
        &self,
        first: &[Item],
        second: &[Item],
        offset: u64,
        site: u64,
    ) -> Result<Value, EvalFault>
        requires sums { self.now.sums ≡ true }
        requires first { AllFit self.now.sums self.now.store.now first.now }
        requires second { AllFit self.now.sums self.now.store.now second.now }
        ensures { RuleGives self.now.sums self.now.pool.now self.now.store.now site offset (fun_answer (documents_in self.now.pool.now self.now.store.now) fun.Add (meanings self.now.pool.now self.now.store.now first.now ∷ meanings self.now.pool.now self.now.store.now second.now ∷ [])) result }
    {
        match self.add(first, second) {
            Ok(None) => copied(self.alloc, &[], site),
            Ok(Some(sum)) => copied(self.alloc, &[Item::Int(sum)], site),
            Err(code) => Err(EvalFault::Reached(Failed { site, offset, code })),
        }
    }

    /// The document of a name. The call's node stands behind the literal.
    fn document(&self, name: TextId, offset: u64, site: u64) -> Result<Value, EvalFault>
        requires sums { self.now.sums ≡ false }
        requires name { is_given (length self.now.pool.now) name ≡ true }
        requires names { AreGiven self.now.pool.now self.now.store.now.docs }
        ensures { RuleGives self.now.sums self.now.pool.now self.now.store.now (site + 1) offset (fun_answer (documents_in self.now.pool.now self.now.store.now) fun.Doc ((TextItem (text_in self.now.pool.now name) ∷ []) ∷ [])) result }
    {
        self.store.validity();
        let own = behind(site, 1)?;
        match self.store.find_doc(self.pool.text(name), self.pool) {
            Some(rank) => copied(self.alloc, &[root(rank)], own),
            None => Err(EvalFault::Reached(Failed {
                site: own,
                offset,
                code: Code::FODC0002,
            })),
        }
    }
}

/// The root of a document.
fn root(rank: u32) -> Item
    ensures { result ≡ held.Node (root_ref rank) }
{
    Item::Node(NodeRef {
        frag: FragKey::Doc(rank),
        pre: 0,
        attr: 0,
    })
}
