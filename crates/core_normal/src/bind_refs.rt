//! The binds of all clauses in one list, so that one function makes them.
ghost use Rattle.std.specs.Prelude.{◌≡◌, OnOk, IfOk, [], ◌∷◌, None};
ghost use Rattle.core_meaning.specs.Erasure.{Texts};
ghost use Rattle.core_scope.specs.Leaves.{syn_resolved};
ghost use Rattle.core_scope.specs.Syn.{Binds, resolved};
ghost use Rattle.core_scope.specs.Syn as s;
ghost use Rattle.core_normal.specs.Binding.{bind_in, binds_in};
ghost use Rattle.core_normal.specs.Trees as trees;

use crate::bodies::Tree;
use sqlite_items::Boxed;
use std::alloc::Global;
use xq_ast::leaf::{Quantifier, SeqType, Variable};
use xq_ast::node::{Clause, ForBind, LetBind, QuantBind};
use xq_base::Want;

/// A bind of a loop, of `let`, or of a quantifier, which is a loop without position.
#[derive(Clone, Copy)]
pub struct BindRef<'q> {
    pub is_loop: bool,
    pub offset: u64,
    pub var: u32,
    pub ty: Option<SeqType>,
    pub at: Option<(u64, u32)>,
    pub value: &'q Tree,
}

/// What stands inside all binds: the condition and the result of a FLWOR, or what a quantifier asks.
#[derive(Clone, Copy)]
pub enum Last<'q> {
    Result(&'q Option<Boxed<Tree>>, &'q Tree),
    Asked(Quantifier, &'q Tree),
}

fn position(at: &Option<Variable<u32>>) -> Option<(u64, u32)>
    ensures { (t : Texts) → result ≡ trees.position t at.now }
{
    match at {
        None => None,
        Some(var) => Some((var.offset, var.name)),
    }
}

fn for_ref<'q>(bind: &'q ForBind<u32, SeqType, Tree>) -> BindRef<'q>
    ensures { (t : Texts) (rest : Binds resolved) → bind_in t result rest ≡ trees.for_binds t (bind.now ∷ []) rest }
{
    BindRef {
        is_loop: true,
        offset: bind.var.offset,
        var: bind.var.name,
        ty: bind.ty,
        at: position(&bind.at),
        value: bind.source.get(),
    }
}

fn let_ref<'q>(bind: &'q LetBind<u32, SeqType, Tree>) -> BindRef<'q>
    ensures { (t : Texts) (rest : Binds resolved) → bind_in t result rest ≡ trees.let_binds t (bind.now ∷ []) rest }
{
    BindRef {
        is_loop: false,
        offset: bind.var.offset,
        var: bind.var.name,
        ty: bind.ty,
        at: None,
        value: bind.value.get(),
    }
}

fn quant_ref<'q>(bind: &'q QuantBind<u32, SeqType, Tree>) -> BindRef<'q>
    ensures { (t : Texts) (rest : Binds resolved) → bind_in t result rest ≡ s.for_bind bind.now.var.offset bind.now.var.name (trees.type_of t bind.now.ty) None (syn_resolved t bind.now.source) rest }
{
    BindRef {
        is_loop: true,
        offset: bind.var.offset,
        var: bind.var.name,
        ty: bind.ty,
        at: None,
        value: bind.source.get(),
    }
}

fn for_refs<'q>(
    binds: &'q [ForBind<u32, SeqType, Tree>],
    out: &mut Vec<BindRef<'q>>,
) -> Result<(), Want>
    ensures { OnOk result ((t : Texts) (rest : Binds resolved) → binds_in t out.new.items rest ≡ binds_in t out.old.items (trees.for_binds t binds.now rest)) }
{
    for bind in binds {
        let one = for_ref(bind);
        out.push(one)?;
    }
    Ok(())
}

fn let_refs<'q>(
    binds: &'q [LetBind<u32, SeqType, Tree>],
    out: &mut Vec<BindRef<'q>>,
) -> Result<(), Want>
    ensures { OnOk result ((t : Texts) (rest : Binds resolved) → binds_in t out.new.items rest ≡ binds_in t out.old.items (trees.let_binds t binds.now rest)) }
{
    for bind in binds {
        let one = let_ref(bind);
        out.push(one)?;
    }
    Ok(())
}

fn clause_refs<'q>(
    clause: &'q Clause<u32, SeqType, Tree>,
    out: &mut Vec<BindRef<'q>>,
) -> Result<(), Want>
    ensures { OnOk result ((t : Texts) (rest : Binds resolved) → binds_in t out.new.items rest ≡ binds_in t out.old.items (trees.clause t clause.now rest)) }
{
    match clause {
        Clause::For(binds) => {
            for_refs(binds.as_slice(), out)?;
            Ok(())
        }
        Clause::Let(binds) => {
            let_refs(binds.as_slice(), out)?;
            Ok(())
        }
    }
}

/// The binds of clauses (XQuery 1.0, section 3.8.1).
pub fn flwor_refs<'q>(
    alloc: Global,
    clauses: &'q [Clause<u32, SeqType, Tree>],
) -> Result<Vec<BindRef<'q>>, Want>
    ensures { IfOk result (λ bs. (t : Texts) → binds_in t bs.items s.no_binds ≡ trees.clauses t clauses.now) }
{
    let mut out = Vec::new(alloc);
    for clause in clauses {
        clause_refs(clause, &mut out)?;
    }
    Ok(out)
}

/// The binds of a quantifier (XQuery 1.0, section 3.11).
pub fn quantifier_refs<'q>(
    alloc: Global,
    binds: &'q [QuantBind<u32, SeqType, Tree>],
) -> Result<Vec<BindRef<'q>>, Want>
    ensures { IfOk result (λ bs. (t : Texts) → binds_in t bs.items s.no_binds ≡ trees.quant_binds t binds.now) }
{
    let mut out = Vec::new(alloc);
    for bind in binds {
        let one = quant_ref(bind);
        out.push(one)?;
    }
    Ok(out)
}
