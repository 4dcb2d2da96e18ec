//! An order of the declared functions that a query reaches: each behind those that it calls, where none calls itself.
//! Its clause says that each is in it at most once, and nothing of the calls: who needs that looks whether they are there.
ghost use Rattle.std.specs.Prelude.{ℕ, ◌+◌, ◌≤◌, ◌≡◌, [], length, get_or, replicate, slice_get, IfOk, OnOk, Some, None, MatchOption};
ghost use Rattle.core_meaning.specs.Erasure.{Texts};
ghost use Rattle.core_scope.specs.Leaves.{syn_resolved};
ghost use Rattle.core_normal.specs.Calls.{calls_in};
ghost use Rattle.core_normal.specs.Measuring as measuring;
ghost use Rattle.core_normal.specs.Order as spec;
ghost use Rattle.core_normal.specs.Ordered as ordered;
ghost use Rattle.core_normal.specs.Order.{IsOrder, Walks, body_calls, placed, turns_left};

use crate::bodies::Tree;
use crate::calls::calls;
use std::alloc::Global;
use xq_ast::leaf::SeqType;
use xq_ast::query::Declaration as AnyDeclaration;
use xq_base::{TextId, Want};

/// A declaration of a resolved query.
pub type Declaration = AnyDeclaration<TextId, u32, SeqType, Tree>;

/// How far a walk has come with a function.
#[derive(Clone, Copy, Debug, PartialEq, Eq)]
enum Mark {
    New,
    Entered,
    Placed,
}

/// A function to go to, or to place behind those that it calls.
#[derive(Clone, Copy, Debug, PartialEq, Eq)]
enum Turn {
    Enter(u32),
    Place(u32),
}

/// A walk over the functions: how far it has come with each, where it goes next (from the last), and those it has placed.
#[derive(Drop)]
struct Walk {
    marks: Vec<Mark>,
    turns: Vec<Turn>,
    order: Vec<u32>,
}

/// Where each declared function stands among the declarations.
///
/// Errors: `Want`, where memory is wanting.
pub fn places(alloc: Global, declarations: &[Declaration]) -> Result<Vec<usize>, Want>
    ensures { IfOk result (λ v. v.items ≡ spec.places 0 declarations.now) }
{
    let mut places = Vec::new(alloc);
    for i in 0..declarations.len() {
        match &declarations[i] {
            Declaration::Var(_, _, _, _) => {}
            Declaration::Fun(_, _, _, _, _) => places.push(i)?,
        }
    }
    Ok(places)
}

/// The declaration of the function of this number.
pub fn declared<'a>(
    declarations: &'a [Declaration],
    places: &[usize],
    k: usize,
) -> Option<&'a Declaration>
    ensures { MatchOption result (placed declarations.now (slice_get places.now k) ≡ None) (λ d. placed declarations.now (slice_get places.now k) ≡ Some d.now) }
{
    match places.get(k) {
        None => None,
        Some(i) => declarations.get(*i),
    }
}

/// The calls of the body of the function of this number.
fn calls_at(
    alloc: Global,
    declarations: &[Declaration],
    places: &[usize],
    k: usize,
) -> Result<Vec<u32>, Want>
    ensures { IfOk result (λ v. v.items ≡ body_calls (placed declarations.now (slice_get places.now k)) []) }
{
    let mut found = Vec::new(alloc);
    match declared(declarations, places, k) {
        None => {}
        Some(Declaration::Var(_, _, _, _)) => {}
        Some(Declaration::Fun(_, _, _, _, body)) => calls(body.get(), &mut found)?,
    }
    Ok(found)
}

/// The calls of the prolog's variables, behind those of `found`.
fn variable_calls(declarations: &[Declaration], found: &mut Vec<u32>) -> Result<(), Want>
    ensures { OnOk result (found.new.items ≡ spec.variable_calls declarations.now found.old.items) }
{
    for declaration in declarations {
        match declaration {
            Declaration::Var(_, _, _, value) => calls(value.get(), found)?,
            Declaration::Fun(_, _, _, _, _) => {}
        }
    }
    Ok(())
}

/// The functions that the prolog's variables and the main expression call.
///
/// Errors: `Want`, where memory is wanting.
#[tactic(auto, using(crate::proofs::Finding::main_found))]
pub fn main_calls(
    alloc: Global,
    declarations: &[Declaration],
    main: &Tree,
) -> Result<Vec<u32>, Want>
    ensures { IfOk result (λ v. (t : Texts) → v.items ≡ ordered.main_calls (measuring.declarations t declarations.now) (calls_in (syn_resolved t main.now))) }
{
    let mut found = Vec::new(alloc);
    variable_calls(declarations, &mut found)?;
    calls(main, &mut found)?;
    Ok(found)
}

fn all_new(alloc: Global, count: usize) -> Result<Vec<Mark>, Want>
    ensures { IfOk result (λ v. v.items ≡ replicate count Mark.New) }
{
    let mut marks = Vec::new(alloc);
    for _k in 0..count {
        marks.push(Mark::New)?;
    }
    Ok(marks)
}

/// Goes to each of these functions, the last first.
fn go_to(ks: &[u32], turns: &mut Vec<Turn>) -> Result<(), Want>
    ensures { OnOk result (length turns.new.items ≡ length turns.old.items + length ks.now) }
{
    for k in ks {
        turns.push(Turn::Enter(*k))?;
    }
    Ok(())
}

/// How far a walk has come with a function; with one that isn't there it has nothing to do.
fn mark_at(marks: &[Mark], k: usize) -> Mark
    ensures { result ≡ get_or marks.now k Mark.Placed }
{
    match marks.get(k) {
        None => Mark::Placed,
        Some(mark) => *mark,
    }
}

/// Enters a function, unless the walk did before: it is placed behind those that it calls.
fn enter(
    alloc: Global,
    declarations: &[Declaration],
    places: &[usize],
    k: u32,
    walk: &mut Walk,
) -> Result<(), Want>
    ensures sound { OnOk result (Walks walk.old → Walks walk.new) }
    ensures less { OnOk result (turns_left declarations.now places.now walk.new ≤ turns_left declarations.now places.now walk.old) }
    ensures kept { OnOk result (length walk.new.marks.items ≡ length walk.old.marks.items) }
{
    let at = k as usize;
    match mark_at(walk.marks.as_slice(), at) {
        Mark::New => {
            walk.marks[at] = Mark::Entered;
            walk.turns.push(Turn::Place(k))?;
            let called = calls_at(alloc, declarations, places, at)?;
            go_to(called.as_slice(), &mut walk.turns)
        }
        _ => Ok(()),
    }
}

/// Places a function behind those that it calls.
fn place(k: u32, walk: &mut Walk) -> Result<(), Want>
    ensures sound { OnOk result (Walks walk.old → Walks walk.new) }
    ensures less { OnOk result ((weight : ℕ → ℕ) → spec.left weight walk.new.marks.items ≡ spec.left weight walk.old.marks.items) }
    ensures turns { OnOk result (walk.new.turns.items ≡ walk.old.turns.items) }
    ensures kept { OnOk result (length walk.new.marks.items ≡ length walk.old.marks.items) }
{
    let at = k as usize;
    match mark_at(walk.marks.as_slice(), at) {
        Mark::Entered => {
            walk.marks[at] = Mark::Placed;
            walk.order.push(k)?;
            Ok(())
        }
        _ => Ok(()),
    }
}

/// One turn of a walk.
fn take_turn(
    alloc: Global,
    declarations: &[Declaration],
    places: &[usize],
    next: Turn,
    walk: &mut Walk,
) -> Result<(), Want>
    ensures sound { OnOk result (Walks walk.old → Walks walk.new) }
    ensures less { OnOk result (turns_left declarations.now places.now walk.new ≤ turns_left declarations.now places.now walk.old) }
    ensures kept { OnOk result (length walk.new.marks.items ≡ length walk.old.marks.items) }
{
    match next {
        Turn::Enter(k) => enter(alloc, declarations, places, k, walk),
        Turn::Place(k) => place(k, walk),
    }
}

/// The numbers of the declared functions that the main expression or a variable of the prolog reaches, each behind those
/// that it calls, where none calls itself. `places` says where each stands.
///
/// Errors: `Want`, where memory is wanting.
pub fn order(
    alloc: Global,
    declarations: &[Declaration],
    places: &[usize],
    main: &Tree,
) -> Result<Vec<u32>, Want>
    ensures { IfOk result (λ ks. IsOrder (length places.now) ks.items) }
{
    let marks = all_new(alloc, places.len())?;
    let mut turns = Vec::new(alloc);
    let roots = main_calls(alloc, declarations, main)?;
    go_to(roots.as_slice(), &mut turns)?;
    let order = Vec::new(alloc);
    let mut walk = Walk {
        marks,
        turns,
        order,
    };
    while let Some(next) = walk.turns.pop() {
        take_turn(alloc, declarations, places, next, &mut walk)?;
    }
    Ok(walk.order)
}
