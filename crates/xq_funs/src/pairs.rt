//! Two items as atomic values.
ghost use Rattle.std.specs.Prelude.{◌≡◌, ◌&&◌, true, false, length, take, IfOk, OnErr};
ghost use Rattle.doc_table.specs.Items.{item_of};
ghost use Rattle.doc_table.specs.Values.{atomized};
ghost use Rattle.doc_table.specs.Given.{trees_given};
ghost use Rattle.doc_table.specs.StoredItems.{trees_of, ItemGiven};
ghost use Rattle.xq_funs.specs.Answering.{atom_in, atom_given, is_plain};

use crate::atoms::atomize;
use doc_table::Store;
use std::alloc::Global;
use xq_base::{Atom, Item, Pool, Want};

/// The atomic values of two items, over the pool after both.
#[tactic(auto, using(crate::proofs::Later::item_given_later, crate::proofs::Later::trees_given_later, crate::proofs::Later::keeps_on))]
pub(crate) fn atomize_two(
    alloc: Global,
    a: Item,
    b: Item,
    store: &Store,
    pool: &mut Pool,
) -> Result<(Atom, Atom), Want>
    requires a { ItemGiven pool.old store.now a }
    requires b { ItemGiven pool.old store.now b }
    requires trees { trees_given (length pool.old) store.now ≡ true }
    ensures value_a { IfOk result (λ p. atom_in pool.new p.0 ≡ atomized (item_of pool.old (trees_of store.now) a)) }
    ensures value_b { IfOk result (λ p. atom_in pool.new p.1 ≡ atomized (item_of pool.old (trees_of store.now) b)) }
    ensures given_a { IfOk result (λ p. atom_given (length pool.new) p.0 ≡ true) }
    ensures given_b { IfOk result (λ p. atom_given (length pool.new) p.1 ≡ true) }
    ensures keeps { take (length pool.old) pool.new ≡ pool.old }
    ensures plain { OnErr result ((is_plain a && is_plain b) ≡ false) }
{
    let Ok(first) = atomize(alloc, a, store, pool) else {
        return Err(Want);
    };
    let Ok(second) = atomize(alloc, b, store, pool) else {
        return Err(Want);
    };
    Ok((first, second))
}

/// The atomic values of three items, over the pool after all.
#[tactic(auto, using(crate::proofs::Later::item_given_later, crate::proofs::Later::trees_given_later, crate::proofs::Later::keeps_on))]
pub(crate) fn atomize_three(
    alloc: Global,
    a: Item,
    b: Item,
    c: Item,
    store: &Store,
    pool: &mut Pool,
) -> Result<(Atom, Atom, Atom), Want>
    requires a { ItemGiven pool.old store.now a }
    requires b { ItemGiven pool.old store.now b }
    requires c { ItemGiven pool.old store.now c }
    requires trees { trees_given (length pool.old) store.now ≡ true }
    ensures value_a { IfOk result (λ p. atom_in pool.new p.0 ≡ atomized (item_of pool.old (trees_of store.now) a)) }
    ensures value_b { IfOk result (λ p. atom_in pool.new p.1 ≡ atomized (item_of pool.old (trees_of store.now) b)) }
    ensures value_c { IfOk result (λ p. atom_in pool.new p.2 ≡ atomized (item_of pool.old (trees_of store.now) c)) }
    ensures given_a { IfOk result (λ p. atom_given (length pool.new) p.0 ≡ true) }
    ensures given_b { IfOk result (λ p. atom_given (length pool.new) p.1 ≡ true) }
    ensures given_c { IfOk result (λ p. atom_given (length pool.new) p.2 ≡ true) }
    ensures keeps { take (length pool.old) pool.new ≡ pool.old }
    ensures plain { OnErr result ((is_plain a && (is_plain b && is_plain c)) ≡ false) }
{
    let Ok(first) = atomize(alloc, a, store, pool) else {
        return Err(Want);
    };
    let Ok((second, third)) = atomize_two(alloc, b, c, store, pool) else {
        return Err(Want);
    };
    Ok((first, second, third))
}
