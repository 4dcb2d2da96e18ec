//! The numbers of the names of an element's attributes.
ghost use Rattle.std.specs.Prelude.{◌≡◌, ◌∷◌, ◌++◌, [], IfOk, not, nat_eq, if◌then◌else◌};
ghost use Rattle.std.specs.List.{list_any};

use arrayvec::ArrayVec;
use indexmap::IndexSet;
use std::alloc::{AllocError, Global};
use std::marker::Model;
use xq_base::HashKeys;

/// Numbers, each once, in the order in which they came. Few elements have more attributes than are
/// kept in a row; the others stand in a set.
#[derive(Drop)]
pub struct NameNumbers {
    first: ArrayVec<u64, 8>,
    others: IndexSet<u64, HashKeys>,
}

impl Model for NameNumbers {
    ghost use Rattle.std.specs.Prelude.{List, ℕ, ◌++◌};

    ghost Value = { List ℕ };

    ghost view = { λ n. n.first.items ++ n.others.keys };
}

impl NameNumbers {
    /// No numbers. It takes no memory.
    pub fn new(alloc: Global, keys: HashKeys) -> NameNumbers
        ensures { result ≡ [] }
    {
        NameNumbers {
            first: ArrayVec::new(),
            others: IndexSet::with_hasher(alloc, keys),
        }
    }

    /// Adds a number, unless it is there, and says whether it is new.
    pub fn insert(&mut self, number: u64) -> Result<bool, AllocError>
        ensures new { IfOk result (λ new. new ≡ not (list_any (nat_eq number) self.old)) }
        ensures numbers { IfOk result (λ new. self.new ≡ (if new then self.old ++ number ∷ [] else self.old)) }
    {
        add(&mut self.first, &mut self.others, number)
    }
}

/// Adds a number to those in a row or, where some stand in the set or the row is full, to the set.
fn add(
    first: &mut ArrayVec<u64, 8>,
    others: &mut IndexSet<u64, HashKeys>,
    number: u64,
) -> Result<bool, AllocError>
    ensures new { IfOk result (λ new. new ≡ not (list_any (nat_eq number) (first.old.items ++ others.old.keys))) }
    ensures numbers { IfOk result (λ new. first.new.items ++ others.new.keys ≡ (if new then (first.old.items ++ others.old.keys) ++ number ∷ [] else first.old.items ++ others.old.keys)) }
{
    if first.as_slice().contains(&number) {
        return Ok(false);
    }
    if first.as_slice().len() < 8 && others.is_empty() {
        first.push(number);
        return Ok(true);
    }
    let new = others.insert(number)?;
    Ok(new)
}
