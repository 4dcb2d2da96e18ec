//! Places of equal cells, for look-ups.
ghost use Rattle.std.specs.Prelude.{ℕ, List, ◌≡◌, ◌<◌, ◌≤◌, ◌^◌, ◌++◌, [], length, map, nat_eq, slice_index, OnOk, IfOk};
ghost use Rattle.table_ops.specs.Chains.{IsIndex, LeadsOn, Linked, places_of};
ghost use Rattle.table_ops.specs.Keys.{item_eq};
ghost use Rattle.table_ops.specs.Filed.{AreFiled};

use crate::chains::Chains;
use crate::keys::number;
use indexmap::IndexSet;
use std::alloc::Global;
use std::marker::Model;
use xq_base::{HashKeys, Item, Want};

/// The places of cells, by cell. Contracts see the list of the cells.
#[derive(Drop)]
pub struct Index {
    table: IndexSet<Item, HashKeys>,
    keys: Vec<u32>,
    spans: Vec<(usize, usize)>,
    places: Vec<u32>,
}

impl Model for Index {
    ghost use Rattle.std.specs.Prelude.{List};
    ghost use Rattle.xq_base.specs.declared.item.Item.{Item};
    ghost use Rattle.table_ops.specs.Filed.{cells_by, FilesCells};

    ghost Value = { List Item };

    ghost view = { λ x. cells_by x.table.keys x.keys.items };

    ghost invariant = { λ x. FilesCells x.table.keys x.keys.items x.spans.items x.places.items };
}

impl Index {
    /// The places of these cells. The keys are those of the hash by which cells are found; they decide
    /// no answer.
    ///
    /// Errors: `Want`, where memory is wanting.
    pub fn of(alloc: Global, hash: HashKeys, cells: &[Item]) -> Result<Index, Want>
        requires { length cells.now < 2 ^ 32 }
        ensures { IfOk result (λ x. x ≡ cells.now) }
    {
        let mut table = IndexSet::with_hasher(alloc, hash);
        let keys = number(alloc, cells, &mut table)?;
        let chains = Chains::of(alloc, &keys, table.len())?;
        let mut places = Vec::new(alloc);
        let spans = chains.file(alloc, &keys, &mut places)?;
        Ok(Index {
            table,
            keys,
            spans,
            places,
        })
    }

    /// The places of the cells that equal this one, ascending; none where there is none. It takes no
    /// memory.
    pub fn places(&self, cell: Item) -> &[u32]
        ensures { result.now ≡ places_of (item_eq cell) 0 self.now }
    {
        match self.table.get_index_of(&cell) {
            None => &[],
            Some(key) => {
                let (start, end) = self.spans[key];
                &self.places[start..end]
            }
        }
    }
}
