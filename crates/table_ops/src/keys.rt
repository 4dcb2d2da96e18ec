//! Values as small numbers: equal ones have equal keys.
ghost use Rattle.std.specs.Prelude.{◌≡◌, ◌<◌, ◌≤◌, ◌^◌, [], length, map, IfOk, OnOk};
ghost use Rattle.indexmap.specs.IndexSet.{insert_all, index_set_len};
ghost use Rattle.table_ops.specs.Keys.{item_eq, place_in, keys_from, new_places};

use indexmap::IndexSet;
use std::alloc::Global;
use std::hash::Hash;
use xq_base::{HashKeys, Item, Want};

/// The keys of values: the place of each among the different ones up to it, which the table then has.
pub fn number<T: Copy + Eq + Hash>(
    alloc: Global,
    values: &[T],
    table: &mut IndexSet<T, HashKeys>,
) -> Result<Vec<u32>, Want>
    requires few { length values.now < 2 ^ 32 }
    requires empty { table.old.keys ≡ [] }
    ensures keys { IfOk result (λ out. out.items ≡ keys_from T.eq [] values.now) }
    ensures table { OnOk result (table.new.keys ≡ insert_all T.eq [] values.now) }
{
    let mut out = Vec::with_capacity(alloc, values.len())?;
    for value in values {
        let key = match table.insert_full(*value) {
            Ok((key, _is_new)) => key,
            Err(_) => return Err(Want),
        };
        if out.push(key as u32).is_err() {
            return Err(Want);
        }
    }
    Ok(out)
}

/// The place of a value in the table, or how many it has.
fn place<T: Copy + Eq + Hash>(value: &T, table: &IndexSet<T, HashKeys>) -> usize
    ensures place { result ≡ place_in T.eq table.now.keys value.now }
    ensures within { result ≤ length table.now.keys }
{
    match table.get_index_of(value) {
        Some(at) => at,
        None => table.len(),
    }
}

/// The places of values in a table.
pub fn look_up<T: Copy + Eq + Hash>(
    alloc: Global,
    values: &[T],
    table: &IndexSet<T, HashKeys>,
) -> Result<Vec<u32>, Want>
    requires { length table.now.keys < 2 ^ 32 }
    ensures { IfOk result (λ out. out.items ≡ map (place_in T.eq table.now.keys) values.now) }
{
    let mut out = Vec::with_capacity(alloc, values.len())?;
    for value in values {
        if out.push(place(value, table) as u32).is_err() {
            return Err(Want);
        }
    }
    Ok(out)
}

/// The places of the keys that come for the first time.
pub fn firsts(alloc: Global, keys: &[u32]) -> Result<Vec<u32>, Want>
    requires { length keys.now < 2 ^ 32 }
    ensures { IfOk result (λ out. out.items ≡ new_places 0 0 keys.now) }
{
    let mut out = Vec::new(alloc);
    let mut seen = 0;
    for place in 0..keys.len() {
        if keys[place] as usize == seen {
            if out.push(place as u32).is_err() {
                return Err(Want);
            }
            seen += 1;
        }
    }
    Ok(out)
}
