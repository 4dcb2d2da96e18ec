//! Tables, and what each operator makes of them.
#![tactic(auto)]

mod aggregating;
mod applying;
mod arranging;
mod attempts;
mod chains;
mod columns;
mod combine;
mod comparing;
mod contents;
mod counting;
mod demands;
mod failing;
mod gather;
mod grouping;
mod index;
mod keys;
mod laws;
mod mapping;
mod matching;
mod numbering;
mod parts;
mod picks;
mod plain;
mod ranges;
mod reading;
mod sorting;
mod table;
mod wholes;

pub use aggregating::{aggregate, aggregate_fails};
pub use applying::apply;
pub use arranging::arrange;
pub use comparing::{Sides, Wanted, compare_rows};
pub use contents::content_fails;
pub use counting::{count_join, count_range};
pub use demands::demand;
pub use failing::map_fails;
pub use grouping::{count, distinct};
pub use index::Index;
pub use laws::rows_stand;
pub use mapping::map;
pub use matching::{difference, join};
pub use numbering::rownum;
pub use plain::{attach, project, select, union, unit};
pub use ranges::range;
pub use table::Table;
