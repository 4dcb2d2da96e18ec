//! How deep a tree is.
ghost use Rattle.std.specs.Prelude.{◌≡◌, nat_lt};
ghost use Rattle.doc_shred.specs.Limits.{level_limit};
ghost use Rattle.doc_shred.specs.Document.{deepest};

use crate::limits::LEVEL_LIMIT;
use doc_table::{Fragment, Rows};

/// Whether some row's level passes the limit.
pub fn is_too_deep(fragment: &Fragment) -> bool
    ensures { result ≡ nat_lt level_limit (deepest fragment.now) }
{
    for pre in 0..fragment.len() {
        if fragment.at(pre).level > LEVEL_LIMIT {
            return true;
        }
    }
    false
}
