//! The effective boolean value.
ghost use Rattle.std.specs.Prelude.{◌≡◌, true, length, map};
ghost use Rattle.std.specs.List.{list_all};
ghost use Rattle.xq_base.specs.declared.item.FragKey.{FragKey};
ghost use Rattle.xq_base.specs.declared.item.TextId.{TextId};
ghost use Rattle.doc_table.specs.Tree.{Tree};
ghost use Rattle.doc_table.specs.Items.{item_of};
ghost use Rattle.doc_table.specs.Values.{boolean_value, truth_of};
ghost use Rattle.xq_funs.specs.Answering.{answer_of, text_given};

use xq_base::{Code, Item, Pool};

/// The effective boolean value of a list of items (XQuery 1.0, section 2.4.3). It takes no memory.
///
/// Errors: `FORG0006`, where the first of several items is no node.
pub fn ebv(items: &[Item], pool: &Pool) -> Result<bool, Code>
    requires { list_all (text_given (length pool.now)) items.now ≡ true }
    ensures { (trees : FragKey → Tree TextId) → answer_of result ≡ boolean_value (map (item_of pool.now trees) items.now) }
{
    match items {
        [] => Ok(false),
        [item] => Ok(is_true(*item, pool)),
        [Item::Node(_), ..] => Ok(true),
        _ => Err(Code::FORG0006),
    }
}

/// Whether one item counts as true.
pub(crate) fn is_true(item: Item, pool: &Pool) -> bool
    requires { text_given (length pool.now) item ≡ true }
    ensures { (trees : FragKey → Tree TextId) → result ≡ truth_of (item_of pool.now trees item) }
{
    match item {
        Item::Int(n) => n != 0,
        Item::Str(text) | Item::Untyped(text) => !pool.text(text).is_empty(),
        Item::Bool(b) => b,
        Item::Node(_) => true,
    }
}
