//! Documents by name (Functions and Operators, section 15.5.4).
ghost use Rattle.std.specs.Prelude.{◌≡◌, ◌∷◌, [], true, not, Bool, length, take};
ghost use Rattle.xq_base.specs.declared.fun.Fun.{Fun};
ghost use Rattle.doc_table.specs.Tree.{text_in};
ghost use Rattle.doc_table.specs.Documents.{documents_in};
ghost use Rattle.doc_table.specs.Given.{is_given, trees_given};
ghost use Rattle.doc_table.specs.Stores.{AreGiven};
ghost use Rattle.doc_table.specs.StoredItems.{ItemGiven};
ghost use Rattle.doc_table.specs.NodeRules.{doc_named};
ghost use Rattle.doc_table.specs.Functions.{fun_answer};
ghost use Rattle.xq_funs.specs.Answering.{is_plain};
ghost use Rattle.xq_funs.specs.Calls.{Gives, values};

use crate::atoms::atomize;
use crate::fault::FunFault;
use crate::texts::string_id;
use doc_table::Store;
use std::alloc::Global;
use xq_base::{Code, FragKey, Fun, Item, NodeRef, Pool, TextId};

/// `doc`.
pub(crate) fn call_document(
    alloc: Global,
    item: Item,
    store: &Store,
    pool: &mut Pool,
) -> Result<Item, FunFault>
    requires item { ItemGiven pool.old store.now item }
    requires trees { trees_given (length pool.old) store.now ≡ true }
    requires names { AreGiven pool.old store.now.docs }
    ensures value { Gives (not (is_plain item)) pool.new store.now (fun_answer (documents_in pool.old store.now) Fun.Doc (values pool.old store.now (item ∷ []))) result }
    ensures keeps { take (length pool.old) pool.new ≡ pool.old }
{
    let Ok(atom) = atomize(alloc, item, store, pool) else {
        return Err(FunFault::NoMemory);
    };
    match string_id(atom) {
        Ok(name) => find_document(name, store, pool),
        Err(code) => Err(FunFault::Code(code)),
    }
}

/// The document of a name.
fn find_document(name: TextId, store: &Store, pool: &Pool) -> Result<Item, FunFault>
    requires name { is_given (length pool.now) name ≡ true }
    requires names { AreGiven pool.now store.now.docs }
    ensures { (wants : Bool) → Gives wants pool.now store.now (doc_named (documents_in pool.now store.now) 0 (text_in pool.now name)) result }
{
    store.validity();
    match store.find_doc(pool.text(name), pool) {
        Some(rank) => Ok(Item::Node(NodeRef {
            frag: FragKey::Doc(rank),
            pre: 0,
            attr: 0,
        })),
        None => Err(FunFault::Code(Code::FODC0002)),
    }
}
