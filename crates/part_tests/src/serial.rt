//! The bytes of small lists of items, with ample memory.
ghost use Rattle.std.specs.Prelude.{◌≡◌, [], ◌∷◌, IfOk};
ghost use Rattle.xq_base.specs.declared.item.Item.{Item};
ghost use Rattle.xq_base.specs.declared.item.FragKey.{FragKey};
ghost use Rattle.part_tests.specs.Samples.{of_all_kinds};

use crate::samples::of_all_kinds;
use doc_table::Store;
use std::alloc::Global;
use std::test::Fail;
use xq_base::{FragKey, HashKeys, Item, NodeRef, Pool, TextId, Want};
use xq_serial::{SerialFault, serialise};

fn node(pre: u32, attr: u32) -> Item
    ensures { result ≡ Item.Node (record { frag = FragKey.Doc 0; pre = pre; attr = attr }) }
{
    Item::Node(NodeRef {
        frag: FragKey::Doc(0),
        pre,
        attr,
    })
}

#[test]
fn atoms_are_escaped_and_parted(rt: HostRuntime) -> Result<(), Fail> {
    let alloc = rt.alloc();
    let mut pool = Pool::new(alloc, HashKeys::new(1, 2));
    let text = pool.intern("a<&>\r\u{7f}\u{85}\u{9f}\u{2028}\u{e9}\"\t")?;
    let store = Store::new(alloc);
    let items = [
        Item::Int(-7),
        Item::Str(text),
        Item::Untyped(TextId(0)),
        Item::Bool(true),
    ];
    let bytes = serialise(alloc, &items, &store, &pool)?;
    let wanted = "-7 a&lt;&amp;&gt;&#xD;&#x7F;&#x85;&#x9F;&#x2028;\u{e9}\"\t  true";
    assert_eq!(rt; bytes.as_slice(), wanted.as_bytes());
    Ok(())
}

/// A store that holds the sample alone.
fn stored(alloc: Global, n: TextId) -> Result<Store, Want>
    ensures { IfOk result (λ h. h ≡ record { docs = (n, of_all_kinds n n) ∷ []; built = [] }) }
{
    let tree = of_all_kinds(alloc, n, n)?;
    let mut store = Store::new(alloc);
    store.add_doc(n, tree)?;
    Ok(store)
}

#[test]
fn nodes_are_written_as_they_stand(rt: HostRuntime) -> Result<(), Fail> {
    let alloc = rt.alloc();
    let mut pool = Pool::new(alloc, HashKeys::new(1, 2));
    let n = pool.intern("n")?;
    let store = stored(alloc, n)?;
    let items = [node(0, 0), node(2, 0), Item::Int(1), node(3, 0)];
    let bytes = serialise(alloc, &items, &store, &pool)?;
    let wanted = "<n n=\"n\"><n/><!--n--><?n n?></n><n/>1<!--n-->";
    assert_eq!(rt; bytes.as_slice(), wanted.as_bytes());
    Ok(())
}

#[test]
fn the_first_attribute_is_refused(rt: HostRuntime) -> Result<(), Fail> {
    let alloc = rt.alloc();
    let mut pool = Pool::new(alloc, HashKeys::new(1, 2));
    let n = pool.intern("n")?;
    let store = stored(alloc, n)?;
    let items = [Item::Int(1), node(1, 1), node(1, 1)];
    let refused = serialise(alloc, &items, &store, &pool);
    assert!(rt; matches!(refused, Err(SerialFault::Attribute { place: 1 })));
    Ok(())
}

#[test]
fn errors_have_messages(rt: HostRuntime) -> Result<(), Fail> {
    let alloc = rt.alloc();
    let attribute = format!(in alloc; "{}", SerialFault::Attribute { place: 1 })?;
    assert_eq!(rt; attribute.as_str(), "an attribute stands at place 1");
    let memory = format!(in alloc; "{}", SerialFault::NoMemory)?;
    assert_eq!(rt; memory.as_str(), "want of memory");
    Ok(())
}
