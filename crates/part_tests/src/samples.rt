//! The documents that the tests go over.
ghost use Rattle.std.specs.Prelude.{◌≡◌, IfOk};
ghost use Rattle.part_tests.specs.Samples.{mixed, nested, of_all_kinds};

use doc_table::{Fragment, FragmentBuilder, Kind};
use std::alloc::Global;
use xq_base::{TextId, Want};

/// The document `<r><x><x><y/></x></x></r>`, where the texts r, x and y have the numbers 1 to 3.
pub(crate) fn nested(alloc: Global) -> Result<Fragment, Want>
    ensures { IfOk result (λ tree. tree ≡ nested) }
{
    let mut tree = FragmentBuilder::new(alloc);
    tree.open(Kind::Document, None)?;
    tree.open(Kind::Element, Some(TextId(1)))?;
    tree.open(Kind::Element, Some(TextId(2)))?;
    tree.open(Kind::Element, Some(TextId(2)))?;
    tree.open(Kind::Element, Some(TextId(3)))?;
    tree.close();
    tree.close();
    tree.close();
    tree.close();
    tree.close();
    Ok(tree.finish())
}

/// The document `<a x="1"><b>2</b><c/>t<b>3</b></a>`, where the texts a, x, 1, b, 2, c, t, 3 have the
/// numbers 1 to 8.
pub(crate) fn mixed(alloc: Global) -> Result<Fragment, Want>
    ensures { IfOk result (λ tree. tree ≡ mixed) }
{
    let mut tree = FragmentBuilder::new(alloc);
    tree.open(Kind::Document, None)?;
    tree.open(Kind::Element, Some(TextId(1)))?;
    tree.attribute(TextId(2), TextId(3))?;
    tree.open(Kind::Element, Some(TextId(4)))?;
    tree.text(TextId(5))?;
    tree.close();
    tree.open(Kind::Element, Some(TextId(6)))?;
    tree.close();
    tree.text(TextId(7))?;
    tree.open(Kind::Element, Some(TextId(4)))?;
    tree.text(TextId(8))?;
    tree.close();
    tree.close();
    tree.close();
    Ok(tree.finish())
}

/// The document `<n n="v"><n/><!--v--><?n v?></n>`.
pub(crate) fn of_all_kinds(alloc: Global, n: TextId, v: TextId) -> Result<Fragment, Want>
    ensures { IfOk result (λ tree. tree ≡ of_all_kinds n v) }
{
    let mut tree = FragmentBuilder::new(alloc);
    tree.open(Kind::Document, None)?;
    tree.open(Kind::Element, Some(n))?;
    tree.attribute(n, v)?;
    tree.open(Kind::Element, Some(n))?;
    tree.close();
    tree.comment(v)?;
    tree.pi(n, v)?;
    tree.close();
    tree.close();
    Ok(tree.finish())
}
