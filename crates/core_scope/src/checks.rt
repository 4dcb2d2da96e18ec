//! What a leaf of an expression refuses.
ghost use Rattle.std.specs.Prelude.{◌≡◌};
ghost use Rattle.core_scope.specs.Erasure.{position_of};
ghost use Rattle.core_scope.specs.Kept.{after};
ghost use Rattle.core_scope.specs.Leaves.{read_leaves};
ghost use Rattle.core_scope.specs.Literals as literals;
ghost use Rattle.core_scope.specs.Names as names;
ghost use Rattle.core_scope.specs.TypeNames as type_names;
ghost use Rattle.core_scope.specs.Walk as walk;
ghost use Rattle.xq_base.specs.declared.code.Code.TheVariants as code;

use crate::built_ins::same;
use crate::found::Found;
use crate::literals::integer_in;
use crate::type_names::{atom_kind, cast_code, is_any_atomic};
use sqlite_items::Items;
use xq_ast::leaf::{Name, ReadItem, ReadType, Variable};
use xq_base::Code;

/// Whether there is an atomic type of this name in a sequence type.
#[tactic(auto, using(crate::proofs::Naming::there_where))]
fn is_item_name(name: &[u8]) -> bool
    ensures { result ≡ names.is_there (type_names.item_named name.now) }
{
    match atom_kind(name) {
        Some(_) => true,
        None => is_any_atomic(name),
    }
}

/// What the type of an item refuses.
#[tactic(auto, using(crate::proofs::Keeping::after_nothing))]
fn item_amiss(item: &ReadItem, found: &mut Found)
    ensures { found.new ≡ after found.old (walk.item_facts item.now) }
{
    match item {
        ReadItem::Any => {}
        ReadItem::Kind(_) => {}
        ReadItem::Named(name) => {
            if !is_item_name(name.text.as_slice()) {
                found.amiss(Code::XPST0051, name.offset);
            }
        }
    }
}

/// What a sequence type refuses.
#[tactic(auto, using(crate::proofs::Keeping::after_nothing))]
pub fn type_amiss(ty: &ReadType, found: &mut Found)
    ensures { found.new ≡ after found.old (walk.type_facts ty.now) }
{
    match ty {
        ReadType::Empty(_) => {}
        ReadType::Of(_, item, _) => item_amiss(item, found),
    }
}

/// What a sequence type refuses, if it is there.
#[tactic(auto, using(crate::proofs::Keeping::after_nothing))]
pub fn types_amiss(ty: &Option<ReadType>, found: &mut Found)
    ensures { found.new ≡ after found.old (walk.bind_type_facts ty.now) }
{
    match ty {
        None => {}
        Some(ty) => type_amiss(ty, found),
    }
}

/// What the type of a cast refuses.
#[tactic(auto, using(crate::proofs::Keeping::after_nothing))]
pub fn cast_amiss(name: &Name<Items<u8>>, found: &mut Found)
    ensures { found.new ≡ after found.old (walk.cast_facts name.now) }
{
    let text = name.text.as_slice();
    match atom_kind(text) {
        Some(_) => {}
        None => found.amiss(cast_code(text), name.offset),
    }
}

/// What the variable of a position refuses.
#[tactic(auto, using(crate::proofs::Keeping::after_nothing))]
pub fn position_amiss(bound: &[u8], position: &Option<Variable<Name<Items<u8>>>>, found: &mut Found)
    ensures { found.new ≡ after found.old (walk.position_facts bound.now (position_of read_leaves position.now)) }
{
    match position {
        None => {}
        Some(v) => found.amiss_where(
            same(bound, v.name.text.as_slice()),
            Code::XQST0089,
            v.offset,
        ),
    }
}

/// Whether an integer is beyond 64 bits with a sign.
#[tactic(auto, using(crate::proofs::Digits::wide_none, crate::proofs::Digits::wide_some))]
fn is_wide(digits: &[u8]) -> bool
    ensures { result ≡ literals.is_wide digits.now }
{
    match integer_in(digits) {
        Some(_) => false,
        None => true,
    }
}

/// What an integer refuses.
pub fn integer_amiss(offset: u64, digits: &[u8], found: &mut Found)
    ensures { found.new ≡ after found.old (walk.amiss_where (literals.is_wide digits.now) code.FOAR0002 offset) }
{
    found.amiss_where(is_wide(digits), Code::FOAR0002, offset);
}
