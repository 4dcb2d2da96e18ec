//! Start tags: an element is opened, and its attributes are added.
ghost use Rattle.std.specs.Prelude.{◌≡◌, ◌<◌, ◌+◌, ◌-◌, [], true, length, IfOk, OnOk, Err, None, ◌⊎◌};
ghost use Rattle.std.specs.Cow.{cow_str_bytes};
ghost use Rattle.xq_base.specs.Pool.{NoRepeats};
ghost use Rattle.doc_table.specs.Spine.{takes_attributes, attributes_open};
ghost use Rattle.doc_shred.specs.declared.fault.Fault.TheVariants.{Malformed};
ghost use Rattle.doc_shred.specs.Outcomes.{IsRead};
ghost use Rattle.doc_shred.specs.Reading as r;
ghost use Rattle.doc_shred.specs.Standing.{IsLater, AttributeAdded, AttributeTwice, AttributesAdded, Walked, Takes, Starts, name_numbers};
ghost use Rattle.doc_shred.specs.Walk as w;
ghost use Rattle.doc_table.specs.Limits.{size_limit};

use crate::attributes::NameNumbers;
use crate::bytes::strip;
use crate::fault::Fault;
use crate::markup::{equals, has_attribute, name, space, tag_end};
use crate::names::OpenNames;
use crate::values::value;
use doc_table::{FragmentBuilder, Kind};
use std::alloc::Global;
use std::borrow::CowStr;
use xq_base::Pool;

/// White space and an attribute, with its name and value (XML 1.0, section 3.1, production 41).
#[tactic(auto, unfolding(crate::specs::Reading::attribute))]
fn attribute(alloc: Global, bytes: &[u8]) -> Result<((&str, CowStr<'_>), &[u8]), Fault>
    ensures { IsRead (λ x. ((x.0.0.now, cow_str_bytes x.0.1), x.1.now)) (r.attribute bytes.now) result }
{
    let Some((_, rest)) = space(bytes) else {
        return Err(Fault::Malformed);
    };
    let Some((name, rest)) = name(rest) else {
        return Err(Fault::Malformed);
    };
    let Some((_, rest)) = equals(rest) else {
        return Err(Fault::Malformed);
    };
    match value(alloc, rest) {
        Err(error) => Err(error),
        Ok((value, rest)) => Ok(((name, value), rest)),
    }
}

/// Reads an attribute and adds it to the open element, whose attributes so far have these names.
#[tactic(auto, using(crate::proofs::NameNumbers::name_there, crate::proofs::NameNumbers::name_absent, crate::proofs::NameNumbers::name_added))]
fn add_attribute<'a>(
    alloc: Global,
    pool: &mut Pool,
    builder: &mut FragmentBuilder,
    names: &mut NameNumbers,
    bytes: &'a [u8],
) -> Result<&'a [u8], Fault>
    requires element { takes_attributes builder.old.nodes ≡ true }
    requires names { names.old ≡ name_numbers builder.old.nodes }
    requires room { length (attributes_open builder.old.nodes) + 1 < size_limit }
    ensures later { IsLater pool.old pool.new }
    ensures added { IfOk result (λ rest. AttributeAdded pool.new builder.old builder.new bytes.now rest.now) }
    ensures different { IfOk result (λ _. NoRepeats pool.new) }
    ensures names { OnOk result (names.new ≡ name_numbers builder.new.nodes) }
    ensures refused { result ≡ Err Malformed → (r.attribute bytes.now ≡ None) ⊎ (AttributeTwice pool.new builder.old bytes.now × NoRepeats pool.new) }
{
    let ((name, value), rest) = match attribute(alloc, bytes) {
        Err(error) => return Err(error),
        Ok(read) => read,
    };
    let name = pool.intern(name)?;
    if !names.insert(name.0)? {
        return Err(Fault::Malformed);
    }
    let value = pool.intern(value.as_str())?;
    builder.attribute(name, value)?;
    Ok(rest)
}

/// Reads the attributes of a tag and adds them to the open element.
fn add_attributes<'a>(
    alloc: Global,
    pool: &mut Pool,
    builder: &mut FragmentBuilder,
    bytes: &'a [u8],
) -> Result<&'a [u8], Fault>
    requires element { takes_attributes builder.old.nodes ≡ true }
    requires none { attributes_open builder.old.nodes ≡ [] }
    requires room { length bytes.now + 1 < size_limit }
    ensures later { IsLater pool.old pool.new }
    ensures added { IfOk result (λ rest. AttributesAdded pool.new builder.old builder.new bytes.now rest.now) }
    ensures refused { result ≡ Err Malformed → w.attributes bytes.now ≡ None }
{
    let mut names = NameNumbers::new(alloc, pool.keys());
    let mut rest = bytes;
    for _turn in 0..bytes.len() + 1 {
        if !has_attribute(rest) {
            return Ok(rest);
        }
        match add_attribute(alloc, pool, builder, &mut names, rest) {
            Err(error) => return Err(error),
            Ok(after) => rest = after,
        }
    }
    Err(Fault::Malformed)
}

/// Reads a start tag, or the tag of an element without content, and opens the element or adds it
/// (XML 1.0, section 3.1, productions 40 and 44).
pub fn start_tag<'a>(
    alloc: Global,
    pool: &mut Pool,
    builder: &mut FragmentBuilder,
    names: &mut OpenNames<'a>,
    bytes: &'a [u8],
) -> Result<&'a [u8], Fault>
    requires takes { Takes builder.old }
    requires room { length bytes.now + 1 < size_limit }
    ensures later { IsLater pool.old pool.new }
    ensures started { IfOk result (λ rest. Walked (Starts bytes.now rest.now names.old names.new builder.old builder.new) pool.new names.old names.new builder.old builder.new) }
    ensures refused { result ≡ Err Malformed → r.start bytes.now ≡ None }
{
    let Some(rest) = strip(b"<", bytes) else {
        return Err(Fault::Malformed);
    };
    let Some((name, rest)) = name(rest) else {
        return Err(Fault::Malformed);
    };
    let id = pool.intern(name)?;
    builder.open(Kind::Element, Some(id))?;
    let rest = match add_attributes(alloc, pool, builder, rest) {
        Err(error) => return Err(error),
        Ok(rest) => rest,
    };
    let Some((is_empty, rest)) = tag_end(rest) else {
        return Err(Fault::Malformed);
    };
    if is_empty {
        builder.close();
        return Ok(rest);
    }
    names.push(name)?;
    Ok(rest)
}
