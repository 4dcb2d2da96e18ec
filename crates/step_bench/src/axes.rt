//! The twelve axes by their names.
ghost use Rattle.std.specs.Prelude.{◌≡◌, MatchOption};
ghost use Rattle.xq_base.specs.declared.axis.Axis.{Axis};
ghost use Rattle.step_bench.specs.Axes.{name_of, AreOthers};

use xq_base::Axis;

/// The twelve axes.
pub const AXES: [Axis; 12] = [
    Axis::SelfNode,
    Axis::Child,
    Axis::Descendant,
    Axis::DescendantOrSelf,
    Axis::Attribute,
    Axis::Parent,
    Axis::Ancestor,
    Axis::AncestorOrSelf,
    Axis::PrecedingSibling,
    Axis::FollowingSibling,
    Axis::Preceding,
    Axis::Following,
];

/// The name of an axis, as XPath spells it.
pub fn name_of(axis: Axis) -> &'static str
    ensures { result.now ≡ name_of axis }
{
    match axis {
        Axis::SelfNode => "self",
        Axis::Child => "child",
        Axis::Descendant => "descendant",
        Axis::DescendantOrSelf => "descendant-or-self",
        Axis::Attribute => "attribute",
        Axis::Parent => "parent",
        Axis::Ancestor => "ancestor",
        Axis::AncestorOrSelf => "ancestor-or-self",
        Axis::PrecedingSibling => "preceding-sibling",
        Axis::FollowingSibling => "following-sibling",
        Axis::Preceding => "preceding",
        Axis::Following => "following",
    }
}

/// The first of these axes that has a name.
fn find(axes: &[Axis], word: &str) -> Option<Axis>
    ensures { MatchOption result (AreOthers axes.now word.now) (λ axis. name_of axis ≡ word.now) }
{
    let (first, rest) = axes.split_first()?;
    if name_of(*first) == word {
        return Some(*first);
    }
    find(rest, word)
}

/// The axis of this name.
#[tactic(auto, using(crate::proofs::EveryAxis::no_axis))]
pub fn axis_named(word: &str) -> Option<Axis>
    ensures { MatchOption result ((axis : Axis) → name_of axis ≡ word.now → ⊥) (λ axis. name_of axis ≡ word.now) }
{
    find(&AXES, word)
}
