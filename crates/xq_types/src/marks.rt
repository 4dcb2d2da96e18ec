ghost use Rattle.std.specs.Prelude.{◌≡◌, map};
ghost use Rattle.xq_types.specs.Held.{kinds_in, typ_of};
ghost use Rattle.xq_types.specs.Refusals.{never, marks, marks_of, mark_refuses, marks_refuse};

use crate::kinds::{KindSet, atomised_of, common_of, has_none};
use crate::typ::Known;
use xq_base::Fun;

/// What an argument takes: anything, texts, or numbers. Texts and numbers take untyped values too.
#[derive(Clone, Copy, Debug, PartialEq, Eq)]
pub enum Mark {
    Free,
    AText,
    ANumber,
}

/// What the first three arguments of a function take; all others are free.
#[derive(Clone, Copy, Debug, PartialEq, Eq)]
pub struct Marks {
    pub first: Mark,
    pub second: Mark,
    pub third: Mark,
}

fn marked(first: Mark, second: Mark, third: Mark) -> Marks
    ensures { result ≡ marks first second third }
{
    Marks {
        first,
        second,
        third,
    }
}

/// What the arguments of a function take.
pub fn marks_for(fun: Fun) -> Marks
    ensures { result ≡ marks_of fun }
{
    match fun {
        Fun::Doc | Fun::StringLength | Fun::NormalizeSpace => {
            marked(Mark::AText, Mark::Free, Mark::Free)
        }
        Fun::StringJoin => marked(Mark::Free, Mark::AText, Mark::Free),
        Fun::Contains
        | Fun::StartsWith
        | Fun::EndsWith
        | Fun::SubstringBefore
        | Fun::SubstringAfter => marked(Mark::AText, Mark::AText, Mark::Free),
        Fun::Substring => marked(Mark::AText, Mark::ANumber, Mark::ANumber),
        Fun::Translate => marked(Mark::AText, Mark::AText, Mark::AText),
        Fun::Abs | Fun::Negate => marked(Mark::ANumber, Mark::Free, Mark::Free),
        Fun::Subsequence => marked(Mark::Free, Mark::ANumber, Mark::ANumber),
        Fun::InsertBefore | Fun::Remove => marked(Mark::Free, Mark::ANumber, Mark::Free),
        Fun::To | Fun::Add | Fun::Subtract | Fun::Multiply | Fun::IntegerDivide | Fun::Modulo =>
            marked(Mark::ANumber, Mark::ANumber, Mark::Free),
        _ => marked(Mark::Free, Mark::Free, Mark::Free),
    }
}

/// Whether a value of this type is never absent and has, atomised, none of these kinds.
fn is_never(kinds: KindSet, t: Known) -> bool
    ensures { result ≡ never (kinds_in kinds) (typ_of t) }
{
    let t = t.ty();
    t.least == 1 && has_none(common_of(atomised_of(t.kinds), kinds))
}

/// Whether an argument of this type is refused.
fn is_refused(mark: Mark, t: Known) -> bool
    ensures { result ≡ mark_refuses mark (typ_of t) }
{
    match mark {
        Mark::Free => false,
        Mark::AText => is_never(
            [
                false, true, false, true, false, false, false, false, false, false,
            ],
            t,
        ),
        Mark::ANumber => is_never(
            [
                true, false, false, true, false, false, false, false, false, false,
            ],
            t,
        ),
    }
}

/// Whether a call is refused by the types of its arguments.
pub fn refuses(fun: Fun, types: &[Known]) -> bool
    ensures { result ≡ marks_refuse (marks_of fun) (map typ_of types.now) }
{
    let marks = marks_for(fun);
    match types {
        [] => false,
        [t] => is_refused(marks.first, *t),
        [t, u] => is_refused(marks.first, *t) | is_refused(marks.second, *u),
        [t, u, w, ..] => {
            is_refused(marks.first, *t) | is_refused(marks.second, *u) | is_refused(marks.third, *w)
        }
    }
}
