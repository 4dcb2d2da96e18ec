//! Reading the rows on the way to those of a context: parent, ancestor, ancestor-or-self and both
//! sibling axes.
ghost use Rattle.std.specs.Prelude.{◌≡◌, ◌<◌, ◌-◌, ◌^◌, ◌&&◌, OnOk};
ghost use Rattle.staircase.specs.Ahead.{any, rest_of};
ghost use Rattle.staircase.specs.Near.{comes_before, has_wanted, is_near_row, marked, next_near, parents_left, row_left, NearAhead};

use crate::ahead::Ahead;
use crate::frames::Frames;
use crate::read::Pass;
use crate::seen::Seen;
use xq_base::Want;

/// A row whose children are being read: the number after that of its last row, and whether a row of
/// the context among its children was passed, where the siblings after it are wanted.
#[derive(Clone, Copy, Debug, PartialEq, Eq)]
pub(crate) struct Parent {
    pub pre: u32,
    pub end: u32,
    pub passed: bool,
}

/// The rows of a context, their ancestors and the siblings before each of these, and, where they are
/// wanted, the siblings after a row of the context. Row `at` is the next one.
#[derive(Drop)]
pub(crate) struct Near<'a> {
    pub ahead: Ahead<'a>,
    pub siblings: bool,
    pub parents: Frames<Parent>,
    pub at: u32,
}

/// Whether a row is to come before row `end`.
fn comes_before(first: Option<u32>, end: u32) -> bool
    ensures { result ≡ comes_before first end }
{
    match first {
        None => false,
        Some(first) => first < end,
    }
}

/// Whether a parent has rows that are wanted, from row `at` on.
fn has_wanted(at: u32, first: Option<u32>, parent: Parent) -> bool
    ensures { result ≡ has_wanted at first parent }
{
    at < parent.end && (parent.passed || comes_before(first, parent.end))
}

/// Removes the inner parents that have no row that is wanted, from row `from` on, and answers the row to
/// go on with.
fn leave(from: u32, first: Option<u32>, parents: &mut Frames<Parent>) -> u32
    ensures row { result ≡ row_left from first parents.old }
    ensures left { parents.new ≡ parents_left from first parents.old }
{
    let mut at = from;
    loop {
        match parents.top() {
            None => {
                return at;
            }
            Some(p) => {
                if has_wanted(at, first, p) {
                    return at;
                }
                parents.drop_top();
                at = p.end;
            }
        }
    }
}

/// Notes that a row of the context among the children of the innermost parent was passed, where
/// siblings are wanted.
fn mark(is_context: bool, siblings: bool, parents: &mut Frames<Parent>) -> Result<(), Want>
    ensures { OnOk result (parents.new ≡ marked (is_context && siblings) parents.old) }
{
    if !(is_context && siblings) {
        return Ok(());
    }
    match parents.top() {
        None => Ok(()),
        Some(p) => {
            parents.drop_top();
            parents.push(Parent {
                pre: p.pre,
                end: p.end,
                passed: true,
            })
        }
    }
}

/// The next row: a child of the innermost parent, or the root.
fn next_near(parents: &Frames<Parent>, at: u32, first: Option<u32>) -> Option<u32>
    ensures { result ≡ next_near parents.now at first }
{
    match parents.top() {
        None => match first {
            None => None,
            Some(_) => Some(at),
        },
        Some(_) => Some(at),
    }
}

impl<'a> Pass for Near<'a> {
    ghost wants = { λ p t v. any (is_near_row p.siblings t v) p.ahead.rows.now };

    ghost knows = { λ p t from. NearAhead p.siblings t p.ahead.rows.now (rest_of p.ahead) p.parents p.at from };

    fn next(&mut self, _from: u32, _total: u32) -> Option<u32> {
        next_near(&self.parents, self.at, self.ahead.first())
    }

    fn enter(&mut self, seen: Seen) -> Result<(), Want> {
        let is_context = self.ahead.pass(seen.pre);
        mark(is_context, self.siblings, &mut self.parents)?;
        self.parents.push(Parent {
            pre: seen.pre,
            end: seen.last + 1,
            passed: false,
        })?;
        self.at = leave(seen.pre + 1, self.ahead.first(), &mut self.parents);
        Ok(())
    }
}
