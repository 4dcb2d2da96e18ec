//! What the nodes of a context look for among the rows that were read.
ghost use Rattle.std.specs.Prelude.{◌≡◌, ◌≤◌, ◌<◌, ◌+◌, ◌-◌, ◌^◌, ◌++◌, [], Some, length, drop, if◌then◌else◌, OnOk, IfOk, IfSome};
ghost use Rattle.staircase.specs.Parts.{AreRows, In, IsSmall};
ghost use Rattle.staircase.specs.Made.{row_found, task_for, made_one, made};
ghost use Rattle.staircase.specs.Tasks.{AddsAll, AllOf, Goes};

use crate::hits::Hit;
use crate::kinds::Ctx;
use crate::part::place_of;
use crate::seen::Seen;
use crate::task::{Task, covers, do_task};
use std::alloc::Global;
use xq_base::{Axis, Want};

/// Row `pre`, where it was read.
pub(crate) fn own_row(seen: &[Seen], pre: u32) -> Option<Seen>
    requires { AreRows seen.now }
    ensures found { result ≡ row_found seen.now pre }
    ensures small { IfSome result IsSmall }
    ensures there { IfSome result (λ own. In own seen.now × (own.pre ≡ pre)) }
{
    let place = place_of(seen, pre);
    if place < seen.len() && seen[place].pre == pre {
        return Some(seen[place]);
    }
    None
}

/// What a node on this row looks for on an axis, where it looks for rows between two numbers.
fn task_for(axis: Axis, iter: u64, attr: u32, own: Seen) -> Option<Task>
    requires { IsSmall own }
    ensures { result ≡ task_for axis iter attr own }
{
    let since = if attr == 0 { own.last } else { own.pre };
    let (first, end, limit) = match axis {
        Axis::Following => (since + 1, u32::MAX, None),
        Axis::Preceding => (0, own.pre, Some(own.pre)),
        Axis::SelfNode if attr == 0 => (own.pre, own.pre + 1, None),
        Axis::Descendant if attr == 0 => (own.pre + 1, own.last + 1, None),
        Axis::DescendantOrSelf if attr == 0 => (own.pre, own.last + 1, None),
        _ => return None,
    };
    Some(Task {
        iter,
        first,
        end,
        limit,
    })
}

/// Appends what a node of a context looks for.
fn push_task(
    axis: Axis,
    counting: bool,
    seen: &[Seen],
    ctx: Ctx,
    tasks: &mut Vec<Task>,
) -> Result<(), Want>
    requires { AreRows seen.now }
    ensures { OnOk result (tasks.new.items ≡ tasks.old.items ++ made_one axis counting seen.now ctx) }
{
    let iter = if counting { 0 } else { ctx.iter };
    let own = match own_row(seen, ctx.pre) {
        None => return Ok(()),
        Some(own) => own,
    };
    let task = match task_for(axis, iter, ctx.attr, own) {
        None => return Ok(()),
        Some(task) => task,
    };
    if tasks.push(task).is_err() {
        return Err(Want);
    }
    Ok(())
}

/// What the nodes of a context look for.
fn make_tasks(
    axis: Axis,
    counting: bool,
    seen: &[Seen],
    context: &[Ctx],
    tasks: &mut Vec<Task>,
) -> Result<(), Want>
    requires { AreRows seen.now }
    ensures { OnOk result (tasks.new.items ≡ tasks.old.items ++ made axis counting seen.now context.now) }
{
    for ctx in context {
        push_task(axis, counting, seen, *ctx, tasks)?;
    }
    Ok(())
}

/// Gathers the hits of a task, unless the one before it covers it, and answers which one covers most.
fn go_on(
    seen: &[Seen],
    counting: bool,
    before: Option<Task>,
    task: Task,
    hits: &mut Vec<Hit>,
) -> Result<Option<Task>, Want>
    requires { AreRows seen.now }
    ensures { IfOk result (λ after. AllOf seen.now counting before hits.old.items → Goes seen.now counting before after task hits.old.items hits.new.items) }
{
    if let Some(before) = before {
        if covers(before, task) {
            return Ok(Some(before));
        }
    }
    do_task(seen, counting, task, hits)?;
    Ok(Some(task))
}

/// Gathers the hits of all tasks. Those of one iteration come one after the other, the ones that begin
/// first and reach farthest first, so that a task that another one covers mostly comes after it.
fn do_tasks(
    seen: &[Seen],
    counting: bool,
    tasks: &mut Vec<Task>,
    hits: &mut Vec<Hit>,
) -> Result<(), Want>
    requires { AreRows seen.now }
    ensures { OnOk result (AddsAll seen.now counting tasks.old.items hits.old.items hits.new.items) }
{
    tasks.sort_unstable_by(|a, b| a
        .iter
        .cmp(&b.iter)
        .then(a.first.cmp(&b.first))
        .then(b.end.cmp(&a.end)));
    let mut before = None;
    for task in tasks.as_slice() {
        before = go_on(seen, counting, before, *task, hits)?;
    }
    Ok(())
}

/// Gathers the hits of a context on the axes whose rows stand between two numbers.
pub(crate) fn gather_spans(
    alloc: Global,
    axis: Axis,
    counting: bool,
    seen: &[Seen],
    context: &[Ctx],
    hits: &mut Vec<Hit>,
) -> Result<(), Want>
    requires { AreRows seen.now }
    ensures { OnOk result (AddsAll seen.now counting (made axis counting seen.now context.now) hits.old.items hits.new.items) }
{
    let mut tasks = Vec::new(alloc);
    make_tasks(axis, counting, seen, context, &mut tasks)?;
    do_tasks(seen, counting, &mut tasks, hits)
}
