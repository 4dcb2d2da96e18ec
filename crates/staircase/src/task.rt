//! What one node of a context looks for among the rows that were read.
ghost use Rattle.std.specs.Prelude.{◌≡◌, ◌≤◌, ◌<◌, ◌+◌, ◌-◌, ◌^◌, [], ◌∷◌, ◌++◌, ◌&&◌, if◌then◌else◌, OnOk};
ghost use Rattle.staircase.specs.Parts.{IsRising};
ghost use Rattle.staircase.specs.Tasks.{Adds, hit_in, keeps, covers, lets};

use crate::hits::Hit;
use crate::part::part;
use crate::seen::Seen;
use xq_base::Want;

/// The rows from `first` on and before `end`, for one iteration: those whose subtree ends before `limit`,
/// where it is given.
#[derive(Clone, Copy, Debug, PartialEq, Eq)]
pub(crate) struct Task {
    pub iter: u64,
    pub first: u32,
    pub end: u32,
    pub limit: Option<u32>,
}

/// Whether a task keeps a row that is between its two numbers.
fn keeps(task: Task, seen: Seen) -> bool
    ensures { result ≡ keeps task seen }
{
    match task.limit {
        None => true,
        Some(limit) => seen.last < limit,
    }
}

/// Whether the first task looks for all rows that the second one looks for, in the same iteration.
pub(crate) fn covers(task: Task, other: Task) -> bool
    ensures { result ≡ covers task other }
{
    let limit = match task.limit {
        None => true,
        Some(limit) => match other.limit {
            None => false,
            Some(other) => other <= limit,
        },
    };
    task.iter == other.iter && task.first <= other.first && other.end <= task.end && limit
}

/// Gathers a hit for a row, where a task looks for it.
fn find(seen: Seen, counting: bool, task: Task, hits: &mut Vec<Hit>) -> Result<(), Want>
    ensures { OnOk result (hits.new.items ≡ hits.old.items ++ (if lets counting seen && keeps task seen then hit_in task.iter seen ∷ [] else [])) }
{
    let wanted = if counting { seen.node } else { seen.passes };
    if !(wanted && keeps(task, seen)) {
        return Ok(());
    }
    let hit = Hit {
        pre: seen.pre,
        attr: 0,
        iter: task.iter,
    };
    if hits.push(hit).is_err() {
        return Err(Want);
    }
    Ok(())
}

/// Gathers a hit for each row that a task looks for: those that are nodes, where they are only
/// counted, else those that pass the node test.
pub(crate) fn do_task(
    seen: &[Seen],
    counting: bool,
    task: Task,
    hits: &mut Vec<Hit>,
) -> Result<(), Want>
    ensures { OnOk result (IsRising seen.now → Adds seen.now counting task hits.old.items hits.new.items) }
{
    for s in part(seen, task.first, task.end) {
        find(*s, counting, task, hits)?;
    }
    Ok(())
}
