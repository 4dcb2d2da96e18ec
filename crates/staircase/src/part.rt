//! The rows between two numbers, among the rows that were read.
ghost use Rattle.std.specs.Prelude.{◌≡◌, ◌≤◌, ◌<◌, length, slice_range};
ghost use Rattle.staircase.specs.Parts.{IsPlaceOf, IsPartOf};

use crate::seen::Seen;

/// The place of the first row at or after row `pre`.
pub(crate) fn place_of(seen: &[Seen], pre: u32) -> usize
    ensures within { result ≤ length seen.now }
    ensures place { IsPlaceOf seen.now pre result }
{
    let mut low = 0;
    let mut high = seen.len();
    while low < high {
        let mid = low + (high - low) / 2;
        if seen[mid].pre < pre {
            low = mid + 1;
        } else {
            high = mid;
        }
    }
    low
}

/// The rows from row `first` on and before row `end`.
pub(crate) fn part(seen: &[Seen], first: u32, end: u32) -> &[Seen]
    ensures { IsPartOf seen.now first end result.now }
{
    let from = place_of(seen, first);
    let to = place_of(seen, end);
    if from < to { &seen[from..to] } else { &[] }
}
