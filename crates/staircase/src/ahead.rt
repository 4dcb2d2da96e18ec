//! The rows of a context, and those of them that are still to come.
ghost use Rattle.std.specs.Prelude.{◌≡◌, ◌≤◌, length};
ghost use Rattle.staircase.specs.Ahead.{first_of, is_first, rest_of, without};

/// Rows, ascending, each once, and the place of the first one that is still to come.
#[derive(Clone, Copy)]
pub(crate) struct Ahead<'a> {
    pub rows: &'a [u32],
    pub next: usize,
}

impl<'a> Ahead<'a> {
    /// The first row that is still to come.
    pub fn first(&self) -> Option<u32>
        ensures { result ≡ first_of (rest_of self.now) }
    {
        if self.next < self.rows.len() {
            return Some(self.rows[self.next]);
        }
        None
    }

    /// Goes past row `at`, where it is the first one that is still to come, and answers whether it is.
    pub fn pass(&mut self, at: u32) -> bool
        ensures rows { self.new.rows.now ≡ self.old.rows.now }
        ensures found { result ≡ is_first at (rest_of self.old) }
        ensures rest { rest_of self.new ≡ without at (rest_of self.old) }
    {
        if self.next < self.rows.len() && self.rows[self.next] == at {
            self.next += 1;
            return true;
        }
        false
    }
}
