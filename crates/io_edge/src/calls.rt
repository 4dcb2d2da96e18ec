//! The next call on an object in memory.
ghost use Rattle.std.specs.Prelude.{◌↔◌, IsTrue};
ghost use Rattle.io_edge.specs.Memory.{IsNextOf, NextFails};

use crate::course::Course;

impl Course {
    /// Counts one more call, and answers whether it fails.
    pub fn next_fails(&mut self) -> bool
        ensures counted { IsNextOf self.old self.new }
        ensures fails { IsTrue result ↔ NextFails self.old }
    {
        self.calls = self.calls.saturating_add(1);
        self.failing.contains(&self.calls)
    }
}
