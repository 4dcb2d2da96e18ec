//! A shelf in memory, some of whose calls fail.
ghost use Rattle.std.specs.Prelude.{◌≡◌, ◌≤◌, ◌<◌, [], ◌∷◌, ◌++◌, Some, length, map, string_bytes, OnOk, OnErr, IfOk};
ghost use Rattle.io_edge.specs.Causes.{HasCause};
ghost use Rattle.io_edge.specs.Listed.{file_named, left_open};
ghost use Rattle.io_edge.specs.Memory.{Goes, Starts, shelf_course};
ghost use Rattle.io_edge.specs.Shelves.{Asks, Opens, Reads};

use crate::course::Course;
use crate::edge::{Failed, Shelf};
use crate::find::{look_up, read_next};
use std::alloc::{AllocError, Global};

/// Files in memory, some of whose calls fail.
#[derive(Drop)]
pub struct MemShelf {
    files: Vec<(String, Vec<u8>)>,
    course: Course,
    asked: Vec<String>,
    current: Option<usize>,
    at: usize,
    faults: u64,
}

/// Appends a name to those asked for, which stay as they are for want of memory.
fn keep(asked: &mut Vec<String>, name: &str) -> Result<(), AllocError>
    ensures ok { OnOk result (map string_bytes asked.new.items ≡ map string_bytes asked.old.items ++ name.now ∷ []) }
    ensures err { OnErr result (asked.new.items ≡ asked.old.items) }
{
    let text = String::from_str(*asked.allocator(), name)?;
    asked.push(text)?;
    Ok(())
}

impl MemShelf {
    pub fn new(
        alloc: Global,
        files: Vec<(String, Vec<u8>)>,
        piece: usize,
        failing: Vec<u64>,
    ) -> MemShelf
        requires { 1 ≤ piece }
        ensures files { ⟦<MemShelf as Shelf>⟧.files result ≡ Some (file_named files.items) }
        ensures asked { ⟦<MemShelf as Shelf>⟧.asked result ≡ Some [] }
        ensures faults { ⟦<MemShelf as Shelf>⟧.faults result ≡ 0 }
        ensures course { Starts (shelf_course result) piece failing.items }
    {
        MemShelf {
            files,
            course: Course::new(piece, failing),
            asked: Vec::new(alloc),
            current: None,
            at: 0,
            faults: 0,
        }
    }

    /// The names asked for so far.
    pub fn asked(&self) -> &[String]
        ensures { ⟦<MemShelf as Shelf>⟧.asked self.now ≡ Some (map string_bytes result.now) }
    {
        self.asked.as_slice()
    }
}

impl Shelf for MemShelf {
    ghost files = { λ s. Some (file_named s.files.items) };

    ghost left = { λ s. left_open s.files.items s.current s.at };

    ghost asked = { λ s. Some (map string_bytes s.asked.items) };

    ghost faults = { λ s. s.faults };

    fn open(&mut self, name: &str) -> Result<(), Failed>
        ensures files { ⟦<MemShelf as Shelf>⟧.files self.new ≡ ⟦<MemShelf as Shelf>⟧.files self.old }
        ensures left { Opens (⟦<MemShelf as Shelf>⟧.files self.old) (⟦<MemShelf as Shelf>⟧.left self.new) name.now result }
        ensures asked { Asks (⟦<MemShelf as Shelf>⟧.asked self.old) (⟦<MemShelf as Shelf>⟧.asked self.new) name.now result }
        ensures cause { HasCause (⟦<MemShelf as Shelf>⟧.faults self.old) (⟦<MemShelf as Shelf>⟧.faults self.new) result }
        ensures course { Goes (shelf_course self.old) (shelf_course self.new) result }
    {
        let fails = self.course.next_fails();
        self.current = None;
        self.at = 0;
        if !fails && keep(&mut self.asked, name).is_ok() {
            if let Some(place) = look_up(self.files.as_slice(), name) {
                self.current = Some(place);
                return Ok(());
            }
        }
        self.faults = self.faults.saturating_add(1);
        Err(Failed)
    }

    fn read(&mut self, buf: &mut [u8]) -> Result<usize, Failed>
        requires { 0 < length buf.old }
        ensures files { ⟦<MemShelf as Shelf>⟧.files self.new ≡ ⟦<MemShelf as Shelf>⟧.files self.old }
        ensures asked { ⟦<MemShelf as Shelf>⟧.asked self.new ≡ ⟦<MemShelf as Shelf>⟧.asked self.old }
        ensures bytes { Reads (⟦<MemShelf as Shelf>⟧.left self.old) (⟦<MemShelf as Shelf>⟧.left self.new) result buf.new }
        ensures cause { HasCause (⟦<MemShelf as Shelf>⟧.faults self.old) (⟦<MemShelf as Shelf>⟧.faults self.new) result }
        ensures course { Goes (shelf_course self.old) (shelf_course self.new) result }
        ensures piece { IfOk result (λ count. count ≤ (shelf_course self.old).piece) }
    {
        let fails = self.course.next_fails();
        if let Some(current) = self.current {
            if !fails {
                let files = self.files.as_slice();
                let taken = read_next(files, current, &mut self.at, buf, self.course.piece);
                return Ok(taken);
            }
        }
        self.current = None;
        self.faults = self.faults.saturating_add(1);
        Err(Failed)
    }
}
