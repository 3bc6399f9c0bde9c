//! What a program is to do in a world in memory, and what a run of it leaves.
use crate::fault::Fault;
use crate::outlet::MemoryOutlet;
use crate::world::MemoryWorld;
use dsr_cells::NoMemory;
use std::alloc::Global;

/// What a program is to do.
#[derive(Clone, Copy)]
pub struct Task {
    /// Its name, with which each of its lines on standard error begins.
    pub program: &'static str,
    /// The words of its command line, without its name.
    pub words: &'static [&'static str],
    /// What is on standard input.
    pub input: &'static str,
    /// The files that are there before, and their bytes.
    pub files: &'static [(&'static str, &'static str)],
    /// What is to be written, in two parts.
    pub text: [&'static str; 2],
}

/// What a run of the program leaves.
#[derive(Drop)]
pub struct Ended {
    /// The files and their bytes.
    pub world: MemoryWorld,
    /// What is on standard output.
    pub out: MemoryOutlet,
    /// What is on standard error.
    pub told: MemoryOutlet,
    /// The exit status.
    pub status: u8,
}

impl Task {
    /// Whether this is one of the words.
    pub fn has(&self, word: &str) -> bool {
        self.words.contains(&word)
    }

    /// The name of the output; empty for standard output.
    pub fn output(&self) -> &'static str {
        let mut is_next = false;
        for word in self.words {
            if is_next {
                return word;
            }
            is_next = *word == "--output";
        }
        ""
    }

    /// The world before the run, in which this call fails.
    ///
    /// # Errors
    ///
    /// Out of memory.
    pub fn world(&self, alloc: Global, fault: Fault) -> Result<MemoryWorld, NoMemory> {
        let mut world = MemoryWorld::new(alloc, fault);
        for word in self.words {
            world.add_word(word)?;
        }
        world.set_input(self.input.as_bytes())?;
        for (name, bytes) in self.files {
            world.add_file(name, bytes.as_bytes())?;
        }
        Ok(world)
    }
}

impl Ended {
    /// Whether the files are those that were there before, as they were, and no new one waits.
    pub fn is_kept(&self, task: &Task) -> bool {
        self.world.parts() == 0 && self.world.has_only(task.files)
    }

    /// What was written to the output of a task, if nothing is on standard output beside it and no new file waits.
    pub fn text(&self, task: &Task) -> Option<&[u8]> {
        let output = task.output();
        if output.is_empty() {
            if self.is_kept(task) && self.out.is_flushed() {
                return Some(self.out.bytes());
            }
            return None;
        }
        if self.out.bytes().len() > 0 || self.world.parts() > 0 {
            return None;
        }
        match self.world.file(output) {
            Some(file) => Some(file.bytes.as_slice()),
            None => None,
        }
    }

    /// Whether the whole text was written, and nothing to standard error.
    pub fn is_whole(&self, task: &Task) -> bool {
        match self.text(task) {
            Some(text) => {
                self.status == 0 && self.told.bytes().len() == 0 && is_joined(text, &task.text)
            }
            None => false,
        }
    }

    /// Whether nothing was done but to write a line to standard error, of the program's name, this text and this name.
    pub fn is_refused<'t>(&self, task: &Task, status: u8, text: &'t str, name: &'t str) -> bool {
        let program: &'t str = task.program;
        self.status == status
            && is_joined(self.told.bytes(), &[program, text, name, "\n"])
            && self.out.bytes().len() == 0
            && self.is_kept(task)
    }

    /// Whether a first part of the text was written, a line says after how many bytes, and the rest is as it was.
    pub fn is_cut(&self, task: &Task) -> bool {
        let line = self.told.bytes();
        self.status == 3
            && line.starts_with(task.program.as_bytes())
            && line[task.program.len()..].starts_with(b": write failed after ")
            && line.ends_with(b" bytes\n")
            && begins(self.out.bytes(), &task.text)
            && self.is_kept(task)
    }

    /// Whether the run ended as it has to where this call fails, which is no read.
    pub fn is_due(&self, task: &Task, fault: Fault) -> bool {
        match fault {
            Fault::Nothing => self.is_whole(task),
            Fault::Words | Fault::Open(_) | Fault::Link => {
                self.is_refused(task, 3, ": out of memory", "")
            }
            Fault::Random | Fault::Create => {
                self.is_refused(task, 2, ": cannot create ", task.output())
            }
            Fault::Sync | Fault::Rename => {
                self.is_refused(task, 3, ": cannot replace ", task.output())
            }
            Fault::Write(_) | Fault::Flush => self.is_cut(task),
            Fault::Read(..) => false,
        }
    }
}

/// Whether a text is these, one after another.
fn is_joined(text: &[u8], parts: &[&str]) -> bool {
    let mut rest = text;
    for part in parts {
        let part = part.as_bytes();
        if rest.len() < part.len() || !rest.starts_with(part) {
            return false;
        }
        rest = &rest[part.len()..];
    }
    rest.is_empty()
}

/// Whether a text begins these, one after another.
fn begins(text: &[u8], parts: &[&str]) -> bool {
    let mut rest = text;
    for part in parts {
        let part = part.as_bytes();
        if rest.len() <= part.len() {
            return part.starts_with(rest);
        }
        if !rest.starts_with(part) {
            return false;
        }
        rest = &rest[part.len()..];
    }
    false
}
