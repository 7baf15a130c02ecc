//! Source files by their numbers.

ghost use Rattle.std.specs.Prelude.{◌≡◌, ◌↔◌, [], true, length, take, position, IsTrue, IfOk, OnOk, OnErr};
ghost use Rattle.std.specs.Option.{option_copied};
ghost use Rattle.std.specs.Map.{lookup};
ghost use Rattle.gql_source.specs.File.{is_file, put, put_absent, joined, are_distinct};

use crate::{FileId, Memory, SourceFile};
use std::alloc::Global;
use std::marker::Model;

/// Source files with their numbers, in the order in which the numbers came. No two have one number.
///
/// A contract sees the list of the pairs of a number and a file.
#[derive(Debug)]
pub struct SourceMap {
    entries: Vec<(FileId, SourceFile)>,
}

impl Drop for SourceMap {
    fn drop(self) {
        let SourceMap { entries: _ } = self;
    }
}

impl Model for SourceMap {
    ghost use Rattle.std.specs.Prelude.{◌≡◌, true};
    ghost use Rattle.gql_source.specs.File.{Files, are_distinct};

    ghost Value = { Files };

    ghost view = { λ sources. sources.entries.items };

    ghost invariant = { λ sources. are_distinct sources.entries.items ≡ true };
}

impl SourceMap {
    /// No files.
    #[must_use]
    pub fn new(alloc: Global) -> SourceMap
        ensures { result ≡ [] }
    {
        SourceMap {
            entries: Vec::new(alloc),
        }
    }

    /// Puts the file under its number: in the place of the file that has the number, or else at the end.
    pub fn insert(&mut self, id: FileId, file: SourceFile) -> Result<(), Memory>
        ensures put { OnOk result (self.new ≡ put id file self.old) }
        ensures distinct { are_distinct self.new ≡ true }
        ensures unchanged { OnErr result (self.new ≡ self.old) }
    {
        match place_of(&self.entries, id) {
            Some(at) => self.entries[at] = (id, file),
            None => self.entries.push((id, file))?,
        }
        Ok(())
    }

    /// The file that has the number.
    #[must_use]
    pub fn get(&self, id: FileId) -> Option<&SourceFile>
        ensures { option_copied result ≡ lookup (is_file id) self.now }
    {
        let at = place_of(&self.entries, id)?;
        Some(&self.entries[at].1)
    }

    /// How many files there are.
    #[must_use]
    pub fn len(&self) -> usize
        ensures { result ≡ length self.now }
    {
        self.entries.len()
    }

    /// Whether there are no files.
    #[must_use]
    pub fn is_empty(&self) -> bool
        ensures { IsTrue result ↔ (self.now ≡ []) }
    {
        self.entries.is_empty()
    }

    /// Keeps the first `count` files.
    pub fn truncate(&mut self, count: usize)
        ensures { self.new ≡ take count self.old }
    {
        self.entries.truncate(count);
    }

    /// Puts each file of `others`, in turn, behind the others, unless a file has its number. Where memory has run
    /// out it leaves the files as they were.
    pub fn merge(&mut self, others: SourceMap) -> Result<(), Memory>
        ensures joined { OnOk result (self.new ≡ joined self.old others) }
        ensures front { take (length self.old) self.new ≡ self.old }
        ensures unchanged { OnErr result (self.new ≡ self.old) }
    {
        let count = self.len();
        let SourceMap { entries } = others;
        for (id, file) in entries {
            match self.insert_absent(id, file) {
                Ok(()) => {}
                Err(refused) => {
                    self.truncate(count);
                    return Err(refused);
                }
            }
        }
        Ok(())
    }

    /// Puts the file under its number, unless a file has that.
    fn insert_absent(&mut self, id: FileId, file: SourceFile) -> Result<(), Memory>
        ensures put { OnOk result (self.new ≡ put_absent id file self.old) }
        ensures unchanged { OnErr result (self.new ≡ self.old) }
    {
        if self.get(id).is_some() {
            return Ok(());
        }
        self.insert(id, file)
    }

    /// A copy of all files.
    pub fn copy(&self, alloc: Global) -> Result<SourceMap, Memory>
        ensures { IfOk result (λ sources. sources ≡ self.now) }
    {
        let mut entries = Vec::new(alloc);
        for (id, file) in &self.entries {
            entries.push((*id, file.copy(alloc)?))?;
        }
        Ok(SourceMap { entries })
    }
}

/// The place of the file that has the number.
fn place_of(entries: &[(FileId, SourceFile)], id: FileId) -> Option<usize>
    ensures { result ≡ position (λ entry. is_file id entry.0) entries.now }
{
    entries.iter().position(|entry| entry.0 == id)
}
