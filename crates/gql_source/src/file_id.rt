//! The numbers of files.

ghost use Rattle.std.specs.Prelude.{◌≡◌, ◌+◌, ◌<◌, ◌≤◌, ◌^◌, ◌↔◌, IsTrue, IsNone, IfSome, MatchOption};

use std::marker::Model;

/// The number of a source file.
#[derive(Clone, Copy, Debug, PartialEq, Eq, PartialOrd, Ord, Hash)]
pub struct FileId {
    pub number: u64,
}

impl FileId {
    /// The file that built-in definitions stand in.
    pub const BUILT_IN: FileId = FileId { number: 1 };

    /// The file of what no file has.
    pub const NONE: FileId = FileId { number: 2 };
}

/// Hands out the numbers of files, one after the other.
///
/// A contract sees the next number, from 3 to 2^63. At 2^63 there are no numbers left.
#[derive(Debug, Drop)]
pub struct FileIds {
    next: u64,
}

impl Model for FileIds {
    ghost use Rattle.std.specs.Prelude.{ℕ, ◌≤◌, ◌^◌};

    ghost Value = { ℕ };

    ghost view = { λ ids. ids.next };

    ghost invariant = { λ ids. (3 ≤ ids.next) × (ids.next ≤ 2 ^ 63) };
}

impl Default for FileIds {
    ghost is_default = { λ ids. ids ≡ 3 };

    /// Numbers from 3 on, as [`FileIds::new`] gives them.
    fn default() -> FileIds {
        FileIds::new()
    }
}

impl FileIds {
    /// The first number that is handed out: those below it are [`FileId::BUILT_IN`] and [`FileId::NONE`].
    const FIRST: u64 = 3;

    /// The number that is never handed out, 2^63.
    const END: u64 = 0x8000_0000_0000_0000;

    /// Numbers from 3 on.
    #[must_use]
    pub fn new() -> FileIds
        ensures { result ≡ 3 }
    {
        FileIds { next: Self::FIRST }
    }

    /// Numbers from `next` on, which is at most 2^63.
    #[must_use]
    pub fn starting_at(next: u64) -> FileIds
        requires low { 3 ≤ next }
        requires high { next ≤ 2 ^ 63 }
        ensures { result ≡ next }
    {
        FileIds { next }
    }

    /// The next number, or `None` where the numbers are used up.
    pub fn next(&mut self) -> Option<FileId>
        ensures end { IsNone result ↔ (self.old ≡ 2 ^ 63) }
        ensures given { IfSome result (λ id. id.number ≡ self.old) }
        ensures after { MatchOption result (self.new ≡ self.old) (λ _. self.new ≡ self.old + 1) }
    {
        if self.next == Self::END {
            return None;
        }
        let number = self.next;
        self.next += 1;
        Some(FileId { number })
    }

    /// Whether the numbers are used up.
    #[must_use]
    pub fn at_end(&self) -> bool
        ensures { IsTrue result ↔ (self.now ≡ 2 ^ 63) }
    {
        self.next == Self::END
    }
}
