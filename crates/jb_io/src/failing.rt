//! The calls of a stream in memory that are to fail.

ghost use Rattle.std.specs.Prelude.{◌≡◌, ◌≤◌, IsFalse, IsTrue};
ghost use Rattle.jb_io.specs.Memory.{fails_next, next_call};
ghost use Rattle.jb_io.specs.Stream.{HasFailed};

use jb_tree::Listed;

/// The calls of a stream in memory that are to fail, by their numbers from 1, and how many failed.
pub(crate) struct Failing {
    at: Listed<u64>,
    calls: u64,
    faults: u64,
}

impl Drop for Failing {
    fn drop(self) {
        let Failing {
            at: _,
            calls: _,
            faults: _,
        } = self;
    }
}

impl Failing {
    /// None was called yet, and those of `at` are to fail.
    pub(crate) fn new(at: Listed<u64>) -> Failing
        ensures { result ≡ record { at = at; calls = 0; faults = 0 } }
    {
        Failing {
            at,
            calls: 0,
            faults: 0,
        }
    }

    /// Counts a call, and as a fault too where it is one that is to fail: says whether it is.
    pub(crate) fn fails(&mut self) -> bool
        ensures exact { result ≡ fails_next self.old }
        ensures failed { IsTrue result → HasFailed self.old.faults self.new.faults }
        ensures steady { IsFalse result → self.new.faults ≡ self.old.faults }
        ensures later { self.old.faults ≤ self.new.faults }
        ensures call { self.new ≡ record self.old { calls = next_call self.old; faults = self.new.faults } }
    {
        self.calls = self.calls.saturating_add(1);
        let call = self.calls;
        let fails = self.at.as_slice().iter().any(|other| call == *other);
        if fails {
            self.count_fault();
        }
        fails
    }

    /// Counts a fault.
    pub(crate) fn count_fault(&mut self)
        ensures failed { HasFailed self.old.faults self.new.faults }
        ensures later { self.old.faults ≤ self.new.faults }
        ensures others { self.new ≡ record self.old { faults = self.new.faults } }
    {
        self.faults = self.faults.saturating_add(1);
    }
}
