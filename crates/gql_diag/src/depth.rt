//! A count of levels with a limit.

ghost use Rattle.std.specs.Prelude.{◌≡◌, ◌≤◌, ◌<◌, ◌↔◌, None, IfOk, OnErr, IsErr};
ghost use Rattle.gql_diag.specs.bridge.Depth.{undone};

use std::marker::Model;

/// How many levels a counter and a stack open unless it is set.
pub(crate) const DEFAULT_LIMIT: usize = 32;

/// A level was wanted at the limit or past it.
#[derive(Clone, Copy, Debug, PartialEq, Eq)]
pub struct RecursionLimitError;

/// A count of open levels, with a limit.
///
/// A contract sees a record with `depth` and `limit`.
#[derive(Debug, Drop)]
pub struct DepthCounter {
    depth: usize,
    limit: usize,
}

impl Model for DepthCounter {
    ghost use Rattle.gql_diag.specs.Depth.{Depth};

    ghost Value = { Depth };

    ghost view = { λ c. record { depth = c.depth; limit = c.limit } };
}

impl Default for DepthCounter {
    ghost is_default = { λ c. c ≡ record { depth = 0; limit = 32 } };

    fn default() -> DepthCounter {
        DepthCounter::new()
    }
}

impl DepthCounter {
    /// No open levels, and a limit of 32.
    #[must_use]
    pub fn new() -> DepthCounter
        ensures { result ≡ record { depth = 0; limit = 32 } }
    {
        DepthCounter {
            depth: 0,
            limit: DEFAULT_LIMIT,
        }
    }

    /// The same with another limit.
    #[must_use]
    pub fn with_limit(self, limit: usize) -> DepthCounter
        ensures { result ≡ record self { limit = limit } }
    {
        let DepthCounter { depth, limit: _ } = self;
        DepthCounter { depth, limit }
    }
}

impl DepthCounter {
    ghost use Rattle.gql_diag.specs.bridge.Depth.{deeper};

    /// Opens a level, and gives how many were open before.
    fn open_level(&mut self) -> Result<usize, RecursionLimitError>
        ensures refused { IsErr result ↔ (self.old.limit ≤ self.old.depth) }
        ensures before { IfOk result (λ depth. (depth ≡ self.old.depth) × (self.new ≡ deeper self.old)) }
        ensures unchanged { OnErr result (self.new ≡ self.old) }
    {
        let depth = self.depth;
        if self.limit <= depth {
            return Err(RecursionLimitError);
        }
        self.depth = depth + 1;
        Ok(depth)
    }
}

/// A guard of the levels of a counter. Dropping it undoes the step that gave it, if a step did.
pub struct DepthGuard<'a> {
    pub(crate) counter: &'a mut DepthCounter,
    undo: Option<usize>,
}

impl DepthCounter {
    ghost use Rattle.std.specs.Borrow.{sem};
    ghost use Rattle.gql_diag.specs.bridge.DepthGuarding.{counted, undoes, IsStep, LeavesCount};

    /// Opens a level, and gives the guard that undoes that.
    pub(crate) fn step(&mut self) -> Result<DepthGuard<'_>, RecursionLimitError>
        ensures* leaves { sem 𝓛 (LeavesCount self.entry result) }
        ensures same { IfOk result (λ guard. guard.counter.ghost_name ≡ self.entry.ghost_name) }
        ensures refused { IsErr result ↔ (self.old.limit ≤ self.old.depth) }
        ensures step { IfOk result (IsStep self.old) }
    {
        let depth = self.open_level()?;
        Ok(DepthGuard {
            counter: self,
            undo: Some(depth),
        })
    }

    /// A guard of the levels that are open. Dropping it changes nothing.
    pub fn guard(&mut self) -> DepthGuard<'_>
        ensures same { result.counter.ghost_name ≡ self.entry.ghost_name }
        ensures counted { counted result ≡ self.old }
        ensures first { undoes result ≡ None }
    {
        DepthGuard {
            counter: self,
            undo: None,
        }
    }
}

impl<'a> DepthGuard<'a> {
    ghost use Rattle.gql_diag.specs.bridge.DepthGuarding.{counted, IsStep};

    /// Opens a level. `Err` exactly where the counter stands at its limit or past it, which is left so.
    pub fn increment(&mut self) -> Result<DepthGuard<'_>, RecursionLimitError>
        ensures refused { IsErr result ↔ ((counted self.old).limit ≤ (counted self.old).depth) }
        ensures step { IfOk result (IsStep (counted self.old)) }
    {
        self.counter.step()
    }
}

impl Drop for DepthGuard<'_> {
    fn drop(self)
        ensures { self.exit.0.now ≡ undone self.entry.undo self.entry.counter.now }
    {
        let DepthGuard { counter, undo } = self;
        if let Some(depth) = undo {
            counter.depth = depth;
        }
    }
}
