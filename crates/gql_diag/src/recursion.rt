//! A stack of names with a limit.

ghost use Rattle.std.specs.Prelude.{◌≡◌, ◌≤◌, ◌<◌, ◌↔◌, [], ◌∷◌, None, Some, Err, length, slice_get, IfOk, OnOk, OnErr};
ghost use Rattle.std.specs.Option.{option_copied};
ghost use Rattle.gql_diag.specs.bridge.Stack.{popped, with_name};

use crate::depth::{DEFAULT_LIMIT, RecursionLimitError};
use gql_ast_base::{Copying, Name};
use jb_text::{Memory, Refused};
use std::alloc::Global;
use std::marker::Model;

/// The names that a recursion is in, with a limit.
///
/// A contract sees a record with `names`, the first one first, and `limit`.
#[derive(Drop)]
pub struct RecursionStack {
    names: Vec<Name>,
    limit: usize,
}

impl Model for RecursionStack {
    ghost use Rattle.gql_diag.specs.Stack.{Stack};

    ghost Value = { Stack };

    ghost view = { λ s. record { names = s.names.items; limit = s.limit } };
}

/// A guard of the names of a stack. Dropping it undoes the step that gave it, if a step did.
pub struct RecursionGuard<'a> {
    pub(crate) stack: &'a mut RecursionStack,
    undo: Option<usize>,
}

impl RecursionStack {
    ghost use Rattle.std.specs.Borrow.{sem};
    ghost use Rattle.gql_diag.specs.bridge.StackGuarding.{stacked, pops, IsLimited, IsPushed, LeavesStack};
    ghost use Rattle.gql_diag.specs.bridge.Stack.{has_name};

    /// No names, and a limit of 32.
    #[must_use]
    pub fn new(alloc: Global) -> RecursionStack
        ensures { result ≡ record { names = []; limit = 32 } }
    {
        RecursionStack {
            names: Vec::new(alloc),
            limit: DEFAULT_LIMIT,
        }
    }

    /// The root alone, which counts as a name, and a limit of 32. `Err` only when out of memory.
    pub fn with_root(alloc: Global, root: Name) -> Result<RecursionStack, Memory>
        ensures { IfOk result (λ stack. stack ≡ record { names = root ∷ []; limit = 32 }) }
    {
        let mut names = Vec::new(alloc);
        names.push(root)?;
        Ok(RecursionStack {
            names,
            limit: DEFAULT_LIMIT,
        })
    }

    /// The same with another limit.
    #[must_use]
    pub fn with_limit(self, limit: usize) -> RecursionStack
        ensures { result ≡ record self { limit = limit } }
    {
        let RecursionStack { names, limit: _ } = self;
        RecursionStack { names, limit }
    }

    /// A guard of the names that are there. Dropping it changes nothing.
    pub fn guard(&mut self) -> RecursionGuard<'_>
        ensures same { result.stack.ghost_name ≡ self.entry.ghost_name }
        ensures stacked { stacked result ≡ self.old }
        ensures first { pops result ≡ None }
    {
        RecursionGuard {
            stack: self,
            undo: None,
        }
    }

    /// Enters a name, and gives the guard that undoes that.
    pub(crate) fn step(
        &mut self,
        name: &Name,
    ) -> Result<RecursionGuard<'_>, Refused<RecursionLimitError>>
        ensures* leaves { sem 𝓛 (LeavesStack self.entry result) }
        ensures same { IfOk result (λ guard. guard.stack.ghost_name ≡ self.entry.ghost_name) }
        ensures refused { IsLimited result ↔ (self.old.limit ≤ length self.old.names) }
        ensures pushed { IfOk result (IsPushed self.old name.now) }
    {
        let count = self.enter(name)?;
        Ok(RecursionGuard {
            stack: self,
            undo: Some(count),
        })
    }

    /// Adds a name at the end, and gives how many there were before.
    fn enter(&mut self, name: &Name) -> Result<usize, Refused<RecursionLimitError>>
        ensures refused { IsLimited result ↔ (self.old.limit ≤ length self.old.names) }
        ensures entered { IfOk result (λ count. (count ≡ length self.old.names) × (self.new ≡ with_name name.now self.old)) }
        ensures unchanged { OnErr result (self.new ≡ self.old) }
    {
        let count = self.names.len();
        if self.limit <= count {
            return Err(Refused::Fault(RecursionLimitError));
        }
        self.add(name)?;
        Ok(count)
    }

    fn add(&mut self, name: &Name) -> Result<(), Memory>
        ensures added { OnOk result (self.new ≡ with_name name.now self.old) }
        ensures unchanged { OnErr result (self.new ≡ self.old) }
    {
        let alloc = *self.names.allocator();
        self.names.push(name.copy(alloc)?)?;
        Ok(())
    }

    fn contains(&self, name: &Name) -> bool
        ensures { result ≡ has_name name.now self.now }
    {
        self.names.contains(name)
    }

    fn first(&self) -> Option<&Name>
        ensures { option_copied result ≡ slice_get self.now.names 0 }
    {
        self.names.first()
    }
}

impl<'a> RecursionGuard<'a> {
    ghost use Rattle.gql_diag.specs.bridge.StackGuarding.{stacked, IsPushed, IsLimited};
    ghost use Rattle.gql_diag.specs.bridge.Stack.{has_name};

    /// Enters a name.
    ///
    /// # Errors
    ///
    /// - [`RecursionLimitError`] exactly where the stack stands at its limit or past it, which is left so.
    /// - [`Refused::Memory`] when out of memory; the stack is as it was.
    pub fn push(&mut self, name: &Name) -> Result<RecursionGuard<'_>, Refused<RecursionLimitError>>
        ensures refused { IsLimited result ↔ ((stacked self.old).limit ≤ length (stacked self.old).names) }
        ensures pushed { IfOk result (IsPushed (stacked self.old) name.now) }
    {
        self.stack.step(name)
    }

    /// Whether the name is in the stack.
    #[must_use]
    pub fn contains(&self, name: &Name) -> bool
        ensures { result ≡ has_name name.now (stacked self.now) }
    {
        self.stack.contains(name)
    }

    /// The first name, such as the root.
    #[must_use]
    pub fn first(&self) -> Option<&Name>
        ensures { option_copied result ≡ slice_get (stacked self.now).names 0 }
    {
        self.stack.first()
    }
}

impl Drop for RecursionGuard<'_> {
    fn drop(self)
        ensures { self.exit.0.now ≡ popped self.entry.undo self.entry.stack.now }
    {
        let RecursionGuard { stack, undo } = self;
        if let Some(count) = undo {
            stack.names.truncate(count);
        }
    }
}
