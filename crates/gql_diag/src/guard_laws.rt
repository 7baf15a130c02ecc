//! What guards leave behind, shown on callers. The steps are those that `increment` and `push` take.

ghost use Rattle.std.specs.Prelude.{◌≡◌};

use crate::depth::{DepthCounter, DepthGuard};
use crate::recursion::{RecursionGuard, RecursionStack};
use gql_ast_base::Name;

/// A step of a counter that is taken and whose guard is dropped leaves the outer guard as it was.
pub fn level_is_undone(outer: &mut DepthGuard<'_>)
    ensures { outer.new ≡ outer.old }
{
    if let Ok(inner) = outer.counter.step() {
        drop(inner);
    }
}

/// A name that is pushed and whose guard is dropped leaves the outer guard as it was.
pub fn name_is_undone(outer: &mut RecursionGuard<'_>, name: &Name)
    ensures { outer.new ≡ outer.old }
{
    if let Ok(inner) = outer.stack.step(name) {
        drop(inner);
    }
}

/// The first guard of a counter changes nothing, once the step that it gave is undone.
pub fn first_level_guard_changes_nothing(counter: &mut DepthCounter)
    ensures { counter.new ≡ counter.old }
{
    let mut first = counter.guard();
    level_is_undone(&mut first);
}

/// The first guard of a stack changes nothing, once the step that it gave is undone.
pub fn first_name_guard_changes_nothing(stack: &mut RecursionStack, name: &Name)
    ensures { stack.new ≡ stack.old }
{
    let mut first = stack.guard();
    name_is_undone(&mut first, name);
}
