//! Steps and their undoing.
//!
//! Whoever takes a step is handed the guard of the step before, so that no function holds more than one.

use gql_ast::Name;
use gql_diag::{DepthCounter, DepthGuard, RecursionGuard, RecursionLimitError, RecursionStack};
use std::alloc::Global;
use std::test::Fail;

/// Whether one level can be opened, and none below it.
fn opens_one(outer: &mut DepthGuard<'_>) -> bool {
    match outer.increment() {
        Ok(mut inner) => inner.increment().err() == Some(RecursionLimitError),
        Err(_) => false,
    }
}

/// Whether two levels can be opened, none below them, and the second again once it was given back.
fn opens_two(outer: &mut DepthGuard<'_>) -> bool {
    match outer.increment() {
        Ok(mut inner) => opens_one(&mut inner) && inner.increment().is_ok(),
        Err(_) => false,
    }
}

#[test]
fn levels_are_counted_and_given_back(rt: HostRuntime) {
    let mut counter = DepthCounter::new().with_limit(2);
    let mut outer = counter.guard();
    let is_counted = opens_two(&mut outer);
    let is_given_back = opens_two(&mut outer);
    assert_eq!(rt; (is_counted, is_given_back), (true, true));
}

fn name(alloc: Global, text: &str) -> Result<Name, Fail> {
    Ok(Name::new(alloc, text).ok().ok_or("no name")?)
}

/// Whether there is no name, and this one comes first once it is pushed.
fn becomes_first(names: &mut RecursionGuard<'_>, name: &Name) -> bool {
    let is_empty = names.first().is_none();
    match names.push(name) {
        Ok(pushed) => is_empty && pushed.first() == Some(name),
        Err(_) => false,
    }
}

#[test]
fn there_are_thirty_two_levels_unless_set(rt: HostRuntime) -> Result<(), Fail> {
    let name = name(rt.alloc(), "A")?;
    let mut counter = DepthCounter::default();
    let is_opened = counter.guard().increment().is_ok();
    let mut stack = RecursionStack::new(rt.alloc());
    let is_pushed = becomes_first(&mut stack.guard(), &name);
    assert_eq!(rt; (is_opened, is_pushed), (true, true));
    Ok(())
}

/// Whether the root and the other name are on the stack once the other is pushed, the root first, and no third fits.
fn holds_both(outer: &mut RecursionGuard<'_>, root: &Name, other: &Name) -> bool {
    match outer.push(other) {
        Ok(mut inner) => {
            let has_both = inner.contains(root) && inner.contains(other);
            let is_root_first = inner.first() == Some(root);
            has_both && is_root_first && inner.push(other).is_err()
        }
        Err(_) => false,
    }
}

/// Whether both names are on the stack once the other is pushed, and the root alone once it was given back.
fn stacks(outer: &mut RecursionGuard<'_>, root: &Name, other: &Name) -> bool {
    holds_both(outer, root, other) && outer.contains(root) && !outer.contains(other)
}

/// The same of a stack that begins with the root and has room for one more name.
fn stacks_on(alloc: Global, root: Name, again: &Name, other: &Name) -> Result<bool, Fail> {
    let mut stack = RecursionStack::with_root(alloc, root)?.with_limit(2);
    Ok(stacks(&mut stack.guard(), again, other))
}

/// The same of the root `A` and the other name `B`.
fn stacks_names(alloc: Global) -> Result<bool, Fail> {
    let again = name(alloc, "A")?;
    let other = name(alloc, "B")?;
    let root = name(alloc, "A")?;
    stacks_on(alloc, root, &again, &other)
}

#[test]
fn names_are_stacked_and_given_back(rt: HostRuntime) -> Result<(), Fail> {
    let is_given_back = stacks_names(rt.alloc())?;
    assert!(rt; is_given_back);
    Ok(())
}
