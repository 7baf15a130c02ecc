//! What has the name of one that came before it in a list.

ghost use Rattle.std.specs.Prelude.{◌≡◌, ◌++◌, Bool, true, Option, OnOk};
ghost use Rattle.gql_source.specs.Span.{Span};
ghost use Rattle.gql_ast_base.specs.Names as names;
ghost use Rattle.gql_rules_values.specs.Seconds as spec;

use crate::fault::list_fault;
use gql_ast::InputValueDefinition;
use gql_ast_base::{Argument, Directive, Name, Value};
use gql_diag_messages::{DiagnosticData, Rule};
use gql_source::SourceSpan;
use jb_map::Pairs;
use jb_text::{ByteString, Listed, Memory};
use std::alloc::Global;

/// What has a name and a place.
pub trait Placed {
    ghost name_of: { Self → names.Named };

    ghost place_of: { Self → Option Span };

    /// Its name.
    fn placed_name(&self) -> &Name
        ensures { result.now ≡ name_of self.now };

    /// Its place.
    fn place(&self) -> Option<SourceSpan>
        ensures { result ≡ place_of self.now };
}

/// Which names may not come twice.
pub trait Counted {
    ghost counts: { Self → names.Named → Bool };

    /// Whether a second one of the name is a fault.
    fn counts(&self, name: &Name) -> bool
        ensures { result ≡ counts self.now name.now };
}

/// No name may come twice.
#[derive(Clone, Copy)]
pub struct EachCounts;

impl Counted for EachCounts {
    ghost use Rattle.std.specs.Prelude.{true};

    ghost counts = { λ _ name. true };

    fn counts(&self, _name: &Name) -> bool {
        true
    }
}

impl Placed for Argument {
    ghost name_of = { λ argument. argument.name };

    ghost place_of = { λ argument. argument.location };

    fn placed_name(&self) -> &Name {
        &self.name
    }

    fn place(&self) -> Option<SourceSpan> {
        self.location
    }
}

impl Placed for Directive {
    ghost name_of = { λ directive. directive.name };

    ghost place_of = { λ directive. directive.location };

    fn placed_name(&self) -> &Name {
        &self.name
    }

    fn place(&self) -> Option<SourceSpan> {
        self.location
    }
}

impl Placed for InputValueDefinition {
    ghost name_of = { λ value. value.name };

    ghost place_of = { λ value. value.location };

    fn placed_name(&self) -> &Name {
        &self.name
    }

    fn place(&self) -> Option<SourceSpan> {
        self.location
    }
}

impl Placed for (Name, Value) {
    ghost name_of = { λ member. member.0 };

    ghost place_of = { λ member. member.0.location };

    fn placed_name(&self) -> &Name {
        &self.0
    }

    fn place(&self) -> Option<SourceSpan> {
        self.0.location()
    }
}

/// Lists each item that has the name of one before it, with the first one's place, if the name counts. It takes time that
/// grows with the number of items. `Err` only when out of memory.
pub(crate) fn list_seconds<T: Placed, C: Counted>(
    alloc: Global,
    rule: Rule,
    counted: &C,
    items: &[T],
    faults: &mut Listed<DiagnosticData>,
) -> Result<(), Memory>
    ensures { OnOk result (faults.new ≡ faults.old ++ spec.seconds T.name_of T.place_of (C.counts counted.now) rule items.now) }
{
    if items.len() < 2 {
        return Ok(());
    }
    let mut seen = Pairs::new(alloc);
    for item in items {
        meet(alloc, rule, counted, item, &mut seen, faults)?;
    }
    Ok(())
}

/// Lists an item, if its name was seen and counts, and notes the place of the first of the name.
fn meet<T: Placed, C: Counted>(
    alloc: Global,
    rule: Rule,
    counted: &C,
    item: &T,
    seen: &mut Pairs<Option<SourceSpan>>,
    faults: &mut Listed<DiagnosticData>,
) -> Result<(), Memory>
    ensures seen { OnOk result (seen.new ≡ spec.with_seen T.name_of T.place_of seen.old item.now) }
    ensures faults { OnOk result (faults.new ≡ faults.old ++ spec.second_here T.name_of T.place_of (C.counts counted.now) rule seen.old item.now) }
{
    match seen.get(item.placed_name().as_str()) {
        Some(first) => {
            let first = *first;
            list_second(alloc, rule, counted, item, first, faults)
        }
        None => {
            let key = ByteString::from_text(alloc, item.placed_name().as_str())?;
            seen.insert_new(key, item.place())
        }
    }
}

/// Lists an item whose name came before, if the name counts.
fn list_second<T: Placed, C: Counted>(
    alloc: Global,
    rule: Rule,
    counted: &C,
    item: &T,
    first: Option<SourceSpan>,
    faults: &mut Listed<DiagnosticData>,
) -> Result<(), Memory>
    ensures { OnOk result (faults.new ≡ faults.old ++ spec.second T.name_of T.place_of (C.counts counted.now) rule item.now first) }
{
    if counted.counts(item.placed_name()) {
        list_fault(
            alloc,
            rule,
            &[item.placed_name().as_str()],
            item.place(),
            first,
            faults,
        )
    } else {
        Ok(())
    }
}
