//! Which types implement an interface.

ghost use Rattle.std.specs.Prelude.{◌≡◌, ℕ, List, None, IfOk, OnOk, fold, [], ◌∷◌, ◌++◌};
ghost use Rattle.std.specs.Map.{lookup};
ghost use Rattle.std.specs.Option.{option_copied};
ghost use Rattle.std.specs.Str.{bytes_eq};
ghost use Rattle.gql_schema_types.specs.Implementers as spec;
ghost use Rattle.gql_schema_types.specs.bridge.Implementers as spec_bridge;
ghost use Rattle.gql_schema_types.specs.Types.{interfaces_of};

use crate::named::Named;
use crate::schema::Schema;
use crate::types::ExtendedType;
use gql_ast_base::{Copying, Name};
use jb_map::Pairs;
use jb_text::{ByteString, Listed, Memory};
use std::alloc::Global;
use std::marker::Model;

/// The types that say that they implement an interface, each once, in the order of the schema's types.
pub struct Implementers {
    pub objects: Listed<Name>,
    pub interfaces: Listed<Name>,
}

impl Drop for Implementers {
    fn drop(self) {
        let Implementers {
            objects: _,
            interfaces: _,
        } = self;
    }
}

/// The types that implement each interface, as [`Schema::implementers_map`] makes it.
pub struct ImplementersMap {
    by_interface: Pairs<Implementers>,
}

impl Drop for ImplementersMap {
    fn drop(self) {
        let ImplementersMap { by_interface: _ } = self;
    }
}

impl Model for ImplementersMap {
    ghost use Rattle.std.specs.Prelude.{ℕ, List};
    ghost use Rattle.gql_schema_types.specs.declared.implementers.Implementers.{Implementers};

    ghost Value = { List (List ℕ × Implementers) };

    ghost view = { λ map. map.by_interface };
}

impl ImplementersMap {
    /// The types that implement the interface of the name; `None` exactly where no type does. It takes no memory.
    #[must_use]
    pub fn get(&self, name: &str) -> Option<&Implementers>
        ensures { option_copied result ≡ lookup (bytes_eq name.now) self.now }
    {
        self.by_interface.get(name)
    }
}

impl Schema {
    /// The types that implement each interface, whether the schema defines it or not (GraphQL October 2021, sections
    /// 3.6 and 3.7). `Err` only when out of memory.
    pub fn implementers_map(&self, alloc: Global) -> Result<ImplementersMap, Memory>
        ensures { IfOk result (λ map. (name : List ℕ) → lookup (bytes_eq name) map ≡ spec.implementers_of name self.now.types) }
    {
        let mut found = Pairs::new(alloc);
        for ty in self.types.as_slice() {
            add_type(alloc, &mut found, ty)?;
        }
        Ok(ImplementersMap {
            by_interface: found,
        })
    }
}

/// Adds a type at each of its interfaces.
fn add_type(alloc: Global, found: &mut Pairs<Implementers>, ty: &ExtendedType) -> Result<(), Memory>
    ensures { OnOk result (found.new ≡ fold (spec_bridge.with_listing ty.now) found.old (interfaces_of ty.now)) }
{
    for interface in ty.implements_interfaces() {
        add_listing(alloc, found, interface, ty)?;
    }
    Ok(())
}

/// Adds a type at one of its interfaces.
fn add_listing(
    alloc: Global,
    found: &mut Pairs<Implementers>,
    interface: &Name,
    ty: &ExtendedType,
) -> Result<(), Memory>
    ensures { OnOk result (found.new ≡ spec_bridge.with_listing ty.now found.old interface.now) }
{
    match found.get_mut(interface.as_str()) {
        Some(known) => add_implementer(alloc, known, ty),
        None => first_implementer(alloc, found, interface, ty),
    }
}

/// Adds the first type at an interface.
fn first_implementer(
    alloc: Global,
    found: &mut Pairs<Implementers>,
    interface: &Name,
    ty: &ExtendedType,
) -> Result<(), Memory>
    requires { lookup (bytes_eq interface.now.text) found.old ≡ None }
    ensures { OnOk result (found.new ≡ found.old ++ (interface.now.text, spec_bridge.with_implementer ty.now spec_bridge.no_implementers) ∷ []) }
{
    let mut first = Implementers {
        objects: Listed::new(alloc),
        interfaces: Listed::new(alloc),
    };
    add_implementer(alloc, &mut first, ty)?;
    let key = ByteString::from_text(alloc, interface.as_str())?;
    found.insert_new(key, first)
}

/// Adds a type to those of one interface, unless it was added last.
fn add_implementer(alloc: Global, known: &mut Implementers, ty: &ExtendedType) -> Result<(), Memory>
    ensures { OnOk result (known.new ≡ spec_bridge.with_implementer ty.now known.old) }
{
    match ty {
        ExtendedType::Object(object) => add_last(alloc, &mut known.objects, &object.name),
        ExtendedType::Interface(interface) => {
            add_last(alloc, &mut known.interfaces, &interface.name)
        }
        _ => Ok(()),
    }
}

/// Adds a name last, unless it stands there already.
fn add_last(alloc: Global, names: &mut Listed<Name>, name: &Name) -> Result<(), Memory>
    ensures { OnOk result (names.new ≡ spec_bridge.with_last names.old name.now) }
{
    if is_last(names, name) {
        return Ok(());
    }
    names.push(name.copy(alloc)?)
}

/// Whether the last of the names is this one.
fn is_last(names: &Listed<Name>, name: &Name) -> bool
    ensures { result ≡ spec_bridge.is_last name.now.text names.now }
{
    match names.as_slice().last() {
        Some(last) => name.as_str() == last.as_str(),
        None => false,
    }
}
