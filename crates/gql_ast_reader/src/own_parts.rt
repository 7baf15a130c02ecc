//! What only rows of one sort of node keep, taken out of them.

ghost use Rattle.std.specs.Prelude.{◌≡◌};
ghost use Rattle.gql_ast_reader.specs.bridge.Making as spec;

use crate::row::Own;
use gql_ast::{
    Definition, EnumValueDefinition, FieldDefinition, InputValueDefinition, Selection,
    VariableDefinition,
};
use gql_ast_base::{Argument, Directive, Name, Value, ValueKind};
use jb_text::{Listed, Text};
use std::alloc::Global;
use std::mem;

// Each looks at one sort, so that the part alone is moved, and never the whole that could hold any of them.
impl Own {
    /// The content of a value.
    pub(crate) fn take_content(&mut self) -> Option<ValueKind>
        ensures { result ≡ spec.own_content self.old }
    {
        match self {
            Own::Content(found) => found.take(),
            _ => None,
        }
    }

    /// The characters of a description.
    pub(crate) fn take_text(&mut self) -> Option<Text>
        ensures { result ≡ spec.own_text self.old }
    {
        match self {
            Own::Text(found) => found.take(),
            _ => None,
        }
    }

    /// The value of an argument, of a pair of an object, or by default.
    pub(crate) fn take_value(&mut self) -> Option<Value>
        ensures { result ≡ spec.own_value self.old }
    {
        match self {
            Own::Value(found) => found.take(),
            _ => None,
        }
    }

    /// The way to select.
    pub(crate) fn take_choice(&mut self) -> Option<Selection>
        ensures { result ≡ spec.own_choice self.old }
    {
        match self {
            Own::Choice(found) => found.take(),
            _ => None,
        }
    }

    /// What a definition is.
    pub(crate) fn take_defined(&mut self) -> Option<Definition>
        ensures { result ≡ spec.own_defined self.old }
    {
        match self {
            Own::Defined(found) => found.take(),
            _ => None,
        }
    }

    pub(crate) fn take_arguments(&mut self, alloc: Global) -> Listed<Argument>
        ensures { result ≡ spec.own_arguments self.old }
    {
        match self {
            Own::Arguments(list) => mem::replace(list, Listed::new(alloc)),
            _ => Listed::new(alloc),
        }
    }

    pub(crate) fn take_directives(&mut self, alloc: Global) -> Listed<Directive>
        ensures { result ≡ spec.own_directives self.old }
    {
        match self {
            Own::Directives(list) => mem::replace(list, Listed::new(alloc)),
            _ => Listed::new(alloc),
        }
    }

    pub(crate) fn take_selections(&mut self, alloc: Global) -> Listed<Selection>
        ensures { result ≡ spec.own_selections self.old }
    {
        match self {
            Own::Selections(list) => mem::replace(list, Listed::new(alloc)),
            _ => Listed::new(alloc),
        }
    }

    pub(crate) fn take_values(&mut self, alloc: Global) -> Listed<Value>
        ensures { result ≡ spec.own_values self.old }
    {
        match self {
            Own::Values(list) => mem::replace(list, Listed::new(alloc)),
            _ => Listed::new(alloc),
        }
    }

    pub(crate) fn take_pairs(&mut self, alloc: Global) -> Listed<(Name, Value)>
        ensures { result ≡ spec.own_pairs self.old }
    {
        match self {
            Own::Pairs(list) => mem::replace(list, Listed::new(alloc)),
            _ => Listed::new(alloc),
        }
    }

    pub(crate) fn take_variables(&mut self, alloc: Global) -> Listed<VariableDefinition>
        ensures { result ≡ spec.own_variables self.old }
    {
        match self {
            Own::Variables(list) => mem::replace(list, Listed::new(alloc)),
            _ => Listed::new(alloc),
        }
    }

    pub(crate) fn take_inputs(&mut self, alloc: Global) -> Listed<InputValueDefinition>
        ensures { result ≡ spec.own_inputs self.old }
    {
        match self {
            Own::Inputs(list) => mem::replace(list, Listed::new(alloc)),
            _ => Listed::new(alloc),
        }
    }

    pub(crate) fn take_fields(&mut self, alloc: Global) -> Listed<FieldDefinition>
        ensures { result ≡ spec.own_fields self.old }
    {
        match self {
            Own::Fields(list) => mem::replace(list, Listed::new(alloc)),
            _ => Listed::new(alloc),
        }
    }

    pub(crate) fn take_enum_values(&mut self, alloc: Global) -> Listed<EnumValueDefinition>
        ensures { result ≡ spec.own_enum_values self.old }
    {
        match self {
            Own::EnumValues(list) => mem::replace(list, Listed::new(alloc)),
            _ => Listed::new(alloc),
        }
    }

    pub(crate) fn take_names(&mut self, alloc: Global) -> Listed<Name>
        ensures { result ≡ spec.own_names self.old }
    {
        match self {
            Own::Names(list) => mem::replace(list, Listed::new(alloc)),
            _ => Listed::new(alloc),
        }
    }

    pub(crate) fn take_definitions(&mut self, alloc: Global) -> Listed<Definition>
        ensures { result ≡ spec.own_definitions self.old }
    {
        match self {
            Own::Definitions(list) => mem::replace(list, Listed::new(alloc)),
            _ => Listed::new(alloc),
        }
    }
}
