//! What comes to what only rows of one sort of node keep, sort by sort.

ghost use Rattle.std.specs.Prelude.{◌≡◌, OnOk};
ghost use Rattle.gql_ast_reader.specs.bridge.Taking as taking;
ghost use Rattle.gql_ast_reader.specs.declared.part.Item.TheVariants as item;

use crate::row::Own;
use crate::row::keeping::{add, keep_first};
use gql_ast::{
    Definition, EnumValueDefinition, FieldDefinition, InputValueDefinition, Selection,
    VariableDefinition,
};
use gql_ast_base::{Argument, Directive, Name, Value, ValueKind};
use jb_text::Memory;
use std::alloc::Global;

// Each looks at one sort, so that what comes alone is moved, and never the whole that could be any of them.
impl Own {
    /// A value: the value of the node, or one of a list. `Err` only where memory runs out.
    pub(crate) fn take_in_value(
        &mut self,
        alloc: Global,
        found: Option<Value>,
    ) -> Result<(), Memory>
        ensures { OnOk result (self.new ≡ taking.own_item self.old (item.Value found)) }
    {
        match self {
            Own::Values(list) => add(list, alloc, found),
            Own::Value(slot) => {
                keep_first(slot, found);
                Ok(())
            }
            _ => Ok(()),
        }
    }

    /// The content of a value.
    pub(crate) fn take_in_content(&mut self, found: Option<ValueKind>)
        ensures { self.new ≡ taking.own_item self.old (item.Content found) }
    {
        if let Own::Content(slot) = self {
            keep_first(slot, found);
        }
    }

    /// A pair of an object. `Err` only where memory runs out.
    pub(crate) fn take_in_pair(
        &mut self,
        alloc: Global,
        found: Option<(Name, Value)>,
    ) -> Result<(), Memory>
        ensures { OnOk result (self.new ≡ taking.own_item self.old (item.Pair found)) }
    {
        match self {
            Own::Pairs(list) => add(list, alloc, found),
            _ => Ok(()),
        }
    }

    /// An argument. `Err` only where memory runs out.
    pub(crate) fn take_in_argument(
        &mut self,
        alloc: Global,
        found: Option<Argument>,
    ) -> Result<(), Memory>
        ensures { OnOk result (self.new ≡ taking.own_item self.old (item.Argument found)) }
    {
        match self {
            Own::Arguments(list) => add(list, alloc, found),
            _ => Ok(()),
        }
    }

    /// A directive. `Err` only where memory runs out.
    pub(crate) fn take_in_directive(
        &mut self,
        alloc: Global,
        found: Option<Directive>,
    ) -> Result<(), Memory>
        ensures { OnOk result (self.new ≡ taking.own_item self.old (item.Directive found)) }
    {
        match self {
            Own::Directives(list) => add(list, alloc, found),
            _ => Ok(()),
        }
    }

    /// A way to select.
    #[inline(always)]
    pub(crate) fn take_in_choice(&mut self, found: Option<Selection>)
        ensures { self.new ≡ taking.own_item self.old (item.Choice found) }
    {
        if let Own::Choice(slot) = self {
            keep_first(slot, found);
        }
    }

    /// A selection. `Err` only where memory runs out.
    pub(crate) fn take_in_selection(
        &mut self,
        alloc: Global,
        found: Option<Selection>,
    ) -> Result<(), Memory>
        ensures { OnOk result (self.new ≡ taking.own_item self.old (item.Selection found)) }
    {
        match self {
            Own::Selections(list) => add(list, alloc, found),
            _ => Ok(()),
        }
    }

    /// A variable that an operation takes. `Err` only where memory runs out.
    pub(crate) fn take_in_variable(
        &mut self,
        alloc: Global,
        found: Option<VariableDefinition>,
    ) -> Result<(), Memory>
        ensures { OnOk result (self.new ≡ taking.own_item self.old (item.Variable found)) }
    {
        match self {
            Own::Variables(list) => add(list, alloc, found),
            _ => Ok(()),
        }
    }

    /// An argument or a field of an input object type. `Err` only where memory runs out.
    pub(crate) fn take_in_input(
        &mut self,
        alloc: Global,
        found: Option<InputValueDefinition>,
    ) -> Result<(), Memory>
        ensures { OnOk result (self.new ≡ taking.own_item self.old (item.Input found)) }
    {
        match self {
            Own::Inputs(list) => add(list, alloc, found),
            _ => Ok(()),
        }
    }

    /// A field of an object type or an interface type. `Err` only where memory runs out.
    pub(crate) fn take_in_field(
        &mut self,
        alloc: Global,
        found: Option<FieldDefinition>,
    ) -> Result<(), Memory>
        ensures { OnOk result (self.new ≡ taking.own_item self.old (item.Field found)) }
    {
        match self {
            Own::Fields(list) => add(list, alloc, found),
            _ => Ok(()),
        }
    }

    /// A value of an enum type. `Err` only where memory runs out.
    pub(crate) fn take_in_enum_value(
        &mut self,
        alloc: Global,
        found: Option<EnumValueDefinition>,
    ) -> Result<(), Memory>
        ensures { OnOk result (self.new ≡ taking.own_item self.old (item.EnumValue found)) }
    {
        match self {
            Own::EnumValues(list) => add(list, alloc, found),
            _ => Ok(()),
        }
    }

    /// What a definition is.
    #[inline(always)]
    pub(crate) fn take_in_defined(&mut self, found: Option<Definition>)
        ensures { self.new ≡ taking.own_item self.old (item.Defined found) }
    {
        if let Own::Defined(slot) = self {
            keep_first(slot, found);
        }
    }

    /// A definition. `Err` only where memory runs out.
    pub(crate) fn take_in_definition(
        &mut self,
        alloc: Global,
        found: Option<Definition>,
    ) -> Result<(), Memory>
        ensures { OnOk result (self.new ≡ taking.own_item self.old (item.Definition found)) }
    {
        match self {
            Own::Definitions(list) => add(list, alloc, found),
            _ => Ok(()),
        }
    }
}
