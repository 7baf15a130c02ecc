//! A walk over the objects that an execution reaches by what was told.

ghost use Rattle.std.specs.Prelude.{◌≡◌, ◌++◌, ℕ, false, true, if◌then◌else◌, List, [], is_some, IfOk, OnOk};
ghost use Rattle.std.specs.Option.{option_copied};
ghost use Rattle.gql_collect.specs.bridge.Plan.{IsPlanned, IsWithin};
ghost use Rattle.gql_document_types.specs.Ranks.{AreRanked};
ghost use Rattle.gql_exec.specs.Mapped.{all_mapped, mapped};
ghost use Rattle.gql_exec.specs.bridge.Planning.{ground_in};
ghost use Rattle.gql_exec.specs.Trails.{group_of};
ghost use Rattle.gql_resolvers.specs.Meaning.{item_by, meanings_by};
ghost use Rattle.gql_resolvers.specs.Resolved.{gives_list, gives_object};
ghost use Rattle.gql_resolvers.specs.Types as places;
ghost use Rattle.gql_schema_types.specs.Schemas.{field_of, type_named};
ghost use Rattle.gql_rounds.specs.Known.{entity_of};
ghost use Rattle.gql_rounds.specs.Levels as levels;
ghost use Rattle.gql_rounds.specs.bridge.Walked as spec;
ghost use Rattle.gql_rounds.specs.Wanted as wanted;
ghost use Rattle.gql_rounds.specs.bridge.Wanted as wanted_bridge;

use crate::answers::Answers;
use crate::ask::{Ask, Asks, answer_key};
use crate::told::Told;
use gql_ast_base::TypeRef;
use gql_coerce::ArgumentFault;
use gql_collect::{Pieces, PlannedField, Steps};
use gql_exec::{Asked, Executing};
use gql_resolvers::{FieldError, ObjectValue, ResolvedValue, fitting_object};
use gql_response::JsonMap;
use gql_schema_types::ObjectType;
use jb_text::{ByteString, Listed, Memory, Refused, Text};
use std::alloc::{AllocError, Global};
use std::sync::ledger::Ledger;

/// An object that is reached, as which type, and what is selected on it.
#[derive(Drop)]
pub(crate) struct Visit<'s> {
    pub(crate) object_type: &'s ObjectType,
    pub(crate) number: u64,
    pub(crate) type_name: &'s str,
    pub(crate) pieces: Pieces<'s>,
}

/// What stays the same throughout a walk. Of the execution the fields that tell of the schema are hidden.
#[derive(Clone, Copy)]
pub(crate) struct Walk<'s> {
    pub(crate) executing: Executing<'s>,
    pub(crate) answers: &'s Answers,
}

impl<'s> Walk<'s> {
    /// The objects that are reached directly below these. What these ask for is noted.
    pub(crate) fn next_level<L: Ledger>(
        &self,
        level: &Listed<Visit<'s>>,
        asks: &mut Asks,
        steps: &mut Steps<L>,
    ) -> Result<Listed<Visit<'s>>, Memory>
        requires ranked { (rank : ℕ → ℕ) × AreRanked self.now.executing.request.document.now.fragments rank }
        requires hidden { self.now.executing.introspection ≡ false }
        requires within { spec.AreWithin self.now.executing (spec.stands_of level.now) }
        ensures below { IfOk result (λ below. spec.Grows [] (spec.stands_of below) (levels.below_stands (spec.world_of self.now) (spec.stands_of level.now))) }
        ensures asks { OnOk result (asks.new ≡ wanted_bridge.all_noted asks.old (wanted.wanted (spec.request_of self.now) (spec.stands_of level.now))) }
        ensures within { IfOk result (λ below. spec.AreWithin self.now.executing (spec.stands_of below)) }
    {
        let mut below = Listed::new(self.executing.alloc);
        for number in 0..level.len() {
            // There is an object of each number below their count.
            let Some(visit) = level.get(number) else {
                return Err(AllocError);
            };
            self.visit(visit, &mut below, asks, steps)?;
        }
        Ok(below)
    }

    /// Adds the objects below one, and notes what it asks for.
    fn visit<L: Ledger>(
        &self,
        visit: &Visit<'s>,
        below: &mut Listed<Visit<'s>>,
        asks: &mut Asks,
        steps: &mut Steps<L>,
    ) -> Result<(), Memory>
        requires ranked { (rank : ℕ → ℕ) × AreRanked self.now.executing.request.document.now.fragments rank }
        requires hidden { self.now.executing.introspection ≡ false }
        requires within { IsWithin (ground_in self.now.executing) (spec.stand_of visit.now).selection }
        ensures below { OnOk result (spec.Grows (spec.stands_of below.old) (spec.stands_of below.new)
            (levels.below_stand (spec.world_of self.now) (spec.stand_of visit.now))) }
        ensures asks { OnOk result (asks.new ≡ wanted_bridge.all_noted asks.old (wanted.wanted_at (spec.request_of self.now) (spec.stand_of visit.now))) }
        ensures within { OnOk result (spec.AreWithin self.now.executing (spec.stands_of below.old) → spec.AreWithin self.now.executing (spec.stands_of below.new)) }
    {
        let planner = self.executing.planner();
        let parts = planner.parts(visit.object_type, &visit.pieces, steps)?;
        for number in 0..parts.len() {
            // There is a part of each number below their count.
            let Some(part) = parts.get(number) else {
                return Err(AllocError);
            };
            self.field(visit, &part.field, below, asks)?;
        }
        Ok(())
    }

    /// Adds the objects that a field of one brings, or notes the ask for it.
    fn field(
        &self,
        visit: &Visit<'s>,
        field: &PlannedField<'s>,
        below: &mut Listed<Visit<'s>>,
        asks: &mut Asks,
    ) -> Result<(), Memory>
        requires hidden { self.now.executing.introspection ≡ false }
        requires planned { IsPlanned (ground_in self.now.executing) visit.now.object_type.now field.now }
        requires defined { is_some (field_of self.now.executing.request.schema.now visit.now.object_type.now.name.text field.now.group.first.now.name.text) ≡ true }
        ensures below { OnOk result (spec.stands_of below.new ≡ spec.stands_of below.old
            ++ levels.below_group (spec.world_of self.now) visit.now.object_type.now (spec.stand_of visit.now).object (group_of field.now.group)) }
        ensures asks { OnOk result (asks.new ≡ wanted_bridge.all_noted asks.old
            (wanted.wanted_by_group (spec.request_of self.now) visit.now.object_type.now (spec.stand_of visit.now).object (group_of field.now.group))) }
    {
        let object = Told {
            answers: self.answers,
            number: visit.number,
            type_name: visit.type_name,
        };
        let asked = self.executing.ask(visit.object_type, &object, field)?;
        match asked {
            Asked::Gave(resolved) => self.gave(visit, field, &resolved, below, asks),
            Asked::Failed(_) => Ok(()),
            Asked::Refused(_) => Ok(()),
        }
    }

    /// The same where the field resolves to this.
    fn gave(
        &self,
        visit: &Visit<'s>,
        field: &PlannedField<'s>,
        resolved: &ResolvedValue<Told<'s>>,
        below: &mut Listed<Visit<'s>>,
        asks: &mut Asks,
    ) -> Result<(), Memory>
        requires planned { IsPlanned (ground_in self.now.executing) visit.now.object_type.now field.now }
        ensures below { OnOk result (spec.stands_of below.new ≡ spec.stands_of below.old
            ++ levels.given (spec.world_of self.now) (group_of field.now.group).pieces field.now.definition.now.ty (spec.known_meaning resolved.now)) }
        ensures asks { OnOk result (asks.new ≡ wanted_bridge.all_noted asks.old (if wanted.is_skip (spec.known_meaning resolved.now)
            then wanted.ask_for (spec.request_of self.now) visit.now.object_type.now (spec.stand_of visit.now).object field.now.group.first.now else [])) }
    {
        let ty = &field.definition.ty;
        match resolved {
            ResolvedValue::Leaf(_) => Ok(()),
            ResolvedValue::Object(object) => self.enter_object(field, ty, object, below),
            ResolvedValue::List(items) => self.enter_list(field, ty, items, below),
            ResolvedValue::SkipForPartialExecution => self.want(visit, field, asks),
        }
    }

    /// Adds the objects that a value gives at a type, as far as it fits.
    #[cycle(enter)]
    fn enter(
        &self,
        field: &PlannedField<'s>,
        ty: &TypeRef,
        resolved: &ResolvedValue<Told<'s>>,
        below: &mut Listed<Visit<'s>>,
    ) -> Result<(), Memory>
        requires named { option_copied field.now.named ≡ type_named self.now.executing.request.schema.now ty.now }
        ensures { OnOk result (spec.stands_of below.new ≡ spec.stands_of below.old
            ++ levels.given (spec.world_of self.now) (group_of field.now.group).pieces ty.now (spec.known_meaning resolved.now)) }
    {
        match resolved {
            ResolvedValue::Object(object) => self.enter_object(field, ty, object, below),
            ResolvedValue::List(items) => self.enter_list(field, ty, items, below),
            ResolvedValue::Leaf(_) => Ok(()),
            ResolvedValue::SkipForPartialExecution => Ok(()),
        }
    }

    /// Adds those that a list gives at a type.
    #[cycle(enter)]
    fn enter_list(
        &self,
        field: &PlannedField<'s>,
        ty: &TypeRef,
        items: &Listed<Result<ResolvedValue<Told<'s>>, FieldError>>,
        below: &mut Listed<Visit<'s>>,
    ) -> Result<(), Memory>
        requires named { option_copied field.now.named ≡ type_named self.now.executing.request.schema.now ty.now }
        ensures { OnOk result (spec.stands_of below.new ≡ spec.stands_of below.old
            ++ levels.given (spec.world_of self.now) (group_of field.now.group).pieces ty.now (gives_list (all_mapped spec.known_in (meanings_by entity_of items.now)))) }
    {
        match ty.item_type() {
            Some(item) => self.enter_items(field, item, items, below),
            None => Ok(()),
        }
    }

    /// Adds those that items give at their type.
    #[cycle(enter)]
    fn enter_items(
        &self,
        field: &PlannedField<'s>,
        ty: &TypeRef,
        items: &Listed<Result<ResolvedValue<Told<'s>>, FieldError>>,
        below: &mut Listed<Visit<'s>>,
    ) -> Result<(), Memory>
        requires named { option_copied field.now.named ≡ type_named self.now.executing.request.schema.now ty.now }
        ensures { OnOk result (spec.stands_of below.new ≡ spec.stands_of below.old
            ++ levels.all_given (spec.world_of self.now) (group_of field.now.group).pieces ty.now (all_mapped spec.known_in (meanings_by entity_of items.now))) }
    {
        for number in 0..items.len() {
            // There is an item of each number below their count.
            let Some(item) = items.get(number) else {
                return Err(AllocError);
            };
            self.enter_item(field, ty, item, below)?;
        }
        Ok(())
    }

    /// Adds those that an item gives at its type.
    #[cycle(enter)]
    fn enter_item(
        &self,
        field: &PlannedField<'s>,
        ty: &TypeRef,
        item: &Result<ResolvedValue<Told<'s>>, FieldError>,
        below: &mut Listed<Visit<'s>>,
    ) -> Result<(), Memory>
        requires named { option_copied field.now.named ≡ type_named self.now.executing.request.schema.now ty.now }
        ensures { OnOk result (spec.stands_of below.new ≡ spec.stands_of below.old
            ++ levels.given (spec.world_of self.now) (group_of field.now.group).pieces ty.now (mapped spec.known_in (item_by entity_of item.now))) }
    {
        match item {
            Ok(resolved) => self.enter(field, ty, resolved, below),
            Err(_) => Ok(()),
        }
    }

    /// Adds an object at a type that it fits.
    fn enter_object(
        &self,
        field: &PlannedField<'s>,
        ty: &TypeRef,
        object: &Told<'s>,
        below: &mut Listed<Visit<'s>>,
    ) -> Result<(), Memory>
        requires named { option_copied field.now.named ≡ type_named self.now.executing.request.schema.now ty.now }
        ensures { OnOk result (spec.stands_of below.new ≡ spec.stands_of below.old
            ++ levels.given (spec.world_of self.now) (group_of field.now.group).pieces ty.now (gives_object (entity_of object.now).known)) }
    {
        let schema = self.executing.schema();
        match fitting_object(
            self.executing.alloc,
            schema,
            field.named,
            ty,
            object.type_name,
        ) {
            Ok(object_type) => {
                let pieces = field.group.sub_selections(self.executing.alloc)?;
                below.push(Visit {
                    object_type,
                    number: object.number,
                    type_name: object.type_name,
                    pieces,
                })
            }
            Err(Refused::Fault(_)) => Ok(()),
            Err(Refused::Memory) => Err(AllocError),
        }
    }

    /// Notes the ask for a field, whose arguments are coerced if they are not kept.
    fn want(
        &self,
        visit: &Visit<'s>,
        field: &PlannedField<'s>,
        asks: &mut Asks,
    ) -> Result<(), Memory>
        requires planned { IsPlanned (ground_in self.now.executing) visit.now.object_type.now field.now }
        ensures { OnOk result (asks.new ≡ wanted_bridge.all_noted asks.old
            (wanted.ask_for (spec.request_of self.now) visit.now.object_type.now (spec.stand_of visit.now).object field.now.group.first.now)) }
    {
        match &field.arguments {
            Some(arguments) => self.want_with(visit, field, arguments, asks),
            None => {
                let planner = self.executing.planner();
                let arguments = planner.arguments(field.definition, field.group.first)?;
                self.want_with(visit, field, &arguments, asks)
            }
        }
    }

    /// The same with what has come of coercing them.
    fn want_with(
        &self,
        visit: &Visit<'s>,
        field: &PlannedField<'s>,
        arguments: &Result<JsonMap, ArgumentFault>,
        asks: &mut Asks,
    ) -> Result<(), Memory>
        ensures { OnOk result (asks.new ≡ wanted_bridge.all_noted asks.old
            (wanted.ask_with (spec.request_of self.now) visit.now.object_type.now (spec.stand_of visit.now).object field.now.group.first.now arguments.now)) }
    {
        match arguments {
            Ok(arguments) => {
                let name = field.group.first.name.as_str();
                note_ask(self.executing.alloc, visit, name, arguments, asks)
            }
            Err(_) => Ok(()),
        }
    }
}

/// Notes the ask for a field with these arguments, unless it is noted already.
fn note_ask(
    alloc: Global,
    visit: &Visit<'_>,
    field: &str,
    arguments: &JsonMap,
    asks: &mut Asks,
) -> Result<(), Memory>
    ensures { OnOk result (asks.new ≡ wanted_bridge.noted asks.old
        (record { object = visit.now.number; type_name = visit.now.object_type.now.name.text; field = field.now; arguments = arguments.now })) }
{
    let key = answer_key(alloc, visit.number, field, arguments)?;
    if asks.contains_key(key.as_str()) {
        return Ok(());
    }
    let ask = Ask {
        object: visit.number,
        type_name: Text::from_str(alloc, visit.object_type.name.as_str())?,
        field: Text::from_str(alloc, field)?,
        arguments: arguments.copy(alloc)?,
    };
    let key = ByteString::from_text(alloc, key.as_str())?;
    asks.insert_new(key, ask)
}
