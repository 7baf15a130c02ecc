//! The cycle of execution: ExecuteSelectionSet, ExecuteField and CompleteValue (GraphQL October 2021, sections 6.3 and 6.4).

ghost use Rattle.std.specs.Prelude.{◌≡◌, ℕ, List, map, is_some, true, IfOk, OnOk};
ghost use Rattle.gql_document_types.specs.Ranks.{AreRanked};
ghost use Rattle.gql_resolvers.specs.Lists.{is_list};
ghost use Rattle.gql_resolvers.specs.Execute.{completed, field_made, items_made, one_array, one_object, settled};
ghost use Rattle.gql_resolvers.specs.Resolved.{gives_list, gives_object};
ghost use Rattle.gql_resolvers.specs.Spot.{field_spot, item_spot, trail};
ghost use Rattle.gql_resolvers.specs.Types as places;
ghost use Rattle.gql_collect.specs.bridge.Ways.{TurnsTo};
ghost use Rattle.gql_collect.specs.Plan.{fields_in, groups_in};
ghost use Rattle.gql_collect.specs.bridge.Plan.{AreNodes, ArePartsOf, HaveNodes, IsPlanned, IsTyped, sets_below};
ghost use Rattle.gql_document_types.specs.declared.selection.Selection.{Selection};
ghost use Rattle.gql_resolvers.specs.Meaning.{item_by, meaning_by, meanings_by};
ghost use Rattle.gql_exec.specs.bridge.Executed.{ExecutesGroups, Makes};
ghost use Rattle.gql_exec.specs.bridge.Executing.{world_of};
ghost use Rattle.gql_exec.specs.bridge.Looks.{NodesGrow, PartsGrow};
ghost use Rattle.gql_exec.specs.Opened as opened;
ghost use Rattle.gql_exec.specs.bridge.Opened as opened_bridge;
ghost use Rattle.gql_exec.specs.bridge.Output.{AreWritten, Finds, IsWritten};
ghost use Rattle.gql_exec.specs.bridge.Planning.{ground_in};
ghost use Rattle.gql_exec.specs.Trails.{group_of};
ghost use Rattle.gql_exec.specs.bridge.Trails.{IsNamed, spot_of, trail_of};
ghost use Rattle.gql_schema_types.specs.Schemas.{field_of};

use crate::asking::Asked;
use crate::completed::Completed;
use crate::output::Output;
use crate::path::{Path, Step};
use crate::place::{Place, item_of};
use gql_collect::{Node, Part, PlannedField, Steps};
use gql_document_types::Operation;
use gql_resolvers::{
    FieldError, ObjectValue, RequestInfo, ResolvedValue, fitting_object, list_misfit,
};
use gql_response::{GraphQLError, JsonMap};
use gql_schema_types::{ObjectType, Valid};
use jb_text::{Listed, Memory, Refused};
use std::alloc::{AllocError, Global};
use std::sync::ledger::Ledger;

/// What stays the same throughout an execution.
#[derive(Clone, Copy)]
pub struct Executing<'s> {
    pub alloc: Global,
    pub request: RequestInfo<'s>,
    pub operation: &'s Operation,
    pub variables: &'s Valid<JsonMap>,
    /// Whether fields that tell of the schema are asked for as any other.
    pub introspection: bool,
}

impl<'s> Executing<'s> {
    /// The object of the parts of selection sets on an object of this type (section 6.3, ExecuteSelectionSet); `None` where
    /// a null is passed on.
    #[cycle(execute)]
    pub fn execute_parts<O: ObjectValue, L: Ledger, M: Output>(
        &self,
        object_type: &ObjectType,
        object: &O,
        path: &Path<'_>,
        parts: &mut Listed<Part<'s>>,
        errors: &mut Listed<GraphQLError>,
        steps: &mut Steps<L>,
        out: &mut M,
    ) -> Result<Option<M::Members>, Memory>
        requires ranked { (rank : ℕ → ℕ) × AreRanked self.now.request.document.now.fragments rank }
        requires planned { (sets : List (List Selection)) × ArePartsOf (ground_in self.now) object_type.now sets parts.old }
        ensures executed { IfOk result (λ members. Finds (AreWritten M.are_members out.old out.new members) (λ found. ExecutesGroups (world_of self.now O.type_of O.resolves)
            object_type.now (O.seen object.now) (trail_of path.now) (map group_of (groups_in parts.old)) found errors.old errors.new)) }
        ensures same { OnOk result (fields_in parts.new ≡ fields_in parts.old) }
        ensures planned { OnOk result (HaveNodes (ground_in self.now) parts.new) }
        ensures grows { OnOk result (PartsGrow self.now steps.old steps.new parts.old parts.new
            (opened_bridge.OpensBy (world_of self.now O.type_of O.resolves) (map group_of (groups_in parts.old)) object_type.now (O.seen object.now))) }
    {
        let mut members = out.begin_object(parts.len())?;
        for number in 0..parts.len() {
            // There is a part of each number below their count.
            let Some(part) = parts.get_mut(number) else {
                return Err(AllocError);
            };
            let key = part.field.group.key();
            out.begin_member(&mut members, key)?;
            match self.execute_field(
                object_type,
                object,
                path,
                &part.field,
                &mut part.nodes,
                errors,
                steps,
                out,
            )? {
                Completed::Value(value) => out.add_member(&mut members, key, value)?,
                Completed::LeftOut => out.drop_member(&members),
                Completed::NullPasses => {
                    out.drop_object(members);
                    return Ok(None);
                }
            }
        }
        Ok(Some(members))
    }

    /// What is made of a group on an object of this type (section 6.4, ExecuteField).
    #[cycle(execute)]
    fn execute_field<O: ObjectValue, L: Ledger, M: Output>(
        &self,
        object_type: &ObjectType,
        object: &O,
        path: &Path<'_>,
        field: &PlannedField<'s>,
        nodes: &mut Listed<Node<'s>>,
        errors: &mut Listed<GraphQLError>,
        steps: &mut Steps<L>,
        out: &mut M,
    ) -> Result<Completed<M::Made>, Memory>
        requires ranked { (rank : ℕ → ℕ) × AreRanked self.now.request.document.now.fragments rank }
        requires planned { AreNodes (ground_in self.now) (sets_below field.now.group) nodes.old }
        requires asked { IsPlanned (ground_in self.now) object_type.now field.now }
        requires defined { is_some (field_of self.now.request.schema.now object_type.now.name.text field.now.group.first.now.name.text) ≡ true }
        ensures made { IfOk result (λ done.
            let w = world_of self.now O.type_of O.resolves in
            let group = group_of field.now.group in
            Makes w (IsWritten M.is_made out.old out.new done) group errors.old errors.new
            (λ run. field_made w run (field_spot w object_type.now (trail_of path.now) group) (w.asks object_type.now (O.seen object.now) group))) }
        ensures planned { OnOk result (AreNodes (ground_in self.now) (sets_below field.now.group) nodes.new) }
        ensures grows { OnOk result (NodesGrow self.now steps.old steps.new nodes.old nodes.new (λ turn.
            let w = world_of self.now O.type_of O.resolves in
            let group = group_of field.now.group in
            opened.Brings w (opened_bridge.Turns w (w.below group) turn) (w.type_at object_type.now group) (w.asks object_type.now (O.seen object.now) group))) }
    {
        // The way is lent again, for as long as the group.
        let place = Place {
            around: &*path,
            step: Step::Key(field.group.key()),
            ty: &field.definition.ty,
            group: &field.group,
            named: field.named,
        };
        match self.ask(object_type, object, field)? {
            Asked::Gave(resolved) => self.complete_value(
                &place, resolved, nodes, errors, steps, out,
            ),
            Asked::Failed(error) => self.fail::<O, M>(&place, error, errors, out),
            Asked::Refused(fault) => self.refuse_argument::<O, M>(&place, fault, errors, out),
        }
    }

    /// What is made of a resolved value at a place (section 6.4.3, CompleteValue).
    #[cycle(execute)]
    fn complete_value<O: ObjectValue, L: Ledger, M: Output>(
        &self,
        place: &Place<'_, 's>,
        resolved: ResolvedValue<O>,
        nodes: &mut Listed<Node<'s>>,
        errors: &mut Listed<GraphQLError>,
        steps: &mut Steps<L>,
        out: &mut M,
    ) -> Result<Completed<M::Made>, Memory>
        requires ranked { (rank : ℕ → ℕ) × AreRanked self.now.request.document.now.fragments rank }
        requires planned { AreNodes (ground_in self.now) (sets_below place.now.group.now) nodes.old }
        requires named { IsNamed self.now.request.schema.now place.now }
        ensures made { IfOk result (λ done.
            let w = world_of self.now O.type_of O.resolves in
            Makes w (IsWritten M.is_made out.old out.new done) (group_of place.now.group.now) errors.old errors.new
            (λ run. completed w run (spot_of place.now) (meaning_by O.seen resolved))) }
        ensures planned { OnOk result (AreNodes (ground_in self.now) (sets_below place.now.group.now) nodes.new) }
        ensures grows { OnOk result (NodesGrow self.now steps.old steps.new nodes.old nodes.new
            (opened_bridge.MakesTurn (world_of self.now O.type_of O.resolves) (spot_of place.now) (meaning_by O.seen resolved))) }
    {
        match resolved {
            ResolvedValue::Leaf(value) => self.complete_leaf::<O, M>(place, value, errors, out),
            ResolvedValue::Object(object) => self.complete_object(
                place, &object, nodes, errors, steps, out,
            ),
            ResolvedValue::List(items) => self.complete_list(
                place, items, nodes, errors, steps, out,
            ),
            ResolvedValue::SkipForPartialExecution => Ok(Completed::LeftOut),
        }
    }

    /// What is made of an object at a place.
    #[cycle(execute)]
    fn complete_object<O: ObjectValue, L: Ledger, M: Output>(
        &self,
        place: &Place<'_, 's>,
        object: &O,
        nodes: &mut Listed<Node<'s>>,
        errors: &mut Listed<GraphQLError>,
        steps: &mut Steps<L>,
        out: &mut M,
    ) -> Result<Completed<M::Made>, Memory>
        requires ranked { (rank : ℕ → ℕ) × AreRanked self.now.request.document.now.fragments rank }
        requires planned { AreNodes (ground_in self.now) (sets_below place.now.group.now) nodes.old }
        requires named { IsNamed self.now.request.schema.now place.now }
        ensures made { IfOk result (λ done.
            let w = world_of self.now O.type_of O.resolves in
            Makes w (IsWritten M.is_made out.old out.new done) (group_of place.now.group.now) errors.old errors.new
            (λ run. completed w run (spot_of place.now) (gives_object (O.seen object.now)))) }
        ensures planned { OnOk result (AreNodes (ground_in self.now) (sets_below place.now.group.now) nodes.new) }
        ensures grows { OnOk result (NodesGrow self.now steps.old steps.new nodes.old nodes.new
            (opened_bridge.MakesTurn (world_of self.now O.type_of O.resolves) (spot_of place.now) (gives_object (O.seen object.now)))) }
    {
        match fitting_object(
            self.alloc,
            self.schema(),
            place.named,
            place.ty,
            object.type_name(),
        ) {
            Ok(object_type) => self.execute_object(
                place,
                object_type,
                object,
                nodes,
                errors,
                steps,
                out,
            ),
            Err(Refused::Fault(misfit)) => self.refuse::<O, M>(place, misfit, errors, out),
            Err(Refused::Memory) => Err(AllocError),
        }
    }

    /// What is made of an object of this type at a place that it fits.
    #[cycle(execute)]
    fn execute_object<O: ObjectValue, L: Ledger, M: Output>(
        &self,
        place: &Place<'_, 's>,
        object_type: &'s ObjectType,
        object: &O,
        nodes: &mut Listed<Node<'s>>,
        errors: &mut Listed<GraphQLError>,
        steps: &mut Steps<L>,
        out: &mut M,
    ) -> Result<Completed<M::Made>, Memory>
        requires ranked { (rank : ℕ → ℕ) × AreRanked self.now.request.document.now.fragments rank }
        requires planned { AreNodes (ground_in self.now) (sets_below place.now.group.now) nodes.old }
        requires typed { IsTyped self.now.request.schema.now object_type.now }
        ensures made { IfOk result (λ done.
            let w = world_of self.now O.type_of O.resolves in
            Makes w (IsWritten M.is_made out.old out.new done) (group_of place.now.group.now) errors.old errors.new
            (λ run. settled (spot_of place.now) (one_object
            (run object_type.now (O.seen object.now) (trail (spot_of place.now)) (group_of place.now.group.now).pieces)))) }
        ensures planned { OnOk result (AreNodes (ground_in self.now) (sets_below place.now.group.now) nodes.new) }
        ensures grows { OnOk result (NodesGrow self.now steps.old steps.new nodes.old nodes.new
            (TurnsTo object_type.now (λ way. opened.Opens (world_of self.now O.type_of O.resolves) way object_type.now (O.seen object.now) (sets_below place.now.group.now)))) }
    {
        let number = self
            .planner()
            .node_number(object_type, place.group, nodes, steps)?;
        // There is a node of that number.
        let Some(node) = nodes.get_mut(number) else {
            return Err(AllocError);
        };
        let path = Path::Below(place.around, place.step, place.ty);
        match self.execute_parts(
            object_type,
            object,
            &path,
            &mut node.parts,
            errors,
            steps,
            out,
        )? {
            Some(members) => Ok(Completed::Value(out.end_object(members)?)),
            None => place.null(out),
        }
    }

    /// What is made of a list at a place.
    #[cycle(execute)]
    fn complete_list<O: ObjectValue, L: Ledger, M: Output>(
        &self,
        place: &Place<'_, 's>,
        items: Listed<Result<ResolvedValue<O>, FieldError>>,
        nodes: &mut Listed<Node<'s>>,
        errors: &mut Listed<GraphQLError>,
        steps: &mut Steps<L>,
        out: &mut M,
    ) -> Result<Completed<M::Made>, Memory>
        requires ranked { (rank : ℕ → ℕ) × AreRanked self.now.request.document.now.fragments rank }
        requires planned { AreNodes (ground_in self.now) (sets_below place.now.group.now) nodes.old }
        requires named { IsNamed self.now.request.schema.now place.now }
        ensures made { IfOk result (λ done.
            let w = world_of self.now O.type_of O.resolves in
            Makes w (IsWritten M.is_made out.old out.new done) (group_of place.now.group.now) errors.old errors.new
            (λ run. completed w run (spot_of place.now) (gives_list (meanings_by O.seen items)))) }
        ensures planned { OnOk result (AreNodes (ground_in self.now) (sets_below place.now.group.now) nodes.new) }
        ensures grows { OnOk result (NodesGrow self.now steps.old steps.new nodes.old nodes.new
            (opened_bridge.MakesTurn (world_of self.now O.type_of O.resolves) (spot_of place.now) (gives_list (meanings_by O.seen items)))) }
    {
        match list_misfit(self.alloc, place.ty)? {
            Some(misfit) => self.refuse::<O, M>(place, misfit, errors, out),
            None => self.complete_items(place, items, nodes, errors, steps, out),
        }
    }

    /// What is made of a list at a place that it fits.
    #[cycle(execute)]
    fn complete_items<O: ObjectValue, L: Ledger, M: Output>(
        &self,
        place: &Place<'_, 's>,
        items: Listed<Result<ResolvedValue<O>, FieldError>>,
        nodes: &mut Listed<Node<'s>>,
        errors: &mut Listed<GraphQLError>,
        steps: &mut Steps<L>,
        out: &mut M,
    ) -> Result<Completed<M::Made>, Memory>
        requires ranked { (rank : ℕ → ℕ) × AreRanked self.now.request.document.now.fragments rank }
        requires planned { AreNodes (ground_in self.now) (sets_below place.now.group.now) nodes.old }
        requires named { IsNamed self.now.request.schema.now place.now }
        requires list { is_list place.now.ty.now ≡ true }
        ensures made { IfOk result (λ done.
            let w = world_of self.now O.type_of O.resolves in
            Makes w (IsWritten M.is_made out.old out.new done) (group_of place.now.group.now) errors.old errors.new
            (λ run. settled (spot_of place.now) (one_array (items_made w run (spot_of place.now) 0 (meanings_by O.seen items))))) }
        ensures planned { OnOk result (AreNodes (ground_in self.now) (sets_below place.now.group.now) nodes.new) }
        ensures grows { OnOk result (NodesGrow self.now steps.old steps.new nodes.old nodes.new (λ turn.
            let w = world_of self.now O.type_of O.resolves in
            opened.AnyGives w (opened_bridge.Turns w (sets_below place.now.group.now) turn) (places.item_type place.now.ty.now) (meanings_by O.seen items))) }
    {
        let count = items.len();
        let mut index = 0;
        let mut list = out.begin_list(count)?;
        for item in items {
            match self.complete_item(place, index, item, nodes, errors, steps, out)? {
                Completed::Value(value) => out.add_item(&mut list, value)?,
                Completed::LeftOut => {}
                Completed::NullPasses => {
                    out.drop_list(list);
                    return place.null(out);
                }
            }
            prove!(index < count);
            index += 1;
        }
        Ok(Completed::Value(out.end_list(list)?))
    }

    /// What is made of an item of the list at a place. One that failed nulls itself where its type may be null.
    #[cycle(execute)]
    fn complete_item<O: ObjectValue, L: Ledger, M: Output>(
        &self,
        list: &Place<'_, 's>,
        index: usize,
        item: Result<ResolvedValue<O>, FieldError>,
        nodes: &mut Listed<Node<'s>>,
        errors: &mut Listed<GraphQLError>,
        steps: &mut Steps<L>,
        out: &mut M,
    ) -> Result<Completed<M::Made>, Memory>
        requires ranked { (rank : ℕ → ℕ) × AreRanked self.now.request.document.now.fragments rank }
        requires planned { AreNodes (ground_in self.now) (sets_below list.now.group.now) nodes.old }
        requires named { IsNamed self.now.request.schema.now list.now }
        requires list { is_list list.now.ty.now ≡ true }
        ensures made { IfOk result (λ done.
            let w = world_of self.now O.type_of O.resolves in
            Makes w (IsWritten M.is_made out.old out.new done) (group_of list.now.group.now) errors.old errors.new
            (λ run. completed w run (item_spot (spot_of list.now) index) (item_by O.seen item))) }
        ensures planned { OnOk result (AreNodes (ground_in self.now) (sets_below list.now.group.now) nodes.new) }
        ensures grows { OnOk result (NodesGrow self.now steps.old steps.new nodes.old nodes.new
            (opened_bridge.MakesTurn (world_of self.now O.type_of O.resolves) (item_spot (spot_of list.now) index) (item_by O.seen item))) }
    {
        let around = Path::Below(list.around, list.step, list.ty);
        let place = Place {
            around: &around,
            step: Step::Item(index),
            ty: item_of(list.ty),
            group: list.group,
            named: list.named,
        };
        match item {
            Ok(resolved) => self.complete_value(&place, resolved, nodes, errors, steps, out),
            Err(error) => self.fail::<O, M>(&place, error, errors, out),
        }
    }
}
