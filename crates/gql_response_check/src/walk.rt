//! The walk along data and along the paths of listed errors, beside the cycle of execution: ExecuteSelectionSet, ExecuteField and
//! CompleteValue (GraphQL October 2021, sections 6.3 and 6.4).

ghost use Rattle.std.specs.Prelude.{◌≡◌, ℕ, List, is_some, true, IfOk, OnOk};
ghost use Rattle.std.specs.Option.{option_copied};
ghost use Rattle.gql_document_types.specs.Ranks.{AreRanked};
ghost use Rattle.gql_document_types.specs.declared.selection.Selection.{Selection};
ghost use Rattle.gql_resolvers.specs.Lists.{is_list};
ghost use Rattle.gql_resolvers.specs.Meaning.{item_by, meaning_by, meanings_by};
ghost use Rattle.gql_resolvers.specs.Resolved.{gives_list, gives_object};
ghost use Rattle.gql_collect.specs.Plan.{fields_in, groups_in};
ghost use Rattle.gql_collect.specs.bridge.Plan.{AreNodes, ArePartsOf, HaveNodes, IsPlanned, IsTyped, sets_below};
ghost use Rattle.gql_exec.specs.bridge.Planning.{ground_in};
ghost use Rattle.gql_exec.specs.Trails.{group_of};
ghost use Rattle.gql_exec.specs.bridge.Trails.{IsNamed, spot_of, trail_of};
ghost use Rattle.gql_schema_types.specs.Schemas.{field_of};
ghost use Rattle.gql_response_check.specs.bridge.Finds.{FindsAnswer, FindsField, FindsItem, FindsItems, FindsMembers, FindsParts};
ghost use Rattle.gql_response_check.specs.bridge.Views.{claims_of};

use crate::claim::Claim;
use crate::findings::{Findings, either};
use crate::reported::{Reported, item_at, member_at};
use crate::shares::{IndexShares, KeyShares};
use gql_collect::{Node, Part, PlannedField, Steps};
use gql_exec::{Asked, Executing, Path, Place, Step, item_of};
use gql_resolvers::{FieldError, ObjectValue, ResolvedValue, fitting_object, list_misfit};
use gql_schema_types::ObjectType;
use jb_text::{Listed, Memory, Refused};
use jb_tree::{Map, Value};
use std::alloc::AllocError;
use std::sync::ledger::Ledger;

/// What stays the same throughout a walk: that of the execution beside it.
#[derive(Clone, Copy)]
pub(crate) struct Checking<'s> {
    pub executing: Executing<'s>,
}

impl<'s> Checking<'s> {
    /// Looks at the parts of selection sets on an object of this type, and at the members that the data have there, where they
    /// have the keys of the parts in order. Gives whether the null of a listed fault passes out of them.
    #[cycle(check)]
    pub(crate) fn check_parts<'r, O: ObjectValue, L: Ledger>(
        &self,
        object_type: &ObjectType,
        object: &O,
        path: &Path<'_>,
        parts: &mut Listed<Part<'s>>,
        members: Option<&'r Map>,
        claims: &[Claim<'r>],
        findings: &mut Findings,
        steps: &mut Steps<L>,
    ) -> Result<bool, Memory>
        requires ranked { (rank : ℕ → ℕ) × AreRanked self.now.executing.request.document.now.fragments rank }
        requires planned { (sets : List (List Selection)) × ArePartsOf (ground_in self.now.executing) object_type.now sets parts.old }
        ensures found { IfOk result (FindsParts self.now.executing O.type_of O.resolves object_type.now (O.seen object.now) (trail_of path.now)
            (groups_in parts.old) (option_copied members.entry) (claims_of claims.now) findings.old findings.new) }
        ensures same { OnOk result (fields_in parts.new ≡ fields_in parts.old) }
        ensures planned { OnOk result (HaveNodes (ground_in self.now.executing) parts.new) }
    {
        let shares = KeyShares::new(self.executing.alloc, claims)?;
        let mut passes = false;
        for number in 0..parts.len() {
            // There is a part of each number below their count.
            let Some(part) = parts.get_mut(number) else {
                return Err(AllocError);
            };
            let reported = Reported {
                value: member_at(members, number),
                claims: shares.of(part.field.group.key()),
            };
            let comes = self.check_field(
                object_type,
                object,
                path,
                &part.field,
                &mut part.nodes,
                &reported,
                findings,
                steps,
            )?;
            passes = either(passes, comes);
        }
        Ok(passes)
    }

    /// Looks at a group on an object of this type. Nothing is asked where the response has nothing there.
    #[cycle(check)]
    fn check_field<O: ObjectValue, L: Ledger>(
        &self,
        object_type: &ObjectType,
        object: &O,
        path: &Path<'_>,
        field: &PlannedField<'s>,
        nodes: &mut Listed<Node<'s>>,
        reported: &Reported<'_, '_>,
        findings: &mut Findings,
        steps: &mut Steps<L>,
    ) -> Result<bool, Memory>
        requires ranked { (rank : ℕ → ℕ) × AreRanked self.now.executing.request.document.now.fragments rank }
        requires planned { AreNodes (ground_in self.now.executing) (sets_below field.now.group) nodes.old }
        requires asked { IsPlanned (ground_in self.now.executing) object_type.now field.now }
        requires defined { is_some (field_of self.now.executing.request.schema.now object_type.now.name.text field.now.group.first.now.name.text) ≡ true }
        ensures found { IfOk result (FindsField self.now.executing O.type_of O.resolves object_type.now (O.seen object.now) (trail_of path.now)
            (group_of field.now.group) reported.now findings.old findings.new) }
        ensures planned { OnOk result (AreNodes (ground_in self.now.executing) (sets_below field.now.group) nodes.new) }
    {
        if reported.is_idle() {
            return Ok(false);
        }
        // The way is lent again, for as long as the group.
        let place = Place {
            around: &*path,
            step: Step::Key(field.group.key()),
            ty: &field.definition.ty,
            group: &field.group,
            named: field.named,
        };
        match self.executing.ask(object_type, object, field)? {
            Asked::Gave(resolved) => {
                self.check_value(&place, resolved, nodes, reported, findings, steps)
            }
            Asked::Failed(error) => self.check_failure::<O>(&place, &error, reported, findings),
            Asked::Refused(fault) => self.check_argument(&place, fault, reported, findings),
        }
    }

    /// Looks at a resolved value at a place.
    #[cycle(check)]
    fn check_value<O: ObjectValue, L: Ledger>(
        &self,
        place: &Place<'_, 's>,
        resolved: ResolvedValue<O>,
        nodes: &mut Listed<Node<'s>>,
        reported: &Reported<'_, '_>,
        findings: &mut Findings,
        steps: &mut Steps<L>,
    ) -> Result<bool, Memory>
        requires ranked { (rank : ℕ → ℕ) × AreRanked self.now.executing.request.document.now.fragments rank }
        requires planned { AreNodes (ground_in self.now.executing) (sets_below place.now.group.now) nodes.old }
        requires named { IsNamed self.now.executing.request.schema.now place.now }
        ensures found { IfOk result (FindsAnswer self.now.executing O.type_of O.resolves (spot_of place.now) (meaning_by O.seen resolved)
            reported.now findings.old findings.new) }
        ensures planned { OnOk result (AreNodes (ground_in self.now.executing) (sets_below place.now.group.now) nodes.new) }
    {
        match resolved {
            ResolvedValue::Leaf(value) => self.check_leaf::<O>(place, &value, reported, findings),
            ResolvedValue::Object(object) => {
                self.check_object(place, &object, nodes, reported, findings, steps)
            }
            ResolvedValue::List(items) => {
                self.check_list(place, items, nodes, reported, findings, steps)
            }
            ResolvedValue::SkipForPartialExecution => {
                self.check_skip::<O>(place, reported, findings)
            }
        }
    }

    /// Looks at an object at a place.
    #[cycle(check)]
    fn check_object<O: ObjectValue, L: Ledger>(
        &self,
        place: &Place<'_, 's>,
        object: &O,
        nodes: &mut Listed<Node<'s>>,
        reported: &Reported<'_, '_>,
        findings: &mut Findings,
        steps: &mut Steps<L>,
    ) -> Result<bool, Memory>
        requires ranked { (rank : ℕ → ℕ) × AreRanked self.now.executing.request.document.now.fragments rank }
        requires planned { AreNodes (ground_in self.now.executing) (sets_below place.now.group.now) nodes.old }
        requires named { IsNamed self.now.executing.request.schema.now place.now }
        ensures found { IfOk result (FindsAnswer self.now.executing O.type_of O.resolves (spot_of place.now) (gives_object (O.seen object.now))
            reported.now findings.old findings.new) }
        ensures planned { OnOk result (AreNodes (ground_in self.now.executing) (sets_below place.now.group.now) nodes.new) }
    {
        match fitting_object(
            self.executing.alloc,
            self.executing.schema(),
            place.named,
            place.ty,
            object.type_name(),
        ) {
            Ok(object_type) => self.check_typed(
                place,
                object_type,
                object,
                nodes,
                reported,
                findings,
                steps,
            ),
            Err(Refused::Fault(misfit)) => { self.check_misfit(place, misfit, reported, findings) }
            Err(Refused::Memory) => Err(AllocError),
        }
    }

    /// Looks at an object of this type at a place that it fits.
    #[cycle(check)]
    fn check_typed<O: ObjectValue, L: Ledger>(
        &self,
        place: &Place<'_, 's>,
        object_type: &'s ObjectType,
        object: &O,
        nodes: &mut Listed<Node<'s>>,
        reported: &Reported<'_, '_>,
        findings: &mut Findings,
        steps: &mut Steps<L>,
    ) -> Result<bool, Memory>
        requires ranked { (rank : ℕ → ℕ) × AreRanked self.now.executing.request.document.now.fragments rank }
        requires planned { AreNodes (ground_in self.now.executing) (sets_below place.now.group.now) nodes.old }
        requires typed { IsTyped self.now.executing.request.schema.now object_type.now }
        ensures found { IfOk result (FindsMembers self.now.executing O.type_of O.resolves (spot_of place.now) object_type.now (O.seen object.now)
            reported.now findings.old findings.new) }
        ensures planned { OnOk result (AreNodes (ground_in self.now.executing) (sets_below place.now.group.now) nodes.new) }
    {
        let number = self
            .executing
            .planner()
            .node_number(object_type, place.group, nodes, steps)?;
        // There is a node of that number.
        let Some(node) = nodes.get_mut(number) else {
            return Err(AllocError);
        };
        let members = reported.members(&node.parts);
        let path = Path::Below(place.around, place.step, place.ty);
        let passes = self.check_parts(
            object_type,
            object,
            &path,
            &mut node.parts,
            members,
            reported.claims,
            findings,
            steps,
        )?;
        self.settle_place(place, passes, members.is_some(), reported, findings)
    }

    /// Looks at a list at a place.
    #[cycle(check)]
    fn check_list<O: ObjectValue, L: Ledger>(
        &self,
        place: &Place<'_, 's>,
        items: Listed<Result<ResolvedValue<O>, FieldError>>,
        nodes: &mut Listed<Node<'s>>,
        reported: &Reported<'_, '_>,
        findings: &mut Findings,
        steps: &mut Steps<L>,
    ) -> Result<bool, Memory>
        requires ranked { (rank : ℕ → ℕ) × AreRanked self.now.executing.request.document.now.fragments rank }
        requires planned { AreNodes (ground_in self.now.executing) (sets_below place.now.group.now) nodes.old }
        requires named { IsNamed self.now.executing.request.schema.now place.now }
        ensures found { IfOk result (FindsAnswer self.now.executing O.type_of O.resolves (spot_of place.now) (gives_list (meanings_by O.seen items))
            reported.now findings.old findings.new) }
        ensures planned { OnOk result (AreNodes (ground_in self.now.executing) (sets_below place.now.group.now) nodes.new) }
    {
        match list_misfit(self.executing.alloc, place.ty)? {
            Some(misfit) => self.check_misfit(place, misfit, reported, findings),
            None => {
                let values = reported.items(items.len());
                let given = values.is_some();
                let passes = self.check_items(
                    place,
                    items,
                    nodes,
                    values,
                    reported.claims,
                    findings,
                    steps,
                )?;
                self.settle_place(place, passes, given, reported, findings)
            }
        }
    }

    /// Looks at the items of a list at a place that it fits, and at the values that the data have there, where they are as many.
    #[cycle(check)]
    fn check_items<'r, O: ObjectValue, L: Ledger>(
        &self,
        place: &Place<'_, 's>,
        items: Listed<Result<ResolvedValue<O>, FieldError>>,
        nodes: &mut Listed<Node<'s>>,
        values: Option<&'r Listed<Value>>,
        claims: &[Claim<'r>],
        findings: &mut Findings,
        steps: &mut Steps<L>,
    ) -> Result<bool, Memory>
        requires ranked { (rank : ℕ → ℕ) × AreRanked self.now.executing.request.document.now.fragments rank }
        requires planned { AreNodes (ground_in self.now.executing) (sets_below place.now.group.now) nodes.old }
        requires named { IsNamed self.now.executing.request.schema.now place.now }
        requires list { is_list place.now.ty.now ≡ true }
        ensures found { IfOk result (FindsItems self.now.executing O.type_of O.resolves (spot_of place.now) (meanings_by O.seen items) (option_copied values.entry) (claims_of claims.now)
            findings.old findings.new) }
        ensures planned { OnOk result (AreNodes (ground_in self.now.executing) (sets_below place.now.group.now) nodes.new) }
    {
        let count = items.len();
        let shares = IndexShares::new(self.executing.alloc, claims, count)?;
        let mut passes = false;
        let mut index = 0;
        for item in items {
            let reported = Reported {
                value: item_at(values, index),
                claims: shares.of(index),
            };
            let comes = self.check_item(place, index, item, nodes, &reported, findings, steps)?;
            passes = either(passes, comes);
            prove!(index < count);
            index += 1;
        }
        Ok(passes)
    }

    /// Looks at an item of the list at a place. Nothing is compared where the response has nothing there.
    #[cycle(check)]
    fn check_item<O: ObjectValue, L: Ledger>(
        &self,
        list: &Place<'_, 's>,
        index: usize,
        item: Result<ResolvedValue<O>, FieldError>,
        nodes: &mut Listed<Node<'s>>,
        reported: &Reported<'_, '_>,
        findings: &mut Findings,
        steps: &mut Steps<L>,
    ) -> Result<bool, Memory>
        requires ranked { (rank : ℕ → ℕ) × AreRanked self.now.executing.request.document.now.fragments rank }
        requires planned { AreNodes (ground_in self.now.executing) (sets_below list.now.group.now) nodes.old }
        requires named { IsNamed self.now.executing.request.schema.now list.now }
        requires list { is_list list.now.ty.now ≡ true }
        ensures found { IfOk result (FindsItem self.now.executing O.type_of O.resolves (spot_of list.now) index (item_by O.seen item)
            reported.now findings.old findings.new) }
        ensures planned { OnOk result (AreNodes (ground_in self.now.executing) (sets_below list.now.group.now) nodes.new) }
    {
        if reported.is_idle() {
            return Ok(false);
        }
        let around = Path::Below(list.around, list.step, list.ty);
        let place = Place {
            around: &around,
            step: Step::Item(index),
            ty: item_of(list.ty),
            group: list.group,
            named: list.named,
        };
        match item {
            Ok(resolved) => self.check_value(&place, resolved, nodes, reported, findings, steps),
            Err(error) => self.check_failure::<O>(&place, &error, reported, findings),
        }
    }
}
