//! What is found at one place.

ghost use Rattle.std.specs.Prelude.{◌≡◌, ◌&&◌, IfOk, OnOk};
ghost use Rattle.gql_resolvers.specs.Fault.{told_at};
ghost use Rattle.gql_resolvers.specs.Resolved.{fails_with, gives_leaf, gives_skip};
ghost use Rattle.gql_resolvers.specs.bridge.Seen.{seen};
ghost use Rattle.gql_exec.specs.Asks.{fault_of};
ghost use Rattle.gql_exec.specs.bridge.Trails.{IsNamed, spot_of};
ghost use Rattle.gql_response_check.specs.bridge.Finds.{FindsAnswer, FindsFault, FindsOwn, NotesValue};
ghost use Rattle.gql_response_check.specs.bridge.Views.{fault_in};

use crate::error_at_place::tell_fault;
use crate::findings::Findings;
use crate::path_of_place::path_to;
use crate::reported::Reported;
use crate::walk::Checking;
use gql_coerce::ArgumentFault;
use gql_exec::Place;
use gql_resolvers::{FieldError, Misfit, ObjectValue, leaf_misfit, resolver_error};
use gql_response::RequestError;
use jb_text::Memory;
use jb_tree::Value;

impl<'s> Checking<'s> {
    /// Looks at a leaf at a place.
    pub(crate) fn check_leaf<O: ObjectValue>(
        &self,
        place: &Place<'_, '_>,
        leaf: &Value,
        reported: &Reported<'_, '_>,
        findings: &mut Findings,
    ) -> Result<bool, Memory>
        requires { IsNamed self.now.executing.request.schema.now place.now }
        ensures { IfOk result (FindsAnswer self.now.executing O.type_of O.resolves (spot_of place.now) (gives_leaf leaf.now)
            reported.now findings.old findings.new) }
    {
        match leaf_misfit(self.executing.alloc, place.named, place.ty, leaf)? {
            None => self.settle_place(place, false, reported.is_leaf(leaf), reported, findings),
            Some(misfit) => self.check_misfit(place, misfit, reported, findings),
        }
    }

    /// Looks at a place that is left out: whatever value the response has there is bad.
    pub(crate) fn check_skip<O: ObjectValue>(
        &self,
        place: &Place<'_, '_>,
        reported: &Reported<'_, '_>,
        findings: &mut Findings,
    ) -> Result<bool, Memory>
        ensures { IfOk result (FindsAnswer self.now.executing O.type_of O.resolves (spot_of place.now) gives_skip
            reported.now findings.old findings.new) }
    {
        self.settle_place(place, false, false, reported, findings)
    }

    /// Looks at a place whose answer does not fit it.
    pub(crate) fn check_misfit(
        &self,
        place: &Place<'_, '_>,
        misfit: Misfit,
        reported: &Reported<'_, '_>,
        findings: &mut Findings,
    ) -> Result<bool, Memory>
        ensures { IfOk result (FindsFault self.now.executing.request.document.now.sources (spot_of place.now) (told_at place.now.group.now.first.now.name.location (seen misfit))
            reported.now findings.old findings.new) }
    {
        let fault = RequestError {
            message: misfit.message,
            location: place.group.first.name.location(),
            is_suspected_validation_bug: misfit.suspected,
        };
        self.check_fault(place, &fault, reported, findings)
    }

    /// Looks at a place whose resolver fails.
    pub(crate) fn check_failure<O: ObjectValue>(
        &self,
        place: &Place<'_, '_>,
        error: &FieldError,
        reported: &Reported<'_, '_>,
        findings: &mut Findings,
    ) -> Result<bool, Memory>
        ensures { IfOk result (FindsAnswer self.now.executing O.type_of O.resolves (spot_of place.now) (fails_with error.now.message)
            reported.now findings.old findings.new) }
    {
        let fault = RequestError {
            message: resolver_error(self.executing.alloc, error.message.as_str())?,
            location: place.group.first.name.location(),
            is_suspected_validation_bug: false,
        };
        self.check_fault(place, &fault, reported, findings)
    }

    /// Looks at a place with a fault of an argument.
    pub(crate) fn check_argument(
        &self,
        place: &Place<'_, '_>,
        fault: ArgumentFault,
        reported: &Reported<'_, '_>,
        findings: &mut Findings,
    ) -> Result<bool, Memory>
        ensures { IfOk result (FindsFault self.now.executing.request.document.now.sources (spot_of place.now) (fault_of fault)
            reported.now findings.old findings.new) }
    {
        let fault = RequestError {
            message: fault.message,
            location: fault.location,
            is_suspected_validation_bug: fault.suspected,
        };
        self.check_fault(place, &fault, reported, findings)
    }

    /// Looks at a place with this fault, whose value is then null.
    fn check_fault(
        &self,
        place: &Place<'_, '_>,
        fault: &RequestError,
        reported: &Reported<'_, '_>,
        findings: &mut Findings,
    ) -> Result<bool, Memory>
        ensures { IfOk result (FindsFault self.now.executing.request.document.now.sources (spot_of place.now) (fault_in fault.now)
            reported.now findings.old findings.new) }
    {
        let sources = &self.executing.document().sources;
        let comes = tell_fault(sources, fault, reported.claims, findings);
        self.settle_place(place, comes, false, reported, findings)
    }

    /// Ends a place: whether a null comes to it, and whether its value is as it is given. A null is held where the place's type may be
    /// null, and else passes on; a value that is neither given nor a null that is held is bad.
    pub(crate) fn settle_place(
        &self,
        place: &Place<'_, '_>,
        comes: bool,
        given: bool,
        reported: &Reported<'_, '_>,
        findings: &mut Findings,
    ) -> Result<bool, Memory>
        ensures { IfOk result (FindsOwn (spot_of place.now) comes given reported.now findings.old findings.new) }
    {
        let strict = place.ty.is_non_null();
        self.judge_value(place, both(comes, !strict), given, reported, findings)?;
        Ok(both(comes, strict))
    }

    /// Notes the value at a place as bad, unless it is as it is given or a null that is held there. `Err` only when out of memory.
    fn judge_value(
        &self,
        place: &Place<'_, '_>,
        held: bool,
        given: bool,
        reported: &Reported<'_, '_>,
        findings: &mut Findings,
    ) -> Result<(), Memory>
        ensures { OnOk result (NotesValue (spot_of place.now) held given reported.now findings.old findings.new) }
    {
        if !reported.is_bad(held, given) {
            return Ok(());
        }
        findings.note_bad(path_to(self.executing.alloc, place)?);
        Ok(())
    }
}

/// Whether both hold.
fn both(one: bool, other: bool) -> bool
    ensures { result ≡ (one && other) }
{
    one && other
}
