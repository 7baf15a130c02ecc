//! Errors that are listed at places, and leaves.

ghost use Rattle.std.specs.Prelude.{◌∷◌, [], None, IfOk};
ghost use Rattle.gql_resolvers.specs.bridge.Seen.{seen};
ghost use Rattle.gql_resolvers.specs.Execute.{completed, settled};
ghost use Rattle.gql_resolvers.specs.Fault.{fault_error, told_at};
ghost use Rattle.gql_resolvers.specs.Resolved.{fails_with, gives_leaf};
ghost use Rattle.gql_exec.specs.Asks.{fault_of};
ghost use Rattle.gql_exec.specs.bridge.Executed.{IsMade, Makes};
ghost use Rattle.gql_exec.specs.bridge.Executing.{world_of};
ghost use Rattle.gql_exec.specs.bridge.Output.{Finds, IsWritten};
ghost use Rattle.gql_exec.specs.Trails.{group_of};
ghost use Rattle.gql_exec.specs.bridge.Trails.{IsNamed, spot_of};

use crate::completed::Completed;
use crate::executing::Executing;
use crate::output::Output;
use crate::place::Place;
use gql_coerce::ArgumentFault;
use gql_resolvers::{FieldError, Misfit, ObjectValue, leaf_misfit, resolver_error};
use gql_response::{GraphQLError, RequestError};
use jb_text::{Listed, Memory};
use jb_tree::Value;

impl<'s> Executing<'s> {
    /// What is made of a leaf at a place.
    pub(crate) fn complete_leaf<O: ObjectValue, M: Output>(
        &self,
        place: &Place<'_, '_>,
        value: Value,
        errors: &mut Listed<GraphQLError>,
        out: &mut M,
    ) -> Result<Completed<M::Made>, Memory>
        requires { IsNamed self.now.request.schema.now place.now }
        ensures { IfOk result (λ done.
            let w = world_of self.now O.type_of O.resolves in
            Makes w (IsWritten M.is_made out.old out.new done) (group_of place.now.group.now) errors.old errors.new
            (λ run. completed w run (spot_of place.now) (gives_leaf value))) }
    {
        match leaf_misfit(self.alloc, place.named, place.ty, &value)? {
            None => Ok(Completed::Value(out.value(value)?)),
            Some(misfit) => self.refuse::<O, M>(place, misfit, errors, out),
        }
    }

    /// Lists what is wrong with an answer at a place, whose value is then null.
    pub(crate) fn refuse<O: ObjectValue, M: Output>(
        &self,
        place: &Place<'_, '_>,
        misfit: Misfit,
        errors: &mut Listed<GraphQLError>,
        out: &mut M,
    ) -> Result<Completed<M::Made>, Memory>
        ensures { IfOk result (λ done.
            let w = world_of self.now O.type_of O.resolves in
            let spot = spot_of place.now in
            Finds (IsWritten M.is_made out.old out.new done) (λ found. IsMade found errors.old errors.new
            (settled spot (None, fault_error w spot (told_at (w.span_of spot.group) (seen misfit)) ∷ [])))) }
    {
        let fault = RequestError {
            message: misfit.message,
            location: place.group.first.name.location(),
            is_suspected_validation_bug: misfit.suspected,
        };
        place.list(self.alloc, &self.document().sources, fault, errors)?;
        place.null(out)
    }

    /// Lists a resolver's failure at a place, whose value is then null.
    pub(crate) fn fail<O: ObjectValue, M: Output>(
        &self,
        place: &Place<'_, '_>,
        error: FieldError,
        errors: &mut Listed<GraphQLError>,
        out: &mut M,
    ) -> Result<Completed<M::Made>, Memory>
        ensures { IfOk result (λ done.
            let w = world_of self.now O.type_of O.resolves in
            Makes w (IsWritten M.is_made out.old out.new done) (group_of place.now.group.now) errors.old errors.new
            (λ run. completed w run (spot_of place.now) (fails_with error.message))) }
    {
        let fault = RequestError {
            message: resolver_error(self.alloc, error.message.as_str())?,
            location: place.group.first.name.location(),
            is_suspected_validation_bug: false,
        };
        place.list(self.alloc, &self.document().sources, fault, errors)?;
        place.null(out)
    }

    /// Lists the fault of an argument at a place, whose value is then null.
    pub(crate) fn refuse_argument<O: ObjectValue, M: Output>(
        &self,
        place: &Place<'_, '_>,
        fault: ArgumentFault,
        errors: &mut Listed<GraphQLError>,
        out: &mut M,
    ) -> Result<Completed<M::Made>, Memory>
        ensures { IfOk result (λ done.
            let w = world_of self.now O.type_of O.resolves in
            let spot = spot_of place.now in
            Finds (IsWritten M.is_made out.old out.new done)
            (λ found. IsMade found errors.old errors.new (settled spot (None, fault_error w spot (fault_of fault) ∷ [])))) }
    {
        let fault = RequestError {
            message: fault.message,
            location: fault.location,
            is_suspected_validation_bug: fault.suspected,
        };
        place.list(self.alloc, &self.document().sources, fault, errors)?;
        place.null(out)
    }
}
