//! A place of the response that is executed.

ghost use Rattle.std.specs.Prelude.{◌≡◌, [], ◌∷◌, ◌++◌, IfOk, OnOk};
ghost use Rattle.gql_resolvers.specs.Types as places;
ghost use Rattle.gql_exec.specs.bridge.Output.{IsWritten};
ghost use Rattle.gql_exec.specs.bridge.Trails as spec;

use crate::completed::Completed;
use crate::output::Output;
use crate::path::{Path, Step};
use gql_ast_base::TypeRef;
use gql_collect::Group;
use gql_response::{GraphQLError, RequestError, ResponseDataPathSegment};
use gql_schema_types::ExtendedType;
use gql_source::SourceMap;
use jb_text::{Listed, Memory};
use jb_tree::Value;
use std::alloc::Global;

/// A place: what is around it, the last step to it, its type, and the group of its field, whose fields are the document's.
#[derive(Clone, Copy)]
pub struct Place<'p, 's> {
    pub around: &'p Path<'p>,
    pub step: Step<'p>,
    pub ty: &'p TypeRef,
    pub group: &'p Group<'s>,
    /// The type of the schema that the place's type names, within all lists.
    pub named: Option<&'s ExtendedType>,
}

impl<'p, 's> Place<'p, 's> {
    /// The steps from the root. `Err` only when out of memory.
    fn to_segments(&self, alloc: Global) -> Result<Listed<ResponseDataPathSegment>, Memory>
        ensures { IfOk result (λ segments. segments ≡ spec.place_path self.now) }
    {
        let mut segments = self.around.to_segments(alloc)?;
        segments.push(self.step.to_segment(alloc)?)?;
        Ok(segments)
    }

    /// The error of a fault at this place. Its line and column are looked up in the files. `Err` only when out of memory.
    pub fn error_of(
        &self,
        alloc: Global,
        sources: &SourceMap,
        fault: RequestError,
    ) -> Result<GraphQLError, Memory>
        ensures { IfOk result (λ error. error ≡ spec.listed_at sources.now (spec.place_path self.now) fault) }
    {
        let mut error = fault.to_graphql_error(alloc, sources)?;
        error.path = self.to_segments(alloc)?;
        Ok(error)
    }

    /// Lists the error of a fault at this place. `Err` only when out of memory.
    pub(crate) fn list(
        &self,
        alloc: Global,
        sources: &SourceMap,
        fault: RequestError,
        errors: &mut Listed<GraphQLError>,
    ) -> Result<(), Memory>
        ensures { OnOk result (errors.new ≡ errors.old ++ spec.listed_at sources.now (spec.place_path self.now) fault ∷ []) }
    {
        let error = self.error_of(alloc, sources, fault)?;
        errors.push(error)
    }

    /// A null that comes to this place: it is made, or it is passed on where the type rules it out. `Err` only when out of
    /// memory.
    pub(crate) fn null<M: Output>(&self, out: &mut M) -> Result<Completed<M::Made>, Memory>
        ensures { IfOk result (λ done. IsWritten M.is_made out.old out.new done (spec.null_at self.now.ty.now)) }
    {
        if self.ty.is_non_null() {
            Ok(Completed::NullPasses)
        } else {
            Ok(Completed::Value(out.value(Value::Null)?))
        }
    }
}

/// The type of a list's items; at no list's type it stands for itself.
pub fn item_of(ty: &TypeRef) -> &TypeRef
    ensures { result.now ≡ places.item_type ty.now }
{
    match ty.item_type() {
        Some(item) => item,
        None => ty,
    }
}
