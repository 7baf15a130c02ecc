//! Objects of an execution with introspection.

ghost use Rattle.std.specs.Prelude.{◌≡◌};
ghost use Rattle.gql_introspection.specs.Seen.{stands_for};
ghost use Rattle.gql_resolvers.specs.Meaning.{Answers};
ghost use Rattle.gql_resolvers.specs.ResolveInfo.{arguments_of, field_name_of, object_type_of, schema_of};
ghost use Rattle.gql_exec.specs.Mapped.{mapped};
ghost use Rattle.gql_exec.specs.bridge.Seen.{thing_by};
ghost use Rattle.gql_exec.specs.Thing.{of_library, of_user};
ghost use Rattle.gql_exec.specs.ThingMeaning.{own_meaning, root_meaning};

use crate::is_introspection;
use crate::standing::{Standing, answer};
use gql_introspection::{MetaObject, schema_field, type_field};
use gql_resolvers::{ObjectValue, ResolveError, ResolveInfo, ResolvedValue};
use gql_schema_types::{Schema, Valid};
use std::alloc::Global;

/// A user's object or one of introspection, asked under a schema (GraphQL October 2021, section 4).
///
/// On the root type of queries `__schema` gives the object of its schema, and `__type` that of the type that `name` names.
/// Any other field is as the object itself says.
#[derive(Drop)]
pub struct Introspected<'x, 'a, O> {
    schema: &'a Valid<Schema>,
    object: AnyObject<'x, 'a, O>,
}

/// An object of any kind.
#[derive(Drop)]
pub(crate) enum AnyObject<'x, 'a, O> {
    Lent(&'x O),
    Held(O),
    Library(MetaObject<'a>),
}

impl<'x, 'a, O: ObjectValue> Introspected<'x, 'a, O> {
    /// A user's object, from which an execution starts.
    #[must_use]
    pub fn root(schema: &'a Valid<Schema>, object: &'x O) -> Introspected<'x, 'a, O>
        ensures { thing_by O.seen result ≡ of_user schema.now (O.seen object.now) }
    {
        Introspected {
            schema,
            object: AnyObject::Lent(object),
        }
    }

    /// `__schema` or `__type` of the root type of queries.
    fn root_field(
        &self,
        alloc: Global,
        info: &ResolveInfo<'_>,
    ) -> Result<ResolvedValue<Introspected<'x, 'a, O>>, ResolveError>
        ensures { Answers (thing_by O.seen) result
            (mapped (of_library self.now.schema.now) (root_meaning self.now.schema.now (field_name_of info.now) (arguments_of info.now))) }
    {
        let kind = OfLibrary {
            schema: self.schema,
        };
        answer(alloc, &kind, tells(alloc, self.schema, info))
    }

    /// Any other field.
    #[inline(always)]
    fn own_field(
        &self,
        alloc: Global,
        info: &ResolveInfo<'_>,
    ) -> Result<ResolvedValue<Introspected<'x, 'a, O>>, ResolveError>
        ensures { Answers (thing_by O.seen) result
            (own_meaning O.resolves (schema_of info.now) (object_type_of info.now) (thing_by O.seen self.now) (field_name_of info.now) (arguments_of info.now)) }
    {
        match &self.object {
            AnyObject::Lent(object) => self.user_field(alloc, info, *object),
            AnyObject::Held(object) => self.user_field(alloc, info, object),
            AnyObject::Library(object) => {
                let kind = OfLibrary {
                    schema: self.schema,
                };
                answer(alloc, &kind, object.resolve_field(alloc, info))
            }
        }
    }

    /// That of a user's object.
    #[inline(always)]
    fn user_field(
        &self,
        alloc: Global,
        info: &ResolveInfo<'_>,
        object: &O,
    ) -> Result<ResolvedValue<Introspected<'x, 'a, O>>, ResolveError>
        ensures { Answers (thing_by O.seen) result (mapped (of_user self.now.schema.now)
            (O.resolves (schema_of info.now) (object_type_of info.now) (O.seen object.now) (field_name_of info.now) (arguments_of info.now))) }
    {
        let kind = OfUser {
            schema: self.schema,
        };
        answer(alloc, &kind, object.resolve_field(alloc, info))
    }
}

impl<'x, 'a, O: ObjectValue> ObjectValue for Introspected<'x, 'a, O> {
    ghost use Rattle.gql_exec.specs.bridge.Seen.{thing_by};
    ghost use Rattle.gql_exec.specs.Thing.{Thing, type_of_thing};
    ghost use Rattle.gql_exec.specs.ThingMeaning.{thing_meaning};

    ghost Seen = { Thing O.Seen };

    ghost seen = { thing_by O.seen };

    ghost type_of = { type_of_thing O.type_of };

    ghost resolves = { thing_meaning O.resolves };

    fn type_name(&self) -> &str {
        match &self.object {
            AnyObject::Lent(object) => object.type_name(),
            AnyObject::Held(object) => object.type_name(),
            AnyObject::Library(object) => object.type_name(),
        }
    }

    #[inline(always)]
    fn resolve_field(
        &self,
        alloc: Global,
        info: &ResolveInfo<'_>,
    ) -> Result<ResolvedValue<Introspected<'x, 'a, O>>, ResolveError> {
        if is_introspection(self.schema.as_ref(), info.object_type(), info.field_name()) {
            self.root_field(alloc, info)
        } else {
            self.own_field(alloc, info)
        }
    }
}

/// A user's objects, under a schema.
#[derive(Clone, Copy)]
struct OfUser<'a> {
    schema: &'a Valid<Schema>,
}

/// Those of introspection, under a schema.
#[derive(Clone, Copy)]
struct OfLibrary<'a> {
    schema: &'a Valid<Schema>,
}

impl<'x, 'a, O: ObjectValue> Standing<O, Introspected<'x, 'a, O>> for OfUser<'a> {
    ghost use Rattle.gql_exec.specs.bridge.Seen.{thing_by};
    ghost use Rattle.gql_exec.specs.Thing.{Thing, of_user};

    ghost Before = { O.Seen };

    ghost After = { Thing O.Seen };

    ghost sees = { O.seen };

    ghost shows = { thing_by O.seen };

    ghost stands = { λ kind x. of_user kind.schema.now x };

    fn stand(&self, object: O) -> Introspected<'x, 'a, O> {
        Introspected {
            schema: self.schema,
            object: AnyObject::Held(object),
        }
    }
}

impl<'x, 'a, O: ObjectValue> Standing<MetaObject<'a>, Introspected<'x, 'a, O>> for OfLibrary<'a> {
    ghost use Rattle.gql_exec.specs.bridge.Seen.{thing_by};
    ghost use Rattle.gql_exec.specs.Thing.{Thing, of_library};
    ghost use Rattle.gql_introspection.specs.Meta.{Meta};
    ghost use Rattle.gql_introspection.specs.Seen.{stands_for};

    ghost Before = { Meta };

    ghost After = { Thing O.Seen };

    ghost sees = { stands_for };

    ghost shows = { thing_by O.seen };

    ghost stands = { λ kind x. of_library kind.schema.now x };

    fn stand(&self, object: MetaObject<'a>) -> Introspected<'x, 'a, O> {
        Introspected {
            schema: self.schema,
            object: AnyObject::Library(object),
        }
    }
}

/// What `__schema` or `__type` tells of a schema.
fn tells<'a>(
    alloc: Global,
    schema: &'a Valid<Schema>,
    info: &ResolveInfo<'_>,
) -> Result<ResolvedValue<MetaObject<'a>>, ResolveError>
    ensures { Answers stands_for result (root_meaning schema.now (field_name_of info.now) (arguments_of info.now)) }
{
    if info.field_name() == "__schema" {
        Ok(schema_field(schema))
    } else {
        type_field(alloc, schema, info.arguments())
    }
}
