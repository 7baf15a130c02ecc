//! What a user of the engine writes: the objects whose fields are resolved.

use crate::resolve_error::{FieldError, ResolveError};
use crate::resolve_info::ResolveInfo;
use crate::resolved_value::ResolvedValue;
use jb_text::{Memory, Text};
use std::alloc::Global;

/// An object of the data, which knows the name of its type and resolves its fields (GraphQL October 2021, section 6.4.2).
pub trait ObjectValue: Drop {
    ghost use Rattle.std.specs.Prelude.{◌≡◌, List, ℕ, IfOk};
    ghost use Rattle.gql_schema_types.specs.declared.schema.Schema.{Schema};
    ghost use Rattle.gql_schema_types.specs.declared.types.ObjectType.{ObjectType};
    ghost use Rattle.gql_resolvers.specs.Resolved.{Meaning};
    ghost use Rattle.gql_resolvers.specs.Meaning.{Members, Answers};
    ghost use Rattle.gql_resolvers.specs.ResolveInfo.{schema_of, object_type_of, field_name_of, arguments_of};
    ghost use Rattle.gql_resolvers.specs.UnknownField.{unknown_field};

    // What contracts see of an object, wherever in memory it and what it borrows from lie.
    ghost Seen: { Type 0 };

    ghost seen: { Self → Seen };

    // The name of an object's type.
    ghost type_of: { Seen → List ℕ };

    // What an object's field is: a matter of schema, object type, object, name and arguments alone.
    ghost resolves: { Schema → ObjectType → Seen → List ℕ → Members → Meaning Seen };

    /// The name of the object type that this object is of. The root of an execution is not asked.
    fn type_name(&self) -> &str
        ensures { result.now ≡ type_of (seen self.now) };

    /// The value of the field that `info` tells of, which depends on the schema, the object and its type, the field's name and its
    /// arguments alone.
    ///
    /// # Errors
    ///
    /// A failure of the resolver's own nulls the field and is listed as `resolver error: ` and its text. The other error is for
    /// when it is out of memory, and ends the execution so.
    fn resolve_field(
        &self,
        alloc: Global,
        info: &ResolveInfo<'_>,
    ) -> Result<ResolvedValue<Self>, ResolveError>
        ensures { Answers seen result
            (resolves (schema_of info.now) (object_type_of info.now) (seen self.now) (field_name_of info.now) (arguments_of info.now)) };

    /// The failure of a field that the object does not know: `unexpected field name: {name} in type {type}`. `Err` only
    /// when out of memory.
    fn unknown_field_error(
        &self,
        alloc: Global,
        info: &ResolveInfo<'_>,
    ) -> Result<FieldError, Memory>
        ensures { IfOk result (λ error. error.message ≡ unknown_field (field_name_of info.now) (type_of (seen self.now))) }
    {
        let field_name = info.field_name();
        let type_name = self.type_name();
        let message = Text::from_string(format!(in alloc;
            "unexpected field name: {field_name} in type {type_name}"
        )?);
        Ok(FieldError { message })
    }
}
