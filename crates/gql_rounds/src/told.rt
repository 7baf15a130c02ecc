//! The resolver that a table of answers is.

ghost use Rattle.std.specs.Prelude.{◌≡◌, []};
ghost use Rattle.gql_exec.specs.Mapped.{mapped};
ghost use Rattle.gql_rounds.specs.Known.{beside, entity_of};
ghost use Rattle.gql_rounds.specs.ToldMeaning as spec;
ghost use Rattle.gql_resolvers.specs.Meaning.{Answers as Gives};
ghost use Rattle.gql_resolvers.specs.DataMeaning.{is_composite_type};
ghost use Rattle.std.specs.Option.{option_copied};
ghost use Rattle.gql_resolvers.specs.ResolveInfo.{field_name_of, object_type_of, schema_of};
ghost use Rattle.gql_schema_types.specs.Schemas.{field_of};

use crate::answers::Answers;
use crate::ask::answer_key;
use crate::told_value::ToldValue;
use gql_resolvers::{ObjectValue, ResolveError, ResolveInfo, ResolvedValue};
use gql_schema_types::ExtendedType;
use jb_tree::Value;
use std::alloc::Global;

/// An object of a caller's, whose fields are what a table of answers tells of it. A field that was not told is left out.
///
/// At an object, an interface or a union type a value `{"object": 7, "type": "Book"}` is an object of the caller's: its number and
/// the name of its type. At the type of a list an array is a list of its items, and a value with a text member `__error` is a failure
/// with that text. All else is a leaf.
#[derive(Clone, Copy)]
pub struct Told<'t> {
    pub(crate) answers: &'t Answers,
    pub(crate) number: u64,
    pub(crate) type_name: &'t str,
}

impl<'t> Told<'t> {
    /// The root, whose number is 0, and whose type is that of the operation.
    #[must_use]
    pub fn root(answers: &'t Answers) -> Told<'t>
        ensures { entity_of result ≡ beside answers.now (record { number = 0; type_name = [] }) }
    {
        Told {
            answers,
            number: 0,
            type_name: "",
        }
    }
}

impl<'t> ObjectValue for Told<'t> {
    ghost use Rattle.gql_rounds.specs.Known.{Entity, entity_of, type_of_entity};
    ghost use Rattle.gql_rounds.specs.ToldMeaning.{told};

    ghost Seen = { Entity };

    ghost seen = { entity_of };

    ghost type_of = { type_of_entity };

    ghost resolves = { told };

    fn type_name(&self) -> &str {
        self.type_name
    }

    fn resolve_field(
        &self,
        alloc: Global,
        info: &ResolveInfo<'_>,
    ) -> Result<ResolvedValue<Told<'t>>, ResolveError> {
        let key = answer_key(alloc, self.number, info.field_name(), info.arguments())?;
        match self.answers.find(key.as_str()) {
            Some(value) => field_value(alloc, self.answers, info, value),
            None => Ok(ResolvedValue::SkipForPartialExecution),
        }
    }
}

/// A value that was told of the field that is asked for.
fn field_value<'t>(
    alloc: Global,
    answers: &'t Answers,
    info: &ResolveInfo<'_>,
    value: &'t Value,
) -> Result<ResolvedValue<Told<'t>>, ResolveError>
    ensures { Gives entity_of result (mapped (beside answers.now) (spec.value_at (schema_of info.now)
        (field_of (schema_of info.now) (object_type_of info.now).name.text (field_name_of info.now)) value.now)) }
{
    let schema = info.schema().as_ref();
    match schema.type_field(info.object_type().name.as_str(), info.field_name()) {
        Some(definition) => {
            let composite = is_composite(schema.type_named_by(&definition.ty));
            let told = ToldValue {
                alloc,
                answers,
                composite,
            };
            told.value(&definition.ty, value)
        }
        None => Ok(ResolvedValue::Leaf(value.copy(alloc)?)),
    }
}

/// Whether this is an object, an interface or a union type.
fn is_composite(ty: Option<&ExtendedType>) -> bool
    ensures { result ≡ is_composite_type (option_copied ty.entry) }
{
    match ty {
        Some(ty) => ty.is_composite(),
        None => false,
    }
}
