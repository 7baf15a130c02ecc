//! Objects of plain JSON data as resolvers.

ghost use Rattle.std.specs.Prelude.{◌≡◌, IsTrue, None};
ghost use Rattle.gql_resolvers.specs.DataMeaning as spec;
ghost use Rattle.gql_resolvers.specs.Meaning.{Answers, itself};
ghost use Rattle.gql_resolvers.specs.ResolveInfo.{field_name_of, object_type_of, schema_of};
ghost use Rattle.gql_schema_types.specs.Schemas.{field_of};
ghost use Rattle.jb_tree.specs.Value.{array_items, object_members};
ghost use Rattle.std.specs.Option.{option_copied};

use crate::data_shape::{DataShape, leaf};
use crate::resolve_error::ResolveError;
use crate::resolve_info::{FieldOnType, ResolveInfo};
use crate::resolved_value::ResolvedValue;
use crate::resolver::ObjectValue;
use gql_ast_base::Name;
use gql_schema_types::ExtendedType;
use jb_tree::{ByteString, Map, Value};
use std::alloc::Global;
use std::marker::Model;

/// An object of plain JSON data as a resolver (GraphQL October 2021, section 6.4.2): each field is the member of its name whatever
/// its arguments, null where it is absent, shaped by the field's type on the object type.
///
/// An object with a text member `__error` is a failure with that text. At the type of a list an array is a list of its
/// items, shaped in turn. At an object, an interface or a union type an object is an object of the type that its text
/// member `__typename` names, else of the field's named type. All else is a leaf.
#[derive(Drop)]
pub struct DataObject<'d> {
    type_name: ObjectName<'d>,
    members: &'d Map,
}

/// The name of an object's type: told by its data, or that of the type of the field that it stands at, whose text is
/// shared and not copied.
#[derive(Drop)]
pub(crate) enum ObjectName<'d> {
    Root,
    Told(&'d str),
    Taken(ByteString),
}

impl<'d> Model for DataObject<'d> {
    ghost use Rattle.gql_resolvers.specs.Data.{Data};
    ghost use Rattle.gql_resolvers.specs.DataName.{name_of};
    ghost use Rattle.jb_tree.specs.contracts.value.Value as json;
    ghost use Rattle.std.specs.Coded.{codes};

    ghost Value = { Data };

    ghost coded = { Prim.hlevel (codes, json.the_row.coded) };

    ghost view = { λ o. record { type_name = name_of o.type_name; members = o.members.now } };
}

impl<'d> DataObject<'d> {
    ghost use Rattle.std.specs.Prelude.{◌≡◌, []};
    ghost use Rattle.gql_resolvers.specs.DataName.{name_of};

    /// The root of the data, whose type name is empty.
    #[must_use]
    pub fn root(members: &'d Map) -> DataObject<'d>
        ensures { result ≡ record { type_name = []; members = members.now } }
    {
        DataObject {
            type_name: ObjectName::Root,
            members,
        }
    }

    /// The object with these members, of a type of this name.
    pub(crate) fn named(type_name: ObjectName<'d>, members: &'d Map) -> DataObject<'d>
        ensures { result ≡ record { type_name = name_of type_name.entry; members = members.now } }
    {
        DataObject { type_name, members }
    }
}

impl<'d> ObjectValue for DataObject<'d> {
    ghost use Rattle.gql_resolvers.specs.Data.{Data};
    ghost use Rattle.gql_resolvers.specs.DataMeaning.{data_meaning};
    ghost use Rattle.gql_resolvers.specs.Meaning.{itself};

    ghost Seen = { Data };

    ghost seen = { itself };

    ghost type_of = { λ o. o.type_name };

    ghost resolves = { data_meaning };

    fn type_name(&self) -> &str {
        match &self.type_name {
            ObjectName::Root => "",
            ObjectName::Told(name) => name,
            ObjectName::Taken(name) => name.as_str(),
        }
    }

    #[inline(always)]
    fn resolve_field(
        &self,
        alloc: Global,
        info: &ResolveInfo<'_>,
    ) -> Result<ResolvedValue<DataObject<'d>>, ResolveError> {
        match self.members.get(info.field_name()) {
            Some(value) => field_value(alloc, info, value),
            None => Ok(ResolvedValue::Leaf(Value::Null)),
        }
    }
}

/// A value of the data at the field that is asked for. A value that is no list and no object is a leaf at any field, so that
/// its definition is not asked for.
#[inline(always)]
fn field_value<'d>(
    alloc: Global,
    info: &ResolveInfo<'_>,
    value: &'d Value,
) -> Result<ResolvedValue<DataObject<'d>>, ResolveError>
    ensures { Answers itself result (spec.value_of (schema_of info.now)
        (field_of (schema_of info.now) (object_type_of info.now).name.text (field_name_of info.now)) value.now) }
{
    if is_simple(value) {
        return leaf(alloc, value);
    }
    value_at(alloc, info.on_object_type(), value)
}

/// Whether a value is no list and no object.
#[inline(always)]
fn is_simple(value: &Value) -> bool
    ensures { IsTrue result → (array_items value.now ≡ None) × (object_members value.now ≡ None) }
{
    !value.is_array() && !value.is_object()
}

/// A value of the data at a field.
#[inline(always)]
fn value_at<'d>(
    alloc: Global,
    field: FieldOnType<'_>,
    value: &'d Value,
) -> Result<ResolvedValue<DataObject<'d>>, ResolveError>
    ensures { Answers itself result (spec.value_at (option_copied field.entry.definition) (option_copied field.entry.named) value.now) }
{
    match field.definition {
        Some(definition) => {
            let composite = composite_name(field.named, definition.ty.inner_named_type());
            let shape = DataShape { alloc, composite };
            shape.shaped(&definition.ty, value)
        }
        None => {
            let shape = DataShape {
                alloc,
                composite: None,
            };
            shape.untyped(value)
        }
    }
}

/// The name, where it is that of an object, an interface or a union type, which is given as the schema has it.
#[inline(always)]
fn composite_name<'t>(named: Option<&ExtendedType>, name: &'t Name) -> Option<&'t Name>
    ensures { option_copied result ≡ spec.composite_name (option_copied named.entry) name.now }
{
    if is_composite(named) {
        Some(name)
    } else {
        None
    }
}

/// Whether this is an object, an interface or a union type.
#[inline(always)]
fn is_composite(ty: Option<&ExtendedType>) -> bool
    ensures { result ≡ spec.is_composite_type (option_copied ty.entry) }
{
    match ty {
        Some(ty) => ty.is_composite(),
        None => false,
    }
}
