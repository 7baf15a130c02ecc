//! What definitions of types hold: fields, arguments, enum values and lists of names.

use crate::trees::description::Description;
use crate::trees::values::{default_value, directives, type_line};
use gql_ast::{EnumValueDefinition, FieldDefinition, InputValueDefinition, Name};
use jb_text::Listed;

pub(crate) fn names(out: &mut Description<'_>, field: &str, names: &Listed<Name>) {
    for name in names.as_slice() {
        out.name(field, name);
    }
}

pub(crate) fn fields(out: &mut Description<'_>, fields: &Listed<FieldDefinition>) {
    for field in fields.as_slice() {
        out.open("field", field.location);
        out.description(&field.description);
        out.name("name", &field.name);
        input_values(out, "argument", &field.arguments);
        type_line(out, &field.ty);
        directives(out, &field.directives);
        out.close();
    }
}

pub(crate) fn input_values(
    out: &mut Description<'_>,
    field: &str,
    values: &Listed<InputValueDefinition>,
) {
    for value in values.as_slice() {
        out.open(field, value.location);
        out.description(&value.description);
        out.name("name", &value.name);
        type_line(out, &value.ty);
        default_value(out, &value.default_value);
        directives(out, &value.directives);
        out.close();
    }
}

pub(crate) fn enum_values(out: &mut Description<'_>, values: &Listed<EnumValueDefinition>) {
    for value in values.as_slice() {
        out.open("value", value.location);
        out.description(&value.description);
        out.name("value", &value.value);
        directives(out, &value.directives);
        out.close();
    }
}
