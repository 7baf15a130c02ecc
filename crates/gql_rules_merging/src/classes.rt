//! Classes of fields that are alike but for their places. Where many fields of one response key stand in a set, of each class one
//! is compared.

ghost use Rattle.std.specs.Prelude.{◌≡◌, true, IfOk};
ghost use Rattle.std.specs.Option.{option_copied};
ghost use Rattle.gql_rules_merging.specs.bridge.Classes as spec;
ghost use Rattle.gql_rules_merging.specs.bridge.ClassSteps as step;
ghost use Rattle.gql_rules_merging.specs.bridge.Gathering.{fields_of, selected_of};

use crate::conflicting_field_argument::have_same_arguments;
use crate::conflicting_field_type::same_levels;
use crate::description::write_head;
use crate::numbering::Selected;
use itoa::Buffer;
use jb_map::Pairs;
use jb_text::{ByteString, Memory};
use std::alloc::Global;

/// The class of each field, called after the first of its fields. The time is linear in the fields and what is selected in them.
pub(crate) fn classes_of(
    alloc: Global,
    base: usize,
    fields: &[Selected<'_>],
) -> Result<Vec<usize>, Memory>
    ensures { IfOk result (λ classes. spec.AreClasses base (fields_of fields.now) classes.items) }
{
    let mut firsts = Pairs::new(alloc);
    let mut classes = Vec::new(alloc);
    for field in fields {
        let class = class_for(alloc, base, fields, classes.as_slice(), field, &mut firsts)?;
        classes.push(class)?;
    }
    Ok(classes)
}

/// The class of the next field: that of a field that is like it, or its own.
fn class_for(
    alloc: Global,
    base: usize,
    fields: &[Selected<'_>],
    classes: &[usize],
    field: &Selected<'_>,
    firsts: &mut Pairs<usize>,
) -> Result<usize, Memory>
    ensures { IfOk result (λ class. step.IsClassFor base classes.now (fields_of fields.now) (selected_of field.now) class) }
{
    let number = classes.len();
    let text = description(alloc, base, classes, field)?;
    match firsts.get(text.as_str()) {
        Some(first) => Ok(like_or_own(base, fields, classes, field, *first, number)),
        None => {
            let key = ByteString::from_text(alloc, text.as_str())?;
            firsts.insert_new(key, number)?;
            Ok(number)
        }
    }
}

/// The number of the first field if this one is like it, or else its own.
fn like_or_own(
    base: usize,
    fields: &[Selected<'_>],
    classes: &[usize],
    field: &Selected<'_>,
    first: usize,
    number: usize,
) -> usize
    ensures { result ≡ step.like_or_own base classes.now (fields_of fields.now) (selected_of field.now) first number }
{
    if is_like_at(base, fields, classes, field, first) {
        first
    } else {
        number
    }
}

/// A text that fields which are like each other share.
fn description(
    alloc: Global,
    base: usize,
    classes: &[usize],
    field: &Selected<'_>,
) -> Result<String, Memory> {
    let mut text = String::new(alloc);
    write_head(alloc, field, &mut text)?;
    for item in field.items.as_slice() {
        describe_item(base, classes, *item, &mut text)?;
    }
    Ok(text)
}

/// Writes the number of a fragment, or the class of a field.
fn describe_item(
    base: usize,
    classes: &[usize],
    item: usize,
    text: &mut String,
) -> Result<(), Memory> {
    let mut buffer = Buffer::new();
    if base <= item {
        text.push_str(" ")?;
        text.push_str(buffer.format(class_of(classes, item - base)))
    } else {
        text.push_str(" ...")?;
        text.push_str(buffer.format(item))
    }
}

/// Whether a field is like the one of a number.
fn is_like_at(
    base: usize,
    fields: &[Selected<'_>],
    classes: &[usize],
    field: &Selected<'_>,
    number: usize,
) -> bool
    ensures { result ≡ spec.is_like_at base classes.now (fields_of fields.now) (selected_of field.now) number }
{
    match fields.get(number) {
        Some(other) => is_like(base, classes, field, other),
        None => false,
    }
}

/// Whether fields have one head, and like fields are selected in them.
fn is_like(base: usize, classes: &[usize], one: &Selected<'_>, other: &Selected<'_>) -> bool
    ensures { result ≡ spec.is_like base classes.now (selected_of one.now) (selected_of other.now) }
{
    same_head(one, other) && same_items(base, classes, one.items.as_slice(), other.items.as_slice())
}

/// Whether fields have one name, one response key, the same arguments and one type, in sets on one type.
fn same_head(one: &Selected<'_>, other: &Selected<'_>) -> bool
    ensures { result ≡ spec.same_head (selected_of one.now) (selected_of other.now) }
{
    one.parent.as_str() == other.parent.as_str()
        && (one.key().as_str() == other.key().as_str() && same_field(one, other))
}

/// Whether fields have one name, the same arguments and one type.
fn same_field(one: &Selected<'_>, other: &Selected<'_>) -> bool
    ensures { result ≡ step.same_field (selected_of one.now) (selected_of other.now) }
{
    one.field.name.as_str() == other.field.name.as_str()
        && (same_arguments_both_ways(one, other) && same_type(one, other))
}

/// Whether each field has the arguments of the other. Where the name of an argument comes twice, one may have those of another that
/// has not its own.
fn same_arguments_both_ways(one: &Selected<'_>, other: &Selected<'_>) -> bool
    ensures { result ≡ spec.same_both_ways (selected_of one.now).arguments (selected_of other.now).arguments }
{
    have_same_arguments(one, other) && have_same_arguments(other, one)
}

/// Whether fields have one type.
fn same_type(one: &Selected<'_>, other: &Selected<'_>) -> bool
    ensures { result ≡ step.same_type (selected_of one.now) (selected_of other.now) }
{
    same_levels(&one.field.definition.ty, &other.field.definition.ty)
        && one.field.definition.ty.inner_named_type().as_str()
            == other.field.definition.ty.inner_named_type().as_str()
}

/// Whether sets select one fragment or fields of one class, item by item.
fn same_items(base: usize, classes: &[usize], items: &[usize], others: &[usize]) -> bool
    ensures { result ≡ spec.same_items base classes.now items.now others.now }
{
    let mut index = 0;
    for item in items {
        if !same_at(base, classes, *item, others.get(index)) {
            return false;
        }
        index += 1;
    }
    match others.get(index) {
        Some(_) => false,
        None => true,
    }
}

/// Whether another item is there, and these are one fragment or fields of one class.
fn same_at(base: usize, classes: &[usize], one: usize, other: Option<&usize>) -> bool
    ensures { result ≡ step.same_at base classes.now one (option_copied other.entry) }
{
    match other {
        Some(other) => same_item(base, classes, one, *other),
        None => false,
    }
}

/// Whether these are one fragment, or fields of one class.
fn same_item(base: usize, classes: &[usize], one: usize, other: usize) -> bool
    ensures { result ≡ spec.same_item base classes.now one other }
{
    one == other
        || ((has_class(base, classes, one) && has_class(base, classes, other))
            && class_of(classes, one.saturating_sub(base))
                == class_of(classes, other.saturating_sub(base)))
}

/// Whether this is a field that has a class already.
fn has_class(base: usize, classes: &[usize], item: usize) -> bool
    ensures { result ≡ spec.has_class base classes.now item }
{
    base <= item && item - base < classes.len()
}

/// The class of a field, its own where it has none yet.
pub(crate) fn class_of(classes: &[usize], field: usize) -> usize
    ensures { result ≡ step.class_of classes.now field }
{
    match classes.get(field) {
        Some(class) => *class,
        None => field,
    }
}
