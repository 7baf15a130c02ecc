//! What the objects of the tests answer.

ghost use Rattle.std.specs.Prelude.{◌≡◌, IfOk, codes};
ghost use Rattle.gql_resolvers.specs.Meaning.{meaning_by, itself};
ghost use Rattle.tests_requests.specs.Samples as spec;

use crate::sample::{Kind, Sample};
use gql_ast_base::TypeRef;
use gql_resolvers::{FieldError, ObjectValue, ResolveError, ResolveInfo, ResolvedValue};
use jb_text::{ByteString, Listed, Memory, Number, Text};
use jb_tree::Value;
use std::alloc::Global;

impl Kind {
    fn name(&self) -> &str
        ensures { result.now ≡ spec.name_of self.now }
    {
        match self {
            Kind::Other => "Other",
            Kind::Leaf => "Leaf",
            Kind::Narrow => "Narrow",
            Kind::Node => "Node",
            Kind::Stranger => "Stranger",
        }
    }
}

impl ObjectValue for Sample {
    ghost use Rattle.gql_resolvers.specs.Meaning.{itself};
    ghost use Rattle.tests_requests.specs.Samples.{type_of, gives};
    ghost use Rattle.tests_requests.specs.declared.sample.Sample.{Sample as Object};

    ghost Seen = { Object };

    ghost seen = { itself };

    ghost type_of = { type_of };

    ghost resolves = { λ _ _ object name _. gives name object };

    fn type_name(&self) -> &str {
        match self {
            Sample::Of(kind) => kind.name(),
            Sample::Curious => "Leaf",
            _ => "Other",
        }
    }

    fn resolve_field(
        &self,
        alloc: Global,
        info: &ResolveInfo<'_>,
    ) -> Result<ResolvedValue<Self>, ResolveError> {
        match self {
            Sample::Null => Ok(ResolvedValue::nullable_object(None)),
            Sample::Truth => Ok(ResolvedValue::leaf(Value::Bool(true))),
            Sample::Number(value) => Ok(number(*value)),
            Sample::Word => Ok(word(alloc)?),
            Sample::Of(_) => Ok(number(1)),
            Sample::Holds(kind) => Ok(ResolvedValue::nullable_object(Some(Sample::Of(*kind)))),
            Sample::Asks => Ok(ResolvedValue::object(Sample::Curious)),
            Sample::Empty => Ok(ResolvedValue::list(alloc, Listed::new(alloc))?),
            Sample::Gaps => Ok(gaps(alloc)?),
            Sample::Breaks => Ok(breaks(alloc)?),
            Sample::Mixed => Ok(mixed(alloc)?),
            Sample::Skips => Ok(ResolvedValue::SkipForPartialExecution),
            Sample::Fails => Err(ResolveError::Field(failure(alloc)?)),
            Sample::Unknowing => Err(ResolveError::Field(self.unknown_field_error(alloc, info)?)),
            Sample::Forgets => Err(ResolveError::Memory),
            Sample::Curious if is_told(info) => Ok(number(7)),
            Sample::Curious => Err(ResolveError::Memory),
        }
    }
}

/// A number as a leaf.
fn number(value: u64) -> ResolvedValue<Sample>
    ensures { meaning_by itself result ≡ spec.number value }
{
    ResolvedValue::leaf(Value::Number(Number::from_u64(value)))
}

/// The text `no` as a leaf.
fn word(alloc: Global) -> Result<ResolvedValue<Sample>, Memory>
    ensures { IfOk result (λ made. meaning_by itself made ≡ spec.word) }
{
    let text = ByteString::from_text(alloc, "no")?;
    Ok(ResolvedValue::leaf(Value::String(text)))
}

/// The failure `!`.
fn failure(alloc: Global) -> Result<FieldError, Memory>
    ensures { IfOk result (λ made. made.message ≡ codes "!") }
{
    let message = Text::from_str(alloc, "!")?;
    Ok(FieldError { message })
}

/// A number, a gap and a text.
fn gaps(alloc: Global) -> Result<ResolvedValue<Sample>, Memory>
    ensures { IfOk result (λ made. meaning_by itself made ≡ spec.gaps) }
{
    let mut items = Listed::new(alloc);
    items.push(number(7))?;
    items.push(ResolvedValue::SkipForPartialExecution)?;
    items.push(word(alloc)?)?;
    ResolvedValue::list(alloc, items)
}

/// A number and a failure.
fn breaks(alloc: Global) -> Result<ResolvedValue<Sample>, Memory>
    ensures { IfOk result (λ made. meaning_by itself made ≡ spec.breaks) }
{
    let mut items = Listed::new(alloc);
    items.push(Ok(number(7)))?;
    items.push(Err(failure(alloc)?))?;
    Ok(ResolvedValue::List(items))
}

/// Null, an object and an empty list.
fn mixed(alloc: Global) -> Result<ResolvedValue<Sample>, Memory>
    ensures { IfOk result (λ made. meaning_by itself made ≡ spec.mixed) }
{
    let mut items = Listed::new(alloc);
    items.push(ResolvedValue::null())?;
    items.push(ResolvedValue::object(Sample::Of(Kind::Other)))?;
    items.push(ResolvedValue::List(Listed::new(alloc)))?;
    ResolvedValue::list(alloc, items)
}

/// Whether a resolver is told of the field `x` of `Leaf`, which an interface selects twice, with an argument.
fn is_told(info: &ResolveInfo<'_>) -> bool {
    is_told_of_field(info) && is_told_of_request(info)
}

fn is_told_of_field(info: &ResolveInfo<'_>) -> bool {
    info.field_name() == "x"
        && info.object_type().name.as_str() == "Leaf"
        && matches!(info.field_definition().ty, TypeRef::Named(_))
        && info.field_selections().len() == 2
        && info.arguments().get("a") == Some(&Value::Bool(true))
}

fn is_told_of_request(info: &ResolveInfo<'_>) -> bool {
    info.schema().as_ref().get_object("Leaf").is_some()
        && info.implementers_map().get("Node").is_some()
        && info.document().as_ref().operations.len() == 1
}
