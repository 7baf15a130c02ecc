//! What is asked, and the text that an answer is found by.

ghost use Rattle.std.specs.Prelude.{◌≡◌, IfOk};
ghost use Rattle.gql_rounds.specs.Key as spec;

use jb_print::{append_object, append_value};
use jb_text::{Memory, Text};
use jb_tree::{Map, Number, Pairs, Value};
use std::alloc::Global;

/// A field of an object that is to be resolved with these arguments (GraphQL October 2021, section 6.4.2).
#[derive(Drop)]
pub struct Ask {
    /// The number of the object, which the caller gave it. That of the root is 0.
    pub object: u64,
    /// The name of the object type that the field is asked of.
    pub type_name: Text,
    /// The name of the field.
    pub field: Text,
    /// The coerced arguments (section 6.4.1).
    pub arguments: Map,
}

/// What is asked, each once, by the texts that answers are found by.
pub type Asks = Pairs<Ask>;

/// The text that the answer of a field is found by: the number of the object, the name of the field and its arguments as JSON.
/// `Err` only when out of memory.
pub fn answer_key(alloc: Global, object: u64, field: &str, arguments: &Map) -> Result<Text, Memory>
    ensures { IfOk result (λ text. text ≡ spec.key object field.now arguments.now) }
{
    let mut text = String::new(alloc);
    append_value(&mut text, &Value::Number(Number::from_u64(object)))?;
    text.push_str(" ")?;
    text.push_str(field)?;
    text.push_str(" ")?;
    append_object(&mut text, arguments)?;
    Ok(Text::from_string(text))
}
