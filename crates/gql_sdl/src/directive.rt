//! Definitions of directives.

ghost use Rattle.std.specs.Prelude.{◌≡◌, ◌++◌, OnOk, IfOk, string_bytes};
ghost use Rattle.gql_sdl.specs.Definitions.{directive_head, directive_text, locations_text};

use crate::description::append_description;
use crate::input::append_arguments;
use crate::printed::{append_if, append_joined};
use crate::shown::ShownDirective;
use gql_ast::DirectiveLocation;
use jb_text::{Memory, Text};
use std::alloc::Global;

/// The definition of a directive as a text, in one line without its end (GraphQL October 2021, section 3.13). One without locations
/// ends in `on`, which is no sentence. `Err` only when out of memory.
pub fn print_directive_definition(alloc: Global, directive: &ShownDirective) -> Result<Text, Memory>
    ensures { IfOk result (λ text. text ≡ directive_text directive.now) }
{
    let mut text = String::new(alloc);
    append_directive(&mut text, directive)?;
    Ok(Text::from_string(text))
}

/// Appends the definition of a directive.
pub(crate) fn append_directive(out: &mut String, directive: &ShownDirective) -> Result<(), Memory>
    ensures { OnOk result (string_bytes out.new ≡ string_bytes out.old ++ directive_text directive.now) }
{
    append_head(out, directive)?;
    append_arguments(out, directive.arguments.as_slice())?;
    append_if(out, directive.is_repeatable, " repeatable")?;
    append_locations(out, directive.locations.as_slice())
}

/// Appends what stands before the arguments.
fn append_head(out: &mut String, directive: &ShownDirective) -> Result<(), Memory>
    ensures { OnOk result (string_bytes out.new ≡ string_bytes out.old ++ directive_head directive.now) }
{
    append_description(out, directive.description.as_ref())?;
    out.push_str("directive @")?;
    out.push_str(directive.name.as_str())
}

/// Appends where the directive may stand.
fn append_locations(out: &mut String, locations: &[DirectiveLocation]) -> Result<(), Memory>
    ensures { OnOk result (string_bytes out.new ≡ string_bytes out.old ++ locations_text locations.now) }
{
    if locations.is_empty() {
        return out.push_str(" on");
    }
    out.push_str(" on ")?;
    append_joined(out, " | ", locations)
}
