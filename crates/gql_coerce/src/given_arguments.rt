//! The arguments that a field is given, by name.

ghost use Rattle.std.specs.Prelude.{◌≡◌, ℕ, List, IfOk};
ghost use Rattle.std.specs.Option.{option_copied};
ghost use Rattle.std.specs.Str.{bytes_eq};
ghost use Rattle.std.specs.Map.{lookup};
ghost use Rattle.gql_ast_base.specs.declared.directive.Argument.{Argument as Given};
ghost use Rattle.gql_coerce.specs.bridge.ByName.{FindsFirst};
ghost use Rattle.gql_coerce.specs.Arguments.{first_named};

use crate::outcome::insert;
use gql_ast_base::Argument;
use jb_map::Pairs;
use jb_text::{ByteString, Memory};
use std::alloc::Global;

/// Up to this many arguments are gone through; more are kept by hash.
const MOST_SCANNED: usize = 16;

/// The arguments that a field is given, of which the first of a name counts.
#[derive(Drop)]
pub(crate) enum GivenArguments<'a> {
    Few(&'a [Argument]),
    Many(Pairs<&'a Argument>),
}

impl<'a> GivenArguments<'a> {
    /// These arguments.
    pub(crate) fn of(alloc: Global, arguments: &'a [Argument]) -> Result<GivenArguments<'a>, Memory>
        ensures { IfOk result (λ made. FindsFirst made arguments.now) }
    {
        if arguments.len() <= MOST_SCANNED {
            return Ok(GivenArguments::Few(arguments));
        }
        Ok(GivenArguments::Many(first_by_name(alloc, arguments)?))
    }

    /// The first argument of the name.
    pub(crate) fn first(&self, name: &str) -> Option<&'a Argument>
        ensures { (arguments : List Given) → FindsFirst self.now arguments → option_copied result ≡ first_named name.now arguments }
    {
        match self {
            GivenArguments::Few(arguments) => first_named(arguments, name),
            GivenArguments::Many(found) => found.get(name).copied(),
        }
    }
}

/// The first argument of each name: going backwards, an earlier one takes the place of a later one.
fn first_by_name<'a>(
    alloc: Global,
    arguments: &'a [Argument],
) -> Result<Pairs<&'a Argument>, Memory>
    ensures { IfOk result (λ found. (name : List ℕ) → option_copied (lookup (bytes_eq name) found) ≡ first_named name arguments.now) }
{
    let mut found = Pairs::new(alloc);
    let mut left = arguments.len();
    while left > 0 {
        left -= 1;
        let argument = &arguments[left];
        let key = ByteString::from_text(alloc, argument.name.as_str())?;
        insert(&mut found, key, argument)?;
    }
    Ok(found)
}

/// The first argument of this name.
fn first_named<'a>(arguments: &'a [Argument], name: &str) -> Option<&'a Argument>
    ensures { option_copied result ≡ first_named name.now arguments.now }
{
    for argument in arguments {
        if name == argument.name.as_str() {
            return Some(argument);
        }
    }
    None
}
