//! Definitions of types with all that extensions add to them.

ghost use Rattle.std.specs.Prelude.{◌≡◌, OnOk, fold};
ghost use Rattle.gql_schema_build.specs.bridge.Merged as spec;

use crate::extend::extend;
use crate::type_definition::TypeDefinition;
use crate::type_extension::TypeExtension;
use gql_schema_types::Named;
use jb_map::Pairs;
use jb_text::{Listed, Memory};

/// Adds what each extension gives to the definition of its name, where there is one of its kind. `Err` only when out of
/// memory: then some of it is added.
pub(crate) fn merge_all(
    types: &mut Pairs<TypeDefinition>,
    extensions: Listed<TypeExtension>,
) -> Result<(), Memory>
    ensures { OnOk result (types.new ≡ fold spec.with_extension types.old extensions) }
{
    for extension in extensions {
        merge_one(types, extension)?;
    }
    Ok(())
}

/// Adds what an extension gives to the definition of its name, where there is one of its kind.
fn merge_one(types: &mut Pairs<TypeDefinition>, extension: TypeExtension) -> Result<(), Memory>
    ensures { OnOk result (types.new ≡ spec.with_extension types.old extension) }
{
    match types.get_mut(extension.own_name().as_str()) {
        Some(definition) => extend(definition, extension),
        None => Ok(()),
    }
}
