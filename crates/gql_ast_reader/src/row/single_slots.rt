//! The nodes of a row of which it has one of a sort.

ghost use Rattle.std.specs.Prelude.{◌≡◌, OnOk};
ghost use Rattle.gql_ast_reader.specs.bridge.Taking as taking;
ghost use Rattle.gql_ast_reader.specs.bridge.Fresh as fresh;

use crate::part::Role;
use crate::place::{Place, name_there};
use crate::row::Singles;
use crate::row::keeping::clear_slot;
use gql_ast_base::{Source, TypeRef};
use jb_text::Memory;

impl Singles {
    pub(crate) fn new() -> Singles
        ensures { result ≡ fresh.no_singles }
    {
        Singles {
            operation: None,
            form: None,
            ty: None,
            default_value: None,
            description: None,
        }
    }

    pub(crate) fn empty(&mut self)
        ensures { self.new ≡ fresh.no_singles }
    {
        clear_slot(&mut self.operation);
        clear_slot(&mut self.form);
        clear_slot(&mut self.ty);
        clear_slot(&mut self.default_value);
        clear_slot(&mut self.description);
    }
}

/// A node with a name in it as one way to refer to a type, which a named type is. `Err` only where memory runs out.
pub(crate) fn keep_form(
    form: &mut Option<TypeRef>,
    source: &Source<'_>,
    role: Role,
    place: Option<Place>,
) -> Result<(), Memory>
    ensures { OnOk result (form.new ≡ taking.kept form.old (taking.form_named source.now.text.now source.now.file_id role place)) }
{
    match role {
        Role::NamedType => keep_named_type(form, source, place),
        _ => Ok(()),
    }
}

/// The named type with its name at the place.
fn keep_named_type(
    form: &mut Option<TypeRef>,
    source: &Source<'_>,
    place: Option<Place>,
) -> Result<(), Memory>
    ensures { OnOk result (form.new ≡ taking.kept form.old (taking.form_named source.now.text.now source.now.file_id Role.NamedType place)) }
{
    if form.is_none()
        && let Some(name) = name_there(source, place)?
    {
        *form = Some(TypeRef::Named(name));
    }
    Ok(())
}
