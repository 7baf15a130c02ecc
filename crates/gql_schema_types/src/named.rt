//! What has a name of its own.

ghost use Rattle.std.specs.Prelude.{◌≡◌};
ghost use Rattle.gql_ast_base.specs.Names as names;

use gql_ast::{DirectiveDefinition, EnumValueDefinition, FieldDefinition, InputValueDefinition};
use gql_ast_base::Name;

/// What has a name of its own, by which a [`Table`](crate::Table) finds it.
pub trait Named {
    ghost own: { Self → names.Named };

    /// Its name.
    fn own_name(&self) -> &Name
        ensures { result.now ≡ own self.now };
}

impl Named for Name {
    ghost own = { λ name. name };

    fn own_name(&self) -> &Name {
        self
    }
}

impl Named for FieldDefinition {
    ghost own = { λ field. field.name };

    fn own_name(&self) -> &Name {
        &self.name
    }
}

impl Named for InputValueDefinition {
    ghost own = { λ value. value.name };

    fn own_name(&self) -> &Name {
        &self.name
    }
}

impl Named for EnumValueDefinition {
    ghost own = { λ value. value.value };

    fn own_name(&self) -> &Name {
        &self.value
    }
}

impl Named for DirectiveDefinition {
    ghost own = { λ directive. directive.name };

    fn own_name(&self) -> &Name {
        &self.name
    }
}
