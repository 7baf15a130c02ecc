//! The nodes of a row that have one name in them, one by one.

ghost use Rattle.std.specs.Prelude.{◌≡◌};
ghost use Rattle.gql_ast_reader.specs.bridge.Taking as taking;
ghost use Rattle.gql_ast_reader.specs.bridge.Fresh as fresh;

use crate::part::Role;
use crate::place::Place;
use crate::row::Roles;
use crate::row::keeping::{clear_slot, keep_some};

impl Roles {
    pub(crate) fn new() -> Roles
        ensures { result ≡ fresh.no_roles }
    {
        Roles {
            alias: None,
            fragment_name: None,
            type_condition: None,
            enum_value: None,
            variable: None,
            named_type: None,
        }
    }

    pub(crate) fn empty(&mut self)
        ensures { self.new ≡ fresh.no_roles }
    {
        clear_slot(&mut self.alias);
        clear_slot(&mut self.fragment_name);
        clear_slot(&mut self.type_condition);
        clear_slot(&mut self.enum_value);
        clear_slot(&mut self.variable);
        clear_slot(&mut self.named_type);
    }

    /// A node of the role, with the place of its name, if it has one.
    pub(crate) fn take(&mut self, role: Role, place: Option<Place>)
        ensures { self.new ≡ taking.roles_named self.old role place }
    {
        match role {
            Role::Alias => keep_some(&mut self.alias, place),
            Role::FragmentName => keep_some(&mut self.fragment_name, place),
            Role::TypeCondition => keep_some(&mut self.type_condition, place),
            Role::EnumValue => keep_some(&mut self.enum_value, place),
            Role::Variable => keep_some(&mut self.variable, place),
            Role::NamedType => keep_some(&mut self.named_type, place),
        }
    }
}
