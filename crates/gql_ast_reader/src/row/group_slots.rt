//! The nodes of a row that are lists, one by one.

ghost use Rattle.std.specs.Prelude.{◌≡◌};
ghost use Rattle.gql_ast_reader.specs.bridge.Fresh as fresh;

use crate::row::Groups;
use crate::row::keeping::clear_slot;

impl Groups {
    pub(crate) fn new() -> Groups
        ensures { result ≡ fresh.no_groups }
    {
        Groups {
            arguments: None,
            directives: None,
            selections: None,
            variables: None,
            inputs: None,
            input_fields: None,
            fields: None,
            enum_values: None,
            interfaces: None,
            members: None,
        }
    }

    pub(crate) fn empty(&mut self)
        ensures { self.new ≡ fresh.no_groups }
    {
        clear_slot(&mut self.arguments);
        clear_slot(&mut self.directives);
        clear_slot(&mut self.selections);
        clear_slot(&mut self.variables);
        clear_slot(&mut self.inputs);
        clear_slot(&mut self.input_fields);
        clear_slot(&mut self.fields);
        clear_slot(&mut self.enum_values);
        clear_slot(&mut self.interfaces);
        clear_slot(&mut self.members);
    }
}
