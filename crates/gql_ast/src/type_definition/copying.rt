//! Copies of definitions of types.

use crate::type_definition::{
    EnumTypeDefinition, InputObjectTypeDefinition, InterfaceTypeDefinition, ObjectTypeDefinition,
    ScalarTypeDefinition, UnionTypeDefinition,
};
use gql_ast_base::{Copying, all_four, all_three, both};
use jb_text::Memory;
use std::alloc::Global;

impl Copying for ScalarTypeDefinition {
    fn copy(&self, alloc: Global) -> Result<ScalarTypeDefinition, Memory> {
        let (description, name, directives) = all_three(
            self.description.copy(alloc),
            self.name.copy(alloc),
            self.directives.copy(alloc),
        )?;
        Ok(ScalarTypeDefinition {
            description,
            name,
            directives,
            location: self.location,
        })
    }
}

impl Copying for ObjectTypeDefinition {
    fn copy(&self, alloc: Global) -> Result<ObjectTypeDefinition, Memory> {
        let (description, name, directives) = all_three(
            self.description.copy(alloc),
            self.name.copy(alloc),
            self.directives.copy(alloc),
        )?;
        let (implements_interfaces, fields) = both(
            self.implements_interfaces.copy(alloc),
            self.fields.copy(alloc),
        )?;
        Ok(ObjectTypeDefinition {
            description,
            name,
            implements_interfaces,
            directives,
            fields,
            location: self.location,
        })
    }
}

impl Copying for InterfaceTypeDefinition {
    fn copy(&self, alloc: Global) -> Result<InterfaceTypeDefinition, Memory> {
        let (description, name, directives) = all_three(
            self.description.copy(alloc),
            self.name.copy(alloc),
            self.directives.copy(alloc),
        )?;
        let (implements_interfaces, fields) = both(
            self.implements_interfaces.copy(alloc),
            self.fields.copy(alloc),
        )?;
        Ok(InterfaceTypeDefinition {
            description,
            name,
            implements_interfaces,
            directives,
            fields,
            location: self.location,
        })
    }
}

impl Copying for UnionTypeDefinition {
    fn copy(&self, alloc: Global) -> Result<UnionTypeDefinition, Memory> {
        let (description, name, directives, members) = all_four(
            self.description.copy(alloc),
            self.name.copy(alloc),
            self.directives.copy(alloc),
            self.members.copy(alloc),
        )?;
        Ok(UnionTypeDefinition {
            description,
            name,
            directives,
            members,
            location: self.location,
        })
    }
}

impl Copying for EnumTypeDefinition {
    fn copy(&self, alloc: Global) -> Result<EnumTypeDefinition, Memory> {
        let (description, name, directives, values) = all_four(
            self.description.copy(alloc),
            self.name.copy(alloc),
            self.directives.copy(alloc),
            self.values.copy(alloc),
        )?;
        Ok(EnumTypeDefinition {
            description,
            name,
            directives,
            values,
            location: self.location,
        })
    }
}

impl Copying for InputObjectTypeDefinition {
    fn copy(&self, alloc: Global) -> Result<InputObjectTypeDefinition, Memory> {
        let (description, name, directives, fields) = all_four(
            self.description.copy(alloc),
            self.name.copy(alloc),
            self.directives.copy(alloc),
            self.fields.copy(alloc),
        )?;
        Ok(InputObjectTypeDefinition {
            description,
            name,
            directives,
            fields,
            location: self.location,
        })
    }
}
