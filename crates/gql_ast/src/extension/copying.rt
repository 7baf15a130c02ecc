//! Copies of extensions.

use crate::extension::{
    EnumTypeExtension, InputObjectTypeExtension, InterfaceTypeExtension, ObjectTypeExtension,
    ScalarTypeExtension, SchemaExtension, UnionTypeExtension,
};
use gql_ast_base::{Copying, all_four, all_three, both};
use jb_text::Memory;
use std::alloc::Global;

impl Copying for SchemaExtension {
    fn copy(&self, alloc: Global) -> Result<SchemaExtension, Memory> {
        let (directives, root_operations) = both(
            self.directives.copy(alloc),
            self.root_operations.copy(alloc),
        )?;
        Ok(SchemaExtension {
            directives,
            root_operations,
            location: self.location,
        })
    }
}

impl Copying for ScalarTypeExtension {
    fn copy(&self, alloc: Global) -> Result<ScalarTypeExtension, Memory> {
        let (name, directives) = both(self.name.copy(alloc), self.directives.copy(alloc))?;
        Ok(ScalarTypeExtension {
            name,
            directives,
            location: self.location,
        })
    }
}

impl Copying for ObjectTypeExtension {
    fn copy(&self, alloc: Global) -> Result<ObjectTypeExtension, Memory> {
        let (name, implements_interfaces, directives, fields) = all_four(
            self.name.copy(alloc),
            self.implements_interfaces.copy(alloc),
            self.directives.copy(alloc),
            self.fields.copy(alloc),
        )?;
        Ok(ObjectTypeExtension {
            name,
            implements_interfaces,
            directives,
            fields,
            location: self.location,
        })
    }
}

impl Copying for InterfaceTypeExtension {
    fn copy(&self, alloc: Global) -> Result<InterfaceTypeExtension, Memory> {
        let (name, implements_interfaces, directives, fields) = all_four(
            self.name.copy(alloc),
            self.implements_interfaces.copy(alloc),
            self.directives.copy(alloc),
            self.fields.copy(alloc),
        )?;
        Ok(InterfaceTypeExtension {
            name,
            implements_interfaces,
            directives,
            fields,
            location: self.location,
        })
    }
}

impl Copying for UnionTypeExtension {
    fn copy(&self, alloc: Global) -> Result<UnionTypeExtension, Memory> {
        let (name, directives, members) = all_three(
            self.name.copy(alloc),
            self.directives.copy(alloc),
            self.members.copy(alloc),
        )?;
        Ok(UnionTypeExtension {
            name,
            directives,
            members,
            location: self.location,
        })
    }
}

impl Copying for EnumTypeExtension {
    fn copy(&self, alloc: Global) -> Result<EnumTypeExtension, Memory> {
        let (name, directives, values) = all_three(
            self.name.copy(alloc),
            self.directives.copy(alloc),
            self.values.copy(alloc),
        )?;
        Ok(EnumTypeExtension {
            name,
            directives,
            values,
            location: self.location,
        })
    }
}

impl Copying for InputObjectTypeExtension {
    fn copy(&self, alloc: Global) -> Result<InputObjectTypeExtension, Memory> {
        let (name, directives, fields) = all_three(
            self.name.copy(alloc),
            self.directives.copy(alloc),
            self.fields.copy(alloc),
        )?;
        Ok(InputObjectTypeExtension {
            name,
            directives,
            fields,
            location: self.location,
        })
    }
}
