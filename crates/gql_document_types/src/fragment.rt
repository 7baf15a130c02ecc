//! Fragments.

use crate::selection::SelectionSet;
use gql_ast_base::{Copying, Directive, Name, all_three};
use gql_schema_types::Named;
use gql_source::SourceSpan;
use jb_text::{Listed, Memory};
use std::alloc::Global;

/// A fragment with a name (GraphQL October 2021, section 2.8). The type of its set is the one that it is on.
pub struct Fragment {
    pub name: Name,
    pub directives: Listed<Directive>,
    pub selection_set: SelectionSet,
    pub location: Option<SourceSpan>,
}

impl Drop for Fragment {
    fn drop(self) {
        let Fragment {
            name: _,
            directives: _,
            selection_set: _,
            location: _,
        } = self;
    }
}

impl Named for Fragment {
    ghost own = { λ fragment. fragment.name };

    fn own_name(&self) -> &Name {
        &self.name
    }
}

impl Copying for Fragment {
    fn copy(&self, alloc: Global) -> Result<Fragment, Memory> {
        let (name, directives, selection_set) = all_three(
            self.name.copy(alloc),
            self.directives.copy(alloc),
            self.selection_set.copy(alloc),
        )?;
        Ok(Fragment {
            name,
            directives,
            selection_set,
            location: self.location,
        })
    }
}
