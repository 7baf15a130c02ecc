//! Operations and fragments.

ghost use Rattle.std.specs.Prelude.{◌≡◌, IfOk};
ghost use Rattle.gql_ast_base.specs.bridge.Forest.{forest};
ghost use Rattle.gql_ast.specs.Operations as spec;

use crate::selection::{Selection, selection_set, type_condition};
use gql_ast_base::{
    Convert, Copying, Directive, Name, OperationType, Source, SyntaxKind, Tree, TypeRef, Value,
    all_four, child, default_value, directives, first, gather, inside, is_of, location, nth_name,
    operation_type_in,
};
use gql_source::SourceSpan;
use jb_text::{Listed, Memory};
use std::alloc::Global;

/// An operation (section 2.3).
#[derive(Drop)]
pub struct OperationDefinition {
    pub operation_type: OperationType,
    pub name: Option<Name>,
    pub variables: Listed<VariableDefinition>,
    pub directives: Listed<Directive>,
    pub selection_set: Listed<Selection>,
    pub location: Option<SourceSpan>,
}

/// A variable that an operation takes (section 2.10).
pub struct VariableDefinition {
    pub name: Name,
    pub ty: TypeRef,
    pub default_value: Option<Value>,
    pub directives: Listed<Directive>,
    pub location: Option<SourceSpan>,
}

impl Drop for VariableDefinition {
    fn drop(self) {
        let VariableDefinition {
            name: _,
            ty: _,
            default_value: _,
            directives: _,
            location: _,
        } = self;
    }
}

/// A fragment with a name (section 2.8).
#[derive(Drop)]
pub struct FragmentDefinition {
    pub name: Name,
    pub type_condition: Name,
    pub directives: Listed<Directive>,
    pub selection_set: Listed<Selection>,
    pub location: Option<SourceSpan>,
}

impl Copying for OperationDefinition {
    fn copy(&self, alloc: Global) -> Result<OperationDefinition, Memory> {
        let (name, variables, directives, selection_set) = all_four(
            self.name.copy(alloc),
            self.variables.copy(alloc),
            self.directives.copy(alloc),
            self.selection_set.copy(alloc),
        )?;
        Ok(OperationDefinition {
            operation_type: self.operation_type,
            name,
            variables,
            directives,
            selection_set,
            location: self.location,
        })
    }
}

impl Copying for VariableDefinition {
    fn copy(&self, alloc: Global) -> Result<VariableDefinition, Memory> {
        let (name, ty, default_value, directives) = all_four(
            self.name.copy(alloc),
            self.ty.copy(alloc),
            self.default_value.copy(alloc),
            self.directives.copy(alloc),
        )?;
        Ok(VariableDefinition {
            name,
            ty,
            default_value,
            directives,
            location: self.location,
        })
    }
}

impl Copying for FragmentDefinition {
    fn copy(&self, alloc: Global) -> Result<FragmentDefinition, Memory> {
        let (name, type_condition, directives, selection_set) = all_four(
            self.name.copy(alloc),
            self.type_condition.copy(alloc),
            self.directives.copy(alloc),
            self.selection_set.copy(alloc),
        )?;
        Ok(FragmentDefinition {
            name,
            type_condition,
            directives,
            selection_set,
            location: self.location,
        })
    }
}

/// The variables among the parts of an operation.
#[tactic(auto, unfolding(crate::specs::Operations::variables))]
fn variables(source: &Source<'_>, nodes: &[Tree]) -> Result<Listed<VariableDefinition>, Memory>
    ensures { IfOk result (λ made. made ≡ spec.variables source.now.text.now source.now.file_id (forest nodes.now)) }
{
    let list = gather(source, inside(nodes, SyntaxKind::VariableDefinitions))?;
    Ok(list)
}

impl Convert for VariableDefinition {
    ghost meaning = { spec.variable_of };

    #[tactic(auto, unfolding(crate::specs::Operations::variable_of))]
    fn read(source: &Source<'_>, tree: &Tree) -> Result<Option<VariableDefinition>, Memory> {
        if !is_of(tree, SyntaxKind::VariableDefinition) {
            return Ok(None);
        }
        let nodes = tree.children().as_slice();
        let names = inside(nodes, SyntaxKind::Variable);
        let (name, ty, default_value, directives) = all_four(
            nth_name(source, names, 0),
            first(source, nodes),
            default_value(source, nodes),
            directives(source, nodes),
        )?;
        let Some((name, ty)) = name.zip(ty) else {
            return Ok(None);
        };
        Ok(Some(VariableDefinition {
            name,
            ty,
            default_value,
            directives,
            location: location(source.file_id, tree),
        }))
    }
}

impl Convert for OperationDefinition {
    ghost meaning = { spec.operation_of };

    #[tactic(auto, unfolding(crate::specs::Operations::operation_of))]
    fn read(source: &Source<'_>, tree: &Tree) -> Result<Option<OperationDefinition>, Memory> {
        if !is_of(tree, SyntaxKind::OperationDefinition) {
            return Ok(None);
        }
        let nodes = tree.children().as_slice();
        let Some(set) = child(nodes, SyntaxKind::SelectionSet) else {
            return Ok(None);
        };
        let operation_type = operation_type_in(nodes, source.text).unwrap_or(OperationType::Query);
        let (name, variables, directives, selection_set) = all_four(
            nth_name(source, nodes, 0),
            variables(source, nodes),
            directives(source, nodes),
            selection_set(source, set.children().as_slice()),
        )?;
        Ok(Some(OperationDefinition {
            operation_type,
            name,
            variables,
            directives,
            selection_set,
            location: location(source.file_id, tree),
        }))
    }
}

impl Convert for FragmentDefinition {
    ghost meaning = { spec.fragment_of };

    #[tactic(auto, unfolding(crate::specs::Operations::fragment_of))]
    fn read(source: &Source<'_>, tree: &Tree) -> Result<Option<FragmentDefinition>, Memory> {
        if !is_of(tree, SyntaxKind::FragmentDefinition) {
            return Ok(None);
        }
        let nodes = tree.children().as_slice();
        let Some(set) = child(nodes, SyntaxKind::SelectionSet) else {
            return Ok(None);
        };
        let names = inside(nodes, SyntaxKind::FragmentName);
        let (name, type_condition, directives, selection_set) = all_four(
            nth_name(source, names, 0),
            type_condition(source, nodes),
            directives(source, nodes),
            selection_set(source, set.children().as_slice()),
        )?;
        let Some((name, type_condition)) = name.zip(type_condition) else {
            return Ok(None);
        };
        Ok(Some(FragmentDefinition {
            name,
            type_condition,
            directives,
            selection_set,
            location: location(source.file_id, tree),
        }))
    }
}
