//! What is wrong with the nodes of a document, each by itself.

ghost use Rattle.std.specs.Prelude.{◌≡◌, ◌++◌, OnOk};
ghost use Rattle.gql_rules_nodes.specs.DocumentNodes as spec;
ghost use Rattle.gql_rules_nodes.specs.PossibleTable.{ArePossibleIn};

use crate::known_types::KnownTypes;
use crate::node_rules::NodeRules;
use crate::possible_types::PossibleTypes;
use crate::walk::walk_document;
use gql_diag_messages::DiagnosticData;
use gql_document_types::ExecutableDocument;
use gql_schema_types::Schema;
use jb_text::{Listed, Memory};
use std::alloc::Global;

/// Lists what is wrong with each node of a document by itself (GraphQL October 2021, sections 5.3 to 5.8): one diagnostic for each
/// fault of each rule, in the order of the nodes. `possible` are the schema's possible types. `Err` only when out of memory: then the
/// list has some of the faults.
pub fn list_document_nodes(
    alloc: Global,
    schema: &Schema,
    possible: &PossibleTypes,
    document: &ExecutableDocument,
    faults: &mut Listed<DiagnosticData>,
) -> Result<(), Memory>
    requires { ArePossibleIn schema.now.types possible.now }
    ensures { OnOk result (faults.new ≡ faults.old ++ spec.document_nodes_faults schema.now document.now) }
{
    let known = KnownTypes::new(schema, possible);
    let rules = NodeRules {
        alloc,
        known: &known,
        fragments: &document.fragments,
    };
    walk_document(&rules, document, faults)
}
