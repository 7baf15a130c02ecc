//! Whether fragments lead back to themselves.

ghost use Rattle.std.specs.Prelude.{◌≡◌, IfOk};
ghost use Rattle.std.specs.List.{list_any};
ghost use Rattle.gql_document_types.specs.Spreads as spec;

use crate::document::ExecutableDocument;
use crate::spreads::spread_graph;
use gql_graph::judge;
use jb_text::Memory;
use std::alloc::Global;

impl ExecutableDocument {
    /// Whether no fragment spreads itself, be it through others, at any depth (GraphQL October 2021, section 5.5.2.2). A
    /// spread of a fragment that is not defined leads nowhere. `Err` only when out of memory. The time is linear in the
    /// selections of the fragments.
    pub fn fragments_acyclic(&self, alloc: Global) -> Result<bool, Memory>
        ensures { IfOk result (λ acyclic. spec.TellsAcyclic self.now.fragments acyclic) }
    {
        let graph = spread_graph(alloc, &self.fragments)?;
        let judged = judge(alloc, &graph, self.fragments.len())?;
        let cyclic = any_marked(judged.recursive.as_slice());
        Ok(!cyclic)
    }
}

/// Whether one of these is marked.
fn any_marked(marks: &[bool]) -> bool
    ensures { result ≡ list_any (λ mark. mark) marks.now }
{
    marks.iter().any(|mark| *mark)
}
