//! Going through a list of diagnostics.

ghost use Rattle.std.specs.Iterator.{YieldsFirstBy, YieldsLastBy, item_count};
ghost use Rattle.gql_diag.specs.Walk.{shown, left_of};

use crate::diagnostic::Diagnostic;
use gql_diag_messages::DiagnosticData;
use gql_source::SourceMap;

/// The diagnostics of a list, from either end.
#[derive(Drop)]
pub struct Diagnostics<'s> {
    pub(crate) sources: &'s SourceMap,
    pub(crate) left: &'s [DiagnosticData],
}

impl<'s> Iterator for Diagnostics<'s> {
    type Item = Diagnostic<'s, DiagnosticData>;

    ghost next_gives = { YieldsFirstBy shown left_of };

    ghost remaining = { item_count left_of };

    fn next(&mut self) -> Option<Diagnostic<'s, DiagnosticData>> {
        let (error, left) = self.left.split_first()?;
        self.left = left;
        Some(Diagnostic {
            sources: self.sources,
            error,
        })
    }
}

impl<'s> DoubleEndedIterator for Diagnostics<'s> {
    ghost next_back_gives = { YieldsLastBy shown left_of };

    fn next_back(&mut self) -> Option<Diagnostic<'s, DiagnosticData>> {
        let (error, left) = self.left.split_last()?;
        self.left = left;
        Some(Diagnostic {
            sources: self.sources,
            error,
        })
    }
}
