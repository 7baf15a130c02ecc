//! What was made in spite of faults.

use crate::diagnostic_list::DiagnosticList;

/// What could be made in spite of faults, and the faults.
#[derive(Debug, Drop)]
pub struct WithErrors<T> {
    pub partial: T,
    pub errors: DiagnosticList,
}
