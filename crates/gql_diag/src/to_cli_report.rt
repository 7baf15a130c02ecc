//! What can be reported on the command line.

ghost use Rattle.std.specs.Prelude.{◌≡◌, ℕ, List, Option, true, IfOk, OnOk, OnErr, IsErr};
ghost use Rattle.gql_source.specs.Span.{Span};
ghost use Rattle.gql_diag.specs.Report.{Report};
ghost use Rattle.gql_diag_messages.specs.Details.{message_of};
ghost use Rattle.gql_diag.specs.Reported.{data_reported, message_alone};

use crate::diagnostic::Diagnostic;
use crate::report::CliReport;
use gql_diag_messages::DiagnosticData;
use gql_source::{SourceMap, SourceSpan};
use jb_text::{Memory, Text};
use std::alloc::Global;

/// What can be reported on the command line: it has a place, a message, and labels.
pub trait ToCliReport {
    // Its place, its message, and what it adds to a report.
    ghost place: { Self → Option Span };

    ghost text: { Self → List ℕ };

    ghost reported: { Self → Report → Report };

    /// Where it is.
    fn location(&self) -> Option<SourceSpan>
        ensures { result ≡ place self.now };

    /// What is said to people. `Err` only when out of memory.
    fn message(&self, alloc: Global) -> Result<Text, Memory>
        ensures { IfOk result (λ message. message ≡ text self.now) };

    /// Adds its labels, its help and its note to a report. `Err` only when out of memory, now or in an earlier call.
    fn report(&self, report: &mut CliReport<'_>) -> Result<(), Memory>
        ensures added { OnOk result (report.new ≡ reported self.now report.old) }
        ensures refused { OnErr result (report.new.refused ≡ true) }
        ensures stays { report.old.refused ≡ true → IsErr result };

    /// A report of it: its message, and what it adds. `Err` only when out of memory.
    final fn to_report<'s>(
        &self,
        alloc: Global,
        sources: &'s SourceMap,
    ) -> Result<CliReport<'s>, Memory>
        ensures { IfOk result (λ report. report ≡ reported self.now (message_alone sources.now (text self.now))) }
    {
        let mut report = CliReport::builder(alloc, sources, self.location());
        let message = self.message(alloc)?;
        report.with_message(message.as_str())?;
        self.report(&mut report)?;
        Ok(report)
    }

    /// It as a diagnostic of these files.
    final fn to_diagnostic<'s>(&'s self, sources: &'s SourceMap) -> Diagnostic<'s, Self>
    where
        Self: Sized,
        ensures error { result.error.now ≡ self.now }
        ensures sources { result.sources.now ≡ sources.now }
    {
        Diagnostic {
            sources,
            error: self,
        }
    }
}

impl ToCliReport for DiagnosticData {
    ghost place = { λ item. item.location };

    ghost text = { λ item. message_of item.details };

    ghost reported = { data_reported };

    fn location(&self) -> Option<SourceSpan> {
        self.location
    }

    fn message(&self, alloc: Global) -> Result<Text, Memory> {
        self.details.message(alloc)
    }

    /// A label at its place, and `previous definition here` at the place of the other definition or field.
    fn report(&self, report: &mut CliReport<'_>) -> Result<(), Memory> {
        match self.details.label(report.allocator()) {
            Ok(label) => report.with_label_opt(self.location, label.as_str())?,
            Err(want) => {
                report.refuse();
                return Err(want);
            }
        }
        report.with_label_opt(self.details.other(), "previous definition here")
    }
}

impl<T: ToCliReport> ToCliReport for &T {
    ghost place = { λ it. T.place it.now };

    ghost text = { λ it. T.text it.now };

    ghost reported = { λ it report. T.reported it.now report };

    fn location(&self) -> Option<SourceSpan> {
        (**self).location()
    }

    fn message(&self, alloc: Global) -> Result<Text, Memory> {
        (**self).message(alloc)
    }

    fn report(&self, report: &mut CliReport<'_>) -> Result<(), Memory> {
        (**self).report(report)
    }
}
