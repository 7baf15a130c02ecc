//! Building a report.

ghost use Rattle.std.specs.Prelude.{◌≡◌, true, false, [], None, Some, Err, IfOk, IfErr, OnOk, OnErr, IsErr};
ghost use Rattle.jb_io.specs.Sink.{Takes};
ghost use Rattle.jb_text.specs.declared.refused.Refused.TheVariants as refused_variant;
ghost use Rattle.gql_diag.specs.Report.{Report, FailsWrite, labelled, report_text};

use crate::report_text::{text_or_empty, write_labels, write_line};
use gql_source::{SourceMap, SourceSpan};
use jb_io::{Sink, SinkFault, write_all};
use jb_text::{Listed, Memory, Refused, Text};
use std::alloc::{AllocError, Global};
use std::marker::Model;

/// A report: `Error: ` and its message, a line `path:line:column: label` for each label whose place is found, in order
/// of adding, and then the lines `Help: ` and `Note: ` where these are set.
///
/// A contract sees a record with `sources`, `message`, `labels`, `help`, `note` and `refused`. A report that was refused
/// when out of memory answers that from then on.
pub struct CliReport<'s> {
    alloc: Global,
    sources: &'s SourceMap,
    message: Option<Text>,
    labels: Listed<(SourceSpan, Text)>,
    help: Option<Text>,
    note: Option<Text>,
    refused: bool,
}

impl Drop for CliReport<'_> {
    fn drop(self) {
        let CliReport {
            alloc: _,
            sources: _,
            message: _,
            labels: _,
            help: _,
            note: _,
            refused: _,
        } = self;
    }
}

impl<'s> Model for CliReport<'s> {
    ghost use Rattle.std.specs.Prelude.{unwrap_or, []};
    ghost use Rattle.gql_diag.specs.Report.{Report};

    ghost Value = { Report };

    ghost view = { λ r. record { sources = r.sources.now; message = unwrap_or r.message []; labels = r.labels; help = r.help; note = r.note; refused = r.refused } };
}

impl<'s> CliReport<'s> {
    /// A report on texts of these files, with an empty message. The main location is not written.
    #[must_use]
    pub fn builder(
        alloc: Global,
        sources: &'s SourceMap,
        _main_location: Option<SourceSpan>,
    ) -> CliReport<'s>
        ensures { result ≡ record { sources = sources.now; message = []; labels = []; help = None; note = None; refused = false } }
    {
        CliReport {
            alloc,
            sources,
            message: None,
            labels: Listed::new(alloc),
            help: None,
            note: None,
            refused: false,
        }
    }

    /// Where the report takes its memory. No clause says which: contracts see a report without its allocator.
    #[must_use]
    pub fn allocator(&self) -> Global {
        self.alloc
    }

    /// Says that memory for a part of the report was not found: from now on the report answers out of memory.
    pub fn refuse(&mut self)
        ensures { self.new ≡ record self.old { refused = true } }
    {
        self.refused = true;
    }

    /// Sets the message, in place of an earlier one. `Err` only when out of memory, now or in an earlier call.
    pub fn with_message(&mut self, message: &str) -> Result<(), Memory>
        ensures set { OnOk result (self.new ≡ record self.old { message = message.now }) }
        ensures refused { OnErr result (self.new ≡ record self.old { refused = true }) }
        ensures stays { self.old.refused ≡ true → IsErr result }
    {
        let message = self.kept(message)?;
        self.message = Some(message);
        Ok(())
    }

    /// Sets the help, in place of an earlier one. `Err` only when out of memory, now or in an earlier call.
    pub fn with_help(&mut self, help: &str) -> Result<(), Memory>
        ensures set { OnOk result (self.new ≡ record self.old { help = Some help.now }) }
        ensures refused { OnErr result (self.new ≡ record self.old { refused = true }) }
        ensures stays { self.old.refused ≡ true → IsErr result }
    {
        let help = self.kept(help)?;
        self.help = Some(help);
        Ok(())
    }

    /// Sets the note, in place of an earlier one. `Err` only when out of memory, now or in an earlier call.
    pub fn with_note(&mut self, note: &str) -> Result<(), Memory>
        ensures set { OnOk result (self.new ≡ record self.old { note = Some note.now }) }
        ensures refused { OnErr result (self.new ≡ record self.old { refused = true }) }
        ensures stays { self.old.refused ≡ true → IsErr result }
    {
        let note = self.kept(note)?;
        self.note = Some(note);
        Ok(())
    }

    /// Adds a label, which is dropped where it has no place. `Err` only when out of memory, now or in an earlier call.
    pub fn with_label_opt(
        &mut self,
        location: Option<SourceSpan>,
        message: &str,
    ) -> Result<(), Memory>
        ensures added { OnOk result (self.new ≡ labelled location message.now self.old) }
        ensures refused { OnErr result (self.new ≡ record self.old { refused = true }) }
        ensures stays { self.old.refused ≡ true → IsErr result }
    {
        if self.refused {
            return Err(AllocError);
        }
        match location {
            Some(location) => self.add_label(location, message),
            None => Ok(()),
        }
    }

    fn add_label(&mut self, location: SourceSpan, message: &str) -> Result<(), Memory>
        ensures added { OnOk result (self.new ≡ labelled (Some location) message.now self.old) }
        ensures refused { OnErr result (self.new ≡ record self.old { refused = true }) }
        ensures stays { self.old.refused ≡ true → IsErr result }
    {
        let message = self.kept(message)?;
        match self.labels.push((location, message)) {
            Ok(()) => Ok(()),
            Err(want) => {
                self.refused = true;
                Err(want)
            }
        }
    }

    /// A copy of a text, for a part of the report.
    fn kept(&mut self, text: &str) -> Result<Text, Memory>
        ensures kept { IfOk result (λ kept. kept ≡ text.now) }
        ensures unchanged { OnOk result (self.new ≡ self.old) }
        ensures refused { OnErr result (self.new ≡ record self.old { refused = true }) }
        ensures stays { self.old.refused ≡ true → IsErr result }
    {
        if self.refused {
            return Err(AllocError);
        }
        match Text::from_str(self.alloc, text) {
            Ok(kept) => Ok(kept),
            Err(want) => {
                self.refused = true;
                Err(want)
            }
        }
    }

    /// The lines of the report. `Err` only when out of memory, now or in an earlier call.
    pub fn into_string(self, alloc: Global) -> Result<Text, Memory>
        ensures text { IfOk result (λ text. text ≡ report_text self.entry) }
        ensures stays { self.entry.refused ≡ true → IsErr result }
    {
        if self.refused {
            return Err(AllocError);
        }
        self.lines(alloc)
    }

    fn lines(&self, alloc: Global) -> Result<Text, Memory>
        ensures { IfOk result (λ text. text ≡ report_text self.now) }
    {
        let mut out = String::new(alloc);
        out.push_str("Error: ")?;
        out.push_str(text_or_empty(&self.message))?;
        out.push_str("\n")?;
        write_labels(&mut out, self.sources, self.labels.as_slice())?;
        write_line(&mut out, "Help: ", &self.help)?;
        write_line(&mut out, "Note: ", &self.note)?;
        Ok(Text::from_string(out))
    }

    /// Writes the lines of the report to a sink.
    ///
    /// # Errors
    ///
    /// - [`Refused::Fault`] where a write failed: the sink's count of faults rose in this call. It took only the first
    ///   of the lines' bytes.
    /// - [`Refused::Memory`] when out of memory, now or in an earlier call, before anything is written.
    pub fn write<K: Sink>(self, alloc: Global, sink: &mut K) -> Result<(), Refused<SinkFault>>
        ensures whole { OnOk result (Takes (K.taken sink.old) (K.taken sink.new) (report_text self.entry)) }
        ensures failed { IfErr result (FailsWrite self.entry (K.taken sink.old) (K.taken sink.new) (K.faults sink.old) (K.faults sink.new)) }
        ensures unwritten { result ≡ Err refused_variant.Memory → sink.new ≡ sink.old }
        ensures stays { self.entry.refused ≡ true → result ≡ Err refused_variant.Memory }
    {
        let text = self.into_string(alloc)?;
        match write_all(sink, text.as_str().as_bytes()) {
            Ok(()) => Ok(()),
            Err(fault) => Err(Refused::Fault(fault)),
        }
    }
}
