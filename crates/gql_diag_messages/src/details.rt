//! What a diagnostic is about, and what is said of it.

ghost use Rattle.std.specs.Prelude.{◌≡◌, ◌++◌, [], ◌∷◌, map, IfOk};
ghost use Rattle.std.specs.Option.{option_copied};
ghost use Rattle.gql_diag_messages.specs.Details.{fault_message, fault_compat, fault_label, label_pattern, fault_of, label_of, other_of, message_of, compat_of, error_name};
ghost use Rattle.gql_diag_messages.specs.Filled.{filled as filled_pattern, name_at as name_of};
ghost use Rattle.gql_diag_messages.specs.NamedType.{compat_names, named_type as named_type_of};

use crate::filled::{filled, name_at};
use crate::named_type::named_type;
use crate::rule::Rule;
use gql_source::SourceSpan;
use jb_text::{Listed, Memory, Text};
use std::alloc::Global;

/// A broken rule, with the names that its messages tell and, where there is an earlier definition or another field,
/// that one's place.
///
/// There are as many names as the two messages of the rule ask for. A name that is lacking, as that of an unnamed
/// operation, is the empty text.
#[derive(Debug)]
pub struct RuleFault {
    pub rule: Rule,
    pub names: Listed<Text>,
    pub other: Option<SourceSpan>,
}

impl Drop for RuleFault {
    fn drop(self) {
        let RuleFault {
            rule: _,
            names: _,
            other: _,
        } = self;
    }
}

impl RuleFault {
    /// A broken rule, with copies of the names that its messages tell and with the place of another definition or field. `Err`
    /// only when out of memory.
    pub fn new(
        alloc: Global,
        rule: Rule,
        names: &[&str],
        other: Option<SourceSpan>,
    ) -> Result<RuleFault, Memory>
        ensures { IfOk result (λ fault. fault ≡ record { rule = rule; names = map (λ name. name.now) names.now; other = other }) }
    {
        let names = texts(alloc, names)?;
        Ok(RuleFault { rule, names, other })
    }

    /// The message of the rule with the names in their places. `Err` only when out of memory.
    pub fn message(&self, alloc: Global) -> Result<Text, Memory>
        ensures { IfOk result (λ message. message ≡ fault_message self.now) }
    {
        filled(alloc, self.rule.message_pattern(), self.names.as_slice())
    }

    /// The same in the words of the reference implementation, where it has any. A literal of a wrong kind is told with
    /// the named type alone: `Int` where the whole type is `[Int!]`. `Err` only when out of memory.
    pub fn compat_message(&self, alloc: Global) -> Result<Option<Text>, Memory>
        ensures { IfOk result (λ message. message ≡ fault_compat self.now) }
    {
        match self.rule.compat_pattern(self.names.as_slice()) {
            Some(pattern) => Ok(Some(self.compat_filled(alloc, pattern)?)),
            None => Ok(None),
        }
    }

    /// The words of the reference implementation with the names in their places.
    fn compat_filled(&self, alloc: Global, pattern: &str) -> Result<Text, Memory>
        ensures { IfOk result (λ text. text ≡ filled_pattern pattern.now (compat_names self.now.rule self.now.names)) }
    {
        match self.rule {
            Rule::UnsupportedValueType => filled_with_named_type(
                alloc,
                pattern,
                self.names.as_slice(),
            ),
            _ => filled(alloc, pattern, self.names.as_slice()),
        }
    }

    /// What a report says at the place. `Err` only when out of memory.
    pub fn label(&self, alloc: Global) -> Result<Text, Memory>
        ensures { IfOk result (λ label. label ≡ fault_label self.now) }
    {
        filled(alloc, label_pattern(self.rule), self.names.as_slice())
    }
}

/// Copies of these texts. `Err` only when out of memory.
fn texts(alloc: Global, names: &[&str]) -> Result<Listed<Text>, Memory>
    ensures { IfOk result (λ made. made ≡ map (λ name. name.now) names.now) }
{
    let mut made = Listed::new(alloc);
    for name in names {
        made.push(Text::from_str(alloc, name)?)?;
    }
    Ok(made)
}

/// A pattern with the named type of the first name, and with the second name.
fn filled_with_named_type(alloc: Global, pattern: &str, names: &[Text]) -> Result<Text, Memory>
    ensures { IfOk result (λ text. text ≡ filled_pattern pattern.now (named_type_of (name_of names.now 0) ∷ name_of names.now 1 ∷ [])) }
{
    let told = [
        named_type(alloc, name_at(names, 0))?,
        Text::from_str(alloc, name_at(names, 1))?,
    ];
    filled(alloc, pattern, told.as_slice())
}

/// What a report says at the place of a broken rule, with places for names.
fn label_pattern(rule: Rule) -> &'static str
    ensures { result.now ≡ label_pattern rule }
{
    match rule {
        Rule::UndefinedRootOperation => {
            "`{0}` is not defined in the schema and is therefore not supported"
        }
        _ => "here",
    }
}

/// What a diagnostic is about.
#[derive(Debug, Drop)]
pub enum Details {
    /// A limit of the parser was passed.
    ParserLimit { message: Text },
    /// A text is no sentence of the grammar.
    SyntaxError { message: Text },
    /// A schema can't be built of its definitions.
    SchemaBuildError(RuleFault),
    /// A document can't be built of its definitions, or its fields can't be merged.
    ExecutableBuildError(RuleFault),
    /// A rule of schemas or documents is broken.
    CompilerDiagnostic(RuleFault),
    /// A chain of names is too long.
    RecursionLimitError,
}

impl Details {
    /// What is said to people. `Err` only when out of memory.
    pub fn message(&self, alloc: Global) -> Result<Text, Memory>
        ensures { IfOk result (λ message. message ≡ message_of self.now) }
    {
        match self {
            Details::ParserLimit { message } => message.copy(alloc),
            Details::SyntaxError { message } => prefixed(alloc, "syntax error: ", message.as_str()),
            Details::SchemaBuildError(fault)
            | Details::ExecutableBuildError(fault)
            | Details::CompilerDiagnostic(fault) => fault.message(alloc),
            Details::RecursionLimitError => Text::from_str(alloc, "too much recursion"),
        }
    }

    /// The same in the words of the reference implementation, where it has any. `Err` only when out of memory.
    pub fn compat_message(&self, alloc: Global) -> Result<Option<Text>, Memory>
        ensures { IfOk result (λ message. message ≡ compat_of self.now) }
    {
        match self {
            Details::ExecutableBuildError(fault) | Details::CompilerDiagnostic(fault) => {
                fault.compat_message(alloc)
            }
            _ => Ok(None),
        }
    }

    /// The broken rule, where there is one.
    #[must_use]
    pub fn fault(&self) -> Option<&RuleFault>
        ensures { option_copied result ≡ fault_of self.now }
    {
        match self {
            Details::SchemaBuildError(fault)
            | Details::ExecutableBuildError(fault)
            | Details::CompilerDiagnostic(fault) => Some(fault),
            _ => None,
        }
    }

    /// What a report says at the place. `Err` only when out of memory.
    pub fn label(&self, alloc: Global) -> Result<Text, Memory>
        ensures { IfOk result (λ label. label ≡ label_of (fault_of self.now)) }
    {
        match self.fault() {
            Some(fault) => fault.label(alloc),
            None => Text::from_str(alloc, "here"),
        }
    }

    /// The place of the other definition or field, where there is one.
    #[must_use]
    pub fn other(&self) -> Option<SourceSpan>
        ensures { result ≡ other_of (fault_of self.now) }
    {
        match self.fault() {
            Some(fault) => fault.other,
            None => None,
        }
    }

    /// The name of the broken rule, or `RecursionLimitError`. `None` for a text that is no sentence or passes a limit
    /// of the parser, and for a schema that can't be built.
    #[must_use]
    pub fn error_name(&self) -> Option<&str>
        ensures { option_copied result ≡ error_name self.now }
    {
        match self {
            Details::ExecutableBuildError(fault) | Details::CompilerDiagnostic(fault) => {
                Some(fault.rule.name())
            }
            Details::RecursionLimitError => Some("RecursionLimitError"),
            _ => None,
        }
    }
}

/// A text behind another.
fn prefixed(alloc: Global, prefix: &str, text: &str) -> Result<Text, Memory>
    ensures { IfOk result (λ both. both ≡ prefix.now ++ text.now) }
{
    let mut both = String::from_str(alloc, prefix)?;
    both.push_str(text)?;
    Ok(Text::from_string(both))
}
