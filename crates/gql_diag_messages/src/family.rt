//! The families of rules: what it is that a broken rule is told as.

ghost use Rattle.std.specs.Prelude.{◌≡◌, ◌++◌, [], ◌∷◌, map, OnOk};
ghost use Rattle.gql_diag_messages.specs.Family as spec;

use crate::details::{Details, RuleFault};
use crate::diagnostic_data::DiagnosticData;
use crate::rule::Rule;
use gql_source::SourceSpan;
use jb_text::{Listed, Memory};
use std::alloc::Global;

/// What a broken rule stands for. Each family has a variant of [`Details`].
#[derive(Clone, Copy, Debug)]
pub enum Family {
    /// A schema can't be built.
    SchemaBuild,
    /// A document can't be built, or its fields can't be merged.
    ExecutableBuild,
    /// What was built is wrong.
    Compiler,
}

impl Rule {
    /// The family of the rule.
    #[must_use]
    pub fn family(self) -> Family
        ensures { result ≡ spec.family self }
    {
        match self {
            Rule::ExecutableDefinition
            | Rule::SchemaDefinitionCollision
            | Rule::DirectiveDefinitionCollision
            | Rule::TypeDefinitionCollision
            | Rule::BuiltInScalarTypeRedefinition
            | Rule::OrphanSchemaExtension
            | Rule::OrphanTypeExtension
            | Rule::TypeExtensionKindMismatch
            | Rule::DuplicateRootOperation
            | Rule::DuplicateImplementsInterfaceInObject
            | Rule::DuplicateImplementsInterfaceInInterface
            | Rule::ObjectFieldNameCollision
            | Rule::InterfaceFieldNameCollision
            | Rule::InputFieldNameCollision
            | Rule::EnumValueNameCollision
            | Rule::UnionMemberNameCollision => Family::SchemaBuild,
            Rule::TypeSystemDefinition
            | Rule::AmbiguousAnonymousOperation
            | Rule::OperationNameCollision
            | Rule::FragmentNameCollision
            | Rule::UndefinedRootOperation
            | Rule::UndefinedField
            | Rule::UndefinedTypeInNamedFragmentTypeCondition
            | Rule::UndefinedTypeInInlineFragmentTypeCondition
            | Rule::SubselectionOnScalarType
            | Rule::SubselectionOnEnumType
            | Rule::SubscriptionUsesMultipleFields
            | Rule::SubscriptionUsesIntrospection
            | Rule::SubscriptionUsesConditionalSelection
            | Rule::ConflictingFieldType
            | Rule::ConflictingFieldName
            | Rule::ConflictingFieldArgument => Family::ExecutableBuild,
            _ => Family::Compiler,
        }
    }
}

impl RuleFault {
    /// The broken rule as the details of a diagnostic, by the family of the rule.
    #[must_use]
    #[tactic(auto, unfolding(crate::specs::Family::details_of))]
    pub fn into_details(self) -> Details
        ensures { result ≡ spec.details_of self }
    {
        match self.rule.family() {
            Family::SchemaBuild => Details::SchemaBuildError(self),
            Family::ExecutableBuild => Details::ExecutableBuildError(self),
            Family::Compiler => Details::CompilerDiagnostic(self),
        }
    }
}

/// Lists a broken rule with the names that its messages tell, its place and the other place. `Err` only when out of memory.
pub fn list_fault(
    alloc: Global,
    rule: Rule,
    names: &[&str],
    location: Option<SourceSpan>,
    other: Option<SourceSpan>,
    faults: &mut Listed<DiagnosticData>,
) -> Result<(), Memory>
    ensures { OnOk result (faults.new ≡ faults.old ++ spec.fault rule (map (λ name. name.now) names.now) location other ∷ []) }
{
    let fault = RuleFault::new(alloc, rule, names, other)?;
    faults.push(DiagnosticData {
        location,
        details: fault.into_details(),
    })
}
