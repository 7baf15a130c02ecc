//! What several tests are made of.

use gql_diag_messages::{Rule, RuleFault};
use gql_source::SourceSpan;
use jb_text::{Listed, Memory, Text};
use std::alloc::Global;

/// A rule that is broken, by these names.
pub(crate) fn broken_rule(
    alloc: Global,
    rule: Rule,
    names: &[&str],
    other: Option<SourceSpan>,
) -> Result<RuleFault, Memory> {
    let mut texts = Listed::new(alloc);
    for name in names {
        texts.push(Text::from_str(alloc, name)?)?;
    }
    Ok(RuleFault {
        rule,
        names: texts,
        other,
    })
}
