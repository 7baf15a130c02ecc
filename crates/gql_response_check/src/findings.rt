//! What is found on the way.

ghost use Rattle.std.specs.Prelude.{◌≡◌, ◌||◌, IfOk, Some};
ghost use Rattle.gql_checker_laws.specs.Claims.{first_missing, first_of};
ghost use Rattle.gql_checker_laws.specs.Findings.{none_yet, with_told};
ghost use Rattle.gql_response_check.specs.bridge.Views.{findings_of};

use gql_response::ResponseDataPathSegment;
use jb_text::{Listed, Memory};
use std::alloc::Global;

/// What is found on the way.
#[derive(Drop)]
pub(crate) struct Findings {
    /// Which of the listed errors are true, by their numbers.
    pub told: Listed<bool>,
    /// The path of the first bad value.
    pub bad: Option<Listed<ResponseDataPathSegment>>,
}

impl Findings {
    /// Nothing is found yet of so many errors. `Err` only when out of memory.
    pub(crate) fn new(alloc: Global, errors: usize) -> Result<Findings, Memory>
        ensures { IfOk result (λ findings. findings_of findings ≡ none_yet errors) }
    {
        let mut told = Listed::with_capacity(alloc, errors)?;
        for _number in 0..errors {
            told.push(false)?;
        }
        Ok(Findings { told, bad: None })
    }

    /// The number of the first error that was not found to be true.
    pub(crate) fn first_untold(&self) -> Option<usize>
        ensures { result ≡ first_missing self.now.told }
    {
        for number in 0..self.told.len() {
            if !self.told.as_slice()[number] {
                return Some(number);
            }
        }
        None
    }

    /// Marks an error as true.
    pub(crate) fn tell(&mut self, number: usize)
        ensures { findings_of self.new ≡ with_told number (findings_of self.old) }
    {
        if let Some(told) = self.told.get_mut(number) {
            *told = true;
        }
    }

    /// Notes the path of a bad value, unless there was one before.
    pub(crate) fn note_bad(&mut self, path: Listed<ResponseDataPathSegment>)
        ensures told { self.new.told ≡ self.old.told }
        ensures bad { self.new.bad ≡ first_of self.old.bad (Some path) }
    {
        if self.bad.is_none() {
            self.bad = Some(path);
        }
    }
}

/// Whether a null passes out of either of two places.
pub(crate) fn either(one: bool, other: bool) -> bool
    ensures { result ≡ (one || other) }
{
    one || other
}
