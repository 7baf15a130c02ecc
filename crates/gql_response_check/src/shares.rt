//! Claims shared out by their next step.

ghost use Rattle.std.specs.Prelude.{◌≡◌, ◌<◌, ℕ, List, [], ◌++◌, length, replicate, IfOk, OnOk};
ghost use Rattle.gql_checker_laws.specs.Shares.{added};
ghost use Rattle.gql_response.specs.declared.path.ResponseDataPathSegment.TheVariants.{ListIndex};
ghost use Rattle.gql_checker_laws.specs.Claims.{share_one};
ghost use Rattle.gql_response_check.specs.bridge.Shares as spec;
ghost use Rattle.gql_response_check.specs.bridge.Views.{claim_of, claims_of};

use crate::claim::Claim;
use gql_ast_base::Name;
use gql_response::ResponseDataPathSegment;
use gql_schema_types::{Named, Table};
use jb_text::{Listed, Memory};
use std::alloc::{AllocError, Global};

/// The name of a next step.
#[derive(Drop)]
pub(crate) struct StepName<'r> {
    pub name: &'r Name,
}

impl Named for StepName<'_> {
    ghost own = { λ step. step.name.now };

    fn own_name(&self) -> &Name {
        self.name
    }
}

/// Claims by the response key of their next step, each one step further. Keys are found by hash.
pub(crate) struct KeyShares<'r> {
    names: Table<StepName<'r>>,
    shares: Listed<Listed<Claim<'r>>>,
    /// No claims, which are lent where there is no share.
    none: Listed<Claim<'r>>,
}

impl Drop for KeyShares<'_> {
    fn drop(self) {
        let KeyShares {
            names: _,
            shares: _,
            none: _,
        } = self;
    }
}

impl<'r> KeyShares<'r> {
    /// The shares of these claims. `Err` only when out of memory.
    pub(crate) fn new(alloc: Global, claims: &[Claim<'r>]) -> Result<KeyShares<'r>, Memory>
        ensures { IfOk result (λ shares. spec.AreKeyShares shares (claims_of claims.now)) }
    {
        let mut shares = KeyShares {
            names: Table::new(alloc),
            shares: Listed::new(alloc),
            none: Listed::new(alloc),
        };
        for claim in claims {
            if let Some((ResponseDataPathSegment::Field(name), rest)) = claim.rest.split_first() {
                shares.put(alloc, name, Claim { rest, ..*claim })?;
            }
        }
        Ok(shares)
    }

    /// Those that go on by the key.
    pub(crate) fn of(&self, key: &Name) -> &[Claim<'r>]
        requires { spec.AreEven self.now }
        ensures { claims_of result.now ≡ spec.key_share self.now key.now.text }
    {
        let Some(number) = self.names.find(key.as_str()) else {
            return self.none.as_slice();
        };
        at(&self.shares, number, &self.none)
    }

    /// Puts a claim into the share of the name, or begins one.
    fn put(&mut self, alloc: Global, name: &'r Name, claim: Claim<'r>) -> Result<(), Memory>
        requires { spec.AreEven self.old }
        ensures even { OnOk result (spec.AreEven self.new) }
        ensures put { OnOk result ((key : List ℕ) → spec.key_share self.new key ≡ spec.key_share self.old key ++ spec.if_called name.now.text claim.entry key) }
    {
        match self.names.find(name.as_str()) {
            Some(number) => add(&mut self.shares, number, claim),
            None => {
                let mut share = Listed::new(alloc);
                share.push(claim)?;
                self.shares.push(share)?;
                match self.names.insert_new(StepName { name }) {
                    Ok(()) => Ok(()),
                    Err(_) => Err(AllocError),
                }
            }
        }
    }
}

/// Claims by the index of their next step, each one step further.
pub(crate) struct IndexShares<'r> {
    shares: Listed<Listed<Claim<'r>>>,
    /// No claims, which are lent where there is no share.
    none: Listed<Claim<'r>>,
}

impl Drop for IndexShares<'_> {
    fn drop(self) {
        let IndexShares { shares: _, none: _ } = self;
    }
}

impl<'r> IndexShares<'r> {
    /// The shares of these claims among the items of a list of so many. `Err` only when out of memory.
    pub(crate) fn new(
        alloc: Global,
        claims: &[Claim<'r>],
        count: usize,
    ) -> Result<IndexShares<'r>, Memory>
        ensures { IfOk result (spec.AreIndexShares count (claims_of claims.now)) }
    {
        if claims.is_empty() {
            return Ok(IndexShares {
                shares: Listed::new(alloc),
                none: Listed::new(alloc),
            });
        }
        let mut shares = no_shares(alloc, count)?;
        for claim in claims {
            share_by_index(&mut shares, claim)?;
        }
        Ok(IndexShares {
            shares,
            none: Listed::new(alloc),
        })
    }

    /// Those that go on by the index.
    pub(crate) fn of(&self, index: usize) -> &[Claim<'r>]
        requires { self.now.none ≡ [] }
        ensures { claims_of result.now ≡ spec.share_at self.now.shares index }
    {
        at(&self.shares, index, &self.none)
    }
}

/// Puts a claim into the share of its next step, where that is an index of a share. `Err` only when out of memory.
fn share_by_index<'r>(
    shares: &mut Listed<Listed<Claim<'r>>>,
    claim: &Claim<'r>,
) -> Result<(), Memory>
    ensures length { OnOk result (length shares.new ≡ length shares.old) }
    ensures shared { OnOk result ((index : ℕ) → index < length shares.old → spec.share_at shares.new index
        ≡ spec.share_at shares.old index ++ share_one (ListIndex index) (claim_of claim.now) claim.now.rest.now) }
{
    match claim.rest.split_first() {
        Some((ResponseDataPathSegment::ListIndex(index), rest)) => {
            add(shares, *index, Claim { rest, ..*claim })
        }
        Some((ResponseDataPathSegment::Field(_), _)) | None => Ok(()),
    }
}

/// So many shares with no claims. `Err` only when out of memory.
fn no_shares<'r>(alloc: Global, count: usize) -> Result<Listed<Listed<Claim<'r>>>, Memory>
    ensures { IfOk result (λ shares. shares ≡ replicate count []) }
{
    let mut shares = Listed::with_capacity(alloc, count)?;
    for _number in 0..count {
        shares.push(Listed::new(alloc))?;
    }
    Ok(shares)
}

/// The share of a number, or these where there is no such share.
fn at<'p, 'r>(
    shares: &'p Listed<Listed<Claim<'r>>>,
    number: usize,
    none: &'p Listed<Claim<'r>>,
) -> &'p [Claim<'r>]
    requires { none.now ≡ [] }
    ensures { claims_of result.now ≡ spec.share_at shares.now number }
{
    let Some(share) = shares.get(number) else {
        return none.as_slice();
    };
    share.as_slice()
}

/// Puts a claim last into the share of a number, where there is one.
fn add<'r>(
    shares: &mut Listed<Listed<Claim<'r>>>,
    number: usize,
    claim: Claim<'r>,
) -> Result<(), Memory>
    ensures { OnOk result (shares.new ≡ added shares.old number claim.entry) }
{
    match shares.get_mut(number) {
        Some(share) => share.push(claim),
        None => Ok(()),
    }
}
