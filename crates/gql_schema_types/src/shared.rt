//! Values that their copies share.

ghost use Rattle.std.specs.Prelude.{◌≡◌, IfOk};

use crate::named::Named;
use gql_ast_base::{Copying, Name};
use jb_text::Memory;
use std::alloc::{AllocError, Global};
use std::marker::Model;
use std::ops::Deref;
use std::sync::Arc;

/// A value that its copies share, in whatever thread they are. Contracts see the value.
///
/// A copy takes a few instructions and no memory, however large the value is.
#[derive(Drop)]
pub struct Shared<T> {
    held: Arc<T>,
}

impl<T> Model for Shared<T> {
    ghost Value = { T };

    ghost coded = { T.code };

    ghost view = { λ shared. shared.held.value };
}

impl<T: Drop> Shared<T> {
    /// The value, to be shared. `Err` only when out of memory, and the value is then dropped.
    pub fn new(alloc: Global, value: T) -> Result<Shared<T>, Memory>
        ensures { IfOk result (λ shared. shared ≡ value) }
    {
        match Arc::new(alloc, value) {
            Ok(held) => Ok(Shared { held }),
            Err(_) => Err(AllocError),
        }
    }
}

impl<T> Deref for Shared<T> {
    type Target = T;

    ghost deref_gives = { λ shared value. value ≡ shared };

    fn deref(&self) -> &T {
        &self.held
    }
}

impl<T: Drop> Copying for Shared<T> {
    /// The same value, shared. `Err` only where there are more copies than can be counted.
    fn copy(&self, _alloc: Global) -> Result<Shared<T>, Memory> {
        Ok(Shared {
            held: self.held.clone()?,
        })
    }
}

impl<T: Named> Named for Shared<T> {
    ghost own = { T.own };

    fn own_name(&self) -> &Name {
        self.held.own_name()
    }
}
