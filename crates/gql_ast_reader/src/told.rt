//! The text that is read, and its file, told for proofs alone.

ghost use Rattle.std.specs.Prelude.{ℕ, List, []};
ghost use Rattle.gql_source.specs.declared.file_id.FileId.{FileId};

use std::marker::Brand;

/// The text that is read, and the number of its file. What drives an output knows nothing of either, so its type tells them.
pub(crate) trait Told {
    ghost text: { List ℕ };

    ghost file: { FileId };
}

impl Told for Brand {
    ghost text = { [] };

    ghost file = { record { number = 0 } };
}
