//! Laws of lists of diagnostics and of their files, and those of responses and of guards.

ghost use Rattle.std.specs.Prelude.{◌≡◌, List};
ghost use Rattle.std.specs.Option.{option_or};
ghost use Rattle.std.specs.Map.{lookup};
ghost use Rattle.gql_source.specs.declared.file_id.FileId.{FileId as Id};
ghost use Rattle.gql_source.specs.File.{Files, is_file, joined};
ghost use Rattle.gql_diag_messages.specs.declared.diagnostic_data.DiagnosticData.{DiagnosticData as Item};
ghost use Rattle.gql_diag.specs.Order.{by_place, list_order};
ghost use Rattle.gql_diag.specs.List.{IsStableSort};

pub use crate::guard_laws::{
    first_level_guard_changes_nothing, first_name_guard_changes_nothing, level_is_undone,
    name_is_undone,
};
pub use crate::response_laws::{
    error_equality_is_sameness, response_equality_is_sameness, responses_read_back,
};

/// What merging leaves of two lists joined is one list, and so is what sorting leaves of a list: two lists with the
/// same items in order, in which ties stand as they stood, are equal.
pub fn stable_sorts_are_one()
    ensures merged { (items one other : List Item) → IsStableSort by_place items one → IsStableSort by_place items other → one ≡ other }
    ensures sorted { (items one other : List Item) → IsStableSort list_order items one → IsStableSort list_order items other → one ≡ other }
{}

/// Of files that merging joins, one's own stands at each number, and the other's only where one has none.
pub fn own_files_win()
    ensures { (own others : Files) (id : Id) → lookup (is_file id) (joined own others)
        ≡ option_or (lookup (is_file id) own) (lookup (is_file id) others) }
{}
