//! Laws of the values alone.

ghost use denote.Param.Send.{IsSend, IsSync};
ghost use Rattle.gql_document_types.specs.contracts.document.ExecutableDocument as document;
ghost use Rattle.gql_schema_types.specs.contracts.schema.Schema as schema;

/// A schema may go from one thread to another, and be used by several at once.
pub fn schemas_cross_threads()
    ensures send { IsSend schema.the_row }
    ensures sync { IsSync schema.the_row }
{}

/// A document may go from one thread to another, and be used by several at once.
pub fn documents_cross_threads()
    ensures send { IsSend document.the_row }
    ensures sync { IsSync document.the_row }
{}
