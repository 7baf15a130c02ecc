//! GraphQL requests answered, from bytes to bytes.
//!
//! [`answer`] takes the texts of a schema and a query and a resolver, and gives the bytes of the response; [`run`] is
//! the whole program, over any source and sink. The contract of each says that what it gives or writes is a response
//! to what the two texts mean, whose data and errors are explained where the resolver leaves nothing out, as the program's
//! does, that each refusal has its cause, and that a valid request is answered, unless memory or a stream fails. The program
//! also checks the texts of a request, and tries itself.
//!
//! A [`Service`] is a schema that is checked once. Each request that it is asked is answered as [`answer`] answers it with the text
//! of that schema, and so is a query that was [`Prepared`] once.
//!
//! Further programs stand on the same pieces as these: [`phases`] has the steps of an answer one by one, [`serving`] the run of a
//! program that reads requests, and [`laws`] what the definitions say by themselves, as that causes exclude one another.
//!
//! The modules have what stands below, one for each part of the work, under the names that users of GraphQL in Rust know. The names
//! that most users need are here too.
#![tactic(auto)]

mod answer_error;
mod answering;
mod call;
mod decimal_word;
pub mod laws;
mod list_reports;
mod made;
mod meaning;
mod output;
mod prepared;
pub mod program;
mod question;
mod ready;
mod reply;
mod request_command;
mod request_form;
pub mod request_laws;
mod request_reading;
mod request_serving;
mod responding;
mod response_bytes;
mod self_test;
mod self_test_request;
mod service;
mod steps_before;
mod task;
mod text_in;
mod uncounted;
mod variables;
mod wanted;

/// Documents as syntax trees, which know of no schema (GraphQL October 2021, section 2).
pub mod ast {
    pub use gql_ast::{
        Argument, Boxed, Convert, Copying, Definition, Directive, DirectiveDefinition,
        DirectiveLocation, Document, EnumTypeDefinition, EnumTypeExtension, EnumValueDefinition,
        Field, FieldDefinition, FragmentDefinition, FragmentSpread, InlineFragment,
        InputObjectTypeDefinition, InputObjectTypeExtension, InputValueDefinition,
        InterfaceTypeDefinition, InterfaceTypeExtension, Name, NameFault, ObjectTypeDefinition,
        ObjectTypeExtension, OperationDefinition, OperationType, ScalarTypeDefinition,
        ScalarTypeExtension, SchemaDefinition, SchemaExtension, Selection, TypeRef,
        UnionTypeDefinition, UnionTypeExtension, Value, ValueKind, VariableDefinition, print_type,
        print_value,
    };
}

/// Schemas: their types by name, and how they are built (section 3).
pub mod schema {
    pub use gql_schema::{
        EnumType, ExtendedType, Implementers, ImplementersMap, InputObjectType, InterfaceType,
        MetaFields, Named, ObjectType, ScalarType, Schema, SchemaBuilder, SchemaDefinition, Table,
        UnionType,
    };
}

/// Operations and fragments with the definitions of their fields, and how they are built.
pub mod executable {
    pub use gql_document::{
        ExecutableDocument, ExecutableDocumentBuilder, ExpandFault, Field, FieldSet, Fragment,
        FragmentSpread, InlineFragment, Operation, Selection, SelectionSet, build_field_set,
        expand_fragments,
    };
}

/// The rules on schemas and documents, and marks of what passed them (sections 3 and 5).
pub mod validation {
    pub use gql_diag::{DiagnosticList, WithErrors};
    pub use gql_rules::{
        PossibleTypes, validate_document, validate_document_with, validate_standalone,
    };
    pub use gql_schema_rules::{check_arguments, check_directives, check_literal, validate_schema};
    pub use gql_schema_types::Valid;
}

/// What is wrong with a text, and where, for people and for programs.
pub mod diagnostic {
    pub use crate::list_reports::reports;
    pub use gql_diag::{
        CliReport, Details, Diagnostic, DiagnosticData, Diagnostics, Rule, RuleFault, ToCliReport,
        refusal_of_diagnostics,
    };
}

/// Texts, with their files and places, and what they stand for.
pub mod parser {
    pub use gql_parser::{Parser, document_of_text, document_of_text_with, schema_of_text};
    pub use gql_source::{
        FileId, FileIds, LineColumn, LineCursor, SourceFile, SourceMap, SourceSpan,
    };
}

/// Objects that resolve the fields of a response, and executions over them (section 6).
pub mod resolvers {
    pub use gql_collect::{Grouped, Pieces, Steps, collect_fields};
    pub use gql_exec::{Execution, WrittenResponse};
    pub use gql_resolvers::{
        DataObject, FieldError, ObjectValue, RequestInfo, ResolveError, ResolveInfo, ResolvedValue,
    };
}

/// What a schema tells of itself (section 4).
pub mod introspection {
    pub use gql_collect::check_max_depth;
    pub use gql_exec::partial_execute;
    pub use gql_introspection::MetaObject;
}

/// Requests: their JSON, and the steps between the texts and the execution (section 6.1).
pub mod request {
    pub use crate::request_form::{Member, Request, RequestFault, RequestForm, decode};
    pub use crate::request_reading::read_message;
    pub use gql_collect::coerce_variable_values;
    pub use gql_diag::{RequestError, refusal_of_request};
}

/// The steps of an answer one by one, for programs that do something else in between: what is wanted, the texts, what nothing is in
/// the way of, and its execution.
pub mod phases {
    pub use crate::meaning::{check_query, check_schema};
    pub use crate::ready::ReadyOperation;
    pub use crate::responding::respond;
    pub use crate::response_bytes::Written;
    pub use crate::variables::read_variables;
    pub use crate::wanted::Wanted;
}

/// Programs that read requests as [`run`] does, each with words and commands of its own.
pub mod serving {
    pub use crate::decimal_word::decimal_word;
    pub use crate::output::{Output, done_with, line, refused_for, refused_with};
    pub use crate::request_command::RequestCommand;
    pub use crate::request_serving::{serve_requests, serve_requests_uncounted};
}

/// Responses (section 7).
pub mod response {
    pub use gql_diag::{
        ExecutionResponse, GraphQLError, JsonMap, JsonValue, ResponseDataPathSegment, ResponseFault,
    };
}

/// JSON values, and maps and lists in their order.
pub mod collections {
    pub use jb_read::from_bytes_whole;
    pub use jb_tree::{
        ByteString, Entry, Listed, Map, Memory, Number, Pairs, Refused, Text, Value,
    };
}

pub use answer_error::{AnswerError, RequestKind, VariablesFault};
pub use answering::answer;
pub use gql_ast::Document;
pub use gql_collect::Steps;
pub use gql_diag::{
    DiagnosticList, ExecutionResponse, GraphQLError, RequestError, refusal_of_diagnostics,
    refusal_of_request,
};
pub use gql_document_types::ExecutableDocument;
pub use gql_exec::{Execution, WrittenResponse, partial_execute};
pub use gql_parser::laws::valid_documents_run;
pub use gql_parser::{Parser, document_of_text, schema_of_text};
pub use gql_resolvers::{
    DataObject, FieldError, ObjectValue, ResolveError, ResolveInfo, ResolvedValue,
};
pub use gql_rules::validate_standalone;
pub use gql_schema_types::{Schema, Valid};
pub use gql_source::{FileId, FileIds, SourceMap};
pub use jb_io::{ANSWERED, MISUSED, NO_MEMORY, REFUSED, SINK_FAILED, SOURCE_FAILED, TOO_LONG};
pub use jb_read::from_bytes_whole;
pub use jb_tree::{ByteString, Listed, Map, Memory, Number, Refused, Text, Value};
pub use list_reports::reports;
pub use prepared::Prepared;
pub use program::{run, run_in_memory};
pub use question::Question;
pub use service::Service;
pub use uncounted::answer_uncounted;
