//! An answer, and what the program writes of one.

use bytes::Bytes;
use gql_client_schema::run_client_schema;
use jb_io::{SureSink, SureSource};
use std::alloc::Global;
use std::test::Fail;

/// A handmade answer, which has a part of each kind.
pub(crate) const ANSWER: &str =
    r#"{"data":{"__schema":{"description":"s","queryType":{"name":"Q"},"mutationType":{"name":"M"},"subscriptionType":null,"types":[{"kind":"OBJECT","name":"Q","description":"q","specifiedByURL":null,"isOneOf":null,"fields":[{"name":"f","description":null,"args":[{"name":"a","description":"d","type":{"kind":"LIST","name":null,"ofType":{"kind":"NON_NULL","name":null,"ofType":{"kind":"SCALAR","name":"Int","ofType":null}}},"defaultValue":"[1]","isDeprecated":true,"deprecationReason":"r"}],"type":{"kind":"NON_NULL","name":null,"ofType":{"kind":"ENUM","name":"E","ofType":null}},"isDeprecated":false,"deprecationReason":null}],"inputFields":null,"interfaces":[{"kind":"INTERFACE","name":"I","ofType":null}],"possibleTypes":null,"enumValues":null},{"kind":"ENUM","name":"E","description":null,"specifiedByURL":null,"isOneOf":null,"fields":null,"inputFields":null,"interfaces":null,"possibleTypes":null,"enumValues":[{"name":"A","description":null,"isDeprecated":true,"deprecationReason":null},{"name":"B","description":null,"isDeprecated":false,"deprecationReason":null}]},{"kind":"INPUT_OBJECT","name":"N","description":null,"specifiedByURL":null,"isOneOf":true,"fields":null,"inputFields":[{"name":"x","description":null,"type":{"kind":"SCALAR","name":"ID","ofType":null},"defaultValue":null,"isDeprecated":false,"deprecationReason":null}],"interfaces":null,"possibleTypes":null,"enumValues":null},{"kind":"SCALAR","name":"S","description":null,"specifiedByURL":"u","isOneOf":null,"fields":null,"inputFields":null,"interfaces":null,"possibleTypes":null,"enumValues":null},{"kind":"UNION","name":"U","description":null,"specifiedByURL":null,"isOneOf":null,"fields":null,"inputFields":null,"interfaces":null,"possibleTypes":[{"kind":"OBJECT","name":"Q","ofType":null},{"kind":"OBJECT","name":"M","ofType":null}],"enumValues":null}],"directives":[{"name":"d","description":null,"isRepeatable":true,"locations":["FIELD","QUERY"],"args":[{"name":"b","description":null,"type":{"kind":"SCALAR","name":"Int","ofType":null},"defaultValue":"1","isDeprecated":false,"deprecationReason":null}]}]}}}"#;

/// More bytes than anything here writes.
const ROOM: usize = 1024;

/// What the program writes of the answer.
pub(crate) fn written(alloc: Global, answer: &str) -> Result<Bytes, Fail> {
    let input = Bytes::copy_from_slice(alloc, answer.as_bytes())?;
    let mut source = SureSource::new(input, 64);
    let mut sink = SureSink::new(alloc, ROOM)?;
    let _status = run_client_schema(alloc, &[], &mut source, &mut sink);
    Ok(Bytes::copy_from_slice(alloc, sink.written())?)
}
