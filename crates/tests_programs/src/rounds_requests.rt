//! Requests over one schema.

use crate::rounds_cases::{Case, Told, first_other};
use gql_engine::Service;
use std::mem::ManuallyDrop;
use std::test::Fail;

const SCHEMA: &str =
    "type Query { book(id: ID!): Book books(first: Int = 2): [Book!] entry: Entry found: [Found] year: Int! note: JSON } \
    interface Entry { title: String } \
    type Book implements Entry { title: String author: Author! related: [[Book]] year: Int! } \
    type Author implements Entry { title: String name: String! books(first: Int): [Book!]! } \
    union Found = Book | Author \
    scalar JSON";

/// Each with what its rounds ask, as it was worked out by hand.
const CASES: [Case; 13] = [
    Case {
        query: "{ __typename }",
        variables: "{}",
        introspection: false,
        rounds: &[],
        last: "{\"data\":{\"__typename\":\"Query\"}}",
    },
    Case {
        query: "{ year note }",
        variables: "{}",
        introspection: false,
        rounds: &[Told {
            asks: "[{\"object\":0,\"type\":\"Query\",\"field\":\"year\",\"arguments\":{}},{\"object\":0,\"type\":\"Query\",\"field\":\"note\",\"arguments\":{}}]",
            answers: "[{\"object\":0,\"field\":\"year\",\"value\":1815},{\"object\":0,\"field\":\"note\",\"value\":{\"object\":7,\"type\":\"Book\"}}]",
        }],
        last: "{\"data\":{\"year\":1815,\"note\":{\"object\":7,\"type\":\"Book\"}}}",
    },
    Case {
        query: "query ($id: ID!) { book(id: $id) { title author { name books { title } } } books { ...T } again: books(first: 2) { year } } fragment T on Book { title }",
        variables: "{\"id\":\"5\"}",
        introspection: false,
        rounds: &[
            Told {
                asks: "[{\"object\":0,\"type\":\"Query\",\"field\":\"book\",\"arguments\":{\"id\":\"5\"}},{\"object\":0,\"type\":\"Query\",\"field\":\"books\",\"arguments\":{\"first\":2}}]",
                answers: "[{\"object\":0,\"field\":\"book\",\"arguments\":{\"id\":\"5\"},\"value\":{\"object\":5,\"type\":\"Book\"}},{\"object\":0,\"field\":\"books\",\"arguments\":{\"first\":2},\"value\":[{\"object\":5,\"type\":\"Book\"},{\"object\":6,\"type\":\"Book\"}]}]",
            },
            Told {
                asks: "[{\"object\":5,\"type\":\"Book\",\"field\":\"title\",\"arguments\":{}},{\"object\":5,\"type\":\"Book\",\"field\":\"author\",\"arguments\":{}},{\"object\":6,\"type\":\"Book\",\"field\":\"title\",\"arguments\":{}},{\"object\":5,\"type\":\"Book\",\"field\":\"year\",\"arguments\":{}},{\"object\":6,\"type\":\"Book\",\"field\":\"year\",\"arguments\":{}}]",
                answers: "[{\"object\":5,\"field\":\"title\",\"value\":\"Emma\"},{\"object\":5,\"field\":\"author\",\"value\":{\"object\":9,\"type\":\"Author\"}},{\"object\":6,\"field\":\"title\",\"value\":null},{\"object\":5,\"field\":\"year\",\"value\":1815},{\"object\":6,\"field\":\"year\",\"value\":1817}]",
            },
            Told {
                asks: "[{\"object\":9,\"type\":\"Author\",\"field\":\"name\",\"arguments\":{}},{\"object\":9,\"type\":\"Author\",\"field\":\"books\",\"arguments\":{}}]",
                answers: "[{\"object\":9,\"field\":\"name\",\"value\":\"Jane\"},{\"object\":9,\"field\":\"books\",\"value\":[{\"object\":5,\"type\":\"Book\"}]}]",
            },
        ],
        last: "{\"data\":{\"book\":{\"title\":\"Emma\",\"author\":{\"name\":\"Jane\",\"books\":[{\"title\":\"Emma\"}]}},\"books\":[{\"title\":\"Emma\"},{\"title\":null}],\"again\":[{\"year\":1815},{\"year\":1817}]}}",
    },
    Case {
        query: "{ __schema { queryType { name } } year __type(name: \"Book\") { name } }",
        variables: "{}",
        introspection: true,
        rounds: &[Told {
            asks: "[{\"object\":0,\"type\":\"Query\",\"field\":\"year\",\"arguments\":{}}]",
            answers: "[{\"object\":0,\"field\":\"year\",\"value\":1}]",
        }],
        last: "{\"data\":{\"__schema\":{\"queryType\":{\"name\":\"Query\"}},\"year\":1,\"__type\":{\"name\":\"Book\"}}}",
    },
    Case {
        query: "{ __schema { queryType { name } } found { __typename } }",
        variables: "{}",
        introspection: false,
        rounds: &[Told {
            asks: "[{\"object\":0,\"type\":\"Query\",\"field\":\"found\",\"arguments\":{}}]",
            answers: "[{\"object\":0,\"field\":\"found\",\"value\":[{\"object\":1,\"type\":\"Book\"},{\"object\":2,\"type\":\"Author\"}]}]",
        }],
        last: "{\"errors\":[{\"message\":\"resolver error: schema introspection is disabled\",\"locations\":[{\"line\":1,\"column\":3}],\"path\":[\"__schema\"]}],\"data\":null}",
    },
    Case {
        query: "{ entry { __typename title ... on Book { year } ... on Author { name } } found { ... on Book { title } ... on Author { name } } }",
        variables: "{}",
        introspection: false,
        rounds: &[
            Told {
                asks: "[{\"object\":0,\"type\":\"Query\",\"field\":\"entry\",\"arguments\":{}},{\"object\":0,\"type\":\"Query\",\"field\":\"found\",\"arguments\":{}}]",
                answers: "[{\"object\":0,\"field\":\"entry\",\"value\":{\"object\":1,\"type\":\"Book\"}},{\"object\":0,\"field\":\"found\",\"value\":[{\"object\":2,\"type\":\"Author\"},null,{\"object\":1,\"type\":\"Book\"}]}]",
            },
            Told {
                asks: "[{\"object\":1,\"type\":\"Book\",\"field\":\"title\",\"arguments\":{}},{\"object\":1,\"type\":\"Book\",\"field\":\"year\",\"arguments\":{}},{\"object\":2,\"type\":\"Author\",\"field\":\"name\",\"arguments\":{}}]",
                answers: "[{\"object\":1,\"field\":\"title\",\"value\":\"Emma\"},{\"object\":1,\"field\":\"year\",\"value\":3},{\"object\":2,\"field\":\"name\",\"value\":\"Jane\"}]",
            },
        ],
        last: "{\"data\":{\"entry\":{\"__typename\":\"Book\",\"title\":\"Emma\",\"year\":3},\"found\":[{\"name\":\"Jane\"},null,{\"title\":\"Emma\"}]}}",
    },
    Case {
        query: "{ book(id: 1) { title } entry { title } }",
        variables: "{}",
        introspection: false,
        rounds: &[Told {
            asks: "[{\"object\":0,\"type\":\"Query\",\"field\":\"book\",\"arguments\":{\"id\":1}},{\"object\":0,\"type\":\"Query\",\"field\":\"entry\",\"arguments\":{}}]",
            answers: "[{\"object\":0,\"field\":\"book\",\"arguments\":{\"id\":1},\"value\":{\"object\":1,\"type\":\"Author\"}},{\"object\":0,\"field\":\"entry\",\"value\":{\"object\":2,\"type\":\"Ghost\"}}]",
        }],
        last: "{\"errors\":[{\"message\":\"resolver returned an object of type Author, expected Book\",\"locations\":[{\"line\":1,\"column\":3}],\"path\":[\"book\"]},{\"message\":\"resolver returned an object of type Ghost not defined in the schema\",\"locations\":[{\"line\":1,\"column\":25}],\"path\":[\"entry\"]}],\"data\":{\"book\":null,\"entry\":null}}",
    },
    Case {
        query: "{ book(id: 1) { author { name } title related { title } } }",
        variables: "{}",
        introspection: false,
        rounds: &[
            Told {
                asks: "[{\"object\":0,\"type\":\"Query\",\"field\":\"book\",\"arguments\":{\"id\":1}}]",
                answers: "[{\"object\":0,\"field\":\"book\",\"arguments\":{\"id\":1},\"value\":{\"object\":1,\"type\":\"Book\"}}]",
            },
            Told {
                asks: "[{\"object\":1,\"type\":\"Book\",\"field\":\"author\",\"arguments\":{}},{\"object\":1,\"type\":\"Book\",\"field\":\"title\",\"arguments\":{}},{\"object\":1,\"type\":\"Book\",\"field\":\"related\",\"arguments\":{}}]",
                answers: "[{\"object\":1,\"field\":\"author\",\"value\":{\"__error\":\"gone\"}},{\"object\":1,\"field\":\"related\",\"value\":[[{\"object\":2,\"type\":\"Book\"},{\"__error\":\"lost\"}],null,[{\"object\":1,\"type\":\"Book\"}]]}]",
            },
            Told {
                asks: "[{\"object\":1,\"type\":\"Book\",\"field\":\"title\",\"arguments\":{}},{\"object\":2,\"type\":\"Book\",\"field\":\"title\",\"arguments\":{}}]",
                answers: "[{\"object\":1,\"field\":\"title\",\"value\":\"a\"},{\"object\":2,\"field\":\"title\",\"value\":\"b\"}]",
            },
        ],
        last: "{\"errors\":[{\"message\":\"resolver error: gone\",\"locations\":[{\"line\":1,\"column\":17}],\"path\":[\"book\",\"author\"]}],\"data\":{\"book\":null}}",
    },
    Case {
        query: "query ($n: Int = 3) { a: books(first: $n) { year } b: books(first: 3) { title } c: books { title } d: books(first: null) { title } }",
        variables: "{}",
        introspection: false,
        rounds: &[
            Told {
                asks: "[{\"object\":0,\"type\":\"Query\",\"field\":\"books\",\"arguments\":{\"first\":3}},{\"object\":0,\"type\":\"Query\",\"field\":\"books\",\"arguments\":{\"first\":2}},{\"object\":0,\"type\":\"Query\",\"field\":\"books\",\"arguments\":{\"first\":null}}]",
                answers: "[{\"object\":0,\"field\":\"books\",\"arguments\":{\"first\":3},\"value\":[{\"object\":1,\"type\":\"Book\"}]},{\"object\":0,\"field\":\"books\",\"arguments\":{\"first\":2},\"value\":[]},{\"object\":0,\"field\":\"books\",\"arguments\":{\"first\":null},\"value\":null}]",
            },
            Told {
                asks: "[{\"object\":1,\"type\":\"Book\",\"field\":\"year\",\"arguments\":{}},{\"object\":1,\"type\":\"Book\",\"field\":\"title\",\"arguments\":{}}]",
                answers: "[{\"object\":1,\"field\":\"year\",\"value\":5},{\"object\":1,\"field\":\"title\",\"value\":\"t\"}]",
            },
        ],
        last: "{\"data\":{\"a\":[{\"year\":5}],\"b\":[{\"title\":\"t\"}],\"c\":[],\"d\":null}}",
    },
    Case {
        query: "{ year book(id: 1) { title } }",
        variables: "{}",
        introspection: false,
        rounds: &[Told {
            asks: "[{\"object\":0,\"type\":\"Query\",\"field\":\"year\",\"arguments\":{}},{\"object\":0,\"type\":\"Query\",\"field\":\"book\",\"arguments\":{\"id\":1}}]",
            answers: "[{\"object\":0,\"field\":\"year\",\"value\":1},{\"object\":0,\"field\":\"year\",\"value\":2},{\"object\":0,\"field\":\"book\",\"arguments\":{\"id\":1},\"value\":{\"object\":1,\"type\":\"Book\"}},{\"object\":1,\"field\":\"title\",\"value\":\"t\"}]",
        }],
        last: "{\"data\":{\"year\":1,\"book\":{\"title\":\"t\"}}}",
    },
    Case {
        query: "query ($b: Boolean!) { year @skip(if: $b) note @include(if: $b) }",
        variables: "{\"b\":true}",
        introspection: false,
        rounds: &[Told {
            asks: "[{\"object\":0,\"type\":\"Query\",\"field\":\"note\",\"arguments\":{}}]",
            answers: "[{\"object\":0,\"field\":\"note\",\"value\":[1]}]",
        }],
        last: "{\"data\":{\"note\":[1]}}",
    },
    Case {
        query: "query ($id: ID!) { book(id: $id) { title } }",
        variables: "{}",
        introspection: false,
        rounds: &[],
        last: "{\"errors\":[{\"message\":\"missing value for non-null variable 'id'\",\"locations\":[{\"line\":1,\"column\":8}]}]}",
    },
    Case {
        query: "{ year } ",
        variables: "[]",
        introspection: false,
        rounds: &[],
        last: "{\"errors\":[{\"message\":\"variables: not an object\"}]}",
    },
];

/// Each request asks in its rounds what it should, and has its response.
#[test]
fn each_request_goes_as_told(rt: HostRuntime) -> Result<(), Fail> {
    match Service::new(rt.alloc(), SCHEMA) {
        Ok(service) => {
            let service = ManuallyDrop::new(service);
            let mut failed = false;
            for (number, case) in CASES.iter().enumerate() {
                if let Some(other) = first_other(rt.alloc(), &service, case)? {
                    let text = str::from_utf8(other.as_slice()).unwrap_or("no text");
                    println!(rt; "case {number}: {text}")?;
                    failed = true;
                }
            }
            assert!(rt; !failed, "some case goes otherwise");
            Ok(())
        }
        Err(_) => Err("no service")?,
    }
}
