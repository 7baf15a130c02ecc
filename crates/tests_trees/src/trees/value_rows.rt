//! Values of each kind and references to types of each kind, and what they are.

pub(crate) const VALUES: &[(&str, &str)] = &[
    (
        r#"{ f(a: null, b: $v, c: -12, d: 1.5e3, e: "q\u0041", g: """h \""" i""", j: true, k: false, l: E) }"#,
        r#"
OperationDefinition { f(a: null, b: $v, c: -12, d: 1.5e3, e: "q\u0041", g: """h \""" i""", j: true, k: false, l: E) }
  operation_type Query
  Field f(a: null, b: $v, c: -12, d: 1.5e3, e: "q\u0041", g: """h \""" i""", j: true, k: false, l: E)
    name f
    argument a: null
      name a
      value Null null
    argument b: $v
      name b
      value Variable $v
        name v
    argument c: -12
      name c
      value Int -12
        text -12
    argument d: 1.5e3
      name d
      value Float 1.5e3
        text 1.5e3
    argument e: "q\u0041"
      name e
      value String "q\u0041"
        text qA
    argument g: """h \""" i"""
      name g
      value String """h \""" i"""
        text h """ i
    argument j: true
      name j
      value Boolean true
        truth true
    argument k: false
      name k
      value Boolean false
        truth false
    argument l: E
      name l
      value Enum E
        name E
"#,
    ),
    (
        "{ f(a: [], b: { }, c: [1 [2], $v], d: {e: {g: 3}, h: [4]}) }",
        r#"
OperationDefinition { f(a: [], b: { }, c: [1 [2], $v], d: {e: {g: 3}, h: [4]}) }
  operation_type Query
  Field f(a: [], b: { }, c: [1 [2], $v], d: {e: {g: 3}, h: [4]})
    name f
    argument a: []
      name a
      value List []
    argument b: { }
      name b
      value Object { }
    argument c: [1 [2], $v]
      name c
      value List [1 [2], $v]
        item Int 1
          text 1
        item List [2]
          item Int 2
            text 2
        item Variable $v
          name v
    argument d: {e: {g: 3}, h: [4]}
      name d
      value Object {e: {g: 3}, h: [4]}
        name e
        value Object {g: 3}
          name g
          value Int 3
            text 3
        name h
        value List [4]
          item Int 4
            text 4
"#,
    ),
    (
        "query($a: A $b: B! $c: [C] $d: [D!] $e: [E]! $f: [[F!]! ]) { x }",
        r#"
OperationDefinition query($a: A $b: B! $c: [C] $d: [D!] $e: [E]! $f: [[F!]! ]) { x }
  operation_type Query
  variable $a: A
    name a
    type A
  variable $b: B!
    name b
    type B!
  variable $c: [C]
    name c
    type [C]
  variable $d: [D!]
    name d
    type [D!]
  variable $e: [E]!
    name e
    type [E]!
  variable $f: [[F!]! ]
    name f
    type [[F!]!]
  Field x
    name x
"#,
    ),
];
