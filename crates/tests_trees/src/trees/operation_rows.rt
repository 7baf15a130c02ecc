//! Operations, fragments and selections, and what they are.

pub(crate) const OPERATIONS: &[(&str, &str)] = &[
    (
        "\u{FEFF}# before\n{ x ,} # behind\n,",
        r#"
OperationDefinition { x ,}
  operation_type Query
  Field x
    name x
"#,
    ),
    (
        "query Q($v: [A!]! = [1] @d, $w: B) @e { x }",
        r#"
OperationDefinition query Q($v: [A!]! = [1] @d, $w: B) @e { x }
  operation_type Query
  name Q
  variable $v: [A!]! = [1] @d
    name v
    type [A!]!
    default_value List [1]
      item Int 1
        text 1
    directive @d
      name d
  variable $w: B
    name w
    type B
  directive @e
    name e
  Field x
    name x
"#,
    ),
    (
        "mutation M { x } subscription @d { y }",
        r#"
OperationDefinition mutation M { x }
  operation_type Mutation
  name M
  Field x
    name x
OperationDefinition subscription @d { y }
  operation_type Subscription
  directive @d
    name d
  Field y
    name y
"#,
    ),
    (
        "{ x: f(y: 1, z: $v) @g(h: 2) @i { j k { l: m } } }",
        r#"
OperationDefinition { x: f(y: 1, z: $v) @g(h: 2) @i { j k { l: m } } }
  operation_type Query
  Field x: f(y: 1, z: $v) @g(h: 2) @i { j k { l: m } }
    alias x
    name f
    argument y: 1
      name y
      value Int 1
        text 1
    argument z: $v
      name z
      value Variable $v
        name v
    directive @g(h: 2)
      name g
      argument h: 2
        name h
        value Int 2
          text 2
    directive @i
      name i
    Field j
      name j
    Field k { l: m }
      name k
      Field l: m
        alias l
        name m
"#,
    ),
    (
        "{ ...F @d ... on T @e { x } ... @g { y } ... { z } } fragment G on U @h { w }",
        r#"
OperationDefinition { ...F @d ... on T @e { x } ... @g { y } ... { z } }
  operation_type Query
  FragmentSpread ...F @d
    fragment_name F
    directive @d
      name d
  InlineFragment ... on T @e { x }
    type_condition T
    directive @e
      name e
    Field x
      name x
  InlineFragment ... @g { y }
    directive @g
      name g
    Field y
      name y
  InlineFragment ... { z }
    Field z
      name z
FragmentDefinition fragment G on U @h { w }
  name G
  type_condition U
  directive @h
    name h
  Field w
    name w
"#,
    ),
];
