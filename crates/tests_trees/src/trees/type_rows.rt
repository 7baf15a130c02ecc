//! Definitions of schemas, directives and types, and what they are.

pub(crate) const TYPES: &[(&str, &str)] = &[
    (
        r#"# before
"s" schema @d(x: 1) { query: A mutation: B subscription: C } # behind
, schema { query: D }"#,
        r#"
SchemaDefinition "s" schema @d(x: 1) { query: A mutation: B subscription: C }
  description s
  directive @d(x: 1)
    name d
    argument x: 1
      name x
      value Int 1
        text 1
  Query A
  Mutation B
  Subscription C
SchemaDefinition schema { query: D }
  Query D
"#,
    ),
    (
        r#""t" directive @type(a: Int = 1, "u" b: [C!]) repeatable on | FIELD | ENUM_VALUE"#,
        r#"
DirectiveDefinition "t" directive @type(a: Int = 1, "u" b: [C!]) repeatable on | FIELD | ENUM_VALUE
  description t
  name type
  argument a: Int = 1
    name a
    type Int
    default_value Int 1
      text 1
  argument "u" b: [C!]
    description u
    name b
    type [C!]
  repeatable true
  location Field
  location EnumValue
"#,
    ),
    (
        "directive @d on QUERY|MUTATION|SUBSCRIPTION|FIELD|FRAGMENT_DEFINITION|FRAGMENT_SPREAD|INLINE_FRAGMENT
|VARIABLE_DEFINITION|SCHEMA|SCALAR|OBJECT|FIELD_DEFINITION|ARGUMENT_DEFINITION|INTERFACE|UNION|ENUM|ENUM_VALUE
|INPUT_OBJECT|INPUT_FIELD_DEFINITION",
        r#"
DirectiveDefinition directive @d on QUERY|MUTATION|SUBSCRIPTION|FIELD|FRAGMENT_DEFINITION|FRAGMENT_SPREAD|INLINE_FRAGMENT
|VARIABLE_DEFINITION|SCHEMA|SCALAR|OBJECT|FIELD_DEFINITION|ARGUMENT_DEFINITION|INTERFACE|UNION|ENUM|ENUM_VALUE
|INPUT_OBJECT|INPUT_FIELD_DEFINITION
  name d
  location Query
  location Mutation
  location Subscription
  location Field
  location FragmentDefinition
  location FragmentSpread
  location InlineFragment
  location VariableDefinition
  location Schema
  location Scalar
  location Object
  location FieldDefinition
  location ArgumentDefinition
  location Interface
  location Union
  location Enum
  location EnumValue
  location InputObject
  location InputFieldDefinition
"#,
    ),
    (
        r#""s" scalar S @d scalar T"#,
        r#"
ScalarTypeDefinition "s" scalar S @d
  description s
  name S
  directive @d
    name d
ScalarTypeDefinition scalar T
  name T
"#,
    ),
    (
        r#""""
  t
    u
""" type T implements & I & J @d { "v" type("w" k: Int = 2 @e): [L!]! @g m: N } type U"#,
        r#"
ObjectTypeDefinition """
  t
    u
""" type T implements & I & J @d { "v" type("w" k: Int = 2 @e): [L!]! @g m: N }
  description t
  u
  name T
  implements I
  implements J
  directive @d
    name d
  field "v" type("w" k: Int = 2 @e): [L!]! @g
    description v
    name type
    argument "w" k: Int = 2 @e
      description w
      name k
      type Int
      default_value Int 2
        text 2
      directive @e
        name e
    type [L!]!
    directive @g
      name g
  field m: N
    name m
    type N
ObjectTypeDefinition type U
  name U
"#,
    ),
    (
        r#""i" interface I implements J @d { f(k: L): M } interface N"#,
        r#"
InterfaceTypeDefinition "i" interface I implements J @d { f(k: L): M }
  description i
  name I
  implements J
  directive @d
    name d
  field f(k: L): M
    name f
    argument k: L
      name k
      type L
    type M
InterfaceTypeDefinition interface N
  name N
"#,
    ),
    (
        r#""u" union U @d = | A | B union V"#,
        r#"
UnionTypeDefinition "u" union U @d = | A | B
  description u
  name U
  directive @d
    name d
  member A
  member B
UnionTypeDefinition union V
  name V
"#,
    ),
    (
        r#""e" enum E @d { A "b" B @g } enum F"#,
        r#"
EnumTypeDefinition "e" enum E @d { A "b" B @g }
  description e
  name E
  directive @d
    name d
  value A
    value A
  value "b" B @g
    description b
    value B
    directive @g
      name g
EnumTypeDefinition enum F
  name F
"#,
    ),
    (
        r#""i" input I @d { "j" k: Float = 1.5e3 @e l: M! = N p: Q = true } input O"#,
        r#"
InputObjectTypeDefinition "i" input I @d { "j" k: Float = 1.5e3 @e l: M! = N p: Q = true }
  description i
  name I
  directive @d
    name d
  field "j" k: Float = 1.5e3 @e
    description j
    name k
    type Float
    default_value Float 1.5e3
      text 1.5e3
    directive @e
      name e
  field l: M! = N
    name l
    type M!
    default_value Enum N
      name N
  field p: Q = true
    name p
    type Q
    default_value Boolean true
      truth true
InputObjectTypeDefinition input O
  name O
"#,
    ),
];
