//! Extensions of schemas and types, and what they are.

pub(crate) const EXTENSIONS: &[(&str, &str)] = &[
    (
        "extend schema @d { mutation: M } extend schema { subscription: S } extend scalar T @e",
        r#"
SchemaExtension extend schema @d { mutation: M }
  directive @d
    name d
  Mutation M
SchemaExtension extend schema { subscription: S }
  Subscription S
ScalarTypeExtension extend scalar T @e
  name T
  directive @e
    name e
"#,
    ),
    (
        r#"extend type T implements I & J @d { "h" f(a: A): B @g } extend type U @e"#,
        r#"
ObjectTypeExtension extend type T implements I & J @d { "h" f(a: A): B @g }
  name T
  implements I
  implements J
  directive @d
    name d
  field "h" f(a: A): B @g
    description h
    name f
    argument a: A
      name a
      type A
    type B
    directive @g
      name g
ObjectTypeExtension extend type U @e
  name U
  directive @e
    name e
"#,
    ),
    (
        "extend interface I implements J @d { f: A } extend interface K implements L",
        r#"
InterfaceTypeExtension extend interface I implements J @d { f: A }
  name I
  implements J
  directive @d
    name d
  field f: A
    name f
    type A
InterfaceTypeExtension extend interface K implements L
  name K
  implements L
"#,
    ),
    (
        "extend union U @d = A | B extend union V = C",
        r#"
UnionTypeExtension extend union U @d = A | B
  name U
  directive @d
    name d
  member A
  member B
UnionTypeExtension extend union V = C
  name V
  member C
"#,
    ),
    (
        r#"extend enum E @d { "h" A @g B } extend enum F { C }"#,
        r#"
EnumTypeExtension extend enum E @d { "h" A @g B }
  name E
  directive @d
    name d
  value "h" A @g
    description h
    value A
    directive @g
      name g
  value B
    value B
EnumTypeExtension extend enum F { C }
  name F
  value C
    value C
"#,
    ),
    (
        r#"extend input I @d { "h" k: [A] = [] @g } extend input J { l: B }"#,
        r#"
InputObjectTypeExtension extend input I @d { "h" k: [A] = [] @g }
  name I
  directive @d
    name d
  field "h" k: [A] = [] @g
    description h
    name k
    type [A]
    default_value List []
    directive @g
      name g
InputObjectTypeExtension extend input J { l: B }
  name J
  field l: B
    name l
    type B
"#,
    ),
];
