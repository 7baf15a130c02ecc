//! The rows of the types and the directives that are built in: where in their text each part of them stands.

use crate::built_in_row::DefinitionRow::{Enum, Object, Scalar};
use crate::built_in_row::{DefinitionRow, DirectiveRow, EnumRow, ObjectRow, Place, Run, ScalarRow};
use gql_ast::DirectiveLocation;

/// The types, in the order of the text.
pub(crate) const TYPES: &[DefinitionRow] = &[
    Object(ObjectRow {
        name: Place(5, 13),
        fields: Run(0, 6),
        place: Place(0, 148),
    }),
    Object(ObjectRow {
        name: Place(154, 160),
        fields: Run(6, 17),
        place: Place(149, 500),
    }),
    Enum(EnumRow {
        name: Place(506, 516),
        values: Run(0, 8),
        place: Place(501, 582),
    }),
    Object(ObjectRow {
        name: Place(588, 595),
        fields: Run(17, 23),
        place: Place(583, 755),
    }),
    Object(ObjectRow {
        name: Place(761, 773),
        fields: Run(23, 29),
        place: Place(756, 895),
    }),
    Object(ObjectRow {
        name: Place(901, 912),
        fields: Run(29, 33),
        place: Place(896, 999),
    }),
    Object(ObjectRow {
        name: Place(1005, 1016),
        fields: Run(33, 38),
        place: Place(1000, 1171),
    }),
    Enum(EnumRow {
        name: Place(1177, 1196),
        values: Run(8, 27),
        place: Place(1172, 1432),
    }),
    Scalar(ScalarRow {
        name: Place(1815, 1818),
        place: Place(1808, 1818),
    }),
    Scalar(ScalarRow {
        name: Place(1826, 1831),
        place: Place(1819, 1831),
    }),
    Scalar(ScalarRow {
        name: Place(1839, 1845),
        place: Place(1832, 1845),
    }),
    Scalar(ScalarRow {
        name: Place(1853, 1860),
        place: Place(1846, 1860),
    }),
    Scalar(ScalarRow {
        name: Place(1868, 1870),
        place: Place(1861, 1870),
    }),
];

/// The directives, in the order of the text.
pub(crate) const DIRECTIVES: &[DirectiveRow] = &[
    DirectiveRow {
        name: Place(1444, 1448),
        arguments: Run(5, 6),
        locations: Run(0, 3),
        place: Place(1433, 1507),
    },
    DirectiveRow {
        name: Place(1519, 1526),
        arguments: Run(6, 7),
        locations: Run(3, 6),
        place: Place(1508, 1585),
    },
    DirectiveRow {
        name: Place(1597, 1607),
        arguments: Run(7, 8),
        locations: Run(6, 10),
        place: Place(1586, 1727),
    },
    DirectiveRow {
        name: Place(1739, 1750),
        arguments: Run(8, 9),
        locations: Run(10, 11),
        place: Place(1728, 1774),
    },
    DirectiveRow {
        name: Place(1786, 1791),
        arguments: Run(9, 9),
        locations: Run(11, 12),
        place: Place(1775, 1807),
    },
];

/// The values of the enum types.
pub(crate) const VALUES: &[Place] = &[
    // __TypeKind
    Place(519, 525),
    Place(526, 532),
    Place(533, 542),
    Place(543, 548),
    Place(549, 553),
    Place(554, 566),
    Place(567, 571),
    Place(572, 580),
    // __DirectiveLocation
    Place(1199, 1204),
    Place(1205, 1213),
    Place(1214, 1226),
    Place(1227, 1232),
    Place(1233, 1252),
    Place(1253, 1268),
    Place(1269, 1284),
    Place(1285, 1304),
    Place(1305, 1311),
    Place(1312, 1318),
    Place(1319, 1325),
    Place(1326, 1342),
    Place(1343, 1362),
    Place(1363, 1372),
    Place(1373, 1378),
    Place(1379, 1383),
    Place(1384, 1394),
    Place(1395, 1407),
    Place(1408, 1430),
];

/// Where the directives may stand.
pub(crate) const LOCATIONS: &[DirectiveLocation] = &[
    // @skip
    DirectiveLocation::Field,
    DirectiveLocation::FragmentSpread,
    DirectiveLocation::InlineFragment,
    // @include
    DirectiveLocation::Field,
    DirectiveLocation::FragmentSpread,
    DirectiveLocation::InlineFragment,
    // @deprecated
    DirectiveLocation::FieldDefinition,
    DirectiveLocation::ArgumentDefinition,
    DirectiveLocation::InputFieldDefinition,
    DirectiveLocation::EnumValue,
    // @specifiedBy
    DirectiveLocation::Scalar,
    // @oneOf
    DirectiveLocation::InputObject,
];
