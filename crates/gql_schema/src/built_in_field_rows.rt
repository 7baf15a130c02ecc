//! The rows of the fields and the arguments of built-in definitions: where in their text each part of them stands.

use crate::built_in_row::TypeForm::{List, Plain, Required, RequiredList};
use crate::built_in_row::ValueForm::{False, Quoted};
use crate::built_in_row::{ArgumentRow, FieldRow, Place, Run, TypeRow, ValueRow};

/// The fields of the object types.
pub(crate) const FIELDS: &[FieldRow] = &[
    // __Schema
    FieldRow {
        name: Place(16, 27),
        arguments: Run(0, 0),
        ty: TypeRow(Plain, Place(29, 35)),
        place: Place(16, 35),
    },
    FieldRow {
        name: Place(36, 41),
        arguments: Run(0, 0),
        ty: TypeRow(RequiredList, Place(44, 50)),
        place: Place(36, 53),
    },
    FieldRow {
        name: Place(54, 63),
        arguments: Run(0, 0),
        ty: TypeRow(Required, Place(65, 71)),
        place: Place(54, 72),
    },
    FieldRow {
        name: Place(73, 85),
        arguments: Run(0, 0),
        ty: TypeRow(Plain, Place(87, 93)),
        place: Place(73, 93),
    },
    FieldRow {
        name: Place(94, 110),
        arguments: Run(0, 0),
        ty: TypeRow(Plain, Place(112, 118)),
        place: Place(94, 118),
    },
    FieldRow {
        name: Place(119, 129),
        arguments: Run(0, 0),
        ty: TypeRow(RequiredList, Place(132, 143)),
        place: Place(119, 146),
    },
    // __Type
    FieldRow {
        name: Place(163, 167),
        arguments: Run(0, 0),
        ty: TypeRow(Required, Place(169, 179)),
        place: Place(163, 180),
    },
    FieldRow {
        name: Place(181, 185),
        arguments: Run(0, 0),
        ty: TypeRow(Plain, Place(187, 193)),
        place: Place(181, 193),
    },
    FieldRow {
        name: Place(194, 205),
        arguments: Run(0, 0),
        ty: TypeRow(Plain, Place(207, 213)),
        place: Place(194, 213),
    },
    FieldRow {
        name: Place(214, 220),
        arguments: Run(0, 1),
        ty: TypeRow(List, Place(259, 266)),
        place: Place(214, 268),
    },
    FieldRow {
        name: Place(269, 279),
        arguments: Run(1, 1),
        ty: TypeRow(List, Place(282, 288)),
        place: Place(269, 290),
    },
    FieldRow {
        name: Place(291, 304),
        arguments: Run(1, 1),
        ty: TypeRow(List, Place(307, 313)),
        place: Place(291, 315),
    },
    FieldRow {
        name: Place(316, 326),
        arguments: Run(1, 2),
        ty: TypeRow(List, Place(365, 376)),
        place: Place(316, 378),
    },
    FieldRow {
        name: Place(379, 390),
        arguments: Run(2, 3),
        ty: TypeRow(List, Place(429, 441)),
        place: Place(379, 443),
    },
    FieldRow {
        name: Place(444, 450),
        arguments: Run(3, 3),
        ty: TypeRow(Plain, Place(452, 458)),
        place: Place(444, 458),
    },
    FieldRow {
        name: Place(459, 473),
        arguments: Run(3, 3),
        ty: TypeRow(Plain, Place(475, 481)),
        place: Place(459, 481),
    },
    FieldRow {
        name: Place(482, 489),
        arguments: Run(3, 3),
        ty: TypeRow(Plain, Place(491, 498)),
        place: Place(482, 498),
    },
    // __Field
    FieldRow {
        name: Place(598, 602),
        arguments: Run(3, 3),
        ty: TypeRow(Required, Place(604, 610)),
        place: Place(598, 611),
    },
    FieldRow {
        name: Place(612, 623),
        arguments: Run(3, 3),
        ty: TypeRow(Plain, Place(625, 631)),
        place: Place(612, 631),
    },
    FieldRow {
        name: Place(632, 636),
        arguments: Run(3, 4),
        ty: TypeRow(RequiredList, Place(675, 687)),
        place: Place(632, 690),
    },
    FieldRow {
        name: Place(691, 695),
        arguments: Run(4, 4),
        ty: TypeRow(Required, Place(697, 703)),
        place: Place(691, 704),
    },
    FieldRow {
        name: Place(705, 717),
        arguments: Run(4, 4),
        ty: TypeRow(Required, Place(719, 726)),
        place: Place(705, 727),
    },
    FieldRow {
        name: Place(728, 745),
        arguments: Run(4, 4),
        ty: TypeRow(Plain, Place(747, 753)),
        place: Place(728, 753),
    },
    // __InputValue
    FieldRow {
        name: Place(776, 780),
        arguments: Run(4, 4),
        ty: TypeRow(Required, Place(782, 788)),
        place: Place(776, 789),
    },
    FieldRow {
        name: Place(790, 801),
        arguments: Run(4, 4),
        ty: TypeRow(Plain, Place(803, 809)),
        place: Place(790, 809),
    },
    FieldRow {
        name: Place(810, 814),
        arguments: Run(4, 4),
        ty: TypeRow(Required, Place(816, 822)),
        place: Place(810, 823),
    },
    FieldRow {
        name: Place(824, 836),
        arguments: Run(4, 4),
        ty: TypeRow(Plain, Place(838, 844)),
        place: Place(824, 844),
    },
    FieldRow {
        name: Place(845, 857),
        arguments: Run(4, 4),
        ty: TypeRow(Required, Place(859, 866)),
        place: Place(845, 867),
    },
    FieldRow {
        name: Place(868, 885),
        arguments: Run(4, 4),
        ty: TypeRow(Plain, Place(887, 893)),
        place: Place(868, 893),
    },
    // __EnumValue
    FieldRow {
        name: Place(915, 919),
        arguments: Run(4, 4),
        ty: TypeRow(Required, Place(921, 927)),
        place: Place(915, 928),
    },
    FieldRow {
        name: Place(929, 940),
        arguments: Run(4, 4),
        ty: TypeRow(Plain, Place(942, 948)),
        place: Place(929, 948),
    },
    FieldRow {
        name: Place(949, 961),
        arguments: Run(4, 4),
        ty: TypeRow(Required, Place(963, 970)),
        place: Place(949, 971),
    },
    FieldRow {
        name: Place(972, 989),
        arguments: Run(4, 4),
        ty: TypeRow(Plain, Place(991, 997)),
        place: Place(972, 997),
    },
    // __Directive
    FieldRow {
        name: Place(1019, 1023),
        arguments: Run(4, 4),
        ty: TypeRow(Required, Place(1025, 1031)),
        place: Place(1019, 1032),
    },
    FieldRow {
        name: Place(1033, 1044),
        arguments: Run(4, 4),
        ty: TypeRow(Plain, Place(1046, 1052)),
        place: Place(1033, 1052),
    },
    FieldRow {
        name: Place(1053, 1062),
        arguments: Run(4, 4),
        ty: TypeRow(RequiredList, Place(1065, 1084)),
        place: Place(1053, 1087),
    },
    FieldRow {
        name: Place(1088, 1092),
        arguments: Run(4, 5),
        ty: TypeRow(RequiredList, Place(1131, 1143)),
        place: Place(1088, 1146),
    },
    FieldRow {
        name: Place(1147, 1159),
        arguments: Run(5, 5),
        ty: TypeRow(Required, Place(1161, 1168)),
        place: Place(1147, 1169),
    },
];

/// The arguments of the fields and the directives.
pub(crate) const ARGUMENTS: &[ArgumentRow] = &[
    // __Type.fields
    ArgumentRow {
        name: Place(221, 238),
        ty: TypeRow(Plain, Place(240, 247)),
        default_value: Some(ValueRow(False, Place(250, 255))),
        place: Place(221, 255),
    },
    // __Type.enumValues
    ArgumentRow {
        name: Place(327, 344),
        ty: TypeRow(Plain, Place(346, 353)),
        default_value: Some(ValueRow(False, Place(356, 361))),
        place: Place(327, 361),
    },
    // __Type.inputFields
    ArgumentRow {
        name: Place(391, 408),
        ty: TypeRow(Plain, Place(410, 417)),
        default_value: Some(ValueRow(False, Place(420, 425))),
        place: Place(391, 425),
    },
    // __Field.args
    ArgumentRow {
        name: Place(637, 654),
        ty: TypeRow(Plain, Place(656, 663)),
        default_value: Some(ValueRow(False, Place(666, 671))),
        place: Place(637, 671),
    },
    // __Directive.args
    ArgumentRow {
        name: Place(1093, 1110),
        ty: TypeRow(Plain, Place(1112, 1119)),
        default_value: Some(ValueRow(False, Place(1122, 1127))),
        place: Place(1093, 1127),
    },
    // @skip
    ArgumentRow {
        name: Place(1449, 1451),
        ty: TypeRow(Required, Place(1453, 1460)),
        default_value: None,
        place: Place(1449, 1461),
    },
    // @include
    ArgumentRow {
        name: Place(1527, 1529),
        ty: TypeRow(Required, Place(1531, 1538)),
        default_value: None,
        place: Place(1527, 1539),
    },
    // @deprecated
    ArgumentRow {
        name: Place(1608, 1614),
        ty: TypeRow(Plain, Place(1616, 1622)),
        default_value: Some(ValueRow(Quoted, Place(1625, 1646))),
        place: Place(1608, 1646),
    },
    // @specifiedBy
    ArgumentRow {
        name: Place(1751, 1754),
        ty: TypeRow(Required, Place(1756, 1762)),
        default_value: None,
        place: Place(1751, 1763),
    },
];
