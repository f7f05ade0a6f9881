// Written by crates/rap_base/fields from fields.txt beside it and the shapes of nodes: an edit here is lost.
//! The rules of all fields.
ghost use Rattle.std.specs.Prelude.{◌≡◌, List, ℕ, map};
ghost use Rattle.rap_fields.specs.Rule.{Look, Row, look_of};
ghost use Rattle.rap_fields.specs.Rules.{rows_of, rules_15, rules_16, rules_17, rules_18, rules_19, rules_20, rules_21, rules_22, rules_23, rules_24, rules_25, rules_26, rules_27, rules_28, rules_29, rules_30, rules_31, rules_32};

use crate::rule::{Place, Step, Which};
use rap_base::syntax_kind::SyntaxKind;

/// Kinds by the name of their list, or by their numbers.
macro_rules! kinds {
    (expressions) => {
        &[182, 191, 184, 181, 183, 188, 203, 225, 189, 215, 178, 219, 185, 224, 204, 218, 221, 208, 205, 223, 186, 209,
        199, 206, 197, 210, 187, 220, 201, 198, 193, 214, 190, 202, 200, 207, 217, 216]
    };
    (operators) => {
        &[48, 47, 33, 35, 37, 38, 9, 10, 18, 19, 28, 20, 22, 49, 50, 21, 17, 16, 26, 39, 44, 45, 46, 52, 51, 40, 41, 42,
        43]
    };
    (types) => {
        &[295, 302, 298, 300, 301, 297, 303, 292, 290, 304, 305, 293, 296, 294, 291]
    };
    (patterns) => {
        &[269, 270, 271, 288, 273, 289, 272, 287, 274, 279, 283, 284, 280, 276, 282, 286, 285, 275, 281]
    };
    (items) => {
        &[225, 196, 258, 251, 240, 239, 247, 261, 246, 245, 237, 259, 249, 260, 244, 250, 263]
    };
    (metas) => {
        &[323, 324, 327, 329, 328, 322]
    };
    (generic_parameters) => {
        &[317, 315, 316]
    };
    (generic_arguments) => {
        &[312, 311, 310, 309]
    };
    ($($kind:literal)*) => {
        &[$($kind),*]
    };
}

/// For each kind in turn its fields by their numbers, each with the steps of its rule.
macro_rules! rules {
    ($([$(($field:literal $($place:ident $which:ident ($($kinds:tt)*))+))*])*) => {
        [$(&[$(
            ($field, &[$(Step { place: Place::$place, which: Which::$which, kinds: kinds!($($kinds)*) }),+])
        ),*]),*]
    };
}

/// The fields of a kind by their numbers, each with the steps of its rule.
pub(crate) fn rows_of(kind: SyntaxKind) -> &'static [(u16, &'static [Step])]
    ensures { map {B = Row} (λ row. (row.0, map {B = Look} look_of row.1.now)) result.now ≡ rows_of kind }
{
    let number = u16::from(kind);
    let one = usize::from(number % 10);
    match number / 10 {
        15 => rules_15()[one],
        16 => rules_16()[one],
        17 => rules_17()[one],
        18 => rules_18()[one],
        19 => rules_19()[one],
        20 => rules_20()[one],
        21 => rules_21()[one],
        22 => rules_22()[one],
        23 => rules_23()[one],
        24 => rules_24()[one],
        25 => rules_25()[one],
        26 => rules_26()[one],
        27 => rules_27()[one],
        28 => rules_28()[one],
        29 => rules_29()[one],
        30 => rules_30()[one],
        31 => rules_31()[one],
        32 => rules_32()[one],
        _ => &[],
    }
}

/// The rules of the kinds from 150 on.
#[tactic(auto, unfolding(crate::specs::Rules::rules_15))]
fn rules_15() -> &'static [&'static [(u16, &'static [Step])]; 10]
    ensures { map {B = List Row}
        (λ rows. map {B = Row} (λ row. (row.0, map {B = Look} look_of row.1.now)) rows.now) result.now
        ≡ rules_15 }
{
    &RULES_15
}

static RULES_15: [&[(u16, &[Step])]; 10] = rules![
    // ERROR
    [(19 Anywhere All (321)) (49 Anywhere All (320)) (142 Anywhere First (169))]
    []
    []
    []
    []
    []
    []
    []
    // SOURCE_FILE
    [(19 Anywhere All (321)) (49 Anywhere All (320)) (96 Anywhere All (items)) (179 Anywhere First (156))
    (73 Anywhere First (155))]
    // MACRO_STMTS
    [(183 Anywhere All (174 175 225 196 258 251 240 239 247 261 246 245 237 259 249 260 244 250 263))
    (60 Anywhere First (expressions))]
];

/// The rules of the kinds from 160 on.
#[tactic(auto, unfolding(crate::specs::Rules::rules_16))]
fn rules_16() -> &'static [&'static [(u16, &'static [Step])]; 10]
    ensures { map {B = List Row}
        (λ rows. map {B = Row} (λ row. (row.0, map {B = Look} look_of row.1.now)) rows.now) result.now
        ≡ rules_16 }
{
    &RULES_16
}

static RULES_16: [&[(u16, &[Step])]; 10] = rules![
    // MACRO_ITEMS
    [(19 Anywhere All (321)) (49 Anywhere All (320)) (96 Anywhere All (items))]
    // NAME
    [(81 Anywhere First (148)) (175 Anywhere First (76))]
    // NAME_REF
    [(81 Anywhere First (148)) (93 Anywhere First (141)) (175 Anywhere First (76)) (188 Anywhere First (80))
    (43 Anywhere First (57)) (177 Anywhere First (77))]
    // LIFETIME
    [(109 Anywhere First (149))]
    // VISIBILITY
    [(220 Anywhere First (165)) (150 Anywhere First (73))]
    // VISIBILITY_INNER
    [(142 Anywhere First (169)) (101 Anywhere First (3)) (86 Anywhere First (66)) (157 Anywhere First (4))]
    // RENAME
    [(127 Anywhere First (161)) (6 Anywhere First (53)) (209 Anywhere First (23))]
    // ABI
    [(64 Anywhere First (60)) (186 Anywhere First (145))]
    // RET_TYPE
    [(204 Anywhere First (types)) (193 Anywhere First (36))]
    // PATH
    [(152 Anywhere First (169)) (173 Anywhere First (170)) (37 Anywhere First (32))]
];

/// The rules of the kinds from 170 on.
#[tactic(auto, unfolding(crate::specs::Rules::rules_17))]
fn rules_17() -> &'static [&'static [(u16, &'static [Step])]; 10]
    ensures { map {B = List Row}
        (λ rows. map {B = Row} (λ row. (row.0, map {B = Look} look_of row.1.now)) rows.now) result.now
        ≡ rules_17 }
{
    &RULES_17
}

static RULES_17: [&[(u16, &[Step])]; 10] = rules![
    // PATH_SEGMENT
    [(205 Anywhere First (171)) (128 Anywhere First (162)) (75 Anywhere First (308)) (170 Anywhere First (172))
    (140 Anywhere First (173)) (168 Anywhere First (168)) (37 Anywhere First (32))]
    // TYPE_ANCHOR
    [(204 Anywhere First (53) Before First (types)) (143 Anywhere First (53) After First (types))
    (98 Anywhere First (9)) (6 Anywhere First (53)) (154 Anywhere First (10))]
    // RETURN_TYPE_SYNTAX
    [(37 Anywhere First (32)) (101 Anywhere First (3)) (51 Anywhere First (29)) (157 Anywhere First (4))]
    // PARENTHESIZED_ARG_LIST
    [(206 Anywhere All (309)) (37 Anywhere First (32)) (101 Anywhere First (3)) (157 Anywhere First (4))]
    // LET_STMT
    [(19 Anywhere All (321)) (49 Anywhere All (320)) (141 Anywhere First (patterns)) (204 Anywhere First (types))
    (89 Anywhere First (expressions)) (105 Anywhere First (176)) (188 Anywhere First (80)) (106 Anywhere First (67))
    (36 Anywhere First (25)) (58 Anywhere First (26)) (178 Anywhere First (1))]
    // EXPR_STMT
    [(60 Anywhere First (expressions)) (178 Anywhere First (1))]
    // LET_ELSE
    [(25 Anywhere First (178)) (55 Anywhere First (58))]
    // STMT_LIST
    [(19 Anywhere All (321)) (49 Anywhere All (320))
    (183 Anywhere All (174 175 225 196 258 251 240 239 247 261 246 245 237 259 249 260 244 250 263))
    (190 Anywhere First (expressions)) (100 Anywhere First (5)) (156 Anywhere First (6))]
    // BLOCK_EXPR
    [(19 Anywhere All (321)) (49 Anywhere All (320)) (102 Anywhere First (179)) (202 Anywhere First (180))
    (185 Anywhere First (177)) (211 Anywhere First (84)) (41 Anywhere First (55)) (16 Anywhere First (100))
    (74 Anywhere First (104)) (123 Anywhere First (71))]
    // LABEL
    [(108 Anywhere First (163)) (36 Anywhere First (25))]
];

/// The rules of the kinds from 180 on.
#[tactic(auto, unfolding(crate::specs::Rules::rules_18))]
fn rules_18() -> &'static [&'static [(u16, &'static [Step])]; 10]
    ensures { map {B = List Row}
        (λ rows. map {B = Row} (λ row. (row.0, map {B = Look} look_of row.1.now)) rows.now) result.now
        ≡ rules_18 }
{
    &RULES_18
}

static RULES_18: [&[(u16, &[Step])]; 10] = rules![
    // TRY_BLOCK_MODIFIER
    [(204 Anywhere First (types)) (203 Anywhere First (103)) (24 Anywhere First (108))]
    // RANGE_EXPR
    [(19 Anywhere All (321)) (49 Anywhere All (320)) (182 Anywhere First (29 31) Before First (expressions))
    (56 Anywhere First (29 31) After First (expressions)) (133 Anywhere First (29 31))]
    // BIN_EXPR
    [(107 Anywhere First (operators) Before First (expressions))
    (171 Anywhere First (operators) After First (expressions)) (133 Anywhere First (operators))]
    // REF_EXPR
    [(19 Anywhere All (321)) (49 Anywhere All (320)) (60 Anywhere First (expressions)) (2 Anywhere First (16))
    (158 Anywhere First (135)) (125 Anywhere First (72)) (41 Anywhere First (55))]
    // PREFIX_EXPR
    [(19 Anywhere All (321)) (49 Anywhere All (320)) (60 Anywhere First (expressions)) (133 Anywhere First (19 27 28))]
    // CALL_EXPR
    [(19 Anywhere All (321)) (49 Anywhere All (320)) (60 Anywhere First (expressions)) (3 Anywhere First (192))]
    // INDEX_EXPR
    [(19 Anywhere All (321)) (49 Anywhere All (320)) (22 Anywhere First (7) Before First (expressions))
    (88 Anywhere First (7) After First (expressions)) (99 Anywhere First (7)) (155 Anywhere First (8))]
    // METHOD_CALL_EXPR
    [(19 Anywhere All (321)) (49 Anywhere All (320)) (160 Anywhere First (expressions)) (128 Anywhere First (162))
    (75 Anywhere First (308)) (3 Anywhere First (192)) (50 Anywhere First (24))]
    // FIELD_EXPR
    [(19 Anywhere All (321)) (49 Anywhere All (320)) (60 Anywhere First (expressions)) (128 Anywhere First (162))
    (50 Anywhere First (24))]
    // AWAIT_EXPR
    [(19 Anywhere All (321)) (49 Anywhere All (320)) (60 Anywhere First (expressions)) (50 Anywhere First (24))
    (21 Anywhere First (101))]
];

/// The rules of the kinds from 190 on.
#[tactic(auto, unfolding(crate::specs::Rules::rules_19))]
fn rules_19() -> &'static [&'static [(u16, &'static [Step])]; 10]
    ensures { map {B = List Row}
        (λ rows. map {B = Row} (λ row. (row.0, map {B = Look} look_of row.1.now)) rows.now) result.now
        ≡ rules_19 }
{
    &RULES_19
}

static RULES_19: [&[(u16, &[Step])]; 10] = rules![
    // TRY_EXPR
    [(19 Anywhere All (321)) (49 Anywhere All (320)) (60 Anywhere First (expressions)) (153 Anywhere First (14))]
    // CAST_EXPR
    [(60 Anywhere First (expressions)) (204 Anywhere First (types)) (6 Anywhere First (53))]
    // ARG_LIST
    [(4 Anywhere All (expressions)) (101 Anywhere First (3)) (157 Anywhere First (4))]
    // RECORD_EXPR
    [(19 Anywhere All (321)) (49 Anywhere All (320)) (142 Anywhere First (169)) (161 Anywhere First (195))]
    // RECORD_EXPR_FIELD
    [(19 Anywhere All (321)) (49 Anywhere All (320)) (128 Anywhere First (162)) (60 Anywhere First (expressions))
    (36 Anywhere First (25))]
    // RECORD_EXPR_FIELD_LIST
    [(68 Anywhere All (194)) (19 Anywhere All (321)) (49 Anywhere All (320)) (180 Anywhere First (expressions))
    (100 Anywhere First (5)) (51 Anywhere First (29)) (156 Anywhere First (6))]
    // MACRO_CALL
    [(19 Anywhere All (321)) (49 Anywhere All (320)) (142 Anywhere First (169)) (196 Anywhere First (248))
    (59 Anywhere First (27)) (178 Anywhere First (1))]
    // MACRO_EXPR
    [(19 Anywhere All (321)) (49 Anywhere All (320)) (113 Anywhere First (196))]
    // PATH_EXPR
    [(19 Anywhere All (321)) (49 Anywhere All (320)) (142 Anywhere First (169))]
    // LITERAL
    [(19 Anywhere All (321)) (49 Anywhere All (320)) (195 Anywhere First (61 82 141 142 143 144 145 146 147))]
];

/// The rules of the kinds from 200 on.
#[tactic(auto, unfolding(crate::specs::Rules::rules_20))]
fn rules_20() -> &'static [&'static [(u16, &'static [Step])]; 10]
    ensures { map {B = List Row}
        (λ rows. map {B = Row} (λ row. (row.0, map {B = Look} look_of row.1.now)) rows.now) result.now
        ≡ rules_20 }
{
    &RULES_20
}

static RULES_20: [&[(u16, &[Step])]; 10] = rules![
    // UNDERSCORE_EXPR
    [(19 Anywhere All (321)) (49 Anywhere All (320)) (209 Anywhere First (23))]
    // PAREN_EXPR
    [(19 Anywhere All (321)) (49 Anywhere All (320)) (60 Anywhere First (expressions)) (101 Anywhere First (3))
    (157 Anywhere First (4))]
    // TUPLE_EXPR
    [(19 Anywhere All (321)) (49 Anywhere All (320)) (68 Anywhere All (expressions)) (101 Anywhere First (3))
    (157 Anywhere First (4))]
    // ARRAY_EXPR
    [(19 Anywhere All (321)) (49 Anywhere All (320)) (61 Anywhere First (1) Before All (expressions))
    (166 Anywhere First (1) After First (expressions)) (99 Anywhere First (7)) (178 Anywhere First (1))
    (155 Anywhere First (8))]
    // CLOSURE_EXPR
    [(19 Anywhere All (321)) (49 Anywhere All (320)) (70 Anywhere First (299)) (138 Anywhere First (266))
    (168 Anywhere First (168)) (26 Anywhere First (expressions)) (41 Anywhere First (55)) (184 Anywhere First (78))
    (16 Anywhere First (100)) (74 Anywhere First (104)) (123 Anywhere First (71))]
    // IF_EXPR
    [(19 Anywhere All (321)) (49 Anywhere All (320))
    (39 Anywhere First (58) Before Last (178) Before First (expressions)) (192 Anywhere First (58) Before Last (178))
    (54 Anywhere First (58) After First (178 205)) (82 Anywhere First (64)) (55 Anywhere First (58))]
    // LOOP_EXPR
    [(19 Anywhere All (321)) (49 Anywhere All (320)) (102 Anywhere First (179)) (111 Anywhere First (178))
    (112 Anywhere First (68))]
    // WHILE_EXPR
    [(19 Anywhere All (321)) (49 Anywhere All (320)) (102 Anywhere First (179))
    (39 Anywhere Last (178) Before First (expressions)) (111 Anywhere Last (178)) (223 Anywhere First (87))]
    // FOR_EXPR
    [(19 Anywhere All (321)) (49 Anywhere All (320)) (102 Anywhere First (179)) (141 Anywhere First (patterns))
    (97 Anywhere Last (178) Before First (expressions)) (111 Anywhere Last (178)) (71 Anywhere First (63))
    (86 Anywhere First (66))]
    // LET_EXPR
    [(19 Anywhere All (321)) (49 Anywhere All (320)) (141 Anywhere First (patterns)) (60 Anywhere First (expressions))
    (106 Anywhere First (67)) (58 Anywhere First (26))]
];

/// The rules of the kinds from 210 on.
#[tactic(auto, unfolding(crate::specs::Rules::rules_21))]
fn rules_21() -> &'static [&'static [(u16, &'static [Step])]; 10]
    ensures { map {B = List Row}
        (λ rows. map {B = Row} (λ row. (row.0, map {B = Look} look_of row.1.now)) rows.now) result.now
        ≡ rules_21 }
{
    &RULES_21
}

static RULES_21: [&[(u16, &[Step])]; 10] = rules![
    // MATCH_EXPR
    [(19 Anywhere All (321)) (49 Anywhere All (320)) (60 Anywhere First (expressions)) (116 Anywhere First (211))
    (117 Anywhere First (69))]
    // MATCH_ARM_LIST
    [(19 Anywhere All (321)) (49 Anywhere All (320)) (5 Anywhere All (212)) (100 Anywhere First (5))
    (156 Anywhere First (6))]
    // MATCH_ARM
    [(19 Anywhere All (321)) (49 Anywhere All (320)) (141 Anywhere First (patterns)) (80 Anywhere First (213))
    (60 Anywhere First (expressions)) (66 Anywhere First (34)) (38 Anywhere First (2))]
    // MATCH_GUARD
    [(39 Anywhere First (expressions)) (82 Anywhere First (64))]
    // RETURN_EXPR
    [(19 Anywhere All (321)) (49 Anywhere All (320)) (60 Anywhere First (expressions)) (169 Anywhere First (75))]
    // BECOME_EXPR
    [(19 Anywhere All (321)) (49 Anywhere All (320)) (60 Anywhere First (expressions)) (23 Anywhere First (89))]
    // YIELD_EXPR
    [(19 Anywhere All (321)) (49 Anywhere All (320)) (60 Anywhere First (expressions)) (225 Anywhere First (99))]
    // YEET_EXPR
    [(19 Anywhere All (321)) (49 Anywhere All (320)) (60 Anywhere First (expressions)) (48 Anywhere First (91))
    (224 Anywhere First (140))]
    // CONTINUE_EXPR
    [(19 Anywhere All (321)) (49 Anywhere All (320)) (108 Anywhere First (163)) (42 Anywhere First (56))]
    // BREAK_EXPR
    [(19 Anywhere All (321)) (49 Anywhere All (320)) (108 Anywhere First (163)) (60 Anywhere First (expressions))
    (29 Anywhere First (54))]
];

/// The rules of the kinds from 220 on.
#[tactic(auto, unfolding(crate::specs::Rules::rules_22))]
fn rules_22() -> &'static [&'static [(u16, &'static [Step])]; 10]
    ensures { map {B = List Row}
        (λ rows. map {B = Row} (λ row. (row.0, map {B = Look} look_of row.1.now)) rows.now) result.now
        ≡ rules_22 }
{
    &RULES_22
}

static RULES_22: [&[(u16, &[Step])]; 10] = rules![
    // OFFSET_OF_EXPR
    [(19 Anywhere All (321)) (49 Anywhere All (320)) (204 Anywhere First (types)) (68 Anywhere All (162))
    (30 Anywhere First (109)) (147 Anywhere First (12)) (132 Anywhere First (129)) (101 Anywhere First (3))
    (38 Anywhere First (2)) (157 Anywhere First (4))]
    // FORMAT_ARGS_EXPR
    [(19 Anywhere All (321)) (49 Anywhere All (320)) (191 Anywhere First (expressions)) (4 Anywhere All (222))
    (30 Anywhere First (109)) (147 Anywhere First (12)) (72 Anywhere First (115)) (101 Anywhere First (3))
    (157 Anywhere First (4))]
    // FORMAT_ARGS_ARG
    [(127 Anywhere First (161)) (60 Anywhere First (expressions)) (58 Anywhere First (26))]
    // INCLUDE_BYTES_EXPR
    [(19 Anywhere All (321)) (49 Anywhere All (320)) (30 Anywhere First (109)) (147 Anywhere First (12))
    (87 Anywhere First (117))]
    // CFG_PRED_EXPR
    [(19 Anywhere All (321)) (49 Anywhere All (320)) (32 Anywhere First (325 326)) (30 Anywhere First (109))
    (147 Anywhere First (12)) (34 Anywhere First (110)) (101 Anywhere First (3)) (38 Anywhere First (2))
    (157 Anywhere First (4))]
    // ASM_EXPR
    [(19 Anywhere All (321)) (49 Anywhere All (320)) (219 Anywhere First (164)) (191 Anywhere All (expressions))
    (11 Anywhere All (226 227 232)) (30 Anywhere First (109)) (147 Anywhere First (12)) (13 Anywhere First (105))
    (79 Anywhere First (116)) (126 Anywhere First (125)) (101 Anywhere First (3)) (157 Anywhere First (4))]
    // ASM_CLOBBER_ABI
    [(19 Anywhere All (321)) (49 Anywhere All (320)) (35 Anywhere First (112)) (101 Anywhere First (3))
    (157 Anywhere First (4))]
    // ASM_OPTIONS
    [(19 Anywhere All (321)) (49 Anywhere All (320)) (10 Anywhere All (228)) (134 Anywhere First (130))
    (101 Anywhere First (3)) (157 Anywhere First (4))]
    // ASM_OPTION
    [(18 Anywhere First (106)) (118 Anywhere First (124)) (129 Anywhere First (126)) (130 Anywhere First (127))
    (131 Anywhere First (128)) (149 Anywhere First (133)) (151 Anywhere First (134)) (158 Anywhere First (135))
    (159 Anywhere First (136))]
    // ASM_DIR_SPEC
    [(86 Anywhere First (66)) (90 Anywhere First (118)) (92 Anywhere First (119)) (104 Anywhere First (122))
    (136 Anywhere First (131))]
];

/// The rules of the kinds from 230 on.
#[tactic(auto, unfolding(crate::specs::Rules::rules_23))]
fn rules_23() -> &'static [&'static [(u16, &'static [Step])]; 10]
    ensures { map {B = List Row}
        (λ rows. map {B = Row} (λ row. (row.0, map {B = Look} look_of row.1.now)) rows.now) result.now
        ≡ rules_23 }
{
    &RULES_23
}

static RULES_23: [&[(u16, &[Step])]; 10] = rules![
    // ASM_OPERAND_EXPR
    [(85 Anywhere First (34) Before First (expressions)) (135 Anywhere First (34) After First (expressions))
    (66 Anywhere First (34))]
    // ASM_REG_OPERAND
    [(7 Anywhere First (229)) (12 Anywhere First (236)) (9 Anywhere First (230)) (101 Anywhere First (3))
    (157 Anywhere First (4))]
    // ASM_OPERAND_NAMED
    [(19 Anywhere All (321)) (49 Anywhere All (320)) (127 Anywhere First (161)) (8 Anywhere First (231 233 234 235))
    (58 Anywhere First (26))]
    // ASM_LABEL
    [(25 Anywhere First (178)) (103 Anywhere First (121))]
    // ASM_CONST
    [(60 Anywhere First (expressions)) (41 Anywhere First (55))]
    // ASM_SYM
    [(142 Anywhere First (169)) (189 Anywhere First (138)) (101 Anywhere First (3)) (157 Anywhere First (4))]
    // ASM_REG_SPEC
    [(128 Anywhere First (162)) (186 Anywhere First (145))]
    // MODULE
    [(19 Anywhere All (321)) (49 Anywhere All (320)) (219 Anywhere First (164)) (127 Anywhere First (161))
    (95 Anywhere First (238)) (122 Anywhere First (70)) (178 Anywhere First (1))]
    // ITEM_LIST
    [(19 Anywhere All (321)) (49 Anywhere All (320)) (96 Anywhere All (items)) (100 Anywhere First (5))
    (156 Anywhere First (6))]
    // EXTERN_CRATE
    [(19 Anywhere All (321)) (49 Anywhere All (320)) (219 Anywhere First (164)) (128 Anywhere First (162))
    (165 Anywhere First (166)) (64 Anywhere First (60)) (43 Anywhere First (57)) (178 Anywhere First (1))]
];

/// The rules of the kinds from 240 on.
#[tactic(auto, unfolding(crate::specs::Rules::rules_24))]
fn rules_24() -> &'static [&'static [(u16, &'static [Step])]; 10]
    ensures { map {B = List Row}
        (λ rows. map {B = Row} (λ row. (row.0, map {B = Look} look_of row.1.now)) rows.now) result.now
        ≡ rules_24 }
{
    &RULES_24
}

static RULES_24: [&[(u16, &[Step])]; 10] = rules![
    // EXTERN_BLOCK
    [(19 Anywhere All (321)) (49 Anywhere All (320)) (219 Anywhere First (164)) (83 Anywhere First (242))
    (1 Anywhere First (167)) (62 Anywhere First (241)) (41 Anywhere First (55)) (16 Anywhere First (100))
    (211 Anywhere First (84)) (172 Anywhere First (137))]
    // EXTERN_ITEM_LIST
    [(19 Anywhere All (321)) (49 Anywhere All (320)) (63 Anywhere All (196 244 247 259)) (100 Anywhere First (5))
    (156 Anywhere First (6))]
    // IMPL_RESTRICTION
    [(220 Anywhere First (165)) (84 Anywhere First (65))]
    // MUT_RESTRICTION
    [(220 Anywhere First (165)) (125 Anywhere First (72))]
    // TYPE_ALIAS
    [(19 Anywhere All (321)) (49 Anywhere All (320)) (219 Anywhere First (164)) (83 Anywhere First (242))
    (1 Anywhere First (167)) (127 Anywhere First (161)) (77 Anywhere First (314)) (207 Anywhere First (307))
    (221 Anywhere First (26) Before First (318)) (198 Anywhere First (26) Before First (318) Past First (318))
    (204 Anywhere First (types)) (41 Anywhere First (55)) (16 Anywhere First (100)) (211 Anywhere First (84))
    (172 Anywhere First (137)) (44 Anywhere First (113)) (208 Anywhere First (83)) (36 Anywhere First (25))
    (58 Anywhere First (26)) (178 Anywhere First (1))]
    // MACRO_RULES
    [(19 Anywhere All (321)) (49 Anywhere All (320)) (219 Anywhere First (164)) (127 Anywhere First (161))
    (196 Anywhere First (248)) (114 Anywhere First (123)) (59 Anywhere First (27)) (178 Anywhere First (1))]
    // MACRO_DEF
    [(19 Anywhere All (321)) (49 Anywhere All (320)) (219 Anywhere First (164)) (127 Anywhere First (161))
    (4 Anywhere Last (248) Before First (248)) (26 Anywhere Last (248)) (115 Anywhere First (93))]
    // FN
    [(19 Anywhere All (321)) (49 Anywhere All (320)) (219 Anywhere First (164)) (83 Anywhere First (242))
    (1 Anywhere First (167)) (127 Anywhere First (161)) (77 Anywhere First (314)) (138 Anywhere First (266))
    (168 Anywhere First (168)) (221 Anywhere First (318)) (26 Anywhere First (178)) (41 Anywhere First (55))
    (16 Anywhere First (100)) (74 Anywhere First (104)) (211 Anywhere First (84)) (172 Anywhere First (137))
    (44 Anywhere First (113)) (69 Anywhere First (62)) (178 Anywhere First (1))]
    // TOKEN_TREE
    [(197 Anywhere All (248))]
    // STRUCT
    [(19 Anywhere All (321)) (49 Anywhere All (320)) (219 Anywhere First (164)) (127 Anywhere First (161))
    (77 Anywhere First (314)) (221 Anywhere First (318)) (67 Anywhere First (254 256)) (187 Anywhere First (79))
    (178 Anywhere First (1))]
];

/// The rules of the kinds from 250 on.
#[tactic(auto, unfolding(crate::specs::Rules::rules_25))]
fn rules_25() -> &'static [&'static [(u16, &'static [Step])]; 10]
    ensures { map {B = List Row}
        (λ rows. map {B = Row} (λ row. (row.0, map {B = Look} look_of row.1.now)) rows.now) result.now
        ≡ rules_25 }
{
    &RULES_25
}

static RULES_25: [&[(u16, &[Step])]; 10] = rules![
    // UNION
    [(19 Anywhere All (321)) (49 Anywhere All (320)) (219 Anywhere First (164)) (127 Anywhere First (161))
    (77 Anywhere First (314)) (221 Anywhere First (318)) (162 Anywhere First (254)) (210 Anywhere First (139))
    (178 Anywhere First (1))]
    // ENUM
    [(19 Anywhere All (321)) (49 Anywhere All (320)) (219 Anywhere First (164)) (127 Anywhere First (161))
    (77 Anywhere First (314)) (221 Anywhere First (318)) (217 Anywhere First (252)) (57 Anywhere First (59))]
    // VARIANT_LIST
    [(218 Anywhere All (253)) (100 Anywhere First (5)) (156 Anywhere First (6))]
    // VARIANT
    [(19 Anywhere All (321)) (49 Anywhere All (320)) (127 Anywhere First (161)) (67 Anywhere First (254 256))
    (40 Anywhere First (311)) (209 Anywhere First (23)) (58 Anywhere First (26))]
    // RECORD_FIELD_LIST
    [(68 Anywhere All (255)) (100 Anywhere First (5)) (156 Anywhere First (6))]
    // RECORD_FIELD
    [(19 Anywhere All (321)) (49 Anywhere All (320)) (219 Anywhere First (164)) (124 Anywhere First (243))
    (127 Anywhere First (161)) (204 Anywhere First (types)) (46 Anywhere First (311)) (211 Anywhere First (84))
    (36 Anywhere First (25)) (58 Anywhere First (26))]
    // TUPLE_FIELD_LIST
    [(68 Anywhere All (257)) (101 Anywhere First (3)) (157 Anywhere First (4))]
    // TUPLE_FIELD
    [(19 Anywhere All (321)) (49 Anywhere All (320)) (219 Anywhere First (164)) (124 Anywhere First (243))
    (204 Anywhere First (types))]
    // CONST
    [(19 Anywhere All (321)) (49 Anywhere All (320)) (219 Anywhere First (164)) (83 Anywhere First (242))
    (1 Anywhere First (167)) (127 Anywhere First (161)) (77 Anywhere First (314)) (204 Anywhere First (types))
    (26 Anywhere First (expressions)) (221 Anywhere First (318)) (41 Anywhere First (55)) (16 Anywhere First (100))
    (211 Anywhere First (84)) (172 Anywhere First (137)) (44 Anywhere First (113)) (208 Anywhere First (83))
    (125 Anywhere First (72)) (209 Anywhere First (23)) (36 Anywhere First (25)) (58 Anywhere First (26))
    (178 Anywhere First (1))]
    // STATIC
    [(19 Anywhere All (321)) (49 Anywhere All (320)) (219 Anywhere First (164)) (83 Anywhere First (242))
    (1 Anywhere First (167)) (127 Anywhere First (161)) (77 Anywhere First (314)) (204 Anywhere First (types))
    (26 Anywhere First (expressions)) (41 Anywhere First (55)) (16 Anywhere First (100)) (211 Anywhere First (84))
    (172 Anywhere First (137)) (184 Anywhere First (78)) (125 Anywhere First (72)) (36 Anywhere First (25))
    (58 Anywhere First (26)) (178 Anywhere First (1))]
];

/// The rules of the kinds from 260 on.
#[tactic(auto, unfolding(crate::specs::Rules::rules_26))]
fn rules_26() -> &'static [&'static [(u16, &'static [Step])]; 10]
    ensures { map {B = List Row}
        (λ rows. map {B = Row} (λ row. (row.0, map {B = Look} look_of row.1.now)) rows.now) result.now
        ≡ rules_26 }
{
    &RULES_26
}

static RULES_26: [&[(u16, &[Step])]; 10] = rules![
    // TRAIT
    [(19 Anywhere All (321)) (49 Anywhere All (320)) (219 Anywhere First (164)) (83 Anywhere First (242))
    (1 Anywhere First (167)) (127 Anywhere First (161)) (77 Anywhere First (314)) (207 Anywhere First (307))
    (221 Anywhere First (318)) (14 Anywhere First (262)) (41 Anywhere First (55)) (16 Anywhere First (100))
    (211 Anywhere First (84)) (172 Anywhere First (137)) (20 Anywhere First (107)) (200 Anywhere First (81))
    (36 Anywhere First (25)) (58 Anywhere First (26)) (178 Anywhere First (1))]
    // IMPL
    [(19 Anywhere All (321)) (49 Anywhere All (320)) (219 Anywhere First (164)) (83 Anywhere First (242))
    (1 Anywhere First (167)) (77 Anywhere First (314)) (199 Anywhere First (63) OnlyBefore First (types))
    (176 Anywhere First (63) Past First (types)) (221 Anywhere First (318)) (14 Anywhere First (262))
    (41 Anywhere First (55)) (16 Anywhere First (100)) (211 Anywhere First (84)) (172 Anywhere First (137))
    (44 Anywhere First (113)) (84 Anywhere First (65)) (59 Anywhere First (27)) (71 Anywhere First (63))]
    // ASSOC_ITEM_LIST
    [(19 Anywhere All (321)) (49 Anywhere All (320)) (15 Anywhere All (196 244 247 258)) (100 Anywhere First (5))
    (156 Anywhere First (6))]
    // USE
    [(19 Anywhere All (321)) (49 Anywhere All (320)) (219 Anywhere First (164)) (214 Anywhere First (264))
    (213 Anywhere First (85)) (178 Anywhere First (1))]
    // USE_TREE
    [(142 Anywhere First (169)) (215 Anywhere First (265)) (165 Anywhere First (166)) (37 Anywhere First (32))
    (181 Anywhere First (19))]
    // USE_TREE_LIST
    [(216 Anywhere All (264)) (100 Anywhere First (5)) (156 Anywhere First (6))]
    // PARAM_LIST
    [(19 Anywhere All (321)) (49 Anywhere All (320)) (174 Anywhere First (268)) (139 Anywhere All (267))
    (101 Anywhere First (3)) (157 Anywhere First (4)) (146 Anywhere First (17))]
    // PARAM
    [(19 Anywhere All (321)) (49 Anywhere All (320)) (141 Anywhere First (patterns)) (204 Anywhere First (types))
    (36 Anywhere First (25)) (52 Anywhere First (30))]
    // SELF_PARAM
    [(19 Anywhere All (321)) (49 Anywhere All (320)) (108 Anywhere First (163)) (127 Anywhere First (161))
    (204 Anywhere First (types)) (2 Anywhere First (16)) (125 Anywhere First (72)) (36 Anywhere First (25))]
    // OR_PAT
    [(144 Anywhere All (patterns))]
];

/// The rules of the kinds from 270 on.
#[tactic(auto, unfolding(crate::specs::Rules::rules_27))]
fn rules_27() -> &'static [&'static [(u16, &'static [Step])]; 10]
    ensures { map {B = List Row}
        (λ rows. map {B = Row} (λ row. (row.0, map {B = Look} look_of row.1.now)) rows.now) result.now
        ≡ rules_27 }
{
    &RULES_27
}

static RULES_27: [&[(u16, &[Step])]; 10] = rules![
    // RANGE_PAT
    [(182 Anywhere First (29 30 31) Before First (patterns)) (56 Anywhere First (29 30 31) After First (patterns))
    (133 Anywhere First (29 30 31))]
    // REST_PAT
    [(19 Anywhere All (321)) (49 Anywhere All (320)) (51 Anywhere First (29))]
    // DEREF_PAT
    [(141 Anywhere First (patterns)) (30 Anywhere First (109)) (147 Anywhere First (12)) (47 Anywhere First (114))
    (101 Anywhere First (3)) (157 Anywhere First (4))]
    // CFG_PRED_PAT
    [(32 Anywhere First (325 326)) (30 Anywhere First (109)) (147 Anywhere First (12)) (34 Anywhere First (110))
    (101 Anywhere First (3)) (38 Anywhere First (2)) (157 Anywhere First (4))]
    // LITERAL_PAT
    [(110 Anywhere First (199)) (121 Anywhere First (28))]
    // TUPLE_STRUCT_PAT
    [(142 Anywhere First (169)) (68 Anywhere All (patterns)) (101 Anywhere First (3)) (157 Anywhere First (4))]
    // RECORD_PAT
    [(142 Anywhere First (169)) (163 Anywhere First (277))]
    // RECORD_PAT_FIELD_LIST
    [(68 Anywhere All (278)) (167 Anywhere First (271)) (100 Anywhere First (5)) (156 Anywhere First (6))]
    // RECORD_PAT_FIELD
    [(19 Anywhere All (321)) (49 Anywhere All (320)) (128 Anywhere First (162)) (141 Anywhere First (patterns))
    (36 Anywhere First (25))]
    // MACRO_PAT
    [(113 Anywhere First (196))]
];

/// The rules of the kinds from 280 on.
#[tactic(auto, unfolding(crate::specs::Rules::rules_28))]
fn rules_28() -> &'static [&'static [(u16, &'static [Step])]; 10]
    ensures { map {B = List Row}
        (λ rows. map {B = Row} (λ row. (row.0, map {B = Look} look_of row.1.now)) rows.now) result.now
        ≡ rules_28 }
{
    &RULES_28
}

static RULES_28: [&[(u16, &[Step])]; 10] = rules![
    // PATH_PAT
    [(142 Anywhere First (169))]
    // WILDCARD_PAT
    [(209 Anywhere First (23))]
    // REF_PAT
    [(141 Anywhere First (patterns)) (2 Anywhere First (16)) (125 Anywhere First (72))]
    // NOT_NULL
    [(141 Anywhere First (patterns)) (59 Anywhere First (27))]
    // PAREN_PAT
    [(141 Anywhere First (patterns)) (101 Anywhere First (3)) (157 Anywhere First (4))]
    // TUPLE_PAT
    [(68 Anywhere All (patterns)) (101 Anywhere First (3)) (157 Anywhere First (4))]
    // SLICE_PAT
    [(144 Anywhere All (patterns)) (99 Anywhere First (7)) (155 Anywhere First (8))]
    // IDENT_PAT
    [(127 Anywhere First (161)) (141 Anywhere First (patterns)) (164 Anywhere First (74)) (125 Anywhere First (72))
    (17 Anywhere First (11))]
    // BOX_PAT
    [(141 Anywhere First (patterns)) (28 Anywhere First (90))]
    // CONST_BLOCK_PAT
    [(25 Anywhere First (178)) (41 Anywhere First (55))]
];

/// The rules of the kinds from 290 on.
#[tactic(auto, unfolding(crate::specs::Rules::rules_29))]
fn rules_29() -> &'static [&'static [(u16, &'static [Step])]; 10]
    ensures { map {B = List Row}
        (λ rows. map {B = Row} (λ row. (row.0, map {B = Look} look_of row.1.now)) rows.now) result.now
        ≡ rules_29 }
{
    &RULES_29
}

static RULES_29: [&[(u16, &[Step])]; 10] = rules![
    // PAREN_TYPE
    [(204 Anywhere First (types)) (101 Anywhere First (3)) (157 Anywhere First (4))]
    // TUPLE_TYPE
    [(68 Anywhere All (types)) (101 Anywhere First (3)) (157 Anywhere First (4))]
    // NEVER_TYPE
    [(59 Anywhere First (27))]
    // PTR_TYPE
    [(204 Anywhere First (types)) (181 Anywhere First (19)) (41 Anywhere First (55)) (125 Anywhere First (72))]
    // SLICE_TYPE
    [(204 Anywhere First (types)) (99 Anywhere First (7)) (155 Anywhere First (8))]
    // ARRAY_TYPE
    [(204 Anywhere First (types)) (40 Anywhere First (311)) (99 Anywhere First (7)) (178 Anywhere First (1))
    (155 Anywhere First (8))]
    // REF_TYPE
    [(108 Anywhere First (163)) (204 Anywhere First (types)) (2 Anywhere First (16)) (125 Anywhere First (72))]
    // INFER_TYPE
    [(209 Anywhere First (23))]
    // FN_PTR_TYPE
    [(1 Anywhere First (167)) (138 Anywhere First (266)) (168 Anywhere First (168)) (211 Anywhere First (84))
    (69 Anywhere First (62))]
    // FOR_BINDER
    [(77 Anywhere First (314)) (71 Anywhere First (63))]
];

/// The rules of the kinds from 300 on.
#[tactic(auto, unfolding(crate::specs::Rules::rules_30))]
fn rules_30() -> &'static [&'static [(u16, &'static [Step])]; 10]
    ensures { map {B = List Row}
        (λ rows. map {B = Row} (λ row. (row.0, map {B = Look} look_of row.1.now)) rows.now) result.now
        ≡ rules_30 }
{
    &RULES_30
}

static RULES_30: [&[(u16, &[Step])]; 10] = rules![
    // FOR_TYPE
    [(70 Anywhere First (299)) (204 Anywhere First (types))]
    // IMPL_TRAIT_TYPE
    [(207 Anywhere First (307)) (84 Anywhere First (65))]
    // DYN_TRAIT_TYPE
    [(207 Anywhere First (307)) (53 Anywhere First (102))]
    // MACRO_TYPE
    [(113 Anywhere First (196))]
    // PATH_TYPE
    [(142 Anywhere First (169))]
    // PATTERN_TYPE
    [(204 Anywhere First (types)) (141 Anywhere First (patterns)) (30 Anywhere First (109)) (147 Anywhere First (12))
    (145 Anywhere First (132)) (101 Anywhere First (3)) (94 Anywhere First (120)) (157 Anywhere First (4))]
    // TYPE_BOUND
    [(108 Anywhere First (163)) (212 Anywhere First (313)) (70 Anywhere First (299)) (204 Anywhere First (types))
    (101 Anywhere First (3)) (213 Anywhere First (85)) (99 Anywhere First (7)) (194 Anywhere First (13))
    (41 Anywhere First (55)) (155 Anywhere First (8)) (16 Anywhere First (100)) (153 Anywhere First (14))
    (157 Anywhere First (4))]
    // TYPE_BOUND_LIST
    [(27 Anywhere All (306)) (70 Anywhere First (299)) (101 Anywhere First (3)) (99 Anywhere First (7))
    (194 Anywhere First (13)) (41 Anywhere First (55)) (155 Anywhere First (8)) (16 Anywhere First (100))
    (153 Anywhere First (14))]
    // GENERIC_ARG_LIST
    [(76 Anywhere All (generic_arguments)) (37 Anywhere First (32)) (98 Anywhere First (9)) (154 Anywhere First (10))]
    // TYPE_ARG
    [(204 Anywhere First (types))]
];

/// The rules of the kinds from 310 on.
#[tactic(auto, unfolding(crate::specs::Rules::rules_31))]
fn rules_31() -> &'static [&'static [(u16, &'static [Step])]; 10]
    ensures { map {B = List Row}
        (λ rows. map {B = Row} (λ row. (row.0, map {B = Look} look_of row.1.now)) rows.now) result.now
        ≡ rules_31 }
{
    &RULES_31
}

static RULES_31: [&[(u16, &[Step])]; 10] = rules![
    // LIFETIME_ARG
    [(108 Anywhere First (163))]
    // CONST_ARG
    [(60 Anywhere First (expressions))]
    // ASSOC_TYPE_ARG
    [(128 Anywhere First (162)) (75 Anywhere First (308)) (170 Anywhere First (172)) (140 Anywhere First (173))
    (168 Anywhere First (168)) (207 Anywhere First (307)) (204 Anywhere First (types)) (40 Anywhere First (311))
    (36 Anywhere First (25)) (58 Anywhere First (26))]
    // USE_BOUND_GENERIC_ARGS
    [(212 Anywhere All (162 163)) (98 Anywhere First (9)) (154 Anywhere First (10))]
    // GENERIC_PARAM_LIST
    [(78 Anywhere All (generic_parameters)) (98 Anywhere First (9)) (154 Anywhere First (10))]
    // LIFETIME_PARAM
    [(19 Anywhere All (321)) (49 Anywhere All (320)) (108 Anywhere First (163)) (207 Anywhere First (307))
    (36 Anywhere First (25))]
    // TYPE_PARAM
    [(19 Anywhere All (321)) (49 Anywhere All (320)) (127 Anywhere First (161)) (207 Anywhere First (307))
    (45 Anywhere First (types)) (36 Anywhere First (25)) (58 Anywhere First (26))]
    // CONST_PARAM
    [(19 Anywhere All (321)) (49 Anywhere All (320)) (127 Anywhere First (161)) (204 Anywhere First (types))
    (46 Anywhere First (311)) (41 Anywhere First (55)) (36 Anywhere First (25)) (58 Anywhere First (26))]
    // WHERE_CLAUSE
    [(148 Anywhere All (319)) (222 Anywhere First (86))]
    // WHERE_PRED
    [(108 Anywhere First (163)) (70 Anywhere First (299)) (204 Anywhere First (types)) (207 Anywhere First (307))
    (36 Anywhere First (25))]
];

/// The rules of the kinds from 320 on.
#[tactic(auto, unfolding(crate::specs::Rules::rules_32))]
fn rules_32() -> &'static [&'static [(u16, &'static [Step])]; 10]
    ensures { map {B = List Row}
        (λ rows. map {B = Row} (λ row. (row.0, map {B = Look} look_of row.1.now)) rows.now) result.now
        ≡ rules_32 }
{
    &RULES_32
}

static RULES_32: [&[(u16, &[Step])]; 10] = rules![
    // DOC_COMMENT
    [(137 Anywhere First (154)) (91 Anywhere First (153))]
    // ATTR
    [(119 Anywhere First (metas)) (147 Anywhere First (12)) (59 Anywhere First (27)) (99 Anywhere First (7))
    (155 Anywhere First (8))]
    // UNSAFE_META
    [(119 Anywhere First (metas)) (211 Anywhere First (84)) (101 Anywhere First (3)) (157 Anywhere First (4))]
    // CFG_ATTR_META
    [(32 Anywhere First (325 326)) (120 Anywhere All (metas)) (31 Anywhere First (111)) (101 Anywhere First (3))
    (157 Anywhere First (4))]
    // CFG_META
    [(32 Anywhere First (325 326)) (34 Anywhere First (110)) (101 Anywhere First (3)) (38 Anywhere First (2))
    (157 Anywhere First (4))]
    // CFG_ATOM
    [(81 Anywhere First (148)) (58 Anywhere First (26)) (186 Anywhere First (145)) (201 Anywhere First (82))
    (65 Anywhere First (61))]
    // CFG_COMPOSITE
    [(33 Anywhere All (325 326)) (81 Anywhere First (148)) (101 Anywhere First (3)) (157 Anywhere First (4))]
    // KEY_VALUE_META
    [(142 Anywhere First (169)) (60 Anywhere First (expressions)) (58 Anywhere First (26))]
    // TOKEN_TREE_META
    [(142 Anywhere First (169)) (196 Anywhere First (248))]
    // PATH_META
    [(142 Anywhere First (169))]
];
