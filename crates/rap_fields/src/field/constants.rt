// Written by crates/rap_base/fields from fields.txt beside it and the shapes of nodes: an edit here is lost.
//! The constants of all fields.
use super::Field;

impl Field {
    pub const ABI: Field = Field { number: 1 };

    pub const AMP_TOKEN: Field = Field { number: 2 };

    pub const ARG_LIST: Field = Field { number: 3 };

    pub const ARGS: Field = Field { number: 4 };

    pub const ARMS: Field = Field { number: 5 };

    pub const AS_TOKEN: Field = Field { number: 6 };

    pub const ASM_DIR_SPEC: Field = Field { number: 7 };

    pub const ASM_OPERAND: Field = Field { number: 8 };

    pub const ASM_OPERAND_EXPR: Field = Field { number: 9 };

    pub const ASM_OPTIONS: Field = Field { number: 10 };

    pub const ASM_PIECES: Field = Field { number: 11 };

    pub const ASM_REG_SPEC: Field = Field { number: 12 };

    pub const ASM_TOKEN: Field = Field { number: 13 };

    pub const ASSOC_ITEM_LIST: Field = Field { number: 14 };

    pub const ASSOC_ITEMS: Field = Field { number: 15 };

    pub const ASYNC_TOKEN: Field = Field { number: 16 };

    pub const AT_TOKEN: Field = Field { number: 17 };

    pub const ATT_SYNTAX_TOKEN: Field = Field { number: 18 };

    pub const ATTRS: Field = Field { number: 19 };

    pub const AUTO_TOKEN: Field = Field { number: 20 };

    pub const AWAIT_TOKEN: Field = Field { number: 21 };

    pub const BASE: Field = Field { number: 22 };

    pub const BECOME_TOKEN: Field = Field { number: 23 };

    pub const BIKESHED_TOKEN: Field = Field { number: 24 };

    pub const BLOCK_EXPR: Field = Field { number: 25 };

    pub const BODY: Field = Field { number: 26 };

    pub const BOUNDS: Field = Field { number: 27 };

    pub const BOX_TOKEN: Field = Field { number: 28 };

    pub const BREAK_TOKEN: Field = Field { number: 29 };

    pub const BUILTIN_TOKEN: Field = Field { number: 30 };

    pub const CFG_ATTR_TOKEN: Field = Field { number: 31 };

    pub const CFG_PREDICATE: Field = Field { number: 32 };

    pub const CFG_PREDICATES: Field = Field { number: 33 };

    pub const CFG_TOKEN: Field = Field { number: 34 };

    pub const CLOBBER_ABI_TOKEN: Field = Field { number: 35 };

    pub const COLON_TOKEN: Field = Field { number: 36 };

    pub const COLONCOLON_TOKEN: Field = Field { number: 37 };

    pub const COMMA_TOKEN: Field = Field { number: 38 };

    pub const CONDITION: Field = Field { number: 39 };

    pub const CONST_ARG: Field = Field { number: 40 };

    pub const CONST_TOKEN: Field = Field { number: 41 };

    pub const CONTINUE_TOKEN: Field = Field { number: 42 };

    pub const CRATE_TOKEN: Field = Field { number: 43 };

    pub const DEFAULT_TOKEN: Field = Field { number: 44 };

    pub const DEFAULT_TYPE: Field = Field { number: 45 };

    pub const DEFAULT_VAL: Field = Field { number: 46 };

    pub const DEREF_TOKEN: Field = Field { number: 47 };

    pub const DO_TOKEN: Field = Field { number: 48 };

    pub const DOC_COMMENTS: Field = Field { number: 49 };

    pub const DOT_TOKEN: Field = Field { number: 50 };

    pub const DOTDOT_TOKEN: Field = Field { number: 51 };

    pub const DOTDOTDOT_TOKEN: Field = Field { number: 52 };

    pub const DYN_TOKEN: Field = Field { number: 53 };

    pub const ELSE_BRANCH: Field = Field { number: 54 };

    pub const ELSE_TOKEN: Field = Field { number: 55 };

    pub const END: Field = Field { number: 56 };

    pub const ENUM_TOKEN: Field = Field { number: 57 };

    pub const EQ_TOKEN: Field = Field { number: 58 };

    pub const EXCL_TOKEN: Field = Field { number: 59 };

    pub const EXPR: Field = Field { number: 60 };

    pub const EXPRS: Field = Field { number: 61 };

    pub const EXTERN_ITEM_LIST: Field = Field { number: 62 };

    pub const EXTERN_ITEMS: Field = Field { number: 63 };

    pub const EXTERN_TOKEN: Field = Field { number: 64 };

    pub const FALSE_TOKEN: Field = Field { number: 65 };

    pub const FAT_ARROW_TOKEN: Field = Field { number: 66 };

    pub const FIELD_LIST: Field = Field { number: 67 };

    pub const FIELDS: Field = Field { number: 68 };

    pub const FN_TOKEN: Field = Field { number: 69 };

    pub const FOR_BINDER: Field = Field { number: 70 };

    pub const FOR_TOKEN: Field = Field { number: 71 };

    pub const FORMAT_ARGS_TOKEN: Field = Field { number: 72 };

    pub const FRONTMATTER_TOKEN: Field = Field { number: 73 };

    pub const GEN_TOKEN: Field = Field { number: 74 };

    pub const GENERIC_ARG_LIST: Field = Field { number: 75 };

    pub const GENERIC_ARGS: Field = Field { number: 76 };

    pub const GENERIC_PARAM_LIST: Field = Field { number: 77 };

    pub const GENERIC_PARAMS: Field = Field { number: 78 };

    pub const GLOBAL_ASM_TOKEN: Field = Field { number: 79 };

    pub const GUARD: Field = Field { number: 80 };

    pub const IDENT_TOKEN: Field = Field { number: 81 };

    pub const IF_TOKEN: Field = Field { number: 82 };

    pub const IMPL_RESTRICTION: Field = Field { number: 83 };

    pub const IMPL_TOKEN: Field = Field { number: 84 };

    pub const IN_EXPR: Field = Field { number: 85 };

    pub const IN_TOKEN: Field = Field { number: 86 };

    pub const INCLUDE_BYTES_TOKEN: Field = Field { number: 87 };

    pub const INDEX: Field = Field { number: 88 };

    pub const INITIALIZER: Field = Field { number: 89 };

    pub const INLATEOUT_TOKEN: Field = Field { number: 90 };

    pub const INNER_DOC_COMMENT_TOKEN: Field = Field { number: 91 };

    pub const INOUT_TOKEN: Field = Field { number: 92 };

    pub const INT_NUMBER_TOKEN: Field = Field { number: 93 };

    pub const IS_TOKEN: Field = Field { number: 94 };

    pub const ITEM_LIST: Field = Field { number: 95 };

    pub const ITEMS: Field = Field { number: 96 };

    pub const ITERABLE: Field = Field { number: 97 };

    pub const L_ANGLE_TOKEN: Field = Field { number: 98 };

    pub const L_BRACK_TOKEN: Field = Field { number: 99 };

    pub const L_CURLY_TOKEN: Field = Field { number: 100 };

    pub const L_PAREN_TOKEN: Field = Field { number: 101 };

    pub const LABEL: Field = Field { number: 102 };

    pub const LABEL_TOKEN: Field = Field { number: 103 };

    pub const LATEOUT_TOKEN: Field = Field { number: 104 };

    pub const LET_ELSE: Field = Field { number: 105 };

    pub const LET_TOKEN: Field = Field { number: 106 };

    pub const LHS: Field = Field { number: 107 };

    pub const LIFETIME: Field = Field { number: 108 };

    pub const LIFETIME_IDENT_TOKEN: Field = Field { number: 109 };

    pub const LITERAL: Field = Field { number: 110 };

    pub const LOOP_BODY: Field = Field { number: 111 };

    pub const LOOP_TOKEN: Field = Field { number: 112 };

    pub const MACRO_CALL: Field = Field { number: 113 };

    pub const MACRO_RULES_TOKEN: Field = Field { number: 114 };

    pub const MACRO_TOKEN: Field = Field { number: 115 };

    pub const MATCH_ARM_LIST: Field = Field { number: 116 };

    pub const MATCH_TOKEN: Field = Field { number: 117 };

    pub const MAY_UNWIND_TOKEN: Field = Field { number: 118 };

    pub const META: Field = Field { number: 119 };

    pub const METAS: Field = Field { number: 120 };

    pub const MINUS_TOKEN: Field = Field { number: 121 };

    pub const MOD_TOKEN: Field = Field { number: 122 };

    pub const MOVE_TOKEN: Field = Field { number: 123 };

    pub const MUT_RESTRICTION: Field = Field { number: 124 };

    pub const MUT_TOKEN: Field = Field { number: 125 };

    pub const NAKED_ASM_TOKEN: Field = Field { number: 126 };

    pub const NAME: Field = Field { number: 127 };

    pub const NAME_REF: Field = Field { number: 128 };

    pub const NOMEM_TOKEN: Field = Field { number: 129 };

    pub const NORETURN_TOKEN: Field = Field { number: 130 };

    pub const NOSTACK_TOKEN: Field = Field { number: 131 };

    pub const OFFSET_OF_TOKEN: Field = Field { number: 132 };

    pub const OP_TOKEN: Field = Field { number: 133 };

    pub const OPTIONS_TOKEN: Field = Field { number: 134 };

    pub const OUT_EXPR: Field = Field { number: 135 };

    pub const OUT_TOKEN: Field = Field { number: 136 };

    pub const OUTER_DOC_COMMENT_TOKEN: Field = Field { number: 137 };

    pub const PARAM_LIST: Field = Field { number: 138 };

    pub const PARAMS: Field = Field { number: 139 };

    pub const PARENTHESIZED_ARG_LIST: Field = Field { number: 140 };

    pub const PAT: Field = Field { number: 141 };

    pub const PATH: Field = Field { number: 142 };

    pub const PATH_TYPE: Field = Field { number: 143 };

    pub const PATS: Field = Field { number: 144 };

    pub const PATTERN_TYPE_TOKEN: Field = Field { number: 145 };

    pub const PIPE_TOKEN: Field = Field { number: 146 };

    pub const POUND_TOKEN: Field = Field { number: 147 };

    pub const PREDICATES: Field = Field { number: 148 };

    pub const PRESERVES_FLAGS_TOKEN: Field = Field { number: 149 };

    pub const PUB_TOKEN: Field = Field { number: 150 };

    pub const PURE_TOKEN: Field = Field { number: 151 };

    pub const QUALIFIER: Field = Field { number: 152 };

    pub const QUESTION_MARK_TOKEN: Field = Field { number: 153 };

    pub const R_ANGLE_TOKEN: Field = Field { number: 154 };

    pub const R_BRACK_TOKEN: Field = Field { number: 155 };

    pub const R_CURLY_TOKEN: Field = Field { number: 156 };

    pub const R_PAREN_TOKEN: Field = Field { number: 157 };

    pub const RAW_TOKEN: Field = Field { number: 158 };

    pub const READONLY_TOKEN: Field = Field { number: 159 };

    pub const RECEIVER: Field = Field { number: 160 };

    pub const RECORD_EXPR_FIELD_LIST: Field = Field { number: 161 };

    pub const RECORD_FIELD_LIST: Field = Field { number: 162 };

    pub const RECORD_PAT_FIELD_LIST: Field = Field { number: 163 };

    pub const REF_TOKEN: Field = Field { number: 164 };

    pub const RENAME: Field = Field { number: 165 };

    pub const REPEAT: Field = Field { number: 166 };

    pub const REST_PAT: Field = Field { number: 167 };

    pub const RET_TYPE: Field = Field { number: 168 };

    pub const RETURN_TOKEN: Field = Field { number: 169 };

    pub const RETURN_TYPE_SYNTAX: Field = Field { number: 170 };

    pub const RHS: Field = Field { number: 171 };

    pub const SAFE_TOKEN: Field = Field { number: 172 };

    pub const SEGMENT: Field = Field { number: 173 };

    pub const SELF_PARAM: Field = Field { number: 174 };

    pub const SELF_TOKEN: Field = Field { number: 175 };

    pub const SELF_TY: Field = Field { number: 176 };

    pub const SELF_TYPE_TOKEN: Field = Field { number: 177 };

    pub const SEMICOLON_TOKEN: Field = Field { number: 178 };

    pub const SHEBANG_TOKEN: Field = Field { number: 179 };

    pub const SPREAD: Field = Field { number: 180 };

    pub const STAR_TOKEN: Field = Field { number: 181 };

    pub const START: Field = Field { number: 182 };

    pub const STATEMENTS: Field = Field { number: 183 };

    pub const STATIC_TOKEN: Field = Field { number: 184 };

    pub const STMT_LIST: Field = Field { number: 185 };

    pub const STRING_TOKEN: Field = Field { number: 186 };

    pub const STRUCT_TOKEN: Field = Field { number: 187 };

    pub const SUPER_TOKEN: Field = Field { number: 188 };

    pub const SYM_TOKEN: Field = Field { number: 189 };

    pub const TAIL_EXPR: Field = Field { number: 190 };

    pub const TEMPLATE: Field = Field { number: 191 };

    pub const THEN_BRANCH: Field = Field { number: 192 };

    pub const THIN_ARROW_TOKEN: Field = Field { number: 193 };

    pub const TILDE_TOKEN: Field = Field { number: 194 };

    pub const TOKEN: Field = Field { number: 195 };

    pub const TOKEN_TREE: Field = Field { number: 196 };

    pub const TOKEN_TREES: Field = Field { number: 197 };

    pub const TRAILING_WHERE_CLAUSE: Field = Field { number: 198 };

    pub const TRAIT_: Field = Field { number: 199 };

    pub const TRAIT_TOKEN: Field = Field { number: 200 };

    pub const TRUE_TOKEN: Field = Field { number: 201 };

    pub const TRY_BLOCK_MODIFIER: Field = Field { number: 202 };

    pub const TRY_TOKEN: Field = Field { number: 203 };

    pub const TY: Field = Field { number: 204 };

    pub const TYPE_ANCHOR: Field = Field { number: 205 };

    pub const TYPE_ARGS: Field = Field { number: 206 };

    pub const TYPE_BOUND_LIST: Field = Field { number: 207 };

    pub const TYPE_TOKEN: Field = Field { number: 208 };

    pub const UNDERSCORE_TOKEN: Field = Field { number: 209 };

    pub const UNION_TOKEN: Field = Field { number: 210 };

    pub const UNSAFE_TOKEN: Field = Field { number: 211 };

    pub const USE_BOUND_GENERIC_ARGS: Field = Field { number: 212 };

    pub const USE_TOKEN: Field = Field { number: 213 };

    pub const USE_TREE: Field = Field { number: 214 };

    pub const USE_TREE_LIST: Field = Field { number: 215 };

    pub const USE_TREES: Field = Field { number: 216 };

    pub const VARIANT_LIST: Field = Field { number: 217 };

    pub const VARIANTS: Field = Field { number: 218 };

    pub const VISIBILITY: Field = Field { number: 219 };

    pub const VISIBILITY_INNER: Field = Field { number: 220 };

    pub const WHERE_CLAUSE: Field = Field { number: 221 };

    pub const WHERE_TOKEN: Field = Field { number: 222 };

    pub const WHILE_TOKEN: Field = Field { number: 223 };

    pub const YEET_TOKEN: Field = Field { number: 224 };

    pub const YIELD_TOKEN: Field = Field { number: 225 };
}
