// Written by crates/rap_base/kinds from kinds.txt beside it: an edit here is lost.
//! The constants of all kinds.
use super::SyntaxKind;

impl SyntaxKind {
    pub const EOF: SyntaxKind = SyntaxKind { number: 0 };

    pub const SEMICOLON: SyntaxKind = SyntaxKind { number: 1 };

    pub const COMMA: SyntaxKind = SyntaxKind { number: 2 };

    pub const L_PAREN: SyntaxKind = SyntaxKind { number: 3 };

    pub const R_PAREN: SyntaxKind = SyntaxKind { number: 4 };

    pub const L_CURLY: SyntaxKind = SyntaxKind { number: 5 };

    pub const R_CURLY: SyntaxKind = SyntaxKind { number: 6 };

    pub const L_BRACK: SyntaxKind = SyntaxKind { number: 7 };

    pub const R_BRACK: SyntaxKind = SyntaxKind { number: 8 };

    pub const L_ANGLE: SyntaxKind = SyntaxKind { number: 9 };

    pub const R_ANGLE: SyntaxKind = SyntaxKind { number: 10 };

    pub const AT: SyntaxKind = SyntaxKind { number: 11 };

    pub const POUND: SyntaxKind = SyntaxKind { number: 12 };

    pub const TILDE: SyntaxKind = SyntaxKind { number: 13 };

    pub const QUESTION: SyntaxKind = SyntaxKind { number: 14 };

    pub const DOLLAR: SyntaxKind = SyntaxKind { number: 15 };

    pub const AMP: SyntaxKind = SyntaxKind { number: 16 };

    pub const PIPE: SyntaxKind = SyntaxKind { number: 17 };

    pub const PLUS: SyntaxKind = SyntaxKind { number: 18 };

    pub const STAR: SyntaxKind = SyntaxKind { number: 19 };

    pub const SLASH: SyntaxKind = SyntaxKind { number: 20 };

    pub const CARET: SyntaxKind = SyntaxKind { number: 21 };

    pub const PERCENT: SyntaxKind = SyntaxKind { number: 22 };

    pub const UNDERSCORE: SyntaxKind = SyntaxKind { number: 23 };

    pub const DOT: SyntaxKind = SyntaxKind { number: 24 };

    pub const COLON: SyntaxKind = SyntaxKind { number: 25 };

    pub const EQ: SyntaxKind = SyntaxKind { number: 26 };

    pub const BANG: SyntaxKind = SyntaxKind { number: 27 };

    pub const MINUS: SyntaxKind = SyntaxKind { number: 28 };

    pub const DOT2: SyntaxKind = SyntaxKind { number: 29 };

    pub const DOT3: SyntaxKind = SyntaxKind { number: 30 };

    pub const DOT2EQ: SyntaxKind = SyntaxKind { number: 31 };

    pub const COLON2: SyntaxKind = SyntaxKind { number: 32 };

    pub const EQ2: SyntaxKind = SyntaxKind { number: 33 };

    pub const FAT_ARROW: SyntaxKind = SyntaxKind { number: 34 };

    pub const NEQ: SyntaxKind = SyntaxKind { number: 35 };

    pub const THIN_ARROW: SyntaxKind = SyntaxKind { number: 36 };

    pub const LTEQ: SyntaxKind = SyntaxKind { number: 37 };

    pub const GTEQ: SyntaxKind = SyntaxKind { number: 38 };

    pub const PLUSEQ: SyntaxKind = SyntaxKind { number: 39 };

    pub const MINUSEQ: SyntaxKind = SyntaxKind { number: 40 };

    pub const PIPEEQ: SyntaxKind = SyntaxKind { number: 41 };

    pub const AMPEQ: SyntaxKind = SyntaxKind { number: 42 };

    pub const CARETEQ: SyntaxKind = SyntaxKind { number: 43 };

    pub const SLASHEQ: SyntaxKind = SyntaxKind { number: 44 };

    pub const STAREQ: SyntaxKind = SyntaxKind { number: 45 };

    pub const PERCENTEQ: SyntaxKind = SyntaxKind { number: 46 };

    pub const AMP2: SyntaxKind = SyntaxKind { number: 47 };

    pub const PIPE2: SyntaxKind = SyntaxKind { number: 48 };

    pub const SHL: SyntaxKind = SyntaxKind { number: 49 };

    pub const SHR: SyntaxKind = SyntaxKind { number: 50 };

    pub const SHLEQ: SyntaxKind = SyntaxKind { number: 51 };

    pub const SHREQ: SyntaxKind = SyntaxKind { number: 52 };

    pub const AS_KW: SyntaxKind = SyntaxKind { number: 53 };

    pub const BREAK_KW: SyntaxKind = SyntaxKind { number: 54 };

    pub const CONST_KW: SyntaxKind = SyntaxKind { number: 55 };

    pub const CONTINUE_KW: SyntaxKind = SyntaxKind { number: 56 };

    pub const CRATE_KW: SyntaxKind = SyntaxKind { number: 57 };

    pub const ELSE_KW: SyntaxKind = SyntaxKind { number: 58 };

    pub const ENUM_KW: SyntaxKind = SyntaxKind { number: 59 };

    pub const EXTERN_KW: SyntaxKind = SyntaxKind { number: 60 };

    pub const FALSE_KW: SyntaxKind = SyntaxKind { number: 61 };

    pub const FN_KW: SyntaxKind = SyntaxKind { number: 62 };

    pub const FOR_KW: SyntaxKind = SyntaxKind { number: 63 };

    pub const IF_KW: SyntaxKind = SyntaxKind { number: 64 };

    pub const IMPL_KW: SyntaxKind = SyntaxKind { number: 65 };

    pub const IN_KW: SyntaxKind = SyntaxKind { number: 66 };

    pub const LET_KW: SyntaxKind = SyntaxKind { number: 67 };

    pub const LOOP_KW: SyntaxKind = SyntaxKind { number: 68 };

    pub const MATCH_KW: SyntaxKind = SyntaxKind { number: 69 };

    pub const MOD_KW: SyntaxKind = SyntaxKind { number: 70 };

    pub const MOVE_KW: SyntaxKind = SyntaxKind { number: 71 };

    pub const MUT_KW: SyntaxKind = SyntaxKind { number: 72 };

    pub const PUB_KW: SyntaxKind = SyntaxKind { number: 73 };

    pub const REF_KW: SyntaxKind = SyntaxKind { number: 74 };

    pub const RETURN_KW: SyntaxKind = SyntaxKind { number: 75 };

    pub const SELF_KW: SyntaxKind = SyntaxKind { number: 76 };

    pub const SELF_TYPE_KW: SyntaxKind = SyntaxKind { number: 77 };

    pub const STATIC_KW: SyntaxKind = SyntaxKind { number: 78 };

    pub const STRUCT_KW: SyntaxKind = SyntaxKind { number: 79 };

    pub const SUPER_KW: SyntaxKind = SyntaxKind { number: 80 };

    pub const TRAIT_KW: SyntaxKind = SyntaxKind { number: 81 };

    pub const TRUE_KW: SyntaxKind = SyntaxKind { number: 82 };

    pub const TYPE_KW: SyntaxKind = SyntaxKind { number: 83 };

    pub const UNSAFE_KW: SyntaxKind = SyntaxKind { number: 84 };

    pub const USE_KW: SyntaxKind = SyntaxKind { number: 85 };

    pub const WHERE_KW: SyntaxKind = SyntaxKind { number: 86 };

    pub const WHILE_KW: SyntaxKind = SyntaxKind { number: 87 };

    pub const ABSTRACT_KW: SyntaxKind = SyntaxKind { number: 88 };

    pub const BECOME_KW: SyntaxKind = SyntaxKind { number: 89 };

    pub const BOX_KW: SyntaxKind = SyntaxKind { number: 90 };

    pub const DO_KW: SyntaxKind = SyntaxKind { number: 91 };

    pub const FINAL_KW: SyntaxKind = SyntaxKind { number: 92 };

    pub const MACRO_KW: SyntaxKind = SyntaxKind { number: 93 };

    pub const OVERRIDE_KW: SyntaxKind = SyntaxKind { number: 94 };

    pub const PRIV_KW: SyntaxKind = SyntaxKind { number: 95 };

    pub const TYPEOF_KW: SyntaxKind = SyntaxKind { number: 96 };

    pub const UNSIZED_KW: SyntaxKind = SyntaxKind { number: 97 };

    pub const VIRTUAL_KW: SyntaxKind = SyntaxKind { number: 98 };

    pub const YIELD_KW: SyntaxKind = SyntaxKind { number: 99 };

    pub const ASYNC_KW: SyntaxKind = SyntaxKind { number: 100 };

    pub const AWAIT_KW: SyntaxKind = SyntaxKind { number: 101 };

    pub const DYN_KW: SyntaxKind = SyntaxKind { number: 102 };

    pub const TRY_KW: SyntaxKind = SyntaxKind { number: 103 };

    pub const GEN_KW: SyntaxKind = SyntaxKind { number: 104 };

    pub const ASM_KW: SyntaxKind = SyntaxKind { number: 105 };

    pub const ATT_SYNTAX_KW: SyntaxKind = SyntaxKind { number: 106 };

    pub const AUTO_KW: SyntaxKind = SyntaxKind { number: 107 };

    pub const BIKESHED_KW: SyntaxKind = SyntaxKind { number: 108 };

    pub const BUILTIN_KW: SyntaxKind = SyntaxKind { number: 109 };

    pub const CFG_KW: SyntaxKind = SyntaxKind { number: 110 };

    pub const CFG_ATTR_KW: SyntaxKind = SyntaxKind { number: 111 };

    pub const CLOBBER_ABI_KW: SyntaxKind = SyntaxKind { number: 112 };

    pub const DEFAULT_KW: SyntaxKind = SyntaxKind { number: 113 };

    pub const DEREF_KW: SyntaxKind = SyntaxKind { number: 114 };

    pub const FORMAT_ARGS_KW: SyntaxKind = SyntaxKind { number: 115 };

    pub const GLOBAL_ASM_KW: SyntaxKind = SyntaxKind { number: 116 };

    pub const INCLUDE_BYTES_KW: SyntaxKind = SyntaxKind { number: 117 };

    pub const INLATEOUT_KW: SyntaxKind = SyntaxKind { number: 118 };

    pub const INOUT_KW: SyntaxKind = SyntaxKind { number: 119 };

    pub const IS_KW: SyntaxKind = SyntaxKind { number: 120 };

    pub const LABEL_KW: SyntaxKind = SyntaxKind { number: 121 };

    pub const LATEOUT_KW: SyntaxKind = SyntaxKind { number: 122 };

    pub const MACRO_RULES_KW: SyntaxKind = SyntaxKind { number: 123 };

    pub const MAY_UNWIND_KW: SyntaxKind = SyntaxKind { number: 124 };

    pub const NAKED_ASM_KW: SyntaxKind = SyntaxKind { number: 125 };

    pub const NOMEM_KW: SyntaxKind = SyntaxKind { number: 126 };

    pub const NORETURN_KW: SyntaxKind = SyntaxKind { number: 127 };

    pub const NOSTACK_KW: SyntaxKind = SyntaxKind { number: 128 };

    pub const OFFSET_OF_KW: SyntaxKind = SyntaxKind { number: 129 };

    pub const OPTIONS_KW: SyntaxKind = SyntaxKind { number: 130 };

    pub const OUT_KW: SyntaxKind = SyntaxKind { number: 131 };

    pub const PATTERN_TYPE_KW: SyntaxKind = SyntaxKind { number: 132 };

    pub const PRESERVES_FLAGS_KW: SyntaxKind = SyntaxKind { number: 133 };

    pub const PURE_KW: SyntaxKind = SyntaxKind { number: 134 };

    pub const RAW_KW: SyntaxKind = SyntaxKind { number: 135 };

    pub const READONLY_KW: SyntaxKind = SyntaxKind { number: 136 };

    pub const SAFE_KW: SyntaxKind = SyntaxKind { number: 137 };

    pub const SYM_KW: SyntaxKind = SyntaxKind { number: 138 };

    pub const UNION_KW: SyntaxKind = SyntaxKind { number: 139 };

    pub const YEET_KW: SyntaxKind = SyntaxKind { number: 140 };

    pub const INT_NUMBER: SyntaxKind = SyntaxKind { number: 141 };

    pub const FLOAT_NUMBER: SyntaxKind = SyntaxKind { number: 142 };

    pub const CHAR: SyntaxKind = SyntaxKind { number: 143 };

    pub const BYTE: SyntaxKind = SyntaxKind { number: 144 };

    pub const STRING: SyntaxKind = SyntaxKind { number: 145 };

    pub const BYTE_STRING: SyntaxKind = SyntaxKind { number: 146 };

    pub const C_STRING: SyntaxKind = SyntaxKind { number: 147 };

    pub const IDENT: SyntaxKind = SyntaxKind { number: 148 };

    pub const LIFETIME_IDENT: SyntaxKind = SyntaxKind { number: 149 };

    pub const ERROR: SyntaxKind = SyntaxKind { number: 150 };

    pub const WHITESPACE: SyntaxKind = SyntaxKind { number: 151 };

    pub const COMMENT: SyntaxKind = SyntaxKind { number: 152 };

    pub const INNER_DOC_COMMENT: SyntaxKind = SyntaxKind { number: 153 };

    pub const OUTER_DOC_COMMENT: SyntaxKind = SyntaxKind { number: 154 };

    pub const FRONTMATTER: SyntaxKind = SyntaxKind { number: 155 };

    pub const SHEBANG: SyntaxKind = SyntaxKind { number: 156 };

    pub const TOMBSTONE: SyntaxKind = SyntaxKind { number: 157 };

    pub const SOURCE_FILE: SyntaxKind = SyntaxKind { number: 158 };

    pub const MACRO_STMTS: SyntaxKind = SyntaxKind { number: 159 };

    pub const MACRO_ITEMS: SyntaxKind = SyntaxKind { number: 160 };

    pub const NAME: SyntaxKind = SyntaxKind { number: 161 };

    pub const NAME_REF: SyntaxKind = SyntaxKind { number: 162 };

    pub const LIFETIME: SyntaxKind = SyntaxKind { number: 163 };

    pub const VISIBILITY: SyntaxKind = SyntaxKind { number: 164 };

    pub const VISIBILITY_INNER: SyntaxKind = SyntaxKind { number: 165 };

    pub const RENAME: SyntaxKind = SyntaxKind { number: 166 };

    pub const ABI: SyntaxKind = SyntaxKind { number: 167 };

    pub const RET_TYPE: SyntaxKind = SyntaxKind { number: 168 };

    pub const PATH: SyntaxKind = SyntaxKind { number: 169 };

    pub const PATH_SEGMENT: SyntaxKind = SyntaxKind { number: 170 };

    pub const TYPE_ANCHOR: SyntaxKind = SyntaxKind { number: 171 };

    pub const RETURN_TYPE_SYNTAX: SyntaxKind = SyntaxKind { number: 172 };

    pub const PARENTHESIZED_ARG_LIST: SyntaxKind = SyntaxKind { number: 173 };

    pub const LET_STMT: SyntaxKind = SyntaxKind { number: 174 };

    pub const EXPR_STMT: SyntaxKind = SyntaxKind { number: 175 };

    pub const LET_ELSE: SyntaxKind = SyntaxKind { number: 176 };

    pub const STMT_LIST: SyntaxKind = SyntaxKind { number: 177 };

    pub const BLOCK_EXPR: SyntaxKind = SyntaxKind { number: 178 };

    pub const LABEL: SyntaxKind = SyntaxKind { number: 179 };

    pub const TRY_BLOCK_MODIFIER: SyntaxKind = SyntaxKind { number: 180 };

    pub const RANGE_EXPR: SyntaxKind = SyntaxKind { number: 181 };

    pub const BIN_EXPR: SyntaxKind = SyntaxKind { number: 182 };

    pub const REF_EXPR: SyntaxKind = SyntaxKind { number: 183 };

    pub const PREFIX_EXPR: SyntaxKind = SyntaxKind { number: 184 };

    pub const CALL_EXPR: SyntaxKind = SyntaxKind { number: 185 };

    pub const INDEX_EXPR: SyntaxKind = SyntaxKind { number: 186 };

    pub const METHOD_CALL_EXPR: SyntaxKind = SyntaxKind { number: 187 };

    pub const FIELD_EXPR: SyntaxKind = SyntaxKind { number: 188 };

    pub const AWAIT_EXPR: SyntaxKind = SyntaxKind { number: 189 };

    pub const TRY_EXPR: SyntaxKind = SyntaxKind { number: 190 };

    pub const CAST_EXPR: SyntaxKind = SyntaxKind { number: 191 };

    pub const ARG_LIST: SyntaxKind = SyntaxKind { number: 192 };

    pub const RECORD_EXPR: SyntaxKind = SyntaxKind { number: 193 };

    pub const RECORD_EXPR_FIELD: SyntaxKind = SyntaxKind { number: 194 };

    pub const RECORD_EXPR_FIELD_LIST: SyntaxKind = SyntaxKind { number: 195 };

    pub const MACRO_CALL: SyntaxKind = SyntaxKind { number: 196 };

    pub const MACRO_EXPR: SyntaxKind = SyntaxKind { number: 197 };

    pub const PATH_EXPR: SyntaxKind = SyntaxKind { number: 198 };

    pub const LITERAL: SyntaxKind = SyntaxKind { number: 199 };

    pub const UNDERSCORE_EXPR: SyntaxKind = SyntaxKind { number: 200 };

    pub const PAREN_EXPR: SyntaxKind = SyntaxKind { number: 201 };

    pub const TUPLE_EXPR: SyntaxKind = SyntaxKind { number: 202 };

    pub const ARRAY_EXPR: SyntaxKind = SyntaxKind { number: 203 };

    pub const CLOSURE_EXPR: SyntaxKind = SyntaxKind { number: 204 };

    pub const IF_EXPR: SyntaxKind = SyntaxKind { number: 205 };

    pub const LOOP_EXPR: SyntaxKind = SyntaxKind { number: 206 };

    pub const WHILE_EXPR: SyntaxKind = SyntaxKind { number: 207 };

    pub const FOR_EXPR: SyntaxKind = SyntaxKind { number: 208 };

    pub const LET_EXPR: SyntaxKind = SyntaxKind { number: 209 };

    pub const MATCH_EXPR: SyntaxKind = SyntaxKind { number: 210 };

    pub const MATCH_ARM_LIST: SyntaxKind = SyntaxKind { number: 211 };

    pub const MATCH_ARM: SyntaxKind = SyntaxKind { number: 212 };

    pub const MATCH_GUARD: SyntaxKind = SyntaxKind { number: 213 };

    pub const RETURN_EXPR: SyntaxKind = SyntaxKind { number: 214 };

    pub const BECOME_EXPR: SyntaxKind = SyntaxKind { number: 215 };

    pub const YIELD_EXPR: SyntaxKind = SyntaxKind { number: 216 };

    pub const YEET_EXPR: SyntaxKind = SyntaxKind { number: 217 };

    pub const CONTINUE_EXPR: SyntaxKind = SyntaxKind { number: 218 };

    pub const BREAK_EXPR: SyntaxKind = SyntaxKind { number: 219 };

    pub const OFFSET_OF_EXPR: SyntaxKind = SyntaxKind { number: 220 };

    pub const FORMAT_ARGS_EXPR: SyntaxKind = SyntaxKind { number: 221 };

    pub const FORMAT_ARGS_ARG: SyntaxKind = SyntaxKind { number: 222 };

    pub const INCLUDE_BYTES_EXPR: SyntaxKind = SyntaxKind { number: 223 };

    pub const CFG_PRED_EXPR: SyntaxKind = SyntaxKind { number: 224 };

    pub const ASM_EXPR: SyntaxKind = SyntaxKind { number: 225 };

    pub const ASM_CLOBBER_ABI: SyntaxKind = SyntaxKind { number: 226 };

    pub const ASM_OPTIONS: SyntaxKind = SyntaxKind { number: 227 };

    pub const ASM_OPTION: SyntaxKind = SyntaxKind { number: 228 };

    pub const ASM_DIR_SPEC: SyntaxKind = SyntaxKind { number: 229 };

    pub const ASM_OPERAND_EXPR: SyntaxKind = SyntaxKind { number: 230 };

    pub const ASM_REG_OPERAND: SyntaxKind = SyntaxKind { number: 231 };

    pub const ASM_OPERAND_NAMED: SyntaxKind = SyntaxKind { number: 232 };

    pub const ASM_LABEL: SyntaxKind = SyntaxKind { number: 233 };

    pub const ASM_CONST: SyntaxKind = SyntaxKind { number: 234 };

    pub const ASM_SYM: SyntaxKind = SyntaxKind { number: 235 };

    pub const ASM_REG_SPEC: SyntaxKind = SyntaxKind { number: 236 };

    pub const MODULE: SyntaxKind = SyntaxKind { number: 237 };

    pub const ITEM_LIST: SyntaxKind = SyntaxKind { number: 238 };

    pub const EXTERN_CRATE: SyntaxKind = SyntaxKind { number: 239 };

    pub const EXTERN_BLOCK: SyntaxKind = SyntaxKind { number: 240 };

    pub const EXTERN_ITEM_LIST: SyntaxKind = SyntaxKind { number: 241 };

    pub const IMPL_RESTRICTION: SyntaxKind = SyntaxKind { number: 242 };

    pub const MUT_RESTRICTION: SyntaxKind = SyntaxKind { number: 243 };

    pub const TYPE_ALIAS: SyntaxKind = SyntaxKind { number: 244 };

    pub const MACRO_RULES: SyntaxKind = SyntaxKind { number: 245 };

    pub const MACRO_DEF: SyntaxKind = SyntaxKind { number: 246 };

    pub const FN: SyntaxKind = SyntaxKind { number: 247 };

    pub const TOKEN_TREE: SyntaxKind = SyntaxKind { number: 248 };

    pub const STRUCT: SyntaxKind = SyntaxKind { number: 249 };

    pub const UNION: SyntaxKind = SyntaxKind { number: 250 };

    pub const ENUM: SyntaxKind = SyntaxKind { number: 251 };

    pub const VARIANT_LIST: SyntaxKind = SyntaxKind { number: 252 };

    pub const VARIANT: SyntaxKind = SyntaxKind { number: 253 };

    pub const RECORD_FIELD_LIST: SyntaxKind = SyntaxKind { number: 254 };

    pub const RECORD_FIELD: SyntaxKind = SyntaxKind { number: 255 };

    pub const TUPLE_FIELD_LIST: SyntaxKind = SyntaxKind { number: 256 };

    pub const TUPLE_FIELD: SyntaxKind = SyntaxKind { number: 257 };

    pub const CONST: SyntaxKind = SyntaxKind { number: 258 };

    pub const STATIC: SyntaxKind = SyntaxKind { number: 259 };

    pub const TRAIT: SyntaxKind = SyntaxKind { number: 260 };

    pub const IMPL: SyntaxKind = SyntaxKind { number: 261 };

    pub const ASSOC_ITEM_LIST: SyntaxKind = SyntaxKind { number: 262 };

    pub const USE: SyntaxKind = SyntaxKind { number: 263 };

    pub const USE_TREE: SyntaxKind = SyntaxKind { number: 264 };

    pub const USE_TREE_LIST: SyntaxKind = SyntaxKind { number: 265 };

    pub const PARAM_LIST: SyntaxKind = SyntaxKind { number: 266 };

    pub const PARAM: SyntaxKind = SyntaxKind { number: 267 };

    pub const SELF_PARAM: SyntaxKind = SyntaxKind { number: 268 };

    pub const OR_PAT: SyntaxKind = SyntaxKind { number: 269 };

    pub const RANGE_PAT: SyntaxKind = SyntaxKind { number: 270 };

    pub const REST_PAT: SyntaxKind = SyntaxKind { number: 271 };

    pub const DEREF_PAT: SyntaxKind = SyntaxKind { number: 272 };

    pub const CFG_PRED_PAT: SyntaxKind = SyntaxKind { number: 273 };

    pub const LITERAL_PAT: SyntaxKind = SyntaxKind { number: 274 };

    pub const TUPLE_STRUCT_PAT: SyntaxKind = SyntaxKind { number: 275 };

    pub const RECORD_PAT: SyntaxKind = SyntaxKind { number: 276 };

    pub const RECORD_PAT_FIELD_LIST: SyntaxKind = SyntaxKind { number: 277 };

    pub const RECORD_PAT_FIELD: SyntaxKind = SyntaxKind { number: 278 };

    pub const MACRO_PAT: SyntaxKind = SyntaxKind { number: 279 };

    pub const PATH_PAT: SyntaxKind = SyntaxKind { number: 280 };

    pub const WILDCARD_PAT: SyntaxKind = SyntaxKind { number: 281 };

    pub const REF_PAT: SyntaxKind = SyntaxKind { number: 282 };

    pub const NOT_NULL: SyntaxKind = SyntaxKind { number: 283 };

    pub const PAREN_PAT: SyntaxKind = SyntaxKind { number: 284 };

    pub const TUPLE_PAT: SyntaxKind = SyntaxKind { number: 285 };

    pub const SLICE_PAT: SyntaxKind = SyntaxKind { number: 286 };

    pub const IDENT_PAT: SyntaxKind = SyntaxKind { number: 287 };

    pub const BOX_PAT: SyntaxKind = SyntaxKind { number: 288 };

    pub const CONST_BLOCK_PAT: SyntaxKind = SyntaxKind { number: 289 };

    pub const PAREN_TYPE: SyntaxKind = SyntaxKind { number: 290 };

    pub const TUPLE_TYPE: SyntaxKind = SyntaxKind { number: 291 };

    pub const NEVER_TYPE: SyntaxKind = SyntaxKind { number: 292 };

    pub const PTR_TYPE: SyntaxKind = SyntaxKind { number: 293 };

    pub const SLICE_TYPE: SyntaxKind = SyntaxKind { number: 294 };

    pub const ARRAY_TYPE: SyntaxKind = SyntaxKind { number: 295 };

    pub const REF_TYPE: SyntaxKind = SyntaxKind { number: 296 };

    pub const INFER_TYPE: SyntaxKind = SyntaxKind { number: 297 };

    pub const FN_PTR_TYPE: SyntaxKind = SyntaxKind { number: 298 };

    pub const FOR_BINDER: SyntaxKind = SyntaxKind { number: 299 };

    pub const FOR_TYPE: SyntaxKind = SyntaxKind { number: 300 };

    pub const IMPL_TRAIT_TYPE: SyntaxKind = SyntaxKind { number: 301 };

    pub const DYN_TRAIT_TYPE: SyntaxKind = SyntaxKind { number: 302 };

    pub const MACRO_TYPE: SyntaxKind = SyntaxKind { number: 303 };

    pub const PATH_TYPE: SyntaxKind = SyntaxKind { number: 304 };

    pub const PATTERN_TYPE: SyntaxKind = SyntaxKind { number: 305 };

    pub const TYPE_BOUND: SyntaxKind = SyntaxKind { number: 306 };

    pub const TYPE_BOUND_LIST: SyntaxKind = SyntaxKind { number: 307 };

    pub const GENERIC_ARG_LIST: SyntaxKind = SyntaxKind { number: 308 };

    pub const TYPE_ARG: SyntaxKind = SyntaxKind { number: 309 };

    pub const LIFETIME_ARG: SyntaxKind = SyntaxKind { number: 310 };

    pub const CONST_ARG: SyntaxKind = SyntaxKind { number: 311 };

    pub const ASSOC_TYPE_ARG: SyntaxKind = SyntaxKind { number: 312 };

    pub const USE_BOUND_GENERIC_ARGS: SyntaxKind = SyntaxKind { number: 313 };

    pub const GENERIC_PARAM_LIST: SyntaxKind = SyntaxKind { number: 314 };

    pub const LIFETIME_PARAM: SyntaxKind = SyntaxKind { number: 315 };

    pub const TYPE_PARAM: SyntaxKind = SyntaxKind { number: 316 };

    pub const CONST_PARAM: SyntaxKind = SyntaxKind { number: 317 };

    pub const WHERE_CLAUSE: SyntaxKind = SyntaxKind { number: 318 };

    pub const WHERE_PRED: SyntaxKind = SyntaxKind { number: 319 };

    pub const DOC_COMMENT: SyntaxKind = SyntaxKind { number: 320 };

    pub const ATTR: SyntaxKind = SyntaxKind { number: 321 };

    pub const UNSAFE_META: SyntaxKind = SyntaxKind { number: 322 };

    pub const CFG_ATTR_META: SyntaxKind = SyntaxKind { number: 323 };

    pub const CFG_META: SyntaxKind = SyntaxKind { number: 324 };

    pub const CFG_ATOM: SyntaxKind = SyntaxKind { number: 325 };

    pub const CFG_COMPOSITE: SyntaxKind = SyntaxKind { number: 326 };

    pub const KEY_VALUE_META: SyntaxKind = SyntaxKind { number: 327 };

    pub const TOKEN_TREE_META: SyntaxKind = SyntaxKind { number: 328 };

    pub const PATH_META: SyntaxKind = SyntaxKind { number: 329 };
}
