//! Items.
ghost use Rattle.std.specs.Prelude.{ℕ, ◌≡◌, IfOk, OnOk, Some, true, ◌&&◌, not, [], ◌∷◌};
ghost use Rattle.rap_base.specs.TokenKind.{EOF, L_CURLY, R_CURLY, POUND, EXTERN_KW, CONST_KW, STATIC_KW, UNION_KW, MACRO_RULES_KW, BUILTIN_KW, GLOBAL_ASM_KW};
ghost use Rattle.rap_events.specs.Record.{contextual_at};
ghost use Rattle.rap_events.specs.State.{state, next, ReadsAs, NthAt};
ghost use Rattle.rap_grammar_scripts.specs.First.{one_of};
ghost use Rattle.rap_grammar_frame.specs.Grew.{Within};
ghost use Rattle.rap_grammar_scripts.specs.Items as script;
ghost use Rattle.rap_grammar_items.specs.ItemEnds.{of_item, HandsBack};
ghost use Rattle.rap_grammar_facts.specs.Alone.{ExecutesAlone};
ghost use Rattle.rap_grammar_scripts.specs.Exec.{Does, Executes};
ghost use Rattle.rap_grammar_scripts.specs.Script.{something};
ghost use Rattle.rap_grammar_scripts.specs.Test.{holds};
ghost use Rattle.rap_grammar_scripts.specs.Words.{next_is};

use rap_base::T;
use rap_base::no_memory::NoMemory;
use rap_base::syntax_kind::SyntaxKind;
use rap_events::parser::{Marker, Parser};
use rap_grammar_attributes::attributes::outer_attrs;
use rap_grammar_expressions_blocks::blocks::{error_block, error_let_stmt};
use rap_grammar_expressions_builtin::asm::parse_asm_expr;
use rap_grammar_frame::first::is_use_path_start;
use rap_grammar_frame::knot::Grammar;
use rap_grammar_frame::names::starts_builtin;
use rap_grammar_items_adt::adt::{enum_, strukt, union};
use rap_grammar_items_kinds::consts::{konst, static_};
use rap_grammar_items_kinds::functions::fn_;
use rap_grammar_items_kinds::macros::{macro_call, macro_def, macro_rules};
use rap_grammar_items_kinds::modifiers::modifiers;
use rap_grammar_items_kinds::modules::{extern_crate, extern_item_list, mod_item, type_item};
use rap_grammar_items_kinds::traits::{impl_, trait_};
use rap_grammar_items_kinds::use_item::use_;
use rap_grammar_paths::paths::use_path;
use rap_grammar_paths::visibility::opt_visibility;

/// An item from the newest marker on, if one comes next, and `None`; else the marker is handed back.
#[tactic(auto, using(rap_grammar_facts::proofs::Items::fewer_opt_item_without_modifiers), unfolding(rap_grammar_scripts::specs::Items::opt_item))]
pub fn opt_item<G: Grammar>(
    p: &mut Parser<'_>,
    g: &G,
    m: Marker,
    is_in_extern: bool,
) -> Result<Option<Marker>, NoMemory>
    requires within { Within G.valid G.left g.now p.old }
    requires newest { (state p.old).marker ≡ Some m.pos.value }
    ensures newest { IfOk result (HandsBack (state p.new)) }
    ensures script { IfOk result
        (λ item. Does (G.left g.now) (script.opt_item is_in_extern) (of_item item) (state p.old) (state p.new)) }
{
    let has_visibility = opt_visibility(p, g, false)?;
    match opt_item_without_modifiers(p, g, m)? {
        None => Ok(None),
        Some(m) => {
            let item = opt_modified_item(p, g, m, has_visibility, is_in_extern)?;
            Ok(item)
        }
    }
}

/// An item from its modifiers on, if one comes next; else the marker is handed back, unless something stood before it.
#[tactic(auto, using(rap_grammar_frame::proofs::Done::less_left, rap_grammar_frame::proofs::Done::marker_kept, rap_grammar_facts::proofs::Modifiers::level_modifiers), unfolding(rap_grammar_scripts::specs::Items::opt_modified_item))]
fn opt_modified_item<G: Grammar>(
    p: &mut Parser<'_>,
    g: &G,
    m: Marker,
    has_visibility: bool,
    is_in_extern: bool,
) -> Result<Option<Marker>, NoMemory>
    requires within { Within G.valid G.left g.now p.old }
    requires newest { (state p.old).marker ≡ Some m.pos.value }
    ensures newest { IfOk result (HandsBack (state p.new)) }
    ensures script { IfOk result
        (λ item. Does (G.left g.now) (script.opt_modified_item has_visibility is_in_extern) (of_item item) (state p.old)
        (state p.new)) }
{
    let found = modifiers(p, g, is_in_extern)?;
    match opt_item_with_modifiers(p, g, m, found.has_extern)? {
        None => Ok(None),
        Some(m) => {
            let item = refuse(p, m, has_visibility, found.has_mods)?;
            Ok(item)
        }
    }
}

/// Reports what stands before an item where none follows; else the marker is handed back.
#[tactic(auto, unfolding(rap_grammar_scripts::specs::Items::refuse))]
fn refuse(
    p: &mut Parser<'_>,
    m: Marker,
    has_visibility: bool,
    has_mods: bool,
) -> Result<Option<Marker>, NoMemory>
    requires newest { (state p.old).marker ≡ Some m.pos.value }
    ensures newest { IfOk result (HandsBack (state p.new)) }
    ensures script { IfOk result
        (λ item. (depth : ℕ) → Does depth (script.refuse has_visibility has_mods) (of_item item) (state p.old)
        (state p.new)) }
{
    if has_mods {
        p.error("expected fn, trait or impl")?;
        m.complete(p, SyntaxKind::ERROR)?;
        return Ok(None);
    }
    if has_visibility {
        p.error("expected an item")?;
        m.complete(p, SyntaxKind::ERROR)?;
        return Ok(None);
    }
    Ok(Some(m))
}

/// An item that begins with a keyword of its own, or with a name that is read as one.
#[tactic(auto, unfolding(rap_grammar_scripts::specs::Items::opt_item_without_modifiers))]
fn opt_item_without_modifiers<G: Grammar>(
    p: &mut Parser<'_>,
    g: &G,
    m: Marker,
) -> Result<Option<Marker>, NoMemory>
    requires within { Within G.valid G.left g.now p.old }
    requires newest { (state p.old).marker ≡ Some m.pos.value }
    ensures newest { IfOk result (HandsBack (state p.new)) }
    ensures script { IfOk result
        (λ item. Does (G.left g.now) script.opt_item_without_modifiers (of_item item) (state p.old) (state p.new)) }
{
    match p.current() {
        T![extern] => opt_extern_crate(p, m),
        T![use] => {
            use_(p, g, m)?;
            Ok(None)
        }
        T![mod] => {
            mod_item(p, g, m)?;
            Ok(None)
        }
        T![type] => {
            type_item(p, g, m)?;
            Ok(None)
        }
        T![struct] => {
            strukt(p, g, m)?;
            Ok(None)
        }
        T![enum] => {
            enum_(p, g, m)?;
            Ok(None)
        }
        T![macro] => {
            macro_def(p, m)?;
            Ok(None)
        }
        T![const] => opt_named_const(p, g, m),
        T![static] => opt_static(p, g, m),
        T![ident] => opt_item_by_name(p, g, m),
        _ => Ok(Some(m)),
    }
}

/// A crate's name, as `extern crate a;`, if `crate` follows.
#[tactic(auto, unfolding(rap_grammar_scripts::specs::Items::opt_extern_crate))]
fn opt_extern_crate(p: &mut Parser<'_>, m: Marker) -> Result<Option<Marker>, NoMemory>
    requires newest { (state p.old).marker ≡ Some m.pos.value }
    requires here { next (state p.old) ≡ EXTERN_KW }
    ensures newest { IfOk result (HandsBack (state p.new)) }
    ensures script { IfOk result
        (λ item. (depth : ℕ) → Does depth script.opt_extern_crate (of_item item) (state p.old) (state p.new)) }
{
    if !p.nth_at(1, T![crate]) {
        return Ok(Some(m));
    }
    extern_crate(p, m)?;
    Ok(None)
}

/// Whether what may stand after the keyword of a constant or a static does so.
fn is_named(p: &Parser<'_>) -> bool
    ensures { result ≡ holds script.is_named (state p.now).rest }
{
    matches!(p.nth(1), T![ident] | T![_] | T![mut])
}

/// A constant, if its name follows.
#[tactic(auto, unfolding(rap_grammar_scripts::specs::Items::opt_named_const))]
fn opt_named_const<G: Grammar>(
    p: &mut Parser<'_>,
    g: &G,
    m: Marker,
) -> Result<Option<Marker>, NoMemory>
    requires within { Within G.valid G.left g.now p.old }
    requires newest { (state p.old).marker ≡ Some m.pos.value }
    requires here { next (state p.old) ≡ CONST_KW }
    ensures newest { IfOk result (HandsBack (state p.new)) }
    ensures script { IfOk result
        (λ item. Does (G.left g.now) script.opt_named_const (of_item item) (state p.old) (state p.new)) }
{
    if !is_named(p) {
        return Ok(Some(m));
    }
    konst(p, g, m)?;
    Ok(None)
}

/// A constant after modifiers, if its `const` begins no block.
#[tactic(auto, unfolding(rap_grammar_scripts::specs::Items::opt_const))]
fn opt_const<G: Grammar>(p: &mut Parser<'_>, g: &G, m: Marker) -> Result<Option<Marker>, NoMemory>
    requires within { Within G.valid G.left g.now p.old }
    requires newest { (state p.old).marker ≡ Some m.pos.value }
    requires here { next (state p.old) ≡ CONST_KW }
    ensures newest { IfOk result (HandsBack (state p.new)) }
    ensures script { IfOk result
        (λ item. Does (G.left g.now) script.opt_const (of_item item) (state p.old) (state p.new)) }
{
    if p.nth(1) == T!['{'] {
        return Ok(Some(m));
    }
    konst(p, g, m)?;
    Ok(None)
}

/// A static, if its name follows.
#[tactic(auto, unfolding(rap_grammar_scripts::specs::Items::opt_static))]
fn opt_static<G: Grammar>(p: &mut Parser<'_>, g: &G, m: Marker) -> Result<Option<Marker>, NoMemory>
    requires within { Within G.valid G.left g.now p.old }
    requires newest { (state p.old).marker ≡ Some m.pos.value }
    requires here { next (state p.old) ≡ STATIC_KW }
    ensures newest { IfOk result (HandsBack (state p.new)) }
    ensures script { IfOk result
        (λ item. Does (G.left g.now) script.opt_static (of_item item) (state p.old) (state p.new)) }
{
    if !is_named(p) {
        return Ok(Some(m));
    }
    static_(p, g, m)?;
    Ok(None)
}

/// Whether a `union` comes next that is read as the keyword.
fn starts_union(p: &Parser<'_>) -> bool
    ensures here { result ≡ holds script.starts_union (state p.now).rest }
    ensures bears { result ≡ true → ReadsAs (state p.now) UNION_KW }
{
    p.at_contextual_kw(T![union]) && p.nth(1) == T![ident]
}

/// Whether a `macro_rules` comes next that is read as the keyword.
fn starts_macro_rules(p: &Parser<'_>) -> bool
    ensures here { result ≡ holds script.starts_macro_rules (state p.now).rest }
    ensures bears { result ≡ true → ReadsAs (state p.now) MACRO_RULES_KW }
{
    p.at_contextual_kw(T![macro_rules]) && p.nth_at(1, T![!]) && p.nth_at(2, T![ident])
}

/// Whether `builtin#global_asm` comes next.
fn starts_global_asm(p: &Parser<'_>) -> bool
    ensures here { result ≡ holds script.starts_global_asm (state p.now).rest }
    ensures bears { result ≡ true → ReadsAs (state p.now) BUILTIN_KW }
    ensures pound { result ≡ true → NthAt (state p.now) 1 POUND }
    ensures more { result ≡ true → contextual_at (state p.now).rest 2 ≡ GLOBAL_ASM_KW }
{
    starts_builtin(p) && p.nth_at_contextual_kw(2, T![global_asm])
}

/// An item that begins with a name that is read as a keyword, as `union`.
#[tactic(auto, unfolding(rap_grammar_scripts::specs::Items::opt_item_by_name))]
fn opt_item_by_name<G: Grammar>(
    p: &mut Parser<'_>,
    g: &G,
    m: Marker,
) -> Result<Option<Marker>, NoMemory>
    requires within { Within G.valid G.left g.now p.old }
    requires newest { (state p.old).marker ≡ Some m.pos.value }
    ensures newest { IfOk result (HandsBack (state p.new)) }
    ensures script { IfOk result
        (λ item. Does (G.left g.now) script.opt_item_by_name (of_item item) (state p.old) (state p.new)) }
{
    if starts_union(p) {
        union(p, g, m)?;
        return Ok(None);
    }
    if starts_macro_rules(p) {
        macro_rules(p, m)?;
        return Ok(None);
    }
    if starts_global_asm(p) {
        global_asm(p, g, m)?;
        return Ok(None);
    }
    Ok(Some(m))
}

/// Assembly in the place of an item, as `builtin#global_asm("")`.
#[tactic(auto, unfolding(rap_grammar_scripts::specs::Items::global_asm))]
fn global_asm<G: Grammar>(p: &mut Parser<'_>, g: &G, m: Marker) -> Result<(), NoMemory>
    requires within { Within G.valid G.left g.now p.old }
    requires newest { (state p.old).marker ≡ Some m.pos.value }
    requires bears { ReadsAs (state p.old) BUILTIN_KW }
    requires pound { NthAt (state p.old) 1 POUND }
    requires more { contextual_at (state p.old).rest 2 ≡ GLOBAL_ASM_KW }
    ensures script { OnOk result (Executes (G.left g.now) script.global_asm p.old p.new) }
{
    p.bump_remap(T![builtin])?;
    p.bump(T![#])?;
    p.eat_contextual_kw(T![global_asm])?;
    parse_asm_expr(p, g, m)?;
    Ok(())
}

/// An item after its modifiers, if one comes next; else the marker is handed back.
#[tactic(auto, unfolding(rap_grammar_scripts::specs::Items::opt_item_with_modifiers))]
fn opt_item_with_modifiers<G: Grammar>(
    p: &mut Parser<'_>,
    g: &G,
    m: Marker,
    has_extern: bool,
) -> Result<Option<Marker>, NoMemory>
    requires within { Within G.valid G.left g.now p.old }
    requires newest { (state p.old).marker ≡ Some m.pos.value }
    ensures newest { IfOk result (HandsBack (state p.new)) }
    ensures script { IfOk result
        (λ item. Does (G.left g.now) (script.opt_item_with_modifiers has_extern) (of_item item) (state p.old)
        (state p.new)) }
{
    match p.current() {
        T![fn] => {
            fn_(p, g, m)?;
            Ok(None)
        }
        T![const] => opt_const(p, g, m),
        T![static] => opt_static(p, g, m),
        T![trait] => {
            trait_(p, g, m)?;
            Ok(None)
        }
        T![impl] => {
            impl_(p, g, m)?;
            Ok(None)
        }
        T![type] => {
            type_item(p, g, m)?;
            Ok(None)
        }
        T!['{'] => opt_extern_block(p, g, m, has_extern),
        _ => Ok(Some(m)),
    }
}

/// A block of foreign items after its ABI, as the `{}` of `extern {}`.
#[tactic(auto, using(rap_grammar_facts::proofs::Modules::took_extern_item_list), unfolding(rap_grammar_scripts::specs::Items::opt_extern_block))]
fn opt_extern_block<G: Grammar>(
    p: &mut Parser<'_>,
    g: &G,
    m: Marker,
    has_extern: bool,
) -> Result<Option<Marker>, NoMemory>
    requires within { Within G.valid G.left g.now p.old }
    requires newest { (state p.old).marker ≡ Some m.pos.value }
    requires here { next (state p.old) ≡ L_CURLY }
    ensures newest { IfOk result (HandsBack (state p.new)) }
    ensures script { IfOk result
        (λ item. Does (G.left g.now) (script.opt_extern_block has_extern) (of_item item) (state p.old) (state p.new)) }
{
    if !has_extern {
        return Ok(Some(m));
    }
    extern_item_list(p, g)?;
    m.complete(p, SyntaxKind::EXTERN_BLOCK)?;
    Ok(None)
}

/// An item, or a macro call in its place. Where neither begins, that is reported, and the next token is taken into an
/// `ERROR`, unless none is left or a brace ends the list of items.
#[tactic(auto, unfolding(rap_grammar_scripts::specs::Items::item_or_macro))]
pub fn item_or_macro<G: Grammar>(
    p: &mut Parser<'_>,
    g: &G,
    stop_on_r_curly: bool,
    is_in_extern: bool,
) -> Result<(), NoMemory>
    requires within { Within G.valid G.left g.now p.old }
    ensures script { OnOk result
        (Executes (G.left g.now) (script.item_or_macro stop_on_r_curly is_in_extern) p.old p.new) }
{
    let m = p.start()?;
    outer_attrs(p, g)?;
    marked_item(p, g, m, stop_on_r_curly, is_in_extern)?;
    Ok(())
}

/// An item after its attributes, or what stands in its place.
#[tactic(auto, using(rap_grammar_facts::proofs::Items::fewer_opt_item), unfolding(rap_grammar_scripts::specs::Items::marked_item))]
fn marked_item<G: Grammar>(
    p: &mut Parser<'_>,
    g: &G,
    m: Marker,
    stop_on_r_curly: bool,
    is_in_extern: bool,
) -> Result<(), NoMemory>
    requires within { Within G.valid G.left g.now p.old }
    requires newest { (state p.old).marker ≡ Some m.pos.value }
    ensures script { OnOk result
        (Executes (G.left g.now) (script.marked_item stop_on_r_curly is_in_extern) p.old p.new) }
{
    match opt_item(p, g, m, is_in_extern)? {
        None => {
            after_item(p)?;
            Ok(())
        }
        Some(m) => {
            macro_or_error(p, g, m, stop_on_r_curly)?;
            Ok(())
        }
    }
}

/// A semicolon after an item, which is taken into an `ERROR`.
#[tactic(auto, unfolding(rap_grammar_scripts::specs::Items::after_item))]
fn after_item(p: &mut Parser<'_>) -> Result<(), NoMemory>
    ensures script { OnOk result (ExecutesAlone script.after_item p.old p.new) }
{
    if !p.at(T![;]) {
        return Ok(());
    }
    p.err_and_bump("expected item, found `;`\nconsider removing this semicolon")?;
    Ok(())
}

/// A macro call in the place of an item; where neither begins, that is reported.
#[tactic(auto, unfolding(rap_grammar_scripts::specs::Items::macro_or_error))]
fn macro_or_error<G: Grammar>(
    p: &mut Parser<'_>,
    g: &G,
    m: Marker,
    stop_on_r_curly: bool,
) -> Result<(), NoMemory>
    requires within { Within G.valid G.left g.now p.old }
    requires newest { (state p.old).marker ≡ Some m.pos.value }
    ensures script { OnOk result (Executes (G.left g.now) (script.macro_or_error stop_on_r_curly) p.old p.new) }
{
    if is_use_path_start(p) {
        path_item(p, g, m)?;
        return Ok(());
    }
    m.abandon(p)?;
    missing_item(p, g, stop_on_r_curly)?;
    Ok(())
}

/// A macro call from its path on, or a path alone, which is no item.
#[tactic(auto, using(rap_grammar_facts::proofs::Paths::fewer_use_path, rap_grammar_facts::proofs::Paths::marker_use_path), unfolding(rap_grammar_scripts::specs::Items::path_item))]
fn path_item<G: Grammar>(p: &mut Parser<'_>, g: &G, m: Marker) -> Result<(), NoMemory>
    requires within { Within G.valid G.left g.now p.old }
    requires newest { (state p.old).marker ≡ Some m.pos.value }
    ensures script { OnOk result (Executes (G.left g.now) script.path_item p.old p.new) }
{
    use_path(p, g)?;
    if p.at(T![!]) {
        macro_call(p, m)?;
        return Ok(());
    }
    m.complete(p, SyntaxKind::ERROR)?;
    p.error("expected an item")?;
    Ok(())
}

/// Reports that no item begins, with what comes next in an `ERROR`.
#[tactic(auto, unfolding(rap_grammar_scripts::specs::Items::missing_item))]
fn missing_item<G: Grammar>(
    p: &mut Parser<'_>,
    g: &G,
    stop_on_r_curly: bool,
) -> Result<(), NoMemory>
    requires within { Within G.valid G.left g.now p.old }
    ensures script { OnOk result (Executes (G.left g.now) (script.missing_item stop_on_r_curly) p.old p.new) }
{
    if p.current() == T!['{'] {
        error_block(p, g, "expected an item")?;
        return Ok(());
    }
    if is_unmatched(p, stop_on_r_curly) {
        unmatched_brace(p)?;
        return Ok(());
    }
    if is_at_end(p) {
        p.error("expected an item")?;
        return Ok(());
    }
    if p.current() == T![let] {
        error_let_stmt(p, g, "expected an item")?;
        return Ok(());
    }
    p.err_and_bump("expected an item")?;
    Ok(())
}

/// Whether a brace comes next that closes nothing.
fn is_unmatched(p: &Parser<'_>, stop_on_r_curly: bool) -> bool
    ensures here { result ≡ holds (next_is R_CURLY) (state p.now).rest && not stop_on_r_curly }
    ensures more { result ≡ true → next (state p.now) ≡ R_CURLY }
{
    p.current() == T!['}'] && !stop_on_r_curly
}

/// Whether no token is left, or a brace comes next.
fn is_at_end(p: &Parser<'_>) -> bool
    ensures here { result ≡ one_of (EOF ∷ R_CURLY ∷ []) (next (state p.now)) }
{
    matches!(p.current(), SyntaxKind::EOF | T!['}'])
}

/// A brace that closes nothing, in an `ERROR`.
#[tactic(auto, unfolding(rap_grammar_scripts::specs::Items::unmatched_brace))]
fn unmatched_brace(p: &mut Parser<'_>) -> Result<(), NoMemory>
    requires here { next (state p.old) ≡ R_CURLY }
    ensures script { OnOk result ((depth : ℕ) → Executes depth script.unmatched_brace p.old p.new) }
{
    let m = p.start()?;
    p.error("unmatched `}`")?;
    p.bump(T!['}'])?;
    m.complete(p, SyntaxKind::ERROR)?;
    Ok(())
}
