//! Inline assembly.
//! In the Rust crate: `grammar/expressions/atom.rs`.
ghost use Rattle.std.specs.Prelude.{◌≡◌, ◌<◌, IfOk, OnOk, IsTrue, Some, true, false, if◌then◌else◌};
ghost use Rattle.rap_base.specs.Keyword.{is_any_identifier};
ghost use Rattle.rap_base.specs.TokenKind.{EQ};
ghost use Rattle.rap_events.specs.State.{state, next, NthAt};
ghost use Rattle.rap_grammar_scripts.specs.Asm as script;
ghost use Rattle.rap_grammar_scripts.specs.ThroughKnot as through_knot_script;
ghost use Rattle.rap_grammar_frame.specs.Grew.{Behind};
ghost use Rattle.rap_grammar_scripts.specs.Exec.{Does, Executes};
ghost use Rattle.rap_grammar_facts.specs.Alone.{DoesAlone, ExecutesAlone};
ghost use Rattle.rap_grammar_facts.specs.Nodes.{IsOperand};
ghost use Rattle.rap_grammar_scripts.specs.Script.{something, again};
ghost use Rattle.rap_grammar_scripts.specs.Test.{holds};
ghost use Rattle.rap_grammar_scripts.specs.Words.{of_bool};

use rap_base::T;
use rap_base::no_memory::NoMemory;
use rap_base::syntax_kind::SyntaxKind;
use rap_events::parser::{CompletedMarker, Marker, Parser};
use rap_grammar_attributes::attributes::outer_attrs;
use rap_grammar_expressions_blocks::blocks::block_expr;
use rap_grammar_frame::knot::Grammar;
use rap_grammar_frame::names::{is_path_name, name_any_identifier, name_ref_mod_path};
use rap_grammar_frame::through_knot::expr;
use rap_grammar_paths::paths::sym_path;
use rap_grammar_scripts::arguments::Restrictions;
use rap_grammar_scripts::rule::Rule;

/// Inline assembly after its name, as `("nop", in(reg) a)`.
#[tactic(auto, using(rap_grammar_facts::proofs::Asm::grew_asm_template, rap_grammar_facts::proofs::Asm::grew_asm_pieces))]
pub fn parse_asm_expr<G: Grammar>(
    p: &mut Parser<'_>,
    g: &G,
    m: Marker,
) -> Result<CompletedMarker, NoMemory>
    requires behind { Behind G.valid G.left g.now p.old }
    requires newest { (state p.old).marker ≡ Some m.pos.value }
    ensures operand { IfOk result (IsOperand (state p.new)) }
    ensures script { OnOk result (Executes (G.left g.now) script.parse_asm_expr p.old p.new) }
{
    p.expect(T!['('])?;
    asm_template(p, g)?;
    asm_pieces(p, g)?;
    p.expect(T![')'])?;
    let cm = m.complete(p, SyntaxKind::ASM_EXPR)?;
    Ok(cm)
}

/// What stands after the first template, up to the bracket that closes.
#[tactic(auto, using(rap_grammar_facts::proofs::Alone::kept, rap_grammar_frame::proofs::Loops::turns), unfolding(rap_grammar_scripts::specs::Asm::asm_pieces))]
fn asm_pieces<G: Grammar>(p: &mut Parser<'_>, g: &G) -> Result<(), NoMemory>
    requires behind { Behind G.valid G.left g.now p.old }
    ensures script { OnOk result (Executes (G.left g.now) script.asm_pieces p.old p.new) }
{
    let mut allow_templates = true;
    'pieces: while !p.at(SyntaxKind::EOF) && !p.at(T![')']) {
        p.expect(T![,])?;
        // A comma may be the last.
        if p.at(T![')']) {
            return Ok(());
        }
        match asm_piece(p, g, allow_templates)? {
            Some(allow) => allow_templates = allow,
            None => return Ok(()),
        }
    }
    Ok(())
}

/// What stands after a comma. Returns whether templates may follow, or `None` where the list ends.
#[tactic(auto, using(rap_grammar_facts::proofs::Asm::facts), unfolding(rap_grammar_scripts::specs::Asm::asm_piece))]
fn asm_piece<G: Grammar>(
    p: &mut Parser<'_>,
    g: &G,
    allow_templates: bool,
) -> Result<Option<bool>, NoMemory>
    requires behind { Behind G.valid G.left g.now p.old }
    ensures script { IfOk result
        (λ o. Does (G.left g.now) (script.asm_piece allow_templates) (script.of_allow o) (state p.old) (state p.new)) }
{
    let op_n = p.start()?;
    outer_attrs(p, g)?;
    if p.eat_contextual_kw(T![clobber_abi])? {
        parse_clobber_abi(p)?;
        op_n.complete(p, SyntaxKind::ASM_CLOBBER_ABI)?;
        return Ok(Some(false));
    }
    if p.eat_contextual_kw(T![options])? {
        parse_options(p)?;
        op_n.complete(p, SyntaxKind::ASM_OPTIONS)?;
        return Ok(Some(false));
    }
    let allow = named_operand(p, g, op_n, allow_templates)?;
    Ok(allow)
}

/// An operand with its name, as `x = inout(reg) x`, or what stands in its place, from its marker on. Returns what
/// `asm_piece` does.
#[tactic(auto, using(rap_grammar_facts::proofs::Alone::kept, rap_grammar_facts::proofs::Asm::level_operand_name, rap_grammar_facts::proofs::Asm::level_asm_operand), unfolding(rap_grammar_scripts::specs::Asm::named_operand, rap_events::specs::Machine::top))]
fn named_operand<G: Grammar>(
    p: &mut Parser<'_>,
    g: &G,
    op_n: Marker,
    allow_templates: bool,
) -> Result<Option<bool>, NoMemory>
    requires behind { Behind G.valid G.left g.now p.old }
    requires newest { (state p.old).marker ≡ Some op_n.pos.value }
    ensures script { IfOk result
        (λ o. Does (G.left g.now) (script.named_operand allow_templates) (script.of_allow o) (state p.old)
        (state p.new)) }
{
    let is_named = operand_name(p)?;
    if asm_operand(p, g)? {
        op_n.complete(p, SyntaxKind::ASM_OPERAND_NAMED)?;
        return Ok(Some(false));
    }
    op_n.abandon(p)?;
    let allow = no_operand(p, g, templates_after(allow_templates, is_named))?;
    Ok(allow)
}

/// Whether a template may still follow: none does after a name.
fn templates_after(allow_templates: bool, is_named: bool) -> bool
    ensures { result ≡ script.templates_after allow_templates (of_bool is_named) }
{
    if is_named { false } else { allow_templates }
}

/// What stands where no operand does: a template, where one may still follow. Returns what `asm_piece` does.
#[tactic(auto, unfolding(rap_grammar_scripts::specs::Asm::no_operand))]
fn no_operand<G: Grammar>(
    p: &mut Parser<'_>,
    g: &G,
    allow_templates: bool,
) -> Result<Option<bool>, NoMemory>
    requires behind { Behind G.valid G.left g.now p.old }
    ensures script { IfOk result
        (λ o. Does (G.left g.now) (script.no_operand allow_templates) (script.of_allow o) (state p.old) (state p.new)) }
{
    if allow_templates {
        asm_template(p, g)?;
        return Ok(Some(true));
    }
    missing_operand(p, g)?;
    if p.at(T!['}']) {
        return Ok(None);
    }
    Ok(Some(false))
}

/// A message where no operand stands, with the block or the token that stands there.
#[tactic(auto, using(rap_grammar_frame::proofs::Steps::by_report), unfolding(rap_grammar_scripts::specs::Asm::missing_operand))]
fn missing_operand<G: Grammar>(p: &mut Parser<'_>, g: &G) -> Result<(), NoMemory>
    requires behind { Behind G.valid G.left g.now p.old }
    ensures script { OnOk result (Executes (G.left g.now) script.missing_operand p.old p.new) }
{
    if p.at(T!['{']) {
        p.error("expected asm operand")?;
        some_expr(p, g)?;
        return Ok(());
    }
    p.err_and_bump("expected asm operand")?;
    Ok(())
}

/// A line of the assembly. Anything else is skipped.
#[tactic(auto, unfolding(rap_grammar_scripts::specs::Asm::asm_template))]
fn asm_template<G: Grammar>(p: &mut Parser<'_>, g: &G) -> Result<(), NoMemory>
    requires behind { Behind G.valid G.left g.now p.old }
    ensures script { OnOk result (Executes (G.left g.now) script.asm_template p.old p.new) }
{
    if some_expr(p, g)? {
        return Ok(());
    }
    p.err_and_bump("expected asm template")?;
    Ok(())
}

/// An expression. Returns whether there was one; where there was none, tokens that end the search for one are left.
#[tactic(auto, unfolding(rap_grammar_scripts::specs::ThroughKnot::expr))]
fn some_expr<G: Grammar>(p: &mut Parser<'_>, g: &G) -> Result<bool, NoMemory>
    requires behind { Behind G.valid G.left g.now p.old }
    ensures script { IfOk result
        (λ found. Does (G.left g.now) through_knot_script.expr (of_bool found) (state p.old) (state p.new)) }
{
    let r = Restrictions {
        forbid_structs: false,
        prefer_stmt: false,
    };
    match g.run(p, Rule::ExprBp { r, bp: 1 })? {
        Some(_) => Ok(true),
        None => Ok(false),
    }
}

/// An operand's name and its `=`, as `x =`, if they come next. Returns whether they do.
#[tactic(auto, unfolding(rap_grammar_scripts::specs::Asm::operand_name))]
fn operand_name(p: &mut Parser<'_>) -> Result<bool, NoMemory>
    ensures script { IfOk result (λ found. DoesAlone script.operand_name (of_bool found) (state p.old) (state p.new)) }
{
    if !starts_operand_name(p) {
        return Ok(false);
    }
    name_any_identifier(p)?;
    p.bump(T![=])?;
    Ok(true)
}

/// Whether an operand's name and its `=` come next.
fn starts_operand_name(p: &Parser<'_>) -> bool
    ensures here { result ≡ holds script.starts_operand_name (state p.now).rest }
    ensures name { IsTrue result → is_any_identifier (next (state p.now)) ≡ true }
    ensures eq { IsTrue result → NthAt (state p.now) 1 EQ }
{
    p.current().is_any_identifier() && p.nth_at(1, T![=])
}

/// An operand without its name, as `in(reg) x`, if one comes next. Returns whether one does.
#[tactic(auto, using(rap_grammar_facts::proofs::Alone::kept, rap_grammar_facts::proofs::Asm::level_dir_spec, rap_grammar_facts::proofs::Asm::level_reg_operand, rap_grammar_facts::proofs::Asm::level_asm_sym, crate::proofs::Lines::by_dir), unfolding(rap_grammar_scripts::specs::Asm::asm_operand))]
fn asm_operand<G: Grammar>(p: &mut Parser<'_>, g: &G) -> Result<bool, NoMemory>
    requires behind { Behind G.valid G.left g.now p.old }
    ensures script { IfOk result
        (λ found. Does (G.left g.now) script.asm_operand (of_bool found) (state p.old) (state p.new)) }
{
    let op = p.start()?;
    if let Some(goes_both_ways) = dir_spec(p)? {
        reg_operand(p, g, goes_both_ways)?;
        op.complete(p, SyntaxKind::ASM_REG_OPERAND)?;
        return Ok(true);
    }
    if p.eat_contextual_kw(T![label])? {
        block_expr(p, g)?;
        op.complete(p, SyntaxKind::ASM_LABEL)?;
        return Ok(true);
    }
    if p.eat(T![const])? {
        expr(p, g)?;
        op.complete(p, SyntaxKind::ASM_CONST)?;
        return Ok(true);
    }
    if p.eat_contextual_kw(T![sym])? {
        asm_sym(p, g)?;
        op.complete(p, SyntaxKind::ASM_SYM)?;
        return Ok(true);
    }
    op.abandon(p)?;
    Ok(false)
}

/// The direction of a register operand, as `in` and `inout`. Returns whether it is both in and out, or `None` where no
/// such word comes next.
#[tactic(auto, unfolding(rap_grammar_scripts::specs::Asm::dir_spec))]
fn dir_spec(p: &mut Parser<'_>) -> Result<Option<bool>, NoMemory>
    ensures script { IfOk result (λ o. DoesAlone script.dir_spec (script.of_way o) (state p.old) (state p.new)) }
{
    let m = p.start()?;
    if p.eat(T![in])? {
        m.complete(p, SyntaxKind::ASM_DIR_SPEC)?;
        return Ok(Some(false));
    }
    if p.eat_contextual_kw(T![out])? {
        m.complete(p, SyntaxKind::ASM_DIR_SPEC)?;
        return Ok(Some(false));
    }
    if p.eat_contextual_kw(T![lateout])? {
        m.complete(p, SyntaxKind::ASM_DIR_SPEC)?;
        return Ok(Some(false));
    }
    if p.eat_contextual_kw(T![inout])? {
        m.complete(p, SyntaxKind::ASM_DIR_SPEC)?;
        return Ok(Some(true));
    }
    if p.eat_contextual_kw(T![inlateout])? {
        m.complete(p, SyntaxKind::ASM_DIR_SPEC)?;
        return Ok(Some(true));
    }
    m.abandon(p)?;
    Ok(None)
}

/// A register operand after its direction, as `(reg) x`. If it is in and out, another place may follow for the output,
/// as in `(reg) x => y`.
#[tactic(auto, using(rap_grammar_facts::proofs::Asm::facts), unfolding(rap_grammar_scripts::specs::Asm::reg_operand))]
fn reg_operand<G: Grammar>(p: &mut Parser<'_>, g: &G, goes_both_ways: bool) -> Result<(), NoMemory>
    requires behind { Behind G.valid G.left g.now p.old }
    ensures script { OnOk result (Executes (G.left g.now) (script.reg_operand goes_both_ways) p.old p.new) }
{
    parse_reg(p)?;
    let op_expr = p.start()?;
    expr(p, g)?;
    if !goes_both_ways {
        op_expr.complete(p, SyntaxKind::ASM_OPERAND_EXPR)?;
        return Ok(());
    }
    if p.eat(T![=>])? {
        expr(p, g)?;
        op_expr.complete(p, SyntaxKind::ASM_OPERAND_EXPR)?;
        return Ok(());
    }
    op_expr.complete(p, SyntaxKind::ASM_OPERAND_EXPR)?;
    Ok(())
}

/// A `sym` operand's path, as `a::b` and `(a::b)`.
#[tactic(auto, unfolding(rap_grammar_scripts::specs::Asm::asm_sym))]
fn asm_sym<G: Grammar>(p: &mut Parser<'_>, g: &G) -> Result<(), NoMemory>
    requires behind { Behind G.valid G.left g.now p.old }
    ensures script { OnOk result (Executes (G.left g.now) script.asm_sym p.old p.new) }
{
    if p.at(T!['(']) {
        p.bump(T!['('])?;
        sym_path(p, g)?;
        p.expect(T![')'])?;
        return Ok(());
    }
    sym_path(p, g)?;
    Ok(())
}

/// The register of an operand, as `(reg)` and `("eax")`.
fn parse_reg(p: &mut Parser<'_>) -> Result<(), NoMemory>
    ensures script { OnOk result (ExecutesAlone script.parse_reg p.old p.new) }
{
    p.expect(T!['('])?;
    reg_spec(p)?;
    p.expect(T![')'])?;
    Ok(())
}

/// The name of a register or of a class of registers.
#[tactic(auto, unfolding(rap_grammar_scripts::specs::Asm::reg_spec))]
fn reg_spec(p: &mut Parser<'_>) -> Result<(), NoMemory>
    ensures script { OnOk result (ExecutesAlone script.reg_spec p.old p.new) }
{
    if is_path_name(p.current()) {
        let m = p.start()?;
        name_ref_mod_path(p)?;
        m.complete(p, SyntaxKind::ASM_REG_SPEC)?;
        return Ok(());
    }
    if p.at(T![string]) {
        let m = p.start()?;
        p.bump(T![string])?;
        m.complete(p, SyntaxKind::ASM_REG_SPEC)?;
        return Ok(());
    }
    p.err_and_bump("expected register name")?;
    Ok(())
}

/// The clobbered ABIs, as `("C", "system")`.
fn parse_clobber_abi(p: &mut Parser<'_>) -> Result<(), NoMemory>
    ensures script { OnOk result (ExecutesAlone script.parse_clobber_abi p.old p.new) }
{
    p.expect(T!['('])?;
    clobber_abis(p)?;
    Ok(())
}

/// The names of ABIs, and the bracket that closes.
#[tactic(auto, using(rap_grammar_facts::proofs::Asm::facts), unfolding(rap_grammar_scripts::specs::Asm::clobber_abis))]
fn clobber_abis(p: &mut Parser<'_>) -> Result<(), NoMemory>
    ensures script { OnOk result (ExecutesAlone script.clobber_abis p.old p.new) }
{
    'abis: loop {
        let more = next_abi(p)?;
        if !more {
            return Ok(());
        }
    }
}

/// The name of an ABI and its comma, or the bracket that closes. Returns whether another may follow.
fn next_abi(p: &mut Parser<'_>) -> Result<bool, NoMemory>
    ensures script { IfOk result
        (λ more. DoesAlone (script.clobber_turn false false)
        (if more then again false false else something) (state p.old) (state p.new)) }
{
    if p.at(SyntaxKind::EOF) {
        return Ok(false);
    }
    if p.eat(T![')'])? {
        return Ok(false);
    }
    if !p.expect(T![string])? {
        return Ok(false);
    }
    // A comma may be the last.
    if p.eat(T![')'])? {
        return Ok(false);
    }
    p.expect(T![,])?;
    Ok(true)
}

/// The options of the assembly, as `(nomem, nostack)`.
fn parse_options(p: &mut Parser<'_>) -> Result<(), NoMemory>
    ensures script { OnOk result (ExecutesAlone script.parse_options p.old p.new) }
{
    p.expect(T!['('])?;
    asm_options(p)?;
    Ok(())
}

/// Options, and the bracket that closes.
#[tactic(auto, using(rap_grammar_facts::proofs::Asm::facts), unfolding(rap_grammar_scripts::specs::Asm::asm_options))]
fn asm_options(p: &mut Parser<'_>) -> Result<(), NoMemory>
    ensures script { OnOk result (ExecutesAlone script.asm_options p.old p.new) }
{
    'options: loop {
        let more = next_option(p)?;
        if !more {
            return Ok(());
        }
    }
}

/// An option and its comma, or the bracket that closes. Anything else is skipped. Returns whether another may follow.
#[tactic(auto, using(rap_grammar_facts::proofs::Asm::facts))]
fn next_option(p: &mut Parser<'_>) -> Result<bool, NoMemory>
    ensures script { IfOk result
        (λ more. DoesAlone (script.options_turn false false)
        (if more then again false false else something) (state p.old) (state p.new)) }
{
    if p.at(SyntaxKind::EOF) {
        return Ok(false);
    }
    if p.eat(T![')'])? {
        return Ok(false);
    }
    let m = p.start()?;
    if !option_name(p)? {
        p.err_and_bump("expected asm option")?;
        m.abandon(p)?;
        return Ok(true);
    }
    m.complete(p, SyntaxKind::ASM_OPTION)?;
    // A comma may be the last.
    if p.eat(T![')'])? {
        return Ok(false);
    }
    p.expect(T![,])?;
    Ok(true)
}

/// An option: what the assembly does to memory. Returns whether one comes next.
#[tactic(auto, unfolding(rap_grammar_scripts::specs::Asm::option_name))]
fn option_name(p: &mut Parser<'_>) -> Result<bool, NoMemory>
    ensures script { IfOk result (λ found. DoesAlone script.option_name (of_bool found) (state p.old) (state p.new)) }
{
    if p.eat_contextual_kw(T![pure])? {
        return Ok(true);
    }
    if p.eat_contextual_kw(T![nomem])? {
        return Ok(true);
    }
    if p.eat_contextual_kw(T![readonly])? {
        return Ok(true);
    }
    if p.eat_contextual_kw(T![preserves_flags])? {
        return Ok(true);
    }
    let found = flow_option(p)?;
    Ok(found)
}

/// An option: where the assembly goes on, and how it is written. Returns whether one comes next.
#[tactic(auto, unfolding(rap_grammar_scripts::specs::Asm::flow_option))]
fn flow_option(p: &mut Parser<'_>) -> Result<bool, NoMemory>
    ensures script { IfOk result (λ found. DoesAlone script.flow_option (of_bool found) (state p.old) (state p.new)) }
{
    if p.eat_contextual_kw(T![noreturn])? {
        return Ok(true);
    }
    if p.eat_contextual_kw(T![nostack])? {
        return Ok(true);
    }
    if p.eat_contextual_kw(T![may_unwind])? {
        return Ok(true);
    }
    if p.eat_contextual_kw(T![att_syntax])? {
        return Ok(true);
    }
    if p.eat_contextual_kw(T![raw])? {
        return Ok(true);
    }
    Ok(false)
}
