//! Editions, entries and kinds by their numbers.
ghost use Rattle.std.specs.Prelude.{◌≡◌, ◌≤◌, ◌<◌, MatchResult, Some, None, if◌then◌else◌, nat_le};
ghost use Rattle.rap_c.specs.Numbers.{IsEditionOf, IsTopOf, IsPrefixOf, IsNoEdition, IsNoTop, IsNoPrefix, kind_in};
ghost use Rattle.rap_c.specs.declared.answer.Fault.TheVariants.{NoEdition, NoEntry};

use crate::answer::Fault;
use ra_ap_parser::{Edition, PrefixEntryPoint, SyntaxKind, TopEntryPoint};

/// The number of the last kind.
const LAST_KIND: u32 = 329;

/// The edition of the year.
pub fn edition_of(year: u32) -> Result<Edition, Fault>
    ensures { MatchResult result (λ edition. IsEditionOf year edition) (λ fault. (fault ≡ NoEdition) × IsNoEdition year) }
{
    match year {
        2015 => Ok(Edition::Edition2015),
        2018 => Ok(Edition::Edition2018),
        2021 => Ok(Edition::Edition2021),
        2024 => Ok(Edition::Edition2024),
        _ => Err(Fault::NoEdition),
    }
}

/// The top entry with the number.
pub fn top_entry_of(number: u32) -> Result<TopEntryPoint, Fault>
    ensures { MatchResult result (λ entry. IsTopOf number entry) (λ fault. (fault ≡ NoEntry) × IsNoTop number) }
{
    match number {
        0 => Ok(TopEntryPoint::SourceFile),
        1 => Ok(TopEntryPoint::MacroStmts),
        2 => Ok(TopEntryPoint::MacroItems),
        3 => Ok(TopEntryPoint::Pattern),
        4 => Ok(TopEntryPoint::Ty),
        5 => Ok(TopEntryPoint::Expr),
        6 => Ok(TopEntryPoint::MetaItem),
        _ => Err(Fault::NoEntry),
    }
}

/// The prefix entry with the number.
pub fn prefix_entry_of(number: u32) -> Result<PrefixEntryPoint, Fault>
    ensures { MatchResult result (λ entry. IsPrefixOf number entry) (λ fault. (fault ≡ NoEntry) × IsNoPrefix number) }
{
    match number {
        0 => Ok(PrefixEntryPoint::Vis),
        1 => Ok(PrefixEntryPoint::Block),
        2 => Ok(PrefixEntryPoint::Stmt),
        3 => Ok(PrefixEntryPoint::Pat),
        4 => Ok(PrefixEntryPoint::PatTop),
        5 => Ok(PrefixEntryPoint::Ty),
        6 => Ok(PrefixEntryPoint::Expr),
        7 => Ok(PrefixEntryPoint::Path),
        8 => Ok(PrefixEntryPoint::Item),
        9 => Ok(PrefixEntryPoint::MetaItem),
        _ => Err(Fault::NoEntry),
    }
}

/// The kind with the number, if there is one.
pub fn kind_of(number: u32) -> Option<SyntaxKind>
    ensures { result ≡ kind_in number }
{
    if number <= LAST_KIND {
        Some(SyntaxKind::from_u16(number as u16))
    } else {
        None
    }
}
