//! The arguments of a command line.
use crate::asked::{Asked, Token, Tokens, Way};
use ra_ap_parser::{Edition, Reparser, SyntaxKind, TopEntryPoint};
use rast_print::asked::{Prefix, read_kind};
use rast_print::entry::Entry;
use std::env::{self, Args};
use std::rt::Env;

/// Which calls are made, and the file whose text they are made with, if there is one.
#[derive(Drop)]
pub struct Request {
    pub asked: Asked,
    pub file: Option<String>,
}

/// Reads a number.
fn read_number(args: &mut Args) -> Option<usize> {
    let word = args.next()?;
    word.as_str().parse::<usize>().ok()
}

/// Reads a node's kind, where the node begins with a brace and stands in an `impl`.
fn read_node(name: &str) -> Option<Reparser> {
    let node = read_kind(name)??;
    Reparser::for_node(node, Some(SyntaxKind::L_CURLY), Some(SyntaxKind::IMPL))
}

/// Reads `top ENTRY`, `prefix ENTRY` or `reparse NODE`.
fn read_way(args: &mut Args) -> Option<Way> {
    let (Some(word), Some(name)) = (args.next(), args.next()) else {
        return None;
    };
    match word.as_str() {
        "top" => {
            let Entry(entry) = name.as_str().parse::<Entry>().ok()?;
            Some(Way::Top(entry))
        }
        "prefix" => {
            let Prefix(entry) = name.as_str().parse::<Prefix>().ok()?;
            Some(Way::Prefix(entry))
        }
        "reparse" => Some(Way::Node(read_node(name.as_str())?)),
        _ => None,
    }
}

/// Reads `COUNT KIND`, and `EVERY` where it is there.
fn read_tokens(args: &mut Args, is_identifier: bool) -> Option<Tokens> {
    let count = read_number(args)?;
    let word = args.next()?;
    let kind = read_kind(word.as_str())??;
    let every = match args.next() {
        Some(word) => word.as_str().parse::<usize>().ok()?,
        None => 0,
    };
    let token = if is_identifier {
        Token::Ident(kind)
    } else {
        Token::Kind(kind)
    };
    Some(Tokens {
        token,
        count,
        every,
    })
}

/// Reads the words after `frontmatter`.
fn read_frontmatter(args: &mut Args) -> Option<Asked> {
    let message = args.next()?;
    let (start, end) = (read_number(args)?, read_number(args)?);
    let count = read_number(args)?;
    Some(Asked::Frontmatter {
        message,
        start,
        end,
        count,
    })
}

/// Reads `ENTRY EDITION`.
fn read_entry(args: &mut Args) -> Option<(TopEntryPoint, Edition)> {
    let (Some(entry), Some(edition)) = (args.next(), args.next()) else {
        return None;
    };
    let Entry(entry) = entry.as_str().parse::<Entry>().ok()?;
    let edition = edition.as_str().parse::<Edition>().ok()?;
    Some((entry, edition))
}

/// Reads the words after `sink`, without the file.
fn read_sink(args: &mut Args) -> Option<Asked> {
    let count = read_number(args)?;
    let (entry, edition) = read_entry(args)?;
    Some(Asked::Sink {
        count,
        entry,
        edition,
    })
}

/// Reads the words after `build`, without the file.
fn read_build(args: &mut Args) -> Option<Asked> {
    let (entry, edition) = read_entry(args)?;
    Some(Asked::Build { entry, edition })
}

/// Reads the words after `closed`, without the file.
fn read_closed(args: &mut Args) -> Option<Asked> {
    let (Some(name), Some(edition)) = (args.next(), args.next()) else {
        return None;
    };
    let reparser = read_node(name.as_str())?;
    let edition = edition.as_str().parse::<Edition>().ok()?;
    Some(Asked::Closed { reparser, edition })
}

/// Reads which calls are made.
fn read_asked(args: &mut Args, word: &str) -> Option<Asked> {
    match word {
        "capacity" => Some(Asked::Capacity(read_number(args)?)),
        "frontmatter" => read_frontmatter(args),
        "push" => Some(Asked::Push(read_way(args)?, read_tokens(args, false)?)),
        "ident" => Some(Asked::Push(read_way(args)?, read_tokens(args, true)?)),
        "kept" => Some(Asked::Kept(read_way(args)?, read_tokens(args, false)?)),
        "kept-ident" => Some(Asked::Kept(read_way(args)?, read_tokens(args, true)?)),
        "count" => Some(Asked::Count(read_way(args)?, read_tokens(args, false)?)),
        "sink" => read_sink(args),
        "build" => read_build(args),
        "closed" => read_closed(args),
        _ => None,
    }
}

/// Reads the program's arguments. `None` for any other words.
pub fn read_request<R: Env + AllocGlobal>(rt: &R) -> Option<Request> {
    let mut args = env::args(rt).ok()?;
    let _program = args.next();
    let word = args.next()?;
    let asked = read_asked(&mut args, word.as_str())?;
    let file = match asked {
        Asked::Sink { .. } | Asked::Build { .. } | Asked::Closed { .. } => Some(args.next()?),
        _ => None,
    };
    if args.next().is_some() {
        return None;
    }
    Some(Request { asked, file })
}
