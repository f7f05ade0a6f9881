//! The files of a request, one after another: files as they are named, those of a folder in the order of their paths, and
//! the standard input.

use crate::PROGRAM;
use crate::request::Request;
use crate::run::{FAULT, run, run_among};
use ra_ap_parser::Edition;
use std::alloc::{AllocError, Global};
use std::fs::{self, DirEntry};
use std::io;
use std::rt::Files;

/// What stands for the standard input.
const STANDARD_INPUT: &str = "-";

/// The text of a file, or of the standard input.
fn read_text<R: Files + Input + AllocGlobal>(rt: &R, file: &str) -> io::Result<String> {
    if file == STANDARD_INPUT {
        io::read_to_string(rt.alloc(), rt.reader())
    } else {
        fs::read_to_string(rt, file)
    }
}

/// Whether a path is that of a folder.
fn is_folder<R: Files>(rt: &R, path: &str) -> bool {
    match rt.metadata(path) {
        Ok(metadata) => path != STANDARD_INPUT && metadata.is_dir(),
        Err(_) => false,
    }
}

/// Tells of a file that is the only one. Returns the program's status.
fn tell_one<R: Files + Input + AllocGlobal, W: io::Write, V: io::Write>(
    rt: &R,
    edition: Edition,
    file: &str,
    out: &mut W,
    err: &mut V,
) -> io::Result<u8> {
    match read_text(rt, file) {
        Ok(text) => run(rt.alloc(), edition, text.as_str(), out, err),
        Err(error) => PROGRAM.report_unread(rt.alloc(), file, error.kind(), err),
    }
}

/// Tells of a file that is one of several. Returns its status, or `None` if the output refused a write.
fn tell_among<R: Files + Input + AllocGlobal, W: io::Write, V: io::Write>(
    rt: &R,
    edition: Edition,
    file: &str,
    out: &mut W,
    err: &mut V,
) -> io::Result<Option<u8>> {
    match read_text(rt, file) {
        Ok(text) => run_among(rt.alloc(), edition, file, text.as_str(), out, err),
        Err(error) => {
            let status = PROGRAM.report_unread(rt.alloc(), file, error.kind(), err)?;
            Ok(Some(status))
        }
    }
}

/// The kind of an error of a folder's listing. A name that is no UTF-8 comes as one that the system refuses.
fn kind_of(error: &io::Error) -> io::ErrorKind {
    match error.kind() {
        io::ErrorKind::InvalidFilename => io::ErrorKind::InvalidData,
        kind => kind,
    }
}

/// The path of an entry of a folder, if it is to be looked at: that of a Rust file, or that of a folder, which ends with
/// a slash. A link to a folder is none.
fn path_of<R: Files + AllocGlobal>(
    alloc: Global,
    entry: &DirEntry<R>,
) -> Result<Option<String>, AllocError> {
    let mut path = String::from_str(alloc, entry.path().as_str())?;
    let is_folder = match entry.file_type() {
        Ok(file_type) => file_type.is_dir(),
        Err(_) => false,
    };
    if is_folder {
        path.push_str("/")?;
    }
    if is_folder || path.ends_with(".rs") {
        Ok(Some(path))
    } else {
        Ok(None)
    }
}

/// Adds the paths in a folder that are to be looked at, the last one first. Returns the kind of the first error of the
/// listing; a name that is no UTF-8 is one, and is left out.
fn list_into<R: Files + AllocGlobal + Clone + Drop>(
    rt: &R,
    folder: &str,
    left: &mut Vec<String>,
) -> io::Result<Option<io::ErrorKind>> {
    let mut paths = Vec::new(rt.alloc());
    let mut fault = None;
    for entry in fs::read_dir(rt, folder)? {
        match entry {
            Ok(entry) => {
                if let Some(path) = path_of(rt.alloc(), &entry)? {
                    paths.push(path)?;
                }
            }
            Err(error) => fault = fault.or(Some(kind_of(&error))),
        }
    }
    paths.sort()?;
    for _ in 0..paths.len() {
        if let Some(path) = paths.pop() {
            left.push(path)?;
        }
    }
    Ok(fault)
}

/// Lists a folder, and adds its paths to those that are left. Returns 0, or the status of a fault, which is reported.
fn add_folder<R: Files + AllocGlobal + Clone + Drop, V: io::Write>(
    rt: &R,
    folder: &str,
    left: &mut Vec<String>,
    err: &mut V,
) -> io::Result<u8> {
    let fault = match list_into(rt, folder, left) {
        Ok(None) => return Ok(0),
        Ok(Some(kind)) => kind,
        Err(error) => error.kind(),
    };
    PROGRAM.report_unread(rt.alloc(), folder, fault, err)
}

/// Tells of the Rust files in a folder and below it, in the order of their paths. Returns the highest status, or `None`
/// if the output refused a write.
fn tell_below<R: Files + Input + AllocGlobal + Clone + Drop, W: io::Write, V: io::Write>(
    rt: &R,
    edition: Edition,
    folder: &str,
    out: &mut W,
    err: &mut V,
) -> io::Result<Option<u8>> {
    let mut left = Vec::new(rt.alloc());
    let mut status = add_folder(rt, folder, &mut left, err)?;
    for _ in 0..u64::MAX {
        let Some(path) = left.pop() else {
            break;
        };
        let next = if path.ends_with('/') {
            add_folder(rt, path.as_str(), &mut left, err)?
        } else {
            match tell_among(rt, edition, path.as_str(), out, err)? {
                Some(next) => next,
                None => return Ok(None),
            }
        };
        status = status.max(next);
    }
    Ok(Some(status))
}

/// Tells of the files of a request, in its order. Returns the program's status: of a single file that of [`run`], and
/// else the highest of all; 2 if the output refused a write, and then nothing more is told.
pub fn tell<R: Files + Input + AllocGlobal + Clone + Drop, W: io::Write, V: io::Write>(
    rt: &R,
    request: &Request<'_>,
    out: &mut W,
    err: &mut V,
) -> io::Result<u8> {
    if let [file] = request.files {
        if !is_folder(rt, file.as_str()) {
            return tell_one(rt, request.edition, file.as_str(), out, err);
        }
    }
    let mut status = 0;
    for file in request.files {
        let told = if is_folder(rt, file.as_str()) {
            tell_below(rt, request.edition, file.as_str(), out, err)?
        } else {
            tell_among(rt, request.edition, file.as_str(), out, err)?
        };
        let Some(next) = told else {
            return Ok(FAULT);
        };
        status = status.max(next);
    }
    Ok(status)
}
