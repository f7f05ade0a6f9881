//! What a program tells of itself, and how it reports wrong words and a file that it cannot read.
ghost use Rattle.std.specs.Prelude.{◌≡◌, ◌⊎◌, ◌++◌, IfErr, IfOk, OnErr, OnOk, chars, codes, string_bytes};
ghost use Rattle.std.specs.Io.KnownBytes.{Appends};
ghost use Rattle.rast_common.specs.Program.{Refuses, Reports, cause_text, line_of, told, unread_line};
ghost use Rattle.rast_common.specs.Written.{AppendsFront};

use crate::fault::report;
use crate::quote::push_quoted;
use crate::words::{Common, WrongWords};
use std::alloc::{AllocError, Global};
use std::io;

/// What a program tells. Each text but the name is whole lines.
#[derive(Clone, Copy, Debug)]
pub struct Program {
    /// What a line about a fault begins with.
    pub name: &'static str,
    /// Which words it takes.
    pub usage: &'static str,
    /// What the words mean.
    pub options: &'static str,
    /// Its name and its version.
    pub version: &'static str,
    /// That the output refused a write.
    pub cannot_write: &'static str,
    /// That memory ran out.
    pub no_memory: &'static str,
}

/// Why a file cannot be read.
fn cause(kind: io::ErrorKind) -> &'static str
    ensures { result.now ≡ cause_text kind }
{
    match kind {
        io::ErrorKind::NotFound => "there is no such file",
        io::ErrorKind::PermissionDenied => "permission denied",
        io::ErrorKind::IsADirectory => "it is a folder",
        io::ErrorKind::NotADirectory => "a part of its path is no folder",
        io::ErrorKind::InvalidFilename => "its name is too long",
        io::ErrorKind::InvalidData => "it is no UTF-8",
        io::ErrorKind::OutOfMemory => "no memory",
        _ => "the system refuses it",
    }
}

impl Program {
    /// A line about a word: the program's name, the word in quotes between two texts, and one more.
    fn line(
        &self,
        alloc: Global,
        before: &str,
        word: &str,
        after: &str,
        what: &str,
    ) -> Result<String, AllocError>
        ensures { IfOk result (λ line. string_bytes line ≡ line_of self.now before.now word.now after.now what.now) }
    {
        let mut line = String::new(alloc);
        line.push_str(self.name)?;
        line.push_str(before)?;
        push_quoted(&mut line, word)?;
        line.push_str(after)?;
        line.push_str(what)?;
        line.push_str("\n")?;
        Ok(line)
    }

    /// Reports a line about a word, or that memory ran out.
    fn report_word<V: io::Write>(
        &self,
        alloc: Global,
        before: &str,
        word: &str,
        after: &str,
        what: &str,
        err: &mut V,
    ) -> io::Result<u8>
        ensures status { IfOk result (λ status. status ≡ 2) }
        ensures reported { OnOk result (Reports self.now (line_of self.now before.now word.now after.now what.now) (Appends (V.contents err.old) (V.contents err.new))) }
        ensures broken { OnErr result (Reports self.now (line_of self.now before.now word.now after.now what.now) (AppendsFront (V.contents err.old) (V.contents err.new))) }
    {
        match self.line(alloc, before, word, after, what) {
            Ok(line) => report(err, line.as_str()),
            Err(_) => report(err, self.no_memory),
        }
    }

    /// Writes what the program tells of itself.
    fn write<W: io::Write>(&self, common: Common, out: &mut W) -> io::Result<()>
        ensures { OnOk result (Appends (W.contents out.old) (W.contents out.new) (told self.now common)) }
    {
        match common {
            Common::Help => {
                out.write_all(self.usage.as_bytes())?;
                out.write_all(self.options.as_bytes())?;
            }
            Common::Version => out.write_all(self.version.as_bytes())?,
        }
        out.flush()
    }

    /// Writes what the program tells of itself, and returns the status 0. Where the output refuses that, it is reported
    /// on `err`, and the status is 2. The error is that of `err`, where it refused the report.
    pub fn tell<W: io::Write, V: io::Write>(
        &self,
        common: Common,
        out: &mut W,
        err: &mut V,
    ) -> io::Result<u8>
        ensures status { IfOk result (λ status. (status ≡ 0) ⊎ (status ≡ 2)) }
        ensures told { IfOk result (λ status. status ≡ 0 → Appends (W.contents out.old) (W.contents out.new) (told self.now common) × (err.new ≡ err.old)) }
        ensures reported { IfOk result (λ status. status ≡ 2 → Appends (V.contents err.old) (V.contents err.new) self.now.cannot_write.now) }
        ensures broken { OnErr result (AppendsFront (V.contents err.old) (V.contents err.new) self.now.cannot_write.now) }
    {
        let Ok(()) = self.write(common, out) else {
            return report(err, self.cannot_write);
        };
        Ok(0)
    }

    /// Reports wrong words: their number by the usage, and a word by itself and by what its place takes, or that memory
    /// ran out. Returns the status 2. The error is that of `err`, where it refused the report.
    pub fn refuse<V: io::Write>(
        &self,
        alloc: Global,
        wrong: &WrongWords<'_>,
        err: &mut V,
    ) -> io::Result<u8>
        ensures status { IfOk result (λ status. status ≡ 2) }
        ensures reported { OnOk result (Refuses self.now wrong.now (Appends (V.contents err.old) (V.contents err.new))) }
        ensures broken { OnErr result (Refuses self.now wrong.now (AppendsFront (V.contents err.old) (V.contents err.new))) }
    {
        match wrong {
            WrongWords::Number => report(err, self.usage),
            WrongWords::Word { word, place } => {
                self.report_word(alloc, ": ", word, " is no ", place, err)
            }
        }
    }

    /// Reports the file that cannot be read, with its name and the cause; or that memory ran out. Returns the status 2.
    /// The error is that of `err`, where it refused the report.
    pub fn report_unread<V: io::Write>(
        &self,
        alloc: Global,
        file: &str,
        kind: io::ErrorKind,
        err: &mut V,
    ) -> io::Result<u8>
        ensures status { IfOk result (λ status. status ≡ 2) }
        ensures reported { OnOk result (Reports self.now (unread_line self.now file.now kind) (Appends (V.contents err.old) (V.contents err.new))) }
        ensures broken { OnErr result (Reports self.now (unread_line self.now file.now kind) (AppendsFront (V.contents err.old) (V.contents err.new))) }
    {
        self.report_word(alloc, ": cannot read ", file, ": ", cause(kind), err)
    }
}
