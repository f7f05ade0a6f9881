//! `rap_bench JOB SEED COUNT SHAPES` does a job that users of the library wait for, `COUNT` times, each on another text.
//!
//! The texts are made of the shapes in the file `SHAPES`; the number `SEED` decides which. A line is printed: how many
//! bytes of text there were, how many things were found, and a digest of all that was found.
#![tactic(auto)]

mod digest;
mod edited;
mod failure;
mod faults;
mod files;
mod large;
mod look;
mod random;
mod shapes;
mod small;
mod texts;

use digest::Digest;
use failure::Failure;
use rast_common::fault::{exit_code, report};
use shapes::Shapes;
use std::alloc::Global;
use std::process::ExitCode;
use std::rt::Env;
use std::{env, fs, io};
use texts::Maker;

const USAGE: &str = "usage: rap_bench files|small|faults|large|look SEED COUNT SHAPES\n";

const UNREADABLE: &str = "rap_bench: cannot read the file\n";

const FAILED: &str = "rap_bench: there is no such job, or a text was not parsed\n";

const CANNOT_WRITE: &str = "rap_bench: cannot write\n";

/// What is asked for.
#[derive(Drop)]
struct Request {
    job: String,
    seed: u64,
    count: u64,
    file: String,
}

/// The words of the command line. `None` if they are not four, or two of them no numbers.
fn read_request<R: Env + AllocGlobal>(rt: &R) -> Option<Request> {
    let mut args = env::args(rt).ok()?;
    let _program = args.next();
    let (Some(job), Some(seed), Some(count), Some(file)) = (
        args.next(),
        args.next(),
        args.next(),
        args.next(),
    ) else {
        return None;
    };
    let seed = seed.as_str().parse::<u64>().ok()?;
    let count = count.as_str().parse::<u64>().ok()?;
    Some(Request {
        job,
        seed,
        count,
        file,
    })
}

/// Does a job with texts of these shapes. None of another name is done.
fn digest_of(
    alloc: Global,
    shapes: &Shapes<'_>,
    job: &str,
    seed: u64,
    count: u64,
) -> Result<Digest, Failure> {
    let mut maker = Maker::new(shapes, seed);
    let mut digest = Digest::new();
    match job {
        "files" => files::run(alloc, &mut maker, count, &mut digest)?,
        "small" => small::run(alloc, &mut maker, count, &mut digest)?,
        "faults" => faults::run(alloc, &mut maker, count, &mut digest)?,
        "large" => large::run(alloc, &mut maker, count, &mut digest)?,
        "look" => look::run(alloc, &mut maker, count, &mut digest)?,
        _ => return Err(Failure),
    }
    Ok(digest)
}

/// Does what is asked for, with the shapes of a file.
fn answer(alloc: Global, request: &Request, text: &str) -> Result<Digest, Failure> {
    let shapes = Shapes::read(alloc, text)?;
    let job = request.job.as_str();
    digest_of(alloc, &shapes, job, request.seed, request.count)
}

/// Writes the line.
fn write<W: io::Write>(alloc: Global, out: &mut W, job: &str, digest: &Digest) -> io::Result<()> {
    let (bytes, things, value) = (digest.bytes, digest.things, digest.value);
    let line = format!(in alloc; "{job}: {bytes} bytes, {things} things, digest {value:016x}\n")?;
    out.write_all(line.as_bytes())?;
    out.flush()
}

fn main(rt: HostRuntime) -> ExitCode {
    let mut err = rt.stderr();
    let Some(request) = read_request(&rt) else {
        return exit_code(report(&mut err, USAGE));
    };
    let Ok(text) = fs::read_to_string(&rt, request.file.as_str()) else {
        return exit_code(report(&mut err, UNREADABLE));
    };
    let alloc = rt.alloc();
    let Ok(digest) = answer(alloc, &request, text.as_str()) else {
        return exit_code(report(&mut err, FAILED));
    };
    match write(alloc, &mut rt.stdout(), request.job.as_str(), &digest) {
        Ok(()) => ExitCode::from(0),
        Err(_) => exit_code(report(&mut err, CANNOT_WRITE)),
    }
}
