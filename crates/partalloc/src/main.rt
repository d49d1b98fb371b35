//! The program: it does what its arguments ask for, from standard input to standard output. If the status isn't `Done` it prints the
//! status's text on standard error. It exits with the status's number.
#![tactic(auto)]

ghost use Rattle.std.specs.Prelude.{◌≡◌};
ghost use Rattle.std.specs.Process.{exit_status};
ghost use Rattle.pa_cli.specs.StatusText.{status_number};

use pa_cli::{Status, plays_in_region, run, run_alone};
use pa_io::{StdSink, StdSource};
use pa_runner::NoGate;
use std::env::Env;
use std::fmt::Display;
use std::io::ErrorKind;
use std::process::ExitCode;
use std::{env, io};

// The program's exit code if its words can't be had, for any reason but out of memory.
const NO_WORDS: u8 = 8;

fn main(rt: HostRuntime) -> ExitCode {
    let words = match words(&rt) {
        Ok(words) => words,
        Err(error) => return end_without_words(&rt, error.kind()),
    };
    let mut source = StdSource::new(rt.stdin());
    let mut sink = StdSink::new(rt.stdout());
    let line = words.as_slice();
    let status = if plays_in_region(line) {
        run(&rt, rt.alloc(), line, &mut source, &mut sink, &NoGate).status
    } else {
        run_alone(rt.alloc(), line, &mut source, &mut sink)
    };
    end(&rt, status)
}

// The words after the program's name.
fn words<R: Env + AllocGlobal>(rt: &R) -> io::Result<Vec<String>> {
    Ok(env::args(rt)?.skip(1).collect(rt.alloc())?)
}

// Prints the status's text unless it is `Done`, and exits with its number.
fn end(rt: &impl Eprint, status: Status) -> ExitCode
    ensures { exit_status result ≡ status_number status }
{
    match status {
        Status::Done => ExitCode::SUCCESS,
        _ => refuse(rt, status, status.number()),
    }
}

// Exits if the words couldn't be had: it ran out of memory, or one of them isn't UTF-8.
fn end_without_words(rt: &impl Eprint, kind: ErrorKind) -> ExitCode
    ensures memory { kind ≡ ErrorKind.OutOfMemory → exit_status result ≡ 6 }
    ensures other { (kind ≡ ErrorKind.OutOfMemory → ⊥) → exit_status result ≡ 8 }
{
    if kind == ErrorKind::OutOfMemory {
        end(rt, Status::OutOfMemory)
    } else {
        refuse(rt, "no words", NO_WORDS)
    }
}

// Prints the text on standard error, and exits with the number, also if the text can't be printed.
fn refuse(rt: &impl Eprint, text: impl Display + Drop, number: u8) -> ExitCode
    ensures { exit_status result ≡ number }
{
    let _ = eprintln!(rt; "{text}");
    ExitCode::from(number)
}
