//! `goodlock` reads a trace of lock events from standard input and prints the deadlocks that it
//! predicts, counts of the trace, or the trace itself; or it says whether a report is true.
//!
//! docs/GLOSSARY.md has its words beside those of the field.
#![tactic(auto)]

ghost use Rattle.std.specs.Prelude.{◌≡◌};
ghost use Rattle.gl_options.specs.Sessions.{CanRun};
ghost use Rattle.goodlock.specs.Usages.{refused_text, shown_text, usage_status};

use gl_commands::{Ended, perform, said};
use gl_io::FromStd;
use gl_options::{Command, Usage, parse};
use gl_std::Seed;
use std::env;
use std::io::{ErrorKind, Write};
use std::process::ExitCode;
use std::sync::Wait;
use std::thread::Threads;

// What is said of words that are no text.
const NOT_TEXT: &str = "error: the words of the command line are no UTF-8 text\n";

// What standard output and standard error get of words that ask for nothing to be done, and the
// exit status.
fn said_of_usage(usage: &Usage) -> (&[u8], &[u8], u8)
    ensures shown { result.0.now ≡ shown_text usage.now }
    ensures refused { result.1.now ≡ refused_text usage.now }
    ensures status { result.2 ≡ usage_status usage.now }
{
    match usage {
        Usage::Shown(text) => (text.as_bytes(), b"", 0),
        Usage::Refused(text) => (b"", text.as_bytes(), 2),
        Usage::Memory => (b"", b"goodlock: out of memory\n", 3),
    }
}

// The words of the command line.
fn words(rt: &HostRuntime) -> Result<Vec<String>, Usage> {
    match env::args(rt) {
        Ok(args) => Ok(args.collect(rt.alloc())?),
        Err(error) if error.kind() == ErrorKind::OutOfMemory => Err(Usage::Memory),
        Err(_) => Err(Usage::Refused(String::from_str(rt.alloc(), NOT_TEXT)?)),
    }
}

// Does what the words ask for, from standard input to standard output. Where no seed can be drawn for
// the names, the input isn't read. Threads are started with the second handle.
fn run<T: AllocGlobal + Threads + Wait + Sync>(
    rt: &HostRuntime,
    threads: &T,
    command: &Command,
) -> ExitCode
    requires { CanRun command.now }
{
    let mut input = FromStd::new(rt.stdin());
    let mut output = FromStd::new(rt.stdout());
    let ended = match Seed::random(rt) {
        Ok(seed) => perform(threads, &mut input, &mut output, seed, command),
        Err(_) => Ended::ReadFailed,
    };
    let (line, status) = said(&ended);
    let _ = rt.stderr().write_all(line);
    ExitCode::from(status)
}

// Tells why the words ask for nothing to be done.
fn tell(rt: &HostRuntime, usage: &Usage) -> ExitCode {
    let (shown, refused, status) = said_of_usage(usage);
    if rt.stdout().write_all(shown).is_err() {
        let (line, status) = said(&Ended::WriteFailed { written: 0 });
        let _ = rt.stderr().write_all(line);
        return ExitCode::from(status);
    }
    let _ = rt.stderr().write_all(refused);
    ExitCode::from(status)
}

fn main(rt: HostRuntime) -> ExitCode {
    let words = match words(&rt) {
        Ok(words) => words,
        Err(usage) => return tell(&rt, &usage),
    };
    match parse(rt.alloc(), words.as_slice()) {
        Ok(command) => run(&rt, &rt, &command),
        Err(usage) => tell(&rt, &usage),
    }
}
