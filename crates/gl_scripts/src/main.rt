//! `gl_scripts NAME` makes the calls of the script of this name, and prints each answer on a line.
//!
//! It is run while one growth in turn is refused (tests/commands/scripts.py). Where a call answers that there is no
//! memory, that is printed, then what the call promises to leave as it was, and then the call is made
//! again: what follows has to be as if nothing had happened. What a refusal spoils for good is printed
//! too, and the script begins once more.
#![tactic(auto)]

mod edges;
mod gates;
mod known;
mod reports;
mod say;
mod searches;
mod sessions;
mod settling;
mod tables;
mod texts;
mod worlds;

use say::{Stop, refused};
use std::alloc::AllocError;
use std::env;
use std::io::ErrorKind;
use std::process::ExitCode;
use std::sync::Wait;
use std::thread::Threads;

// Makes the calls of the script of this name. Threads are started with the second handle.
fn script<T: Threads + Wait + Sync>(rt: &HostRuntime, threads: &T, name: &str) -> Result<(), Stop> {
    match name {
        "crossed_releases" => edges::crossed_releases(rt),
        "least_sample" => tables::least_sample(rt),
        "two_schedules" => worlds::two_schedules(rt),
        "parallel_as_search" => searches::parallel_as_search(rt, threads),
        "fault_repeats" => texts::fault_repeats(rt),
        "ring_of_one" => sessions::ring_of_one(rt),
        "report_so_far_drops" => sessions::report_so_far_drops(rt),
        "settle_receipts" => settling::settle_receipts(rt, threads),
        "settle_edges" => settling::settle_edges(rt, threads),
        "gate_before_table" => gates::gate_before_table(rt, threads),
        _ => Err(Stop::Unknown),
    }
}

// The words of the command line. There are none where they are no text.
fn words(rt: &HostRuntime) -> Result<Vec<String>, AllocError> {
    match env::args(rt) {
        Ok(args) => args.collect(rt.alloc()),
        Err(error) if error.kind() == ErrorKind::OutOfMemory => Err(AllocError),
        Err(_) => Ok(Vec::new(rt.alloc())),
    }
}

// Makes the calls of the script that the words name.
fn run<T: Threads + Wait + Sync>(rt: &HostRuntime, threads: &T) -> Result<(), Stop> {
    let words = match words(rt) {
        Ok(words) => words,
        Err(_) => {
            refused(rt, "words", &());
            words(rt)?
        }
    };
    match words.get(1) {
        Some(name) => script(rt, threads, name.as_str()),
        None => Err(Stop::Unknown),
    }
}

fn main(rt: HostRuntime) -> ExitCode {
    match run(&rt, &rt) {
        Ok(()) => ExitCode::from(0),
        Err(Stop::Astray) => ExitCode::from(1),
        Err(Stop::Unknown) => ExitCode::from(2),
        Err(Stop::Memory) => ExitCode::from(3),
    }
}
