//! The jobs that users of `goose` wait for, over lists that a seed settles: `workloads JOB LISTS LINES SEED` does a job with
//! so many lists of so many lines each, and prints a digest of all that the engines wrote.
#![tactic(auto)]

mod capture;
mod chance;
mod digest;
mod feed;
mod jobs;
mod packets;
mod script;
mod sender;
mod shapes;
mod traffic;

use crate::chance::Chance;
use crate::jobs::Work;
use std::alloc::AllocError;
use std::env;
use std::process::ExitCode;

/// The jobs, in the order in which `all` does them.
const JOBS: [&str; 7] = [
    "show", "accept", "station", "samples", "publish", "unknown", "capture",
];

// Does a job once.
fn once(work: &mut Work, job: &str) -> Result<(), AllocError> {
    match job {
        "show" => work.show(),
        "accept" => work.accept(),
        "station" => work.station(),
        "samples" => work.samples(),
        "publish" => work.publish(),
        "unknown" => work.unknown(),
        _ => work.capture(),
    }
}

// Does a job so many times, each over other lists, and prints the digest.
fn work(rt: &HostRuntime, job: &str, lists: u64, lines: u64, seed: u64) -> Result<(), AllocError> {
    let alloc = rt.alloc();
    let mut work = Work {
        alloc,
        chance: Chance::new(seed),
        lines,
        told: 0,
    };
    for _list in 0..lists {
        once(&mut work, job)?;
    }
    let _ = println!(rt; "{job} {:016x}", work.told);
    Ok(())
}

// Does what the words ask for.
fn answer(rt: &HostRuntime, words: &[String]) -> Option<Result<(), AllocError>> {
    let [_, job, lists, lines, seed] = words else {
        return None;
    };
    let lists = lists.parse::<u64>().ok()?;
    let lines = lines.parse::<u64>().ok()?;
    let seed = seed.parse::<u64>().ok()?;
    for known in JOBS {
        if job.as_str() == known || job.as_str() == "all" {
            match work(rt, known, lists, lines, seed) {
                Ok(()) => {}
                Err(error) => return Some(Err(error)),
            }
        }
    }
    Some(Ok(()))
}

fn main(rt: HostRuntime) -> ExitCode {
    let words: Vec<String> = match env::args(&rt) {
        Ok(words) => match words.collect(rt.alloc()) {
            Ok(words) => words,
            Err(_) => return ExitCode::from(5),
        },
        Err(_) => return ExitCode::from(2),
    };
    match answer(&rt, words.as_slice()) {
        Some(Ok(())) => ExitCode::from(0),
        Some(Err(_)) => ExitCode::from(5),
        None => {
            let _ = rt.eprintln("workloads JOB LISTS LINES SEED");
            ExitCode::from(2)
        }
    }
}
