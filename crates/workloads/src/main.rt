//! The benchmark: does the jobs that users wait for, on traces that it makes from a seed. For each workload, it prints a digest
//! of all results.
//!
//! `workloads NAME SEED [PART]`
//!
//! NAME is one of `replay`, `own`, `tally`, `check`, `picture` and `crowded`, or `all`; SEED is a number below 2^32. With PART,
//! the number of lines of each trace is divided by PART.
#![tactic(auto)]

ghost use Rattle.std.specs.Prelude.{◌<◌};

mod digest;
mod jobs;
mod load;
mod maker;
mod numbers;
mod text;

use digest::Digest;
use jobs::{run, works_of};
use std::process::ExitCode;
use std::rt::Env;
use std::{env, io};

/// The names of all workloads.
const NAMES: [&str; 6] = ["replay", "own", "tally", "check", "picture", "crowded"];

fn main(rt: HostRuntime) -> ExitCode {
    match run_words(&rt) {
        Ok(true) => ExitCode::SUCCESS,
        Ok(false) => {
            let _unheard = eprintln!(rt;
                "usage: workloads replay|own|tally|check|picture|crowded|all SEED [PART]"
            );
            ExitCode::from(2)
        }
        Err(error) => {
            let _unheard = eprintln!(rt; "workloads: {error}");
            ExitCode::FAILURE
        }
    }
}

/// Runs the workloads that the words request. Returns false if they name no workload or have no valid seed.
fn run_words(rt: &(impl Env + Print + AllocGlobal)) -> io::Result<bool> {
    let mut words = env::args(rt)?;
    let _program = words.next();
    let (Some(name), Some(seed)) = (words.next(), words.next()) else {
        return Ok(false);
    };
    let Ok(seed) = seed.as_str().parse::<u32>() else {
        return Ok(false);
    };
    let part = match words.next() {
        Some(part) => part.as_str().parse::<u32>().unwrap_or(1),
        None => 1,
    };
    let mut is_known = false;
    for (at, known) in NAMES.iter().enumerate() {
        if name.as_str() == *known || name.as_str() == "all" {
            is_known = true;
            // No two workloads have traces of the same seed.
            let own_seed = u64::from(seed).wrapping_mul(8).wrapping_add(at as u64);
            print_digest(rt, known, own_seed, part.max(1))?;
        }
    }
    Ok(is_known)
}

/// Does each `Work` of a workload, and prints one digest of all results.
fn print_digest(rt: &(impl Print + AllocGlobal), name: &str, seed: u64, part: u32) -> io::Result<()>
    requires { 0 < part }
{
    let mut digest = Digest::new();
    let works = works_of(rt.alloc(), name)?;
    for (at, work) in works.iter().enumerate() {
        let mut work = *work;
        work.lines /= part;
        let own_seed = seed.wrapping_mul(64).wrapping_add(at as u64);
        run(rt.alloc(), &work, own_seed, &mut digest)?;
    }
    let value = digest.value();
    println!(rt; "{name} {value:016x}")
}
