//! Makes one call after a number of allocations, and prints the result of the call.
//!
//! Standard input is a line `SPENT CALL`. First SPENT allocations are made and freed, and then the call with the name CALL is
//! made. In every run, `tests/refused-growths` refuses allocation number N of the run, with the same N for all runs. So SPENT
//! decides which allocation of the call is refused, and the test tries all of them.
#![tactic(auto)]

use buddy_core::Buddy;
use command_line::{Outcome, read_words};
use kernel_core::{BootError, Config, Kernel};
use klist_core::Lists;
use slab_core::Slabs;
use space_core::Space;
use std::alloc::{AllocError, Global};
use std::io::{self, ErrorKind, Read};
use std::str;

fn main(rt: HostRuntime) -> io::Result<()> {
    let mut buffer = [0; 64];
    let count = rt.reader().read(&mut buffer)?;
    match run(rt.alloc(), &buffer[..count]) {
        Some(answer) => println!(rt; "{answer}"),
        None => Err(ErrorKind::InvalidInput.into()),
    }
}

/// Runs a line `SPENT CALL`. Returns the result of the call, or `None` if the line is faulty or there is no such call.
fn run(alloc: Global, line: &[u8]) -> Option<&'static str> {
    let line = str::from_utf8(line).ok()?;
    let (spent, call) = line.trim_end().split_once(' ')?;
    let spent = spent.parse::<u32>().ok()?;
    for _allocation in 0..spent {
        let _freed = Box::new(alloc, 0_u8);
    }
    made(alloc, call).or_else(|| read(alloc, call))
}

/// A machine with two superblocks of eight frames each, and two tenants.
const MACHINE: Config = Config {
    order: 3,
    superblocks: 2,
    tenants: 2,
};

/// Makes a part of `MACHINE`, or boots a kernel. Returns the result of the call with this name, or `None` if there is no such
/// call.
fn made(alloc: Global, call: &str) -> Option<&'static str> {
    match call {
        "Lists::new" => Some(part(&Lists::new(alloc, 16, 6))),
        "Space::new" => Some(part(&Space::new(alloc, 3, 2, 2))),
        "Buddy::new" => Some(part(&Buddy::new(alloc, 3, 2, 2))),
        "Slabs::new" => Some(part(&Slabs::new(alloc, 3, 2, 2))),
        "Kernel::boot" => Some(booted(alloc, MACHINE)),
        "Kernel::boot of a bad number" => Some(badly_booted(alloc)),
        _ => None,
    }
}

fn part<T>(made: &Result<T, AllocError>) -> &'static str {
    match made {
        Ok(_) => "Ok",
        Err(_) => "AllocError",
    }
}

fn booted(alloc: Global, config: Config) -> &'static str {
    match Kernel::boot(alloc, config) {
        Ok(_) => "Ok",
        Err(BootError::Memory) => "Memory",
        Err(BootError::BadConfig) => "BadConfig",
    }
}

/// Bad sizes of machines: in each row the order, the number of superblocks or the number of tenants is out of range.
const BAD: [(u32, u32, u32); 7] = [
    (2, 2, 2),
    (9, 2, 2),
    (3, 0, 2),
    (3, 257, 2),
    (3, 2, 0),
    (3, 2, 65),
    (u32::MAX, u32::MAX, u32::MAX),
];

/// Boots kernels with bad sizes. Returns the first result that is not `BadConfig`, or else `BadConfig`.
fn badly_booted(alloc: Global) -> &'static str {
    for (order, superblocks, tenants) in BAD {
        let answer = booted(
            alloc,
            Config {
                order,
                superblocks,
                tenants,
            },
        );
        if answer != "BadConfig" {
            return answer;
        }
    }
    "BadConfig"
}

/// The words of a command line that is accepted. The command lines `ONLY_TWO` and `ORDER_TWO` are refused.
const IN_ORDER: [&str; 9] = [
    "--order",
    "3",
    "--superblocks",
    "2",
    "--tenants",
    "2",
    "--only",
    "1",
    "trace",
];

const ONLY_TWO: [&str; 8] = [
    "--order",
    "3",
    "--superblocks",
    "2",
    "--tenants",
    "2",
    "--only",
    "2",
];

const ORDER_TWO: [&str; 6] = ["--order", "2", "--superblocks", "2", "--tenants", "2"];

/// Reads the words of a command line. Returns the result of the call with this name, or `None` if there is no such call.
fn read(alloc: Global, call: &str) -> Option<&'static str> {
    match call {
        "read_words" => Some(answered(alloc, &IN_ORDER)),
        "read_words of --only 2" => Some(answered(alloc, &ONLY_TWO)),
        "read_words of --order 2" => Some(answered(alloc, &ORDER_TWO)),
        "read_words of --help" => Some(answered(alloc, &["--help"])),
        _ => None,
    }
}

fn answered(alloc: Global, words: &[&str]) -> &'static str {
    match read_words(alloc, words) {
        Ok(settings) => {
            if settings.config == MACHINE
                && settings.only == Some(1)
                && settings.file.as_deref() == Some("trace")
            {
                "Ok"
            } else {
                "Ok with other settings"
            }
        }
        Err(Outcome::Help(_)) => "Help",
        Err(Outcome::Version(_)) => "Version",
        Err(Outcome::BadLine(_)) => "BadLine",
        Err(Outcome::BadOnly) => "BadOnly",
        Err(Outcome::NoMemory) => "NoMemory",
        Err(Outcome::Done | Outcome::Unreadable | Outcome::Unwritable) => "another outcome",
    }
}
