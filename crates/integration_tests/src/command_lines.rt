//! The command line of `partmem`: the settings that its words request, how words are refused, and how a run ends.

use command_line::{Outcome, PROGRAM, Settings, outcome_of, read_words};
use kernel_core::Config;
use replay_core::{ReplayError, Tally};
use std::alloc::{AllocError, Global};
use std::process::Abort;
use std::test::Fail;

/// Compiles only if the functions have these types.
fn types() {
    let _: fn(&Outcome) -> u8 = Outcome::status;
    let _: fn(&Result<Tally, ReplayError>) -> Outcome = outcome_of;
}

/// Reads a command line whose words are separated by blanks.
fn read(alloc: Global, line: &str) -> Result<Result<Settings, Outcome>, AllocError> {
    let words: Vec<&str> = line.split_whitespace().collect(alloc)?;
    Ok(read_words(alloc, &words))
}

/// Valid command lines, each with its order, superblocks and tenants, and with the tenant of `--only` if there is one.
const IN_ORDER: [(&str, (u32, u32, u32), Option<u8>); 3] = [
    (
        "--order 3 --superblocks 256 --tenants 64 --only 63",
        (3, 256, 64),
        Some(63),
    ),
    ("--order 8 --superblocks 64 --tenants 16", (8, 64, 16), None),
    (
        "--only 0 --tenants 1 --superblocks 1 --order 4",
        (4, 1, 1),
        Some(0),
    ),
];

#[test]
fn words_ask_for_settings(rt: HostRuntime) -> Result<(), Fail> {
    types();
    for (line, sizes, only) in IN_ORDER {
        let Ok(settings) = read(rt.alloc(), line)? else {
            panic!(rt; "refused: {line}");
        };
        let config: Config = settings.config;
        let asked = (config.order, config.superblocks, config.tenants);
        assert!(rt; asked == sizes && settings.only == only, "{line}");
        assert!(rt; settings.file.is_none(), "{line}");
    }
    Ok(())
}

#[test]
fn the_file_is_a_word_as_it_was_written(rt: HostRuntime) {
    let words = [
        "--order",
        "3",
        "--superblocks",
        "2",
        "--tenants",
        "2",
        "a trace",
    ];
    let file = match read_words(rt.alloc(), &words) {
        Ok(settings) => settings.file,
        Err(_) => None,
    };
    assert!(rt; file.is_some_and(|file: String| file.as_str() == "a trace"));
}

/// The ways in which a command line is refused.
#[derive(Clone, Copy)]
enum Refused {
    Help,
    Version,
    BadLine,
    BadOnly,
}

/// Returns whether the command line was refused in this way.
fn is_refused(read: &Result<Settings, Outcome>, refused: Refused) -> bool {
    match (read, refused) {
        (Err(Outcome::Help(_)), Refused::Help)
        | (Err(Outcome::Version(_)), Refused::Version)
        | (Err(Outcome::BadLine(_)), Refused::BadLine)
        | (Err(Outcome::BadOnly), Refused::BadOnly) => true,
        _ => false,
    }
}

const REFUSED: [(&str, Refused); 14] = [
    ("--help", Refused::Help),
    ("--version", Refused::Version),
    ("", Refused::BadLine),
    ("--order 2 --superblocks 2 --tenants 2", Refused::BadLine),
    ("--order 3 --superblocks 257 --tenants 2", Refused::BadLine),
    ("--order 3 --superblocks 2 --tenants 65", Refused::BadLine),
    ("--order 9 --superblocks 2 --tenants 2", Refused::BadLine),
    ("--order 3 --superblocks 0 --tenants 2", Refused::BadLine),
    ("--order 3 --superblocks 2 --tenants 0", Refused::BadLine),
    (
        "--order 3 --superblocks 2 --tenants 2 --only x",
        Refused::BadLine,
    ),
    (
        "--order 3 --superblocks 2 --tenants 65 --only 300",
        Refused::BadLine,
    ),
    (
        "--order 3 --superblocks 2 --tenants 2 --own 2",
        Refused::BadLine,
    ),
    (
        "--order 3 --superblocks 2 --tenants 2 --only 2",
        Refused::BadOnly,
    ),
    (
        "--order 3 --superblocks 2 --tenants 2 --only 300",
        Refused::BadOnly,
    ),
];

#[test]
fn faulty_words_are_refused(rt: HostRuntime) -> Result<(), Fail> {
    for (line, refused) in REFUSED {
        let read = read(rt.alloc(), line)?;
        assert!(rt; is_refused(&read, refused), "{line}");
    }
    Ok(())
}

/// Checks that an outcome has this status, and this line as its text. An empty line means that it has no text.
fn expect_outcome(
    rt: &(impl AllocGlobal + Abort),
    outcome: &Outcome,
    status: u8,
    line: &str,
) -> Result<(), Fail> {
    let told = match outcome.text(PROGRAM) {
        Some(text) => format!(in rt.alloc(); "{text}")?,
        None => String::new(rt.alloc()),
    };
    assert!(rt;
        outcome.status() == status && told.as_str() == line,
        "{line}"
    );
    Ok(())
}

const UNREAD: &str = "partmem: trace could not be read";

const UNWRITTEN: &str = "partmem: replies could not be written";

#[test]
fn a_failed_replay_has_its_outcome(rt: HostRuntime) -> Result<(), Fail> {
    let tally = Tally {
        lines: 2,
        events: 2,
        faults: 0,
        written: 48,
    };
    let done = outcome_of(&Ok(tally));
    assert!(rt; matches!(done, Outcome::Done));
    expect_outcome(&rt, &done, 0, "")?;
    let unread = outcome_of(&Err(ReplayError::Feed(tally)));
    assert!(rt; matches!(unread, Outcome::Unreadable));
    expect_outcome(&rt, &unread, 1, UNREAD)?;
    let unwritten = outcome_of(&Err(ReplayError::Drain(tally)));
    assert!(rt; matches!(unwritten, Outcome::Unwritable));
    expect_outcome(&rt, &unwritten, 1, UNWRITTEN)
}

#[test]
fn refused_words_have_their_lines(rt: HostRuntime) -> Result<(), Fail> {
    expect_outcome(&rt, &Outcome::BadOnly, 2, "partmem: --only names no tenant")?;
    expect_outcome(&rt, &Outcome::NoMemory, 3, "partmem: not enough memory")?;
    for (line, status) in [("--help", 0), ("--version", 0), ("--order 2", 2)] {
        let Err(outcome) = read(rt.alloc(), line)? else {
            panic!(rt; "accepted: {line}");
        };
        expect_outcome(&rt, &outcome, status, "")?;
    }
    Ok(())
}
