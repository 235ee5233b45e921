//! The common part of programs that run a trace: the machine and the files that a command line names, the progress of the run,
//! and the end of the program. The parser of `partmem`'s own command line, [`read_words`], is here too, so that tests can call
//! it.
//!
//! A program that runs a trace has the arguments of `command`, or of `sizes_command` if it has no `--only`. It adds its own
//! arguments with `Command::arg`. From the matches it reads the machine with `MachineOptions::found`, or the sizes with
//! `sizes_found`, and then its own arguments.
#![tactic(auto)]

mod arguments;
mod files;
mod machine_options;
mod outcome;
mod process;
mod progress;
mod settings;
mod sizes;
mod words;

pub use arguments::{Program, command, number, parse, path_of, positional, sizes_command};
pub use files::{FileError, WatchedReader, open, tell_file};
pub use machine_options::MachineOptions;
pub use outcome::{Line, Outcome, outcome_of};
pub use process::{hand_out, tell, texts_of, words_given};
pub use progress::{Progress, ProgressReader, progress_in};
pub use settings::{OWN_PROGRAM, PROGRAM, Settings};
pub use sizes::sizes_found;
pub use words::read_words;
