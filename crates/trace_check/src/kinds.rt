//! The kind of answer that an event has.

ghost use Rattle.std.specs.Prelude.{◌≡◌};
ghost use Rattle.trace_check.specs.Kinds.{kind_of_admin, kind_of_command};

use words_core::{AdminCommand, Command};

/// The kind of an answer: that of the command that it answers.
#[derive(Clone, Copy, Debug)]
pub enum AnswerKind {
    Frame,
    Freed,
    Bytes,
    Written,
    Cache,
    Destroyed,
    Object,
    Given,
    Reaped,
    Report,
    Granted,
    TakenBack,
    WasReset,
    Moved,
    Owners,
}

/// Returns the kind of answer that a tenant's command has.
pub(crate) fn kind_of_command(command: &Command) -> AnswerKind
    ensures { result ≡ kind_of_command command.now }
{
    match command {
        Command::Alloc { .. } => AnswerKind::Frame,
        Command::Free { .. } => AnswerKind::Freed,
        Command::Read { .. } => AnswerKind::Bytes,
        Command::Write { .. } => AnswerKind::Written,
        Command::Cache { .. } => AnswerKind::Cache,
        Command::Destroy { .. } => AnswerKind::Destroyed,
        Command::Take { .. } => AnswerKind::Object,
        Command::Give { .. } => AnswerKind::Given,
        Command::Reap => AnswerKind::Reaped,
        Command::Report => AnswerKind::Report,
    }
}

/// Returns the kind of answer that a command of the administrator has.
pub(crate) fn kind_of_admin(command: &AdminCommand) -> AnswerKind
    ensures { result ≡ kind_of_admin command.now }
{
    match command {
        AdminCommand::Grant { .. } => AnswerKind::Granted,
        AdminCommand::TakeBack { .. } => AnswerKind::TakenBack,
        AdminCommand::Reset { .. } => AnswerKind::WasReset,
        AdminCommand::Move { .. } => AnswerKind::Moved,
        AdminCommand::Pool => AnswerKind::Owners,
    }
}
