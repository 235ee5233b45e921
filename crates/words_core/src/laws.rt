//! The law of lines, as the contract of an empty function. A function calls it if its proof needs the law.

ghost use Rattle.words_core.specs.Laws.{EachLineHasACase, NoLineHasTwo};

/// Each line is in exactly one of the eight cases, and has exactly one meaning: an event, nothing, or a
/// fault.
pub fn one_case()
    ensures some { EachLineHasACase }
    ensures only { NoLineHasTwo }
{}
