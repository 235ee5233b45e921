//! The meaning of a finding. Each law is the contract of an empty function. A proof that needs a law calls its function.

ghost use Rattle.trace_check.specs.Laws.{BrokenIsNotAllowed, KeptIsAllowed};

/// If the finding is `Kept`, the replies are the texts of one reply to each faulty line and each event of the trace, in order.
/// The reply to a faulty line reports its fault, and each reply to an event is allowed.
pub fn kept_is_allowed()
    ensures { KeptIsAllowed }
{}

/// If the finding is `Broken`, the replies before the breach are allowed replies to the lines before it. If a line is left, it
/// has an event or a fault, and the text that follows does not begin with an allowed reply to the event whose numbers fit the
/// types of `Reply`, or with the report of the fault. If no line is left, there is still text. The breach names the line, or the
/// last line if none is left, and the first line of that text, both counted from 1.
pub fn broken_is_not_allowed()
    ensures { BrokenIsNotAllowed }
{}
