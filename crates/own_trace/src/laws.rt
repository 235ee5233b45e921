//! The laws of a tenant's own lines of a trace. Each law is the contract of an empty function. A proof that needs the law calls
//! the function.

ghost use Rattle.own_trace.specs.Laws.{KeptAreOwnList, OwnListAlone, LinesAlone};

/// The lines that are kept for a tenant have, in order, exactly the entries of the tenant's own list of the trace. No entry is
/// left out, and none is another tenant's.
pub fn kept_are_own_list()
    ensures { KeptAreOwnList }
{}

/// If the lines that are kept for an existing tenant are run alone on a new machine of the same sizes, the tenant's own list
/// there is its own list of the whole trace. So, if there are at most 2^64 tenants, the tenant gets the same reply lines as in
/// the run of the whole trace. All this holds if slots have at least 8 frames and RAM has at most 2^32 bytes.
pub fn alone()
    ensures list { OwnListAlone }
    ensures lines { LinesAlone }
{}
