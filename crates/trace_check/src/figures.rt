//! Which number of a report is wrong.

ghost use Rattle.std.specs.Prelude.{◌≡◌};
ghost use Rattle.promise_core.specs.State.{Known};
ghost use Rattle.reply_judge.specs.KnownMachine.{ShowsKnown};
ghost use Rattle.trace_check.specs.Reasons.{report_changed, report_wrong};

use crate::reason::Reason;
use reply_judge::KnownMachine;
use words_core::Report;

/// Returns the first number of the tenant's report that is wrong.
pub(crate) fn report_wrong(machine: &KnownMachine, tenant: u32, report: &Report) -> Option<Reason>
    ensures { (w : Known) → ShowsKnown machine.now w → result ≡ report_wrong w tenant report.now }
{
    match machine.figure_wrong(tenant, report) {
        Some(wrong) => Some(Reason::Report(wrong)),
        None => None,
    }
}

/// Returns the first number of the tenant's last report that the report has to repeat, and does not.
pub(crate) fn report_changed(machine: &KnownMachine, tenant: u32, report: &Report) -> Option<Reason>
    ensures { (w : Known) → ShowsKnown machine.now w → result ≡ report_changed w tenant report.now }
{
    match machine.figure_changed(tenant, report) {
        Some(wrong) => Some(Reason::Report(wrong)),
        None => None,
    }
}
