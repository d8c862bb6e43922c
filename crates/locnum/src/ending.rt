//! The status of the program.

ghost use Rattle.std.specs.Prelude.{◌≡◌};
ghost use Rattle.locnum.specs.Endings.{is_failure, status_of, status_of_run};

use locnum_lines::{Refusals, Report, RunError};

/// Whether a text that is rejected makes the program fail.
fn is_failure(refusals: Refusals) -> bool
    ensures { result ≡ is_failure refusals }
{
    match refusals {
        Refusals::Abort | Refusals::Fail => true,
        Refusals::Warn | Refusals::Ignore => false,
    }
}

/// The status after a run that came to its end: 2 where a text was rejected, unless that only warns
/// or is ignored; else 1 where the run stopped.
fn status_of(refusals: Refusals, report: &Report) -> u8
    ensures { result ≡ status_of refusals report.now }
{
    if is_failure(refusals) && report.is_refused {
        return 2;
    }
    if report.is_stopped { 1 } else { 0 }
}

/// The status after a run: 1 where it failed, but 141 where nobody reads the output any more.
// promise: Settings and what was run determine the status.
// mutations: status_of_a_stop_told_as_done, status_of_fail_told_as_done
pub(crate) fn status_of_run(
    refusals: Refusals,
    is_reader_gone: bool,
    ran: &Result<Report, RunError>,
) -> u8
    ensures { result ≡ status_of_run refusals is_reader_gone ran.now }
{
    match ran {
        Ok(report) => status_of(refusals, report),
        Err(RunError::Write) if is_reader_gone => 141,
        Err(_) => 1,
    }
}
