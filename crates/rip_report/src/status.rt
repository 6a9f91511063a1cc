//! What a run comes to.

ghost use Rattle.std.specs.Prelude.{◌≡◌};
ghost use Rattle.rip_report.specs.Statuses.{exit_code_of, fault_line_of};

/// What a run has found.
#[derive(Clone, Copy, Debug, PartialEq, Eq)]
pub enum Status {
    /// The network has settled on right routes.
    Settled,
    /// What was asked for is printed.
    Done,
    /// A place is named where the routes are not right.
    Unsettled,
    /// The log does not show one set of tables; an interface was not heard, or not all of the log is
    /// of the plan; or a datagram in a capture file is not there whole.
    Unclear,
    /// A plan, a log, a datagram or a capture file is refused, or a part of a log is left out.
    Refused,
}

/// Why a run gave up.
#[derive(Clone, Copy, Debug, PartialEq, Eq)]
pub enum RunError {
    /// The source has failed, or a file could not be opened or read.
    Read = 1,
    /// The sink has failed.
    Write,
    /// A growth was refused.
    Memory,
}

/// The exit status of a run.
pub fn exit_code(outcome: &Result<Status, RunError>) -> u8
    ensures { result ≡ exit_code_of outcome.now }
{
    match outcome {
        Ok(Status::Settled) | Ok(Status::Done) => 0,
        Ok(Status::Unsettled) => 1,
        Ok(Status::Unclear) => 2,
        Ok(Status::Refused) => 3,
        Err(_) => 4,
    }
}

/// The line that tells why a run gave up.
pub fn fault_line(error: &RunError) -> &'static str
    ensures { result.now ≡ fault_line_of error.now }
{
    match error {
        RunError::Read => "failed: read",
        RunError::Write => "failed: write",
        RunError::Memory => "failed: memory",
    }
}
