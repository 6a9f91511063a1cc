//! The callers of `rip_report`.

ghost use Rattle.std.specs.Prelude.{◌≡◌, ◌≢◌, ◌∷◌, ◌++◌, [], ℕ, List, Err, IfOk, false};
ghost use Rattle.rip_log.specs.Taken.{Took};
ghost use Rattle.rip_plan.specs.Network.{Network};
ghost use Rattle.rip_table.specs.State.{State};
ghost use Rattle.rip_wire.specs.Name.{IsName};
ghost use Rattle.rip_report.specs.AuditText.{AuditText, IsJudged};
ghost use Rattle.rip_report.specs.CaptureLogs.{LogOf};
ghost use Rattle.rip_report.specs.Given.{IsGiven};
ghost use Rattle.rip_report.specs.ReportText.{IsAccepted};
ghost use Rattle.rip_report.specs.Selections.{nothing_named};
ghost use Rattle.rip_report.specs.declared.captures.authentication.Authentication.{Authentication};

use rip_log::{FromRead, IntoWrite, Sink, Source};
use rip_report::{
    Authentication, CaptureLog, FilePart, Manner, RunError, Selection, Status, run_audit, run_log,
};
use rip_tests::examples::{LITTLE, PHANTOM, SETTLED, TRIANGLE};
use rip_wire::is_name;
use std::alloc::Global;
use std::hash::{BuildHasherDefault, FoldHasher};

/// The status of the verdict that a plan and a log give, of a file or of any other source. The
/// verdict's line goes out. The source, which has given the text that was judged, comes back, and the
/// sink does.
fn verdict_of<R: Source, K: Sink>(
    alloc: Global,
    plan: &[u8],
    log: R,
    out: K,
) -> (R, K, Result<Status, RunError>)
    ensures { (text : List ℕ) → IsGiven R.given R.at_end log result.0 text →
        (n : Network) (s : State) → IsAccepted plan.now text n s → IfOk result.2 (IsJudged n s) }
{
    let hasher = BuildHasherDefault::<FoldHasher>::default();
    run_audit(alloc, plan, log, out, false, hasher)
}

/// Writes the log of one capture file, all of which is a link's. Where the sink fails a beginning of it
/// goes out, and else the whole: it ends in a line that says so where the file is refused or could not
/// be read.
fn log_of<R: Source, K: Sink>(
    alloc: Global,
    link: &str,
    file: R,
    out: K,
) -> (R, K, Result<Status, RunError>)
    requires { IsName link.now }
    ensures { (bytes : List ℕ) → IsGiven R.given R.at_end file result.0 bytes →
        result.2 ≢ Err RunError.Write → (text : List ℕ)
        × LogOf (record { authentication = Authentication.AsSent; times = false })
        (record { part = record { link = link.now; selection = nothing_named }; bytes = bytes }
        ∷ [])
        text result.2
        × Took (K.taken out) (K.taken result.1) text }
{
    let mut log = CaptureLog::new(Manner {
        authentication: Authentication::AsSent,
        times: false,
    });
    let part = FilePart {
        link,
        selection: Selection {
            interface: &[][..],
            vlans: &[][..],
        },
    };
    run_log(alloc, &mut log, &part, file, out)
}

/// Audits a plan and a log in memory, and adds the lines of the verdict to a vector. The vector comes
/// back: it holds what it held, and then the whole text, or a beginning where memory for more is refused.
fn audit_into(
    alloc: Global,
    plan: &[u8],
    log: &[u8],
    lines: Vec<u8>,
) -> (Vec<u8>, Result<Status, RunError>)
    ensures text { IfOk result.1 (λ status. (text : List ℕ)
        × AuditText plan.now log.now false (record { text = text; status = status })
        × (result.0.items ≡ lines.items ++ text)) }
    ensures write { result.1 ≡ Err RunError.Write → (front left : List ℕ)
        × (status : Status)
        × AuditText plan.now log.now false (record { text = front ++ left; status = status })
        × (result.0.items ≡ lines.items ++ front) }
    ensures memory { result.1 ≡ Err RunError.Memory → result.0.items ≡ lines.items }
{
    let hasher = BuildHasherDefault::<FoldHasher>::default();
    let out = IntoWrite::new(lines);
    let (_, out, answer) = run_audit(alloc, plan, FromRead::new(log), out, false, hasher);
    (out.into_writer(), answer)
}

#[test]
fn a_log_is_audited(rt: HostRuntime) {
    for (log, status) in [(SETTLED, Status::Settled), (PHANTOM, Status::Unsettled)] {
        let out = IntoWrite::new(Vec::new(rt.alloc()));
        let log = FromRead::new(log.as_bytes());
        let (_, _, answer) = verdict_of(rt.alloc(), TRIANGLE.as_bytes(), log, out);
        assert_eq!(rt; answer, Ok(status));
    }
}

#[test]
fn verdicts_are_added(rt: HostRuntime) {
    let alloc = rt.alloc();
    let plan = TRIANGLE.as_bytes();
    let (lines, first) = audit_into(alloc, plan, SETTLED.as_bytes(), Vec::new(alloc));
    let (lines, second) = audit_into(alloc, plan, PHANTOM.as_bytes(), lines);
    assert_eq!(rt;
        (first, second),
        (Ok(Status::Settled), Ok(Status::Unsettled))
    );
    let both = b"settled: 3 routers, 3 prefixes
unsettled: router r1 prefix 10.9.0.0/16: metric 2, equation 3
";
    assert!(rt; lines.as_slice() == &both[..]);
}

#[test]
fn a_capture_becomes_a_log(rt: HostRuntime) {
    let out = IntoWrite::new(Vec::new(rt.alloc()));
    let link = "10.2.0.0-16";
    assert!(rt; is_name(link.as_bytes()));
    let (_, out, answer) = log_of(rt.alloc(), link, FromRead::new(&LITTLE[..]), out);
    assert_eq!(rt; answer, Ok(Status::Done));
    let text = b"10.2.0.0-16 10.1.0.1 02020000000200000a020000ffff00000000000000000003
# file 1 link 10.2.0.0-16: 1 packets, 1 datagrams
";
    assert!(rt; out.into_writer().as_slice() == &text[..]);
}
