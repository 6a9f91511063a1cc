//! What is printed where a plan is refused.

ghost use Rattle.std.specs.Prelude.{◌≡◌, ◌≢◌, ◌↔◌, Err};
ghost use Rattle.rip_report.specs.Outs.{Adds};
ghost use Rattle.rip_report.specs.PlanText.{at_text, plan_code_text, refused_plan, word_of};
ghost use Rattle.rip_report.specs.Sent.{Prints};

use crate::output::Out;
use crate::status::{RunError, Status};
use rip_log::Sink;
use rip_plan::{At, PlanCode, PlanError};

/// The word of a code.
fn word(code: PlanCode) -> &'static str
    ensures { result.now ≡ word_of code }
{
    match code {
        PlanCode::Syntax => "Syntax",
        PlanCode::Version => "Version",
        PlanCode::Key => "Key",
        PlanCode::Name => "Name",
        PlanCode::DuplicateName => "DuplicateName",
        PlanCode::Address => "Address",
        PlanCode::Prefix => "Prefix",
        PlanCode::Cost => "Cost",
        PlanCode::DuplicatePrefix => "DuplicatePrefix",
        PlanCode::UnknownLink => "UnknownLink",
        PlanCode::TwiceOnLink => "TwiceOnLink",
        PlanCode::DuplicateAddress => "DuplicateAddress",
        PlanCode::OutsidePrefix => "OutsidePrefix",
        PlanCode::NoInterface => "NoInterface",
        PlanCode::Limit => "Limit",
        PlanCode::Memory => "Memory",
    }
}

/// Adds the number and the word of a code.
fn push_code<K: Sink>(out: &mut Out<K>, code: PlanCode)
    ensures { Adds out.old out.new (plan_code_text code) }
{
    out.push_number(u64::from(code.number()));
    out.push(" ");
    out.push(word(code));
}

/// Adds a position in a plan's text.
fn push_at<K: Sink>(out: &mut Out<K>, place: At)
    ensures { Adds out.old out.new (at_text place) }
{
    match place {
        At::Text => out.push("text"),
        At::Version => out.push("version"),
        At::Link(i) => out.push_numbered("link ", i),
        At::LinkPrefix(i, j) => {
            out.push_numbered("link ", i);
            out.push_numbered(" prefix ", j);
        }
        At::LinkOnly(i, j) => {
            out.push_numbered("link ", i);
            out.push_numbered(" only ", j);
        }
        At::Router(i) => out.push_numbered("router ", i),
        At::RouterInterface(i, j) => {
            out.push_numbered("router ", i);
            out.push_numbered(" interface ", j);
        }
        At::RouterOwn(i, j) => {
            out.push_numbered("router ", i);
            out.push_numbered(" own ", j);
        }
    }
}

/// Adds the line of a fault.
fn push_fault_line<K: Sink>(out: &mut Out<K>, error: PlanError)
    ensures { Adds out.old out.new ((refused_plan error).text) }
{
    out.push("refused: plan ");
    push_code(out, error.code);
    out.push(" at ");
    push_at(out, error.place);
    out.end();
}

/// Ends a run whose plan is refused, or for whose plan there is no memory.
pub(crate) fn refuse_plan<K: Sink>(error: PlanError, out: K) -> (K, Result<Status, RunError>)
    ensures prints { Prints K.taken K.broken out result.0 result.1 (λ w. w ≡ refused_plan error) }
    ensures memory { (result.1 ≡ Err RunError.Memory) ↔ (error.code ≡ PlanCode.Memory) }
    ensures read { result.1 ≢ Err RunError.Read }
{
    if error.code == PlanCode::Memory {
        return (out, Err(RunError::Memory));
    }
    let mut text = Out::new(out);
    push_fault_line(&mut text, error);
    text.finish_with(Ok(Status::Refused))
}
