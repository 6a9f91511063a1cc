//! The command `table`: what the interfaces of a plan showed in a log.

ghost use Rattle.std.specs.Prelude.{◌≡◌, ◌+◌, ◌<◌, ◌++◌, IfOk, length, codes, ℕ, List, Some};
ghost use Rattle.std.specs.List.{enumerate_from, flat_map};
ghost use Rattle.rip_report.specs.AnywayText.{AnywayTable};
ghost use Rattle.rip_report.specs.Given.{IsGiven};
ghost use Rattle.rip_report.specs.Hearings.{TableAnyway};
ghost use Rattle.rip_table.specs.State.{Fits, State};
ghost use Rattle.rip_report.specs.Lines.{interface_name};
ghost use Rattle.rip_report.specs.Outs.{Adds, AddsOne};
ghost use Rattle.rip_report.specs.TableText.{TableText, interface_lines, prefix_lines, shown_lines, table_line};
ghost use Rattle.rip_report.specs.ReportText.{IsAccepted};
ghost use Rattle.rip_report.specs.Runs.{RunsOnLog, RunsToEnd};
ghost use Rattle.rip_report.specs.Sent.{WentOut};
ghost use Rattle.rip_report.specs.Texts.{AreOfMetrics, AreTexts, text_of};
ghost use Rattle.rip_plan.specs.Network.{Network};
ghost use Rattle.rip_plan.specs.declared.parts.Interface.{Interface};
ghost use Rattle.rip_wire.specs.Prefix.{Block, prefix_text};

use crate::events::{EventReport, run_counted};
use crate::left_out::{anyway_status, push_left_out_line};
use crate::lines::push_unheard_line;
use crate::output::Out;
use crate::report::{Report, run_report};
use crate::status::{RunError, Status};
use crate::texts::{FRONT_BYTES, METRICS, SHORT_BYTES, Text, Texts};
use rip_log::{Sink, Source};
use rip_plan::{Interface, Plan};
use rip_table::{Counts, Table};
use rip_wire::Metric;
use std::alloc::{AllocError, Global};
use std::hash::BuildHasher;

/// Adds the line of the counts.
#[tactic(auto, unfolding(crate::specs::TableText::table_line))]
fn push_counts_line<K: Sink>(out: &mut Out<K>, interfaces: usize, prefixes: usize)
    ensures { Adds out.old out.new (table_line interfaces prefixes) }
{
    out.push("table: ");
    out.push_number(interfaces as u64);
    out.push(" interfaces, ");
    out.push_number(prefixes as u64);
    out.push(" prefixes");
    out.end();
}

/// An interface and a blank: what each of its lines begins with.
fn front_of(plan: &Plan, interface: Interface) -> Text<FRONT_BYTES>
    requires router { interface.router < length plan.now.routers }
    requires link { interface.link < length plan.now.links }
    ensures { text_of result ≡ interface_name plan.now interface ++ codes " " }
{
    plan.lawful();
    let mut text = Text::new();
    text.push(plan.router_name(interface.router));
    text.push(" ");
    text.push(plan.link_name(interface.link));
    text.push(" ");
    text
}

/// Adds the line of a prefix, if the interface shows it, by the texts of both.
fn push_prefix_line<K: Sink>(
    out: &mut Out<K>,
    front: &Text<FRONT_BYTES>,
    prefix: &Text<SHORT_BYTES>,
    metrics: &[Text<SHORT_BYTES>; METRICS],
    metric: Option<Metric>,
)
    requires { AreOfMetrics metrics.now }
    ensures { (n : Network) (i : Interface) (p : Block) →
        text_of front.now ≡ interface_name n i ++ codes " " →
        text_of prefix.now ≡ prefix_text p ++ codes " " →
        Adds out.old out.new (prefix_lines n i p metric) }
{
    if let Some(metric) = metric {
        let end = &metrics[metric.get() as usize];
        out.push_parts(front.as_bytes(), prefix.as_bytes(), end.as_bytes());
    }
}

/// Adds the lines of the prefixes that the interface of a number shows.
fn push_shown_lines<T: Table, K: Sink>(
    out: &mut Out<K>,
    plan: &Plan,
    table: &T,
    texts: &Texts,
    number: usize,
    interface: Interface,
)
    requires texts { AreTexts (T.state table.now).prefixes texts.now }
    requires number { number < (T.state table.now).interfaces }
    requires router { interface.router < length plan.now.routers }
    requires link { interface.link < length plan.now.links }
    ensures { Adds out.old out.new (shown_lines plan.now (T.state table.now) number interface) }
{
    let front = front_of(plan, interface);
    for k in 0..table.prefix_count() {
        let metric = table.metric(number, k);
        push_prefix_line(out, &front, &texts.prefixes[k], &texts.metrics, metric);
    }
}

/// Adds the lines of the interface of a number.
fn push_interface_lines<T: Table, K: Sink>(
    out: &mut Out<K>,
    plan: &Plan,
    table: &T,
    texts: &Texts,
    number: usize,
    interface: Interface,
)
    requires texts { AreTexts (T.state table.now).prefixes texts.now }
    requires number { number < (T.state table.now).interfaces }
    requires router { interface.router < length plan.now.routers }
    requires link { interface.link < length plan.now.links }
    ensures { Adds out.old out.new
        (interface_lines plan.now (T.state table.now) (number, interface)) }
{
    if table.heard(number) {
        push_shown_lines(out, plan, table, texts, number, interface);
    } else {
        push_unheard_line(out, plan, interface);
    }
}

/// Adds the lines of all interfaces.
fn push_interfaces<T: Table, K: Sink>(out: &mut Out<K>, plan: &Plan, table: &T)
    requires { Fits plan.now (T.state table.now) }
    ensures { Adds out.old out.new (flat_map (interface_lines plan.now (T.state table.now))
        (enumerate_from 0 plan.now.interfaces)) }
{
    plan.lawful();
    let texts = Texts::of(table);
    for i in 0..plan.interfaces() {
        push_interface_lines(out, plan, table, &texts, i, plan.interface(i));
    }
}

/// Adds a table, with how much is left out of it after its counts.
fn add_table<T: Table, K: Sink>(
    out: &mut Out<K>,
    plan: &Plan,
    table: &T,
    left_out: Counts,
) -> Status
    requires { Fits plan.now (T.state table.now) }
    ensures { AddsOne out.old out.new (λ text. AnywayTable plan.now (T.state table.now) left_out
        (record { text = text; status = result })) }
{
    push_counts_line(out, plan.interfaces(), table.prefix_count());
    push_left_out_line(out, left_out);
    push_interfaces(out, plan, table);
    anyway_status(left_out, Status::Done)
}

/// The command `table`.
#[derive(Clone, Copy)]
struct TableCommand;

impl Report for TableCommand {
    ghost is_text = { λ _. TableText };

    fn add<T: Table, K: Sink>(
        &self,
        _: Global,
        out: &mut Out<K>,
        plan: &Plan,
        table: &T,
    ) -> Result<Status, AllocError> {
        Ok(add_table(out, plan, table, Counts::new()))
    }
}

impl EventReport<Counts> for TableCommand {
    ghost is_text = { λ _. TableAnyway };

    fn add<T: Table, K: Sink>(
        &self,
        _: Global,
        out: &mut Out<K>,
        plan: &Plan,
        table: &T,
        left_out: &Counts,
    ) -> Result<Status, AllocError> {
        Ok(add_table(out, plan, table, *left_out))
    }
}

/// Prints the table of a log by the plan in a TOML document, or why the plan or the log is refused.
/// The source and the sink come back. The log chooses the prefixes, so the hasher should be seeded
/// at random.
pub fn run_table<R: Source, K: Sink, S: BuildHasher + Drop>(
    alloc: Global,
    plan: &[u8],
    log: R,
    out: K,
    hasher: S,
) -> (R, K, Result<Status, RunError>)
    ensures runs { RunsOnLog R.Source K.Sink TableText plan.now log out result }
{
    run_report(alloc, &TableCommand, plan, log, out, hasher)
}

/// Prints the table of what is not refused in a log, good or bad, with how much is left out of it,
/// by the plan in a TOML document; or why the plan is refused. The log is read to its end, whatever
/// its lines say, up to line 1,000,001. The source and the sink come back. The log chooses the
/// prefixes, so the hasher should be seeded at random. `Done` where nothing is left out, and else
/// `Refused`.
pub fn run_table_anyway<R: Source, K: Sink, S: BuildHasher + Drop>(
    alloc: Global,
    plan: &[u8],
    log: R,
    out: K,
    hasher: S,
) -> (R, K, Result<Status, RunError>)
    ensures runs { RunsToEnd R.Source K.Sink TableAnyway plan.now log out result }
    // Of a log that is accepted it is what `table` prints.
    ensures accepted { (text : List ℕ) → IsGiven R.given R.at_end log result.0 text →
        (n : Network) (s : State) → IsAccepted plan.now text n s →
        IfOk result.2 (WentOut (TableText n s) (K.taken out) (K.taken result.1)) }
{
    run_counted(alloc, &TableCommand, plan, log, out, hasher)
}
