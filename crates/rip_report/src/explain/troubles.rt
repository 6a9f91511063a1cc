//! What a log shows instead of tables.

ghost use Rattle.std.specs.Prelude.{◌<◌, Decides, IsTrue, length, ℕ};
ghost use Rattle.rip_plan.specs.Relations.{IsInterface};
ghost use Rattle.rip_table.specs.State.{Fits};
ghost use Rattle.rip_report.specs.AuditText.{IsKnownTrouble};
ghost use Rattle.rip_report.specs.ExplainText.{AllTroubles, HeardLine, HeardLines, TroubleLines, UnclearText, UnderTrouble, UnheardLines, UnreadLines};
ghost use Rattle.rip_report.specs.Outs.{AddsOne};

use crate::explain::lines::{push_heard_line, push_none_heard_line};
use crate::explain::places::add_shown;
use crate::lines::verdicts::push_unclear_line;
use crate::loops::{NumberText, PairText, add_below, add_listed, add_pairs};
use crate::output::Out;
use rip_check::{Case, Unclear};
use rip_log::Sink;
use rip_plan::Plan;
use rip_table::Table;

/// Each interface of a table, where it was heard.
#[derive(Drop)]
struct Heard<'a, T: Table> {
    plan: &'a Plan,
    table: &'a T,
}

impl<T: Table> NumberText for Heard<'_, T> {
    ghost is_for = { λ texts i. Fits texts.plan.now (T.state texts.table.now)
        × (i < length texts.plan.now.interfaces) };

    ghost is_text = { λ texts i. HeardLine texts.plan.now (T.state texts.table.now) i };

    fn add<K: Sink>(&self, out: &mut Out<K>, number: usize) {
        self.plan.lawful();
        if self.table.heard(number) {
            push_heard_line(out, self.plan, self.plan.interface(number));
        }
    }
}

/// Whether an interface on a link was heard.
fn any_heard<T: Table>(plan: &Plan, table: &T, link: usize) -> bool
    requires fits { Fits plan.now (T.state table.now) }
    requires link { link < length plan.now.links }
    ensures { Decides result ((i r c : ℕ)
        × IsInterface plan.now i r link c × IsTrue ((T.state table.now).heard i)) }
{
    let numbers = plan.on_link(link);
    for i in numbers {
        if table.heard(*i) {
            return true;
        }
    }
    false
}

/// Adds the interfaces on a link that were heard, or that none was.
fn add_heard<T: Table, K: Sink>(out: &mut Out<K>, plan: &Plan, table: &T, link: usize)
    requires fits { Fits plan.now (T.state table.now) }
    requires link { link < length plan.now.links }
    ensures { AddsOne out.old out.new (HeardLines plan.now (T.state table.now) link) }
{
    if any_heard(plan, table, link) {
        add_listed(out, &Heard { plan, table }, plan.on_link(link));
    } else {
        push_none_heard_line(out, plan, link);
    }
}

/// Adds what a trouble comes from.
fn add_under<T: Table, K: Sink>(out: &mut Out<K>, plan: &Plan, table: &T, trouble: &Unclear)
    requires fits { Fits plan.now (T.state table.now) }
    requires trouble { IsKnownTrouble plan.now (T.state table.now) trouble.now }
    ensures { AddsOne out.old out.new (UnderTrouble plan.now (T.state table.now) trouble.now) }
{
    match *trouble {
        Unclear::NotHeard { link, .. } => add_heard(out, plan, table, link),
        Unclear::TwoMetrics { router, prefix }
        | Unclear::Missing { router, prefix, .. }
        | Unclear::ShownOn { router, prefix, .. }
        | Unclear::TwoWays { router, prefix } => {
            add_shown(out, &Case::new(plan, table, prefix), router);
        }
    }
}

/// Adds the line of a trouble, and what it comes from.
fn add_trouble<T: Table, K: Sink>(out: &mut Out<K>, plan: &Plan, table: &T, trouble: &Unclear)
    requires fits { Fits plan.now (T.state table.now) }
    requires trouble { IsKnownTrouble plan.now (T.state table.now) trouble.now }
    ensures { AddsOne out.old out.new (TroubleLines plan.now (T.state table.now) trouble.now) }
{
    push_unclear_line(out, plan, table, trouble);
    add_under(out, plan, table, trouble);
}

/// Each interface of a table, where it was not heard.
#[derive(Drop)]
struct Unheard<'a, T: Table> {
    plan: &'a Plan,
    table: &'a T,
}

impl<T: Table> NumberText for Unheard<'_, T> {
    ghost is_for = { λ texts i. Fits texts.plan.now (T.state texts.table.now)
        × (i < length texts.plan.now.interfaces) };

    ghost is_text = { λ texts i. UnheardLines texts.plan.now (T.state texts.table.now) i };

    fn add<K: Sink>(&self, out: &mut Out<K>, number: usize) {
        self.plan.lawful();
        if !self.table.heard(number) {
            let own = self.plan.interface(number);
            let trouble = Unclear::NotHeard {
                router: own.router,
                link: own.link,
            };
            add_trouble(out, self.plan, self.table, &trouble);
        }
    }
}

/// A router and a prefix of which no route can be read.
#[derive(Clone, Copy)]
struct Unread;

impl PairText for Unread {
    ghost fits = { λ _ _ _. Unit {0} };

    ghost is_text = { λ _ n s r p. UnreadLines n s r p };

    fn add<T: Table, K: Sink>(&self, out: &mut Out<K>, case: &Case<'_, T>, router: usize) {
        case.plan.lawful();
        if let Err(trouble) = case.route(router) {
            add_trouble(out, case.plan, case.table, &trouble);
        }
    }
}

/// Adds all troubles of the kind of one.
fn add_troubles<T: Table, K: Sink>(out: &mut Out<K>, plan: &Plan, table: &T, first: &Unclear)
    requires { Fits plan.now (T.state table.now) }
    ensures { AddsOne out.old out.new (AllTroubles plan.now (T.state table.now) first.now) }
{
    match first {
        Unclear::NotHeard { .. } => {
            add_below(out, &Unheard { plan, table }, plan.interfaces());
        }
        Unclear::TwoMetrics { .. }
        | Unclear::Missing { .. }
        | Unclear::ShownOn { .. }
        | Unclear::TwoWays { .. } => {
            add_pairs(out, &Unread, plan, table);
        }
    }
}

/// Adds the first trouble, or all of its kind, and what they come from.
pub(crate) fn add_unclear<T: Table, K: Sink>(
    out: &mut Out<K>,
    plan: &Plan,
    table: &T,
    all: bool,
    first: &Unclear,
)
    requires fits { Fits plan.now (T.state table.now) }
    requires first { IsKnownTrouble plan.now (T.state table.now) first.now }
    ensures { AddsOne out.old out.new (UnclearText plan.now (T.state table.now) all first.now) }
{
    if all {
        add_troubles(out, plan, table, first);
    } else {
        add_trouble(out, plan, table, first);
    }
}
