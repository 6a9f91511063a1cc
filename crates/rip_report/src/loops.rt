//! What is written of each of many, one after the other: by their numbers, or of routers and
//! prefixes.

ghost use Rattle.std.specs.Prelude.{◌≡◌, ◌<◌, List, length, slice_index, ℕ};
ghost use Rattle.rip_plan.specs.Network.{Network};
ghost use Rattle.rip_table.specs.State.{Fits, State};
ghost use Rattle.rip_check.specs.Cases.{plan_of, state_of};
ghost use Rattle.rip_report.specs.Listings.{TextsBelow, TextsOf, TextsOfPairs};
ghost use Rattle.rip_report.specs.Outs.{AddsOne};

use crate::output::Out;
use rip_check::Case;
use rip_log::Sink;
use rip_plan::Plan;
use rip_table::Table;

/// What is written of one of many, by its number: of an interface, a router or a prefix.
pub(crate) trait NumberText {
    // Which numbers it is for.
    ghost is_for: { Self → ℕ → Type 0 };

    // The texts that a number may have.
    ghost is_text: { Self → ℕ → List ℕ → Type 0 };

    /// Adds the text of a number.
    fn add<K: Sink>(&self, out: &mut Out<K>, number: usize)
        requires { is_for self.now number }
        ensures { AddsOne out.old out.new (is_text self.now number) };
}

/// Adds the texts of the numbers below another, however a definition counts to it.
pub(crate) fn add_below<E: NumberText, K: Sink>(out: &mut Out<K>, texts: &E, count: usize)
    requires { (i : ℕ) → i < count → E.is_for texts.now i }
    ensures { (k : ℕ) → count ≡ k → AddsOne out.old out.new (TextsBelow (E.is_text texts.now) k) }
{
    for number in 0..count {
        texts.add(out, number);
    }
}

/// Adds the texts of the numbers of a list, however a definition computes it.
pub(crate) fn add_listed<E: NumberText, K: Sink>(out: &mut Out<K>, texts: &E, numbers: &[usize])
    requires { (k : ℕ) → k < length numbers.now →
        E.is_for texts.now (slice_index numbers.now k) }
    ensures { (list : List ℕ) → numbers.now ≡ list →
        AddsOne out.old out.new (TextsOf (E.is_text texts.now) list) }
{
    for number in numbers {
        texts.add(out, *number);
    }
}

/// What is written of a router and a prefix of a table.
pub(crate) trait PairText {
    // What it asks of the plan and the table.
    ghost fits: { Self → Network → State → Type 0 };

    // The texts that a router and a prefix may have, by their numbers.
    ghost is_text: { Self → Network → State → ℕ → ℕ → List ℕ → Type 0 };

    /// Adds the text of a router and the prefix of a case.
    fn add<T: Table, K: Sink>(&self, out: &mut Out<K>, case: &Case<'_, T>, router: usize)
        requires fits { fits self.now (plan_of case.now) (state_of case.now) }
        requires router { router < length (plan_of case.now).routers }
        ensures { AddsOne out.old out.new
            (is_text self.now (plan_of case.now) (state_of case.now) router case.now.prefix) };
}

/// Adds the texts of a router and each prefix.
fn add_row<E: PairText, T: Table, K: Sink>(
    out: &mut Out<K>,
    texts: &E,
    plan: &Plan,
    table: &T,
    router: usize,
)
    requires table { Fits plan.now (T.state table.now) }
    requires fits { E.fits texts.now plan.now (T.state table.now) }
    requires router { router < length plan.now.routers }
    ensures { AddsOne out.old out.new
        (TextsBelow (E.is_text texts.now plan.now (T.state table.now) router)
        (length (T.state table.now).prefixes)) }
{
    for prefix in 0..table.prefix_count() {
        texts.add(out, &Case::new(plan, table, prefix), router);
    }
}

/// Adds the texts of all routers and prefixes, router by router.
pub(crate) fn add_pairs<E: PairText, T: Table, K: Sink>(
    out: &mut Out<K>,
    texts: &E,
    plan: &Plan,
    table: &T,
)
    requires table { Fits plan.now (T.state table.now) }
    requires fits { E.fits texts.now plan.now (T.state table.now) }
    ensures { AddsOne out.old out.new
        (TextsOfPairs (E.is_text texts.now plan.now (T.state table.now))
        (length plan.now.routers) (length (T.state table.now).prefixes)) }
{
    for router in 0..plan.routers() {
        add_row(out, texts, plan, table, router);
    }
}
