//! Marks of places: what the equation of a place gives, where the place does not hold.

ghost use Rattle.std.specs.Prelude.{◌≡◌, ◌≢◌, ℕ, ◌+◌, ◌*◌, ◌<◌, IfOk, List, None, Option, length, slice_index_or};
ghost use Rattle.rip_plan.specs.Network.{Network};
ghost use Rattle.rip_table.specs.State.{Fits, State};
ghost use Rattle.rip_check.specs.Cases.{plan_of, state_of};
ghost use Rattle.rip_check.specs.Marks.{AreMarked};

use crate::case::Case;
use crate::links::{NOTHING, fill};
use rip_plan::{MOST_LINKS, Plan};
use rip_table::Table;
use std::alloc::{AllocError, Global};

/// By what places are marked.
pub(crate) trait Marking {
    // What it asks of the plan and the table.
    ghost fits: { Self → Network → State → Type 0 };

    // What a mark says of a router and a prefix, by their numbers.
    ghost is_mark: { Self → Network → State → ℕ → ℕ → Option ℕ → Type 0 };

    /// The mark of a router and the prefix of a case.
    fn mark<T: Table>(&self, case: &Case<'_, T>, router: usize) -> Option<u8>
        requires fits { fits self.now (plan_of case.now) (state_of case.now) }
        requires router { router < length (plan_of case.now).routers }
        ensures { is_mark self.now (plan_of case.now) (state_of case.now) router
            case.now.prefix result };
}

/// Writes the marks of all places of a prefix.
fn mark_prefix<M: Marking, T: Table>(marking: &M, case: &Case<'_, T>, marks: &mut [Option<u8>])
    requires fits { M.fits marking.now (plan_of case.now) (state_of case.now) }
    requires size { length marks.old
        ≡ length (plan_of case.now).routers * length (state_of case.now).prefixes }
    ensures marked { (r : ℕ) → r < length (plan_of case.now).routers →
        M.is_mark marking.now (plan_of case.now) (state_of case.now) r case.now.prefix
        (slice_index_or marks.new
        (r * length (state_of case.now).prefixes + case.now.prefix) None) }
    ensures others { (r q : ℕ) → q < length (state_of case.now).prefixes → q ≢ case.now.prefix →
        slice_index_or marks.new (r * length (state_of case.now).prefixes + q) None
        ≡ slice_index_or marks.old (r * length (state_of case.now).prefixes + q) None }
{
    let count = case.table.prefix_count();
    for router in 0..case.plan.routers() {
        marks[router * count + case.prefix] = marking.mark(case, router);
    }
}

/// Finds the marks of all places, router by router one for each prefix. The two least metrics of
/// each link are found once for all routers.
pub(crate) fn marks_of<M: Marking, T: Table>(
    alloc: Global,
    marking: &M,
    plan: &Plan,
    table: &T,
) -> Result<Vec<Option<u8>>, AllocError>
    requires table { Fits plan.now (T.state table.now) }
    requires fits { M.fits marking.now plan.now (T.state table.now) }
    ensures { IfOk result (λ marks. AreMarked plan.now (T.state table.now)
        (M.is_mark marking.now plan.now (T.state table.now)) marks.items) }
{
    plan.lawful();
    let count = table.prefix_count();
    let mut marks = vec![in alloc; None; plan.routers() * count]?;
    let mut room = [NOTHING; MOST_LINKS];
    let links = &mut room[..plan.links()];
    for prefix in 0..count {
        let case = Case::new(plan, table, prefix);
        fill(&case, links);
        mark_prefix(marking, &case.with_links(links), marks.as_mut_slice());
    }
    Ok(marks)
}

/// The mark of a router and the prefix of a case.
pub(crate) fn mark_at<T: Table>(
    case: &Case<'_, T>,
    marks: &[Option<u8>],
    router: usize,
) -> Option<u8>
    requires router { router < length (plan_of case.now).routers }
    requires size { length marks.now
        ≡ length (plan_of case.now).routers * length (state_of case.now).prefixes }
    ensures { result ≡ slice_index_or marks.now
        (router * length (state_of case.now).prefixes + case.now.prefix) None }
{
    marks[router * case.table.prefix_count() + case.prefix]
}
