//! The caller of `rip_check`.

ghost use Rattle.std.specs.Prelude.{◌≡◌, ◌↔◌, true};
ghost use Rattle.rip_check.specs.Laws.{ShowsRightTables};
ghost use Rattle.rip_check.specs.Told.{told};
ghost use Rattle.rip_table.specs.State.{Fits};

use crate::examples::{PHANTOM, SETTLED, TRIANGLE};
use crate::fixtures::{list_of, plan_of};
use rip_check::{Verdict, judge};
use rip_plan::Plan;
use rip_table::Table;

/// Whether the tables that a log shows are right.
fn is_right<T: Table>(plan: &Plan, table: &T) -> bool
    requires { Fits plan.now (T.state table.now) }
    ensures { (result ≡ true) ↔ ShowsRightTables plan.now (told plan.now (T.state table.now)) }
{
    judge(plan, table) == Verdict::Settled
}

#[test]
fn a_table_is_judged(rt: HostRuntime) {
    let plan = plan_of(&rt, rt.alloc(), TRIANGLE);
    assert!(rt; is_right(&plan, &list_of(&rt, rt.alloc(), &plan, SETTLED)));
    assert!(rt; !is_right(&plan, &list_of(&rt, rt.alloc(), &plan, PHANTOM)));
}
