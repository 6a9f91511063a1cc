//! The caller of `rip_table`.

ghost use Rattle.std.specs.Prelude.{◌≡◌, IfOk};
ghost use Rattle.rip_table.specs.State.{Fits};

use crate::examples::{SETTLED, TRIANGLE};
use crate::fixtures::plan_of;
use rip_log::{FromRead, LogReader};
use rip_plan::Plan;
use rip_table::{ListTable, Table, TableError, collect};
use std::alloc::Global;

/// The table of a log, and whether the log was taken to its end.
fn table_of(alloc: Global, plan: &Plan, log: &[u8]) -> Result<(ListTable, bool), TableError>
    ensures { IfOk result (λ made. Fits plan.now (⟦<ListTable as Table>⟧.state made.0)) }
{
    let mut table = ListTable::new(alloc, plan)?;
    let Ok(mut reader) = LogReader::new(alloc, FromRead::new(log)) else {
        return Err(TableError::Memory);
    };
    let is_whole = collect(plan, &mut reader, &mut table).is_ok();
    Ok((table, is_whole))
}

#[test]
fn a_table_is_filled(rt: HostRuntime) {
    let plan = plan_of(&rt, rt.alloc(), TRIANGLE);
    let Ok((table, is_whole)) = table_of(rt.alloc(), &plan, SETTLED.as_bytes()) else {
        panic!(rt; "no memory");
    };
    assert!(rt; is_whole && table.interface_count() == 6 && table.prefix_count() == 3);
    assert!(rt; table.metric(1, 1).is_some_and(|metric| metric.get() == 2));
}
