//! Plans and tables that several tests start from.

ghost use Rattle.std.specs.Prelude.{IfOk};
ghost use Rattle.rip_table.specs.State.{Fits};

use rip_log::{FromRead, LogReader};
use rip_plan::Plan;
use rip_table::{CollectCause, GridTable, ListTable, MetricTable, Table, TableError, collect};
use std::alloc::Global;
use std::hash::{BuildHasherDefault, FoldHasher};
use std::process::Abort;

/// The table that the program has.
pub(crate) type Grid = GridTable<BuildHasherDefault<FoldHasher>>;

/// The plan of a text.
pub(crate) fn plan_of(rt: &impl Abort, alloc: Global, text: &str) -> Plan {
    match Plan::read(alloc, text.as_bytes()) {
        Ok(plan) => plan,
        Err(_) => panic!(rt; "no plan"),
    }
}

/// An empty grid, if there is memory for it.
pub(crate) fn new_grid(alloc: Global, plan: &Plan) -> Result<Grid, TableError>
    ensures { IfOk result (λ table.
        Fits plan.now (⟦<GridTable<BuildHasherDefault<FoldHasher>> as Table>⟧.state table)) }
{
    GridTable::with_hasher(alloc, plan, BuildHasherDefault::<FoldHasher>::new())
}

/// Joins a log into a table. Nothing fails but an allocation.
pub(crate) fn fill<T: MetricTable>(
    rt: &impl Abort,
    alloc: Global,
    plan: &Plan,
    log: &[u8],
    table: &mut T,
) -> Result<(), TableError>
    requires { Fits plan.now (T.state table.old) }
    ensures { Fits plan.now (T.state table.new) }
{
    let Ok(mut reader) = LogReader::new(alloc, FromRead::new(log)) else {
        return Err(TableError::Memory);
    };
    if let Err(error) = collect(plan, &mut reader, table) {
        assert!(rt; error.cause == CollectCause::Table(TableError::Memory));
        return Err(TableError::Memory);
    }
    Ok(())
}

/// The plain table of a log.
pub(crate) fn list_of(rt: &impl Abort, alloc: Global, plan: &Plan, log: &str) -> ListTable
    ensures { Fits plan.now (⟦<ListTable as Table>⟧.state result) }
{
    let Ok(mut table) = ListTable::new(alloc, plan) else {
        panic!(rt; "no table");
    };
    assert!(rt; fill(rt, alloc, plan, log.as_bytes(), &mut table).is_ok());
    table
}
