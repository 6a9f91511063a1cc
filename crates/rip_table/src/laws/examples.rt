//! A worked example: what the definitions say of two lines. A function that does nothing, whose
//! contract is a fact, like the laws.

ghost use Rattle.std.specs.Prelude.{◌≡◌, Some};
ghost use Rattle.rip_table.specs.State.{new_state};
ghost use Rattle.rip_table.specs.Joined.{outcome, refused_at};
ghost use Rattle.rip_table.specs.Examples.{one_metric, one_router, prefix, two_metrics};
ghost use Rattle.rip_table.specs.declared.error.CollectCause.TheVariants.{Table};
ghost use Rattle.rip_table.specs.declared.error.TableError.TheVariants.{Changed};

/// An interface shows a prefix with metric 1, and then with 2: line 2 is refused, and the table
/// keeps what line 1 gave.
pub fn changed_metric()
    ensures { outcome one_router (new_state one_router) two_metrics
        ≡ refused_at one_metric 2 (Table (Changed prefix 1 2)) }
{}
