//! A worked example: what the definitions say of a film of one line. A function that does nothing,
//! whose contract is a fact, like the laws.

ghost use Rattle.std.specs.Prelude.{false};
ghost use Rattle.rip_table.specs.Examples.{one_router};
ghost use Rattle.rip_report.specs.Examples.{one_line};
ghost use Rattle.rip_report.specs.WatchText.{EndsRight};

/// The one interface of a network is heard, and says that it cannot reach a prefix, which nobody
/// has: the last second, the only one, is right. So the status of `watch` is Settled.
pub fn settled_second()
    ensures { EndsRight one_router 90 false one_line }
{
    rip_wire::laws::names();
}
