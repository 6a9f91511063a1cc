//! Whether the tables of a RIP-2 network are right.
#![tactic(auto)]

mod aftermath;
mod audit;
mod case;
mod expected;
mod failures;
pub mod laws;
mod least;
mod links;
mod lookup;
mod marks;
mod offers;
mod own_audit;
mod own_verdict;
mod places;
mod routes;
mod surveys;
mod told_table;
mod unsettled;
mod untouched;
mod verdict;
mod way;
mod wrong_places;

pub use aftermath::{Aftermath, Impact, Losses};
pub use audit::{judge, next_unsettled};
pub use case::Case;
pub use expected::Expected;
pub use failures::Failure;
pub use least::least_metric;
pub use offers::offer;
pub use own_audit::{judge_own, next_unlisted};
pub use own_verdict::{OwnPlace, OwnVerdict, Wrong};
pub use places::{equation, route};
pub use told_table::ToldTable;
pub use unsettled::Unsettled;
pub use verdict::{Place2, Route, Unclear, Verdict};
pub use way::Way;
pub use wrong_places::WrongPlaces;
