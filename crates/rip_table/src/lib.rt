//! Joining the records of a log into a table.
#![tactic(auto)]

mod error;
mod events;
mod grid;
mod guesses;
mod hearing;
mod joining;
mod judging;
pub mod laws;
mod limits;
mod list;
mod listener;
mod noted;
mod recent;
mod scene;
mod table;
mod tallies;
mod window_length;
mod window_table;

pub use error::{CollectAllError, CollectCause, CollectError, TableError};
pub use events::{Bad, Event, Refused, Sender};
pub use grid::GridTable;
pub use grid::window::GridWindow;
pub use hearing::collect_all;
pub use joining::collect;
pub use limits::{MOST_PREFIXES, MOST_WINDOW};
pub use list::ListTable;
pub use listener::Listener;
pub use scene::{Episode, LineCause, LineRefusal, Scene};
pub use table::{MetricTable, Table};
pub use tallies::Tallies;
pub use tallies::counts::Counts;
pub use tallies::interface::{InterfaceTally, Refusal};
pub use tallies::lines::Lines;
pub use tallies::strangers::{MOST_STRANGERS, StrangerTally};
pub use window_length::WindowLength;
pub use window_table::WindowTable;
