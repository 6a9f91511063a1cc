//! The texts of the commands that read a plan of a RIP-2 network, a log, or one datagram. What
//! `runs` says of each run, CALLING.md says in words.
#![tactic(auto)]

mod audit;
mod captures;
mod decode;
mod events;
mod expect;
mod explain;
mod heard;
pub mod laws;
mod left_out;
mod lines;
mod log;
mod loops;
mod names;
mod output;
mod own;
mod page;
mod plan;
mod refusal;
mod report;
mod routes;
mod seen;
mod status;
mod table;
mod texts;
mod watch;
mod whatif;

pub use audit::run_audit;
pub use captures::{Authentication, CaptureLog, FilePart, Manner, Selection, log_failure, run_log};
pub use decode::run_decode;
pub use expect::run_expect;
pub use explain::run_explain;
pub use heard::run_heard;
pub use own::{run_audit_routes, run_explain_routes};
pub use plan::run_plan;
pub use routes::{run_routes, run_routes_anyway};
pub use status::{RunError, Status, exit_code, fault_line};
pub use table::{run_table, run_table_anyway};
pub use watch::{Watching, run_watch};
pub use whatif::run_whatif;
