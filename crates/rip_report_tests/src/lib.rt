//! Tests of `rip_report` that need a proof: each command on sources that give a few bytes a call, on sources and sinks that fail, and the
//! callers of the crate. What the commands print is tested with the built program, by tests/goldens.
#![tactic(auto)]

#[cfg(test)]
mod calling;
#[cfg(test)]
mod captures;
#[cfg(test)]
mod commands;
#[cfg(test)]
mod inputs;
#[cfg(test)]
mod plans;
#[cfg(test)]
mod watch;
