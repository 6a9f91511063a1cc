//! Tests of the libraries below `rip_report` that need a proof: devices that fail, refused allocations, and a caller of each library.
//! They have a crate of their own, because a crate with tests is proved twice. `rip_report_tests` uses the devices and the examples too.
#![tactic(auto)]

#[cfg(test)]
mod calling;
#[cfg(test)]
mod capture;
#[cfg(test)]
mod check;
pub mod devices;
#[cfg(test)]
mod events;
pub mod examples;
#[cfg(test)]
mod fixtures;
#[cfg(test)]
mod log;
#[cfg(test)]
mod routes;
#[cfg(test)]
mod table;
#[cfg(test)]
mod wire;
