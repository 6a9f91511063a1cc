//! The callers that the pages `CALLING.md` of the libraries show.

mod capture;
mod check;
mod log;
mod plan;
mod routes;
mod table;
mod wire;
