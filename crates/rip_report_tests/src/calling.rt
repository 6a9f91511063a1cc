//! The callers that the page `CALLING.md` of `rip_report` shows.

mod report;
