//! How a log of capture files is written.

use crate::captures::authentication::Authentication;

/// How a log of capture files is written.
#[derive(Clone, Copy, Debug, PartialEq, Eq)]
pub struct Manner {
    pub authentication: Authentication,
    /// Whether each line of a packet begins with its time.
    pub times: bool,
}
