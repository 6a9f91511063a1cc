//! The limits of a plan, and its defaults.

/// The most bytes of a plan's text.
pub const MOST_PLAN_BYTES: usize = 1_048_576;

/// The most links of a plan.
pub const MOST_LINKS: usize = 512;

/// The most routers of a plan.
pub const MOST_ROUTERS: usize = 128;

/// The most interfaces of a plan.
pub const MOST_INTERFACES: usize = 1_024;

/// The most further addresses of the interfaces of a plan, all together.
pub const MOST_ALSO: usize = 1_024;

/// The most places of prefixes of a plan.
pub const MOST_PLACES: usize = 1_024;

/// The most prefixes in the lists of a plan's links, all together.
pub const MOST_LISTED: usize = 1_024;

/// The highest cost of an interface and of an own prefix (RFC 2453, 3.5).
pub const MOST_COST: u8 = 15;

/// The cost of an interface or an own prefix whose table gives none (RFC 2453, 3.5).
pub const DEFAULT_COST: u8 = 1;

/// Whether an own prefix is kept whose table does not say it.
pub const DEFAULT_KEPT: bool = false;

/// Whether interfaces poison where neither their table nor the root says it (RFC 2453, 3.4.3).
pub const DEFAULT_POISON: bool = true;
