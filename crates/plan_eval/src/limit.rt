//! How large a table may be.

/// How many rows an operator may need.
pub const ROW_LIMIT: u128 = 16_777_216;
