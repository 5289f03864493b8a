//! Limits on what is read.

/// How many bytes a source may have.
pub const MAX_SOURCE: u64 = 1_048_576;

/// How many levels statements may be nested, where a module's block has level 1.
pub const MAX_LEVEL: u32 = 128;

/// How many formals a module may have.
pub const MAX_FORMALS: usize = 256;

/// How large a module may be, in units.
pub const MAX_UNITS: u64 = 100_000;
