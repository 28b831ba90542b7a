// Document 01's numbers of refusals.
// kept: numbers and no enum, since the C interface hands them out, and the definitions and theorems on answers speak of these numbers.

// Accepted.
pub const NONE: u64 = 0;

pub const TOO_LONG: u64 = 1;

// A byte of 128 or above.
pub const HIGH_BYTE: u64 = 2;

// The source begins `#!`.
pub const SHEBANG: u64 = 3;

pub const NO_TOKEN: u64 = 4;

// `f"`, in the token list.
pub const F_STRING: u64 = 5;

// Token not usable here.
pub const UNUSABLE: u64 = 6;

// Literal without a value.
pub const VALUELESS: u64 = 7;

// Left side no path.
pub const NO_PATH: u64 = 8;

// Nested too deep.
pub const TOO_DEEP: u64 = 9;

pub const NO_ROOM: u64 = 10;

pub const ENDS_EARLY: u64 = 11;

// More digits than are rounded (C-17).
pub const TOO_MANY_DIGITS: u64 = 14;
