// The kinds of rows, as document 01 numbers them; 46 and 47 are document 02's.
// kept: numbers and no enum, since rows lie in a lent table of numbers that the C interface hands out, and specs/Kinds.antt names these.

// No row: a token or a part of a phrase.
pub const NONE: u64 = 0;

pub const NAME: u64 = 1;

pub const PATH: u64 = 2;

// The type `!`.
pub const NEVER: u64 = 3;

// The type `()`.
pub const UNIT: u64 = 4;

// A type and `?`.
pub const OPTION: u64 = 5;

pub const PATH_TYPE: u64 = 6;

pub const RECORD_TYPE: u64 = 7;

pub const TYPED_NAME: u64 = 8;

pub const INTEGER: u64 = 10;

pub const FLOAT: u64 = 11;

pub const BOOL: u64 = 12;

pub const ASN: u64 = 13;

pub const IPV4: u64 = 14;

pub const IPV6: u64 = 15;

pub const STRING: u64 = 16;

pub const CHAR: u64 = 17;

pub const BINARY: u64 = 20;

// `!` before an operand.
pub const NOT: u64 = 21;

// `-` before an operand.
pub const NEGATE: u64 = 22;

pub const CALL: u64 = 23;

pub const ACCESS: u64 = 24;

// An operand and `?`.
pub const QUESTION: u64 = 25;

pub const ASSIGN: u64 = 26;

pub const RETURN: u64 = 27;

pub const IF: u64 = 28;

pub const WHILE: u64 = 29;

pub const FOR: u64 = 30;

pub const MATCH: u64 = 31;

pub const ARM: u64 = 32;

// `_`.
pub const ANY: u64 = 33;

pub const VARIANT: u64 = 34;

pub const BLOCK: u64 = 35;

pub const RECORD: u64 = 36;

pub const FIELD: u64 = 37;

pub const LET: u64 = 38;

pub const IMPORT: u64 = 39;

pub const CONST: u64 = 40;

pub const FN: u64 = 41;

pub const TEST: u64 = 42;

pub const TREE: u64 = 43;

pub const IMPORT_PATH: u64 = 44;

// `filter` and `filtermap`.
pub const FILTER: u64 = 45;

pub const F_STRING: u64 = 46;

// A text part of an f-string.
pub const TEXT: u64 = 47;
