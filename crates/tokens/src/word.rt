// The words' numbers, by the Rust's names: which sign, which keyword or which other word a token is (specs/Words.antt).
// kept: numbers and no enum, since the grammar's table and its theorems speak of these numbers, and the C interface hands them out.

// No word stands here, or the source ends.
pub const NONE: u64 = 0;

// Literals, by their rules.
pub const IPV6: u64 = 1;

pub const IPV4: u64 = 2;

pub const ASN: u64 = 5;

pub const HEX: u64 = 6;

pub const INTEGER: u64 = 7;

pub const FLOAT: u64 = 8;

pub const STRING: u64 = 9;

pub const CHAR: u64 = 10;

// `true` and `false`.
pub const BOOL: u64 = 12;

pub const NAME: u64 = 13;

// `_` alone.
pub const UNDERSCORE: u64 = 14;

pub const EQ_EQ: u64 = 20;

pub const FAT_ARROW: u64 = 21;

pub const BANG_EQ: u64 = 22;

pub const ANGLE_LEFT_EQ: u64 = 23;

pub const ANGLE_RIGHT_EQ: u64 = 24;

pub const AMP_AMP: u64 = 25;

pub const PIPE_PIPE: u64 = 26;

pub const ARROW: u64 = 27;

pub const PLUS_EQ: u64 = 28;

pub const MINUS_EQ: u64 = 29;

pub const STAR_EQ: u64 = 30;

pub const SLASH_EQ: u64 = 31;

pub const PERCENT_EQ: u64 = 32;

pub const CURLY_LEFT: u64 = 40;

pub const CURLY_RIGHT: u64 = 41;

pub const ROUND_LEFT: u64 = 42;

pub const ROUND_RIGHT: u64 = 43;

pub const SQUARE_LEFT: u64 = 44;

pub const SQUARE_RIGHT: u64 = 45;

pub const COLON: u64 = 46;

pub const SEMI_COLON: u64 = 47;

pub const COMMA: u64 = 48;

pub const PERIOD: u64 = 49;

pub const EQ: u64 = 50;

pub const QUESTION_MARK: u64 = 51;

pub const BANG: u64 = 52;

pub const HYPHEN: u64 = 53;

pub const PLUS: u64 = 54;

pub const STAR: u64 = 55;

pub const SLASH: u64 = 56;

pub const PERCENT: u64 = 57;

pub const ANGLE_LEFT: u64 = 58;

pub const ANGLE_RIGHT: u64 = 59;

pub const ACCEPT: u64 = 60;

pub const CONST: u64 = 61;

pub const DEP: u64 = 62;

pub const ELSE: u64 = 63;

pub const ENUM: u64 = 64;

pub const FILTER: u64 = 65;

pub const FILTERMAP: u64 = 66;

pub const FOR: u64 = 67;

pub const FN: u64 = 68;

pub const IF: u64 = 69;

pub const IMPORT: u64 = 70;

pub const IN: u64 = 71;

pub const LET: u64 = 72;

pub const MATCH: u64 = 73;

pub const PKG: u64 = 74;

pub const RECORD: u64 = 75;

pub const REJECT: u64 = 76;

pub const RETURN: u64 = 77;

pub const STD: u64 = 78;

pub const SUPER: u64 = 79;

pub const TEST: u64 = 80;

pub const WHILE: u64 = 81;

// Words that the lexer hasn't: `f"`, and a piece of an f-string's text before a hole and before its quote.
pub const F_QUOTE: u64 = 90;

pub const TEXT_THEN_HOLE: u64 = 91;

pub const LAST_TEXT: u64 = 92;

// What is no token.
pub const NO_TOKEN: u64 = 99;
