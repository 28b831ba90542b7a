// The numbers that digits write, and what integers, floats, hex numbers and AS numbers say.
#![tactic(auto)]

ghost use Rattle.std.specs.Prelude.{◌≡◌, ◌<◌};
ghost use Rattle.numbers.specs.Digits.{digit_of, radix_of, add_of, number_of, plain};
ghost use Rattle.numbers.specs.Texts.{until_byte};
ghost use Rattle.numbers.specs.Numbers.{suffix_of, ceiling_of, integer_of, point_at, float_of, hex_of, as_of};

use chars::{Class, same};

const PERIOD: u16 = b'.' as u16;

// The ends of the ranges that digits lie in.
const ZERO: u16 = b'0' as u16;

const NINE: u16 = b'9' as u16;

const CAPITAL_A: u16 = b'A' as u16;

const CAPITAL_F: u16 = b'F' as u16;

const SMALL_A: u16 = b'a' as u16;

const SMALL_F: u16 = b'f' as u16;

const UNDERSCORE: u8 = b'_';

// The greatest value of a hex number, and of an integer without a suffix.
const UNSUFFIXED: u64 = 9223372036854775807;

// The greatest AS number: they have 32 bits.
const MOST_AS: u64 = 4294967295;

// The greatest value under each suffix of an integer, by the suffix's number: none, then i8 to i64, then u8 to u64.
const CEILINGS: [u64; 9] = [
    UNSUFFIXED,
    127,
    32767,
    2147483647,
    9223372036854775807,
    255,
    65535,
    4294967295,
    18446744073709551615,
];

// The suffixes, each at its number.
const SUFFIXES: [&[u8]; 11] = [
    b"", b"i8", b"i16", b"i32", b"i64", b"u8", b"u16", b"u32", b"u64", b"f32", b"f64",
];

// The numbers of the floats' suffixes, behind those of the integers', and of any other text.
const F32: u64 = 9;

const F64: u64 = 10;

const NO_SUFFIX: u64 = 11;

#[derive(Debug, Clone, Copy, PartialEq, Eq)]
pub enum Base {
    Ten,
    Sixteen,
}

impl Base {
    fn radix(self) -> u64
        ensures { result ≡ radix_of self }
    {
        match self {
            Base::Ten => 10,
            Base::Sixteen => 16,
        }
    }
}

// What an integer or a float says.
// kept: a suffix is no enum, but the number that a row has for it: 0 for none, 1 to 4 for i8 to i64, 5 to 8 for u8 to u64, 9 for f32, 10 for f64.
#[derive(Debug, Clone, Copy, PartialEq, Eq)]
pub enum Amount {
    Integer { value: u64, suffix: u64 },
    Float(u64),
}

// What a hex digit says, and 16 for any other byte: no digit of either base.
#[tactic(auto, unfolding(crate::specs::Digits::digit_of))]
pub fn digit(b: u16) -> u64
    ensures { result ≡ digit_of b }
{
    match b {
        ZERO..=NINE => u64::from(b - ZERO),
        CAPITAL_A..=CAPITAL_F => 10 + u64::from(b - CAPITAL_A),
        SMALL_A..=SMALL_F => 10 + u64::from(b - SMALL_A),
        _ => 16,
    }
}

// One digit more, where the sum is at most the limit.
fn add(base: Base, limit: u64, value: u64, d: u64) -> Option<u64>
    ensures { result ≡ add_of base limit value d }
{
    let radix = base.radix();
    if radix <= d {
        return None;
    }
    let sum = value.checked_mul(radix)?.checked_add(d)?;
    if sum <= limit { Some(sum) } else { None }
}

// The number that a whole text writes, at most the limit. Underscores are dropped where gaps are allowed.
pub fn number_of(t: &[u8], base: Base, limit: u64, gaps: bool) -> Option<(u64, usize)>
    ensures { result ≡ number_of base limit (plain gaps t.now) }
{
    let mut value: u64 = 0;
    let mut digits: usize = 0;
    for &b in t {
        if gaps && b == UNDERSCORE {
            continue;
        }
        value = add(base, limit, value, digit(u16::from(b)))?;
        digits += 1;
    }
    if digits == 0 {
        None
    } else {
        Some((value, digits))
    }
}

// The first place from `at` on that holds a byte, or the end.
pub fn until(t: &[u8], at: usize, stop: u16) -> usize
    ensures { result ≡ until_byte stop t.now at }
{
    let Some(rest) = t.get(at..) else {
        return at;
    };
    at + rest
        .iter()
        .position(|b| u16::from(*b) == stop)
        .unwrap_or(rest.len())
}

// The number of a suffix, and 11 for a text that is none.
fn suffix(t: &[u8]) -> u64
    ensures { result ≡ suffix_of t.now }
{
    let number = SUFFIXES.iter().position(|name| same(t, name));
    number.unwrap_or(SUFFIXES.len()) as u64
}

// The greatest value under an integer's suffix.
#[tactic(auto, unfolding(crate::specs::Numbers::ceiling_of))]
fn ceiling(suffix: u64) -> u64
    requires { suffix < 9 }
    ensures { result ≡ ceiling_of suffix }
{
    CEILINGS[suffix as usize]
}

pub fn integer(t: &[u8]) -> Option<Amount>
    ensures { result ≡ integer_of t.now }
{
    if !chars::is_digit(chars::byte_at(t, 0)) {
        return None;
    }
    let (figures, rest) = t.split_at(chars::past(t, 0, Class::Figure));
    let suffix = suffix(rest);
    if suffix < F32 {
        let (value, _) = number_of(figures, Base::Ten, ceiling(suffix), true)?;
        return Some(Amount::Integer { value, suffix });
    }
    if suffix < NO_SUFFIX {
        Some(Amount::Float(suffix))
    } else {
        None
    }
}

// `.` and a digit.
pub fn point_at(t: &[u8], at: usize) -> bool
    ensures { result ≡ point_at t.now at }
{
    chars::byte_at(t, at) == PERIOD && chars::is_digit(chars::byte_at(t, at + 1))
}

pub fn float(t: &[u8]) -> Option<Amount>
    ensures { result ≡ float_of t.now }
{
    if !chars::is_digit(chars::byte_at(t, 0)) {
        return None;
    }
    let dot = chars::past(t, 0, Class::Figure);
    if !point_at(t, dot) {
        return None;
    }
    let (_, rest) = t.split_at(chars::past(t, dot + 1, Class::Figure));
    let suffix = suffix(rest);
    if suffix == 0 || suffix == F32 || suffix == F64 {
        return Some(Amount::Float(suffix));
    }
    None
}

pub fn hex(t: &[u8]) -> Option<(u64, usize)>
    ensures { result ≡ hex_of t.now }
{
    number_of(t.strip_prefix(b"0x")?, Base::Sixteen, UNSUFFIXED, false)
}

pub fn as_number(t: &[u8]) -> Option<(u64, usize)>
    ensures { result ≡ as_of t.now }
{
    number_of(t.strip_prefix(b"AS")?, Base::Ten, MOST_AS, false)
}
