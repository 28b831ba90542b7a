// The bytes of a source, their classes, and how far a run of one class reaches; and what every entry point answers.
#![tactic(auto)]

ghost use Rattle.std.specs.Prelude.{◌≡◌, true, false, ◌&&◌, ◌≤◌, ◌<◌, leb, eqb, length, get_or, All};
ghost use Rattle.std.specs.List.{AllWithin};
ghost use Rattle.chars.specs.declared.Class.TheVariants.{Ascii, Line, NamePart};
ghost use Rattle.chars.specs.Chars.{is_blank, is_digit, is_hex_digit, is_letter, is_class, byte_at};
ghost use Rattle.chars.specs.Runs.{past_run, behind_last};
ghost use Rattle.chars.specs.Texts.{same};

pub mod refusal;

// The longest source.
pub const MOST_BYTES: usize = 65535;

// How many bytes are tested at once: a line is short, a source is long.
const LINE_BLOCK: usize = 16;

const SOURCE_BLOCK: usize = 32;

// The first number that is no byte: what stands past the end.
const NO_BYTE: u16 = 256;

// The classes of bytes that runs are made of.
#[derive(Clone, Copy, Debug, PartialEq, Eq)]
pub enum Class {
    Ascii,
    Blank,
    Line,
    Digit,
    Figure,
    HexDigit,
    HexColon,
    NamePart,
}

// The answer of an entry point: a number, a place and a count.
#[derive(Clone, Copy, Debug, PartialEq, Eq)]
pub struct Answer {
    pub number: u64,
    pub start: usize,
    pub end: usize,
    pub count: usize,
}

fn is_between(b: u16, first: u8, last: u8) -> bool
    ensures { result ≡ (leb first b && leb b last) }
{
    (u16::from(first) <= b) & (b <= u16::from(last))
}

fn is_byte(b: u16, this: u8) -> bool
    ensures { result ≡ eqb b this }
{
    b == u16::from(this)
}

pub fn is_blank(b: u16) -> bool
    ensures { result ≡ is_blank b }
{
    is_between(b, b'\t', b'\r') | is_byte(b, b' ')
}

pub fn is_digit(b: u16) -> bool
    ensures { result ≡ is_digit b }
{
    is_between(b, b'0', b'9')
}

pub fn is_hex_digit(b: u16) -> bool
    ensures { result ≡ is_hex_digit b }
{
    is_between(b, b'0', b'9') | is_between(b, b'A', b'F') | is_between(b, b'a', b'f')
}

pub fn is_letter(b: u16) -> bool
    ensures { result ≡ is_letter b }
{
    is_between(b, b'A', b'Z') | is_between(b, b'a', b'z')
}

// Letters first: most bytes of a name are one.
fn is_name_part(b: u16) -> bool
    ensures { result ≡ is_class NamePart b }
{
    if is_letter(b) {
        return true;
    }
    is_digit(b) | is_byte(b, b'_')
}

pub fn is_class(k: Class, b: u16) -> bool
    ensures { result ≡ is_class k b }
{
    match k {
        Class::Ascii => b < 128,
        Class::Blank => is_blank(b),
        Class::Line => !is_byte(b, b'\n') & (b < NO_BYTE),
        Class::Digit => is_digit(b),
        Class::Figure => is_digit(b) | is_byte(b, b'_'),
        Class::HexDigit => is_hex_digit(b),
        Class::HexColon => is_hex_digit(b) | is_byte(b, b':'),
        Class::NamePart => is_name_part(b),
    }
}

// The byte at a place, and 256 past the end: so no place needs a test before it is read.
// kept: a number and no Option, since the definition of every rule reads a place by this number (specs/Chars.antt, byte_at).
pub fn byte_at(s: &[u8], at: usize) -> u16
    ensures { result ≡ byte_at s.now at }
{
    if at < s.len() {
        u16::from(s[at])
    } else {
        NO_BYTE
    }
}

// Past the bytes from a place on that pass a test.
// kept: as a `for` over the places it is slower by a third on long runs, since the end is chosen once more behind it.
fn past_those<F: Fn(u8) -> bool>(s: &[u8], at: usize, passes: F) -> usize
    requires { F.IsAlwaysCallable passes }
    ensures from { at ≤ result }
    ensures passed { AllWithin (λ b. F.post passes b true) s.now at result }
    ensures inside { at < result → result ≤ length s.now }
    ensures stopped { result < length s.now → F.post passes (get_or s.now result 0) false }
{
    let mut i = at;
    while i < s.len() && passes(s[i]) {
        i += 1;
    }
    i
}

// Past the run of bytes of one class that starts at a place.
pub fn past(s: &[u8], at: usize, k: Class) -> usize
    ensures { result ≡ past_run (is_class k) s.now at }
{
    past_those(s, at, |b| is_class(k, u16::from(b)))
}

// Whether a byte of a block passes a test: nothing leaves the loop early, so that it is compiled to one test of all its bytes.
fn any_passes<F: Fn(u8) -> bool>(block: &[u8], passes: F) -> bool
    requires { F.IsAlwaysCallable passes }
    ensures { result ≡ false → All (λ b. F.post passes b false) block.now }
{
    let mut any = false;
    for b in block {
        any = any | passes(*b);
    }
    any
}

// From a place on past the blocks of a length in which no byte passes a test.
// kept: no `chunks_exact`, since the place must then be counted beside the chunks, and the invariant say where each of them stands.
pub fn past_blocks<F: Fn(u8) -> bool, const N: usize>(s: &[u8], at: usize, stops: F) -> usize
    requires callable { F.IsAlwaysCallable stops }
    requires size { (0 < N) × (N ≤ 64) }
    ensures from { at ≤ result }
    ensures passed { AllWithin (λ b. F.post stops b false) s.now at result }
    ensures inside { at < result → result ≤ length s.now }
{
    if s.len() < at {
        return at;
    }
    let mut i = at;
    while i + N <= s.len() {
        if any_passes(&s[i..i + N], &stops) {
            return i;
        }
        i += N;
    }
    i
}

// As `past` of the class Line, block by block.
pub fn past_line(s: &[u8], at: usize) -> usize
    ensures { result ≡ past_run (is_class Line) s.now at }
{
    let from = past_blocks::<_, LINE_BLOCK>(s, at, |b| b == b'\n');
    past(s, from, Class::Line)
}

// As `past` of the class Ascii, block by block.
pub fn past_ascii(s: &[u8], at: usize) -> usize
    ensures { result ≡ past_run (is_class Ascii) s.now at }
{
    let from = past_blocks::<_, SOURCE_BLOCK>(s, at, |b| 128 <= b);
    past(s, from, Class::Ascii)
}

// As `past` of the class NamePart, whose test is then compiled into the loop.
pub fn past_name(s: &[u8], at: usize) -> usize
    ensures { result ≡ past_run (is_class NamePart) s.now at }
{
    past_those(s, at, |b| is_name_part(u16::from(b)))
}

// The place behind the last byte of a kind before an end, or 0.
pub fn behind_last(s: &[u8], end: usize, c: u16) -> usize
    ensures { result ≡ behind_last c s.now end }
{
    for i in (0..end).rev() {
        if byte_at(s, i) == c {
            return i + 1;
        }
    }
    0
}

// Two texts have the same bytes.
// kept: the library's `==` compares by groups of bytes, and names, which are short, are then read slower by a tenth.
pub fn same(t: &[u8], u: &[u8]) -> bool
    ensures { result ≡ same t.now u.now }
{
    if t.len() != u.len() {
        return false;
    }
    for i in 0..t.len() {
        if t[i] != u[i] {
            return false;
        }
    }
    true
}
