// The values of strings and chars, and a string decoded to bytes.
#![tactic(auto)]

ghost use Rattle.std.specs.Prelude.{MatchOption, true, false, ◌≡◌, ◌+◌, ◌≤◌, length, replicate};
ghost use Rattle.std.proofs.lemmas.List.Edits.{sets};
ghost use Rattle.strings.specs.Escapes.{is_bare, simple_of, plain_escape, is_scalar, ascii_of, unicode_of, escape_of, piece_of};
ghost use Rattle.strings.specs.Utf8.{utf8, width_of};
ghost use Rattle.strings.specs.Strings.{measure_of, Holds, is_quoted, inside, bytes_of, size_of, char_of, answer_of, content_of};

use chars::{Answer, MOST_BYTES, refusal};
use numbers::Base;

const TAB: u16 = b'\t' as u16;

const NEWLINE: u16 = b'\n' as u16;

const RETURN: u16 = b'\r' as u16;

const BACKSLASH: u16 = b'\\' as u16;

const QUOTE: u16 = b'"' as u16;

const APOSTROPHE: u16 = b'\'' as u16;

// The letters that stand behind a backslash.
const SMALL_N: u16 = b'n' as u16;

const SMALL_R: u16 = b'r' as u16;

const SMALL_T: u16 = b't' as u16;

const SMALL_U: u16 = b'u' as u16;

const SMALL_X: u16 = b'x' as u16;

const ZERO: u16 = b'0' as u16;

const UNDERSCORE: u16 = b'_' as u16;

const OPEN_BRACE: u16 = b'{' as u16;

const CLOSE_BRACE: u16 = b'}' as u16;

// The surrogates, which are no scalar values, and the greatest one.
const FIRST_SURROGATE: u64 = 0xd800;

const LAST_SURROGATE: u64 = 0xdfff;

const MOST_POINT: u64 = 0x10ffff;

// The first code points that take two, three and four bytes.
const TWO_BYTES: u64 = 0x80;

const THREE_BYTES: u64 = 0x800;

const FOUR_BYTES: u64 = 0x10000;

fn bare(quote: u16, b: u16) -> bool
    ensures { result ≡ is_bare quote b }
{
    (b < 128)
        & (b != RETURN)
        & (b != BACKSLASH)
        & (b != quote)
        & ((quote != APOSTROPHE) | (b != TAB) & (b != NEWLINE))
}

// What a letter behind a backslash stands for, and the two bytes that the escape has.
#[tactic(auto, unfolding(crate::specs::Escapes::simple_of, crate::specs::Escapes::plain_escape))]
fn simple(b: u16) -> Option<(u64, usize)>
    ensures { result ≡ plain_escape (simple_of b) }
{
    match b {
        SMALL_N => Some((u64::from(NEWLINE), 2)),
        SMALL_R => Some((u64::from(RETURN), 2)),
        SMALL_T => Some((u64::from(TAB), 2)),
        ZERO => Some((0, 2)),
        BACKSLASH | APOSTROPHE | QUOTE => Some((u64::from(b), 2)),
        _ => None,
    }
}

fn scalar(c: u64) -> bool
    ensures { result ≡ is_scalar c }
{
    (c < FIRST_SURROGATE) | (LAST_SURROGATE < c) & (c <= MOST_POINT)
}

fn ascii(t: &[u8]) -> Option<(u64, usize)>
    ensures { result ≡ ascii_of t.now }
{
    let h = numbers::digit(chars::byte_at(t, 2));
    let l = numbers::digit(chars::byte_at(t, 3));
    if (h < 8) & (l < 16) {
        return Some((h * 16 + l, 4));
    }
    None
}

fn unicode(t: &[u8]) -> Option<(u64, usize)>
    ensures { result ≡ unicode_of t.now }
{
    if chars::byte_at(t, 2) != OPEN_BRACE {
        return None;
    }
    let e = numbers::until(t, 3, CLOSE_BRACE);
    if (chars::byte_at(t, e) != CLOSE_BRACE) | (chars::byte_at(t, 3) == UNDERSCORE) {
        return None;
    }
    let (value, digits) = numbers::number_of(&t[3..e], Base::Sixteen, MOST_POINT, true)?;
    if (digits <= 6) & scalar(value) {
        return Some((value, e + 1));
    }
    None
}

fn escape(t: &[u8]) -> Option<(u64, usize)>
    ensures { result ≡ escape_of t.now }
{
    let b = chars::byte_at(t, 1);
    match b {
        SMALL_X => ascii(t),
        SMALL_U => unicode(t),
        _ => simple(b),
    }
}

// The character at the front of a text, between quotes of one kind: its code point, and how many bytes write it.
pub fn piece_of(t: &[u8], quote: u16) -> Option<(u64, usize)>
    ensures { result ≡ piece_of quote t.now }
{
    let b = chars::byte_at(t, 0);
    if b == BACKSLASH {
        return escape(t);
    }
    if bare(quote, b) {
        return Some((b as u64, 1));
    }
    None
}

pub fn width(c: u64) -> usize
    ensures { result ≡ width_of c }
{
    if c < TWO_BYTES {
        1
    } else if c < THREE_BYTES {
        2
    } else if c < FOUR_BYTES {
        3
    } else {
        4
    }
}

// How many bytes the inside of a string decodes to.
// kept: a `while`, since a character has from one byte on, and only what is read there says how many.
fn measure(t: &[u8]) -> Option<usize>
    ensures { result ≡ measure_of t.now }
{
    let mut i = 0;
    let mut n: usize = 0;
    while i < t.len() {
        let (code, size) = piece_of(&t[i..], QUOTE)?;
        n += width(code);
        i += size;
    }
    Some(n)
}

// What stands between quotes of one kind.
fn inside(t: &[u8], quote: u8) -> Option<&[u8]>
    ensures { MatchOption result (is_quoted quote t.now ≡ false) (λ x. (is_quoted quote t.now ≡ true) × (x.now ≡ inside t.now)) }
{
    t.strip_prefix(&[quote])?.strip_suffix(&[quote])
}

// How many bytes a string decodes to, its quotes with it.
pub fn string(t: &[u8]) -> Option<usize>
    ensures { result ≡ size_of t.now }
{
    measure(inside(t, b'"')?)
}

// The code point of a char, its quotes with it.
pub fn char_of(t: &[u8]) -> Option<u64>
    ensures { result ≡ char_of t.now }
{
    let inner = inside(t, b'\'')?;
    let (code, size) = piece_of(inner, APOSTROPHE)?;
    if size == inner.len() {
        Some(code)
    } else {
        None
    }
}

// One code point as UTF-8, from a place on.
// kept: not `char::encode_utf8`, since a `char` would have to be made of the number first, and the bytes go right into the lent table.
fn emit(out: &mut [u8], at: usize, c: u64)
    requires { (c ≤ 1114111) × (at + width_of c ≤ length out.old) }
    ensures { out.new ≡ sets out.old at (utf8 c) }
{
    if c < TWO_BYTES {
        out[at] = c as u8;
    } else if c < THREE_BYTES {
        out[at] = (192 + c / 64) as u8;
        out[at + 1] = (128 + c % 64) as u8;
    } else if c < FOUR_BYTES {
        out[at] = (224 + c / 4096) as u8;
        out[at + 1] = (128 + c / 64 % 64) as u8;
        out[at + 2] = (128 + c % 64) as u8;
    } else {
        out[at] = (240 + c / 262144) as u8;
        out[at + 1] = (128 + c / 4096 % 64) as u8;
        out[at + 2] = (128 + c / 64 % 64) as u8;
        out[at + 3] = (128 + c % 64) as u8;
    }
}

// The inside of a string, decoded from the front of a table on.
// kept: a `while`, since both places move by as many bytes as the character has.
fn write(t: &[u8], out: &mut [u8])
    requires { Holds (measure_of t.now) (length out.old) }
    ensures { out.new ≡ sets out.old 0 (bytes_of t.now) }
{
    let mut i = 0;
    let mut at = 0;
    while i < t.len() {
        let Some((code, size)) = piece_of(&t[i..], QUOTE) else {
            return;
        };
        emit(out, at, code);
        at += width(code);
        i += size;
    }
}

// Entry point (e): a string token decoded to bytes.
pub fn decode(s: &[u8], out: &mut [u8]) -> Answer
    ensures value { result ≡ answer_of s.now (length out.old) }
    ensures out_after { out.new ≡ content_of s.now (length out.old) }
{
    out.fill(0);
    let n = s.len();
    if n <= MOST_BYTES {
        if let Some(count) = string(s) {
            if out.len() < count {
                return Answer {
                    number: refusal::NO_ROOM,
                    start: 0,
                    end: 0,
                    count,
                };
            }
            write(&s[1..n - 1], out);
            return Answer {
                number: refusal::NONE,
                start: 0,
                end: n,
                count,
            };
        }
    }
    Answer {
        number: refusal::VALUELESS,
        start: 0,
        end: n,
        count: 0,
    }
}
