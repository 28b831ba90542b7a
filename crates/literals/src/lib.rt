// What number one float literal is: the bits of the float nearest to the decimal that its bytes write.
#![tactic(auto)]

ghost use Rattle.std.specs.Prelude.{◌≡◌, true, ◌≤◌, length};
ghost use Rattle.std.proofs.Math.Seq.{slice};
ghost use Rattle.chars.specs.Chars.{byte_at, is_digit};
ghost use Rattle.numbers.specs.declared.Base.{Base};
ghost use Rattle.numbers.specs.Digits.{number_of, plain};
ghost use Rattle.floats.specs.Nearest.{format_of};
ghost use Rattle.literals.specs.Answers.{row_of, width_of, size_of, alone_of, refusal, Permitted};
ghost use Rattle.literals.specs.Steps.{written_of};

use chars::{Class, MOST_BYTES, refusal};
use floats::Width;
use numbers::Base;
use rows::kind;
use tokens::Cursor;
use values::Literal;

// The detail of a float's row where the suffix is `f32`.
const F32: u64 = 9;

// Number, place, width in bits, bits; width and bits are 0 for a refusal.
// kept: no enum of both answers, since this record goes out as it stands through the C interface.
#[derive(Debug, Clone, Copy, PartialEq, Eq)]
pub struct Answer {
    pub number: u64,
    pub start: usize,
    pub end: usize,
    pub width: u64,
    pub bits: u64,
}

// The row of the one token that the bytes are.
fn row(t: &[u8]) -> Option<Literal>
    ensures { result ≡ row_of t.now }
{
    let Ok((word, start, next)) = Cursor::new().step(t) else {
        return None;
    };
    if start == 0 && next.at == t.len() {
        return values::literal_at(t, tokens::code_of(word), 0, next.at);
    }
    None
}

// The width that the detail of a float's row names.
fn width(detail: u64) -> Width
    ensures { result ≡ width_of detail }
{
    if detail == F32 {
        Width::F32
    } else {
        Width::F64
    }
}

// Whether the bytes are one float literal, and of which width.
fn one_float(t: &[u8]) -> Option<Width>
    ensures { result ≡ alone_of t.now }
{
    if MOST_BYTES < t.len() {
        return None;
    }
    let Literal {
        kind,
        value: _,
        detail,
    } = row(t)?;
    if kind == kind::FLOAT {
        return Some(width(detail));
    }
    None
}

// The number that the digits between two places write, if it has at most 19.
fn digits(t: &[u8], start: usize, end: usize) -> Option<(u64, usize)>
    requires { (start ≤ end) × (end ≤ length t.now) }
    ensures { result ≡ number_of Base.Ten 9999999999999999999 (plain true (slice start end t.now)) }
{
    numbers::number_of(&t[start..end], Base::Ten, floats::NINETEEN_NINES, true)
}

// The bits that the digits before and after the point write.
fn written(t: &[u8], w: Width) -> Option<u64>
    requires { is_digit (byte_at t.now 0) ≡ true }
    ensures { result ≡ written_of (format_of w) t.now }
{
    let point = chars::past(t, 0, Class::Figure);
    let (whole, _) = digits(t, 0, point)?;
    if numbers::point_at(t, point) {
        let end = chars::past(t, point + 1, Class::Figure);
        let (part, places) = digits(t, point + 1, end)?;
        return floats::decimal(whole, part, places, w);
    }
    floats::decimal(whole, 0, 0, w)
}

fn size(w: Width) -> u64
    ensures { result ≡ size_of w }
{
    match w {
        Width::F32 => 32,
        Width::F64 => 64,
    }
}

// A refusal, placed at the token: all bytes.
fn refused(number: u64, t: &[u8]) -> Answer
    ensures { result ≡ refusal number t.now }
{
    Answer {
        number,
        start: 0,
        end: t.len(),
        width: 0,
        bits: 0,
    }
}

// The number of one float literal: 0 and its bits; 7 where the bytes are no float with a value, 14 for too many digits.
pub fn float(t: &[u8]) -> Answer
    ensures { Permitted t.now result }
{
    let Some(w) = one_float(t) else {
        return refused(refusal::VALUELESS, t);
    };
    match written(t, w) {
        Some(bits) => Answer {
            number: refusal::NONE,
            start: 0,
            end: t.len(),
            width: size(w),
            bits,
        },
        None => refused(refusal::TOO_MANY_DIGITS, t),
    }
}
