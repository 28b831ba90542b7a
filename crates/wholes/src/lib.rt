// Whole numbers of the eight types, each held as its lowest bits.
#![tactic(auto)]

ghost use Rattle.std.specs.Prelude.{◌≡◌, ◌+◌, ◌*◌, ◌%◌, ◌^◌, not, ◌+ℤ◌, ◌-ℤ◌, ◌*ℤ◌, neg_ℤ, unsigned_abs};
ghost use Rattle.std.specs.Int.Signed.{lt_z, non_neg};
ghost use Rattle.wholes.specs.Wholes.{bits_of, span, lowest, number, quotient_of, remainder_of};

#[derive(Clone, Copy, Debug, PartialEq, Eq)]
pub enum Integer {
    I8,
    I16,
    I32,
    I64,
    U8,
    U16,
    U32,
    U64,
}

// What a half of 64 bits holds.
const HALF: u64 = 1 << 32;

// The bits that the type has.
pub fn reduced(x: u64, t: Integer) -> u64
    ensures { result ≡ x % span t }
{
    match t {
        Integer::I8 | Integer::U8 => x % (1 << 8),
        Integer::I16 | Integer::U16 => x % (1 << 16),
        Integer::I32 | Integer::U32 => x % (1 << 32),
        Integer::I64 | Integer::U64 => x,
    }
}

// a * b, modulo 2^64, by halves of 32 bits.
#[tactic(auto, using(crate::proofs::Laws::within, crate::proofs::Laws::halves))]
pub fn wrapping_mul(a: u64, b: u64) -> u64
    ensures { result ≡ a * b % 2 ^ 64 }
{
    let (a0, a1) = (a % HALF, a / HALF);
    let (b0, b1) = (b % HALF, b / HALF);
    let cross = (a1 * b0 % HALF + a0 * b1 % HALF) % HALF;
    (cross * HALF).wrapping_add(a0 * b0)
}

#[tactic(auto, using(crate::proofs::Laws::summed))]
pub fn sum(t: Integer, a: u64, b: u64) -> u64
    ensures { result ≡ lowest (span t) (number t a +ℤ number t b) }
{
    reduced(a.wrapping_add(b), t)
}

#[tactic(auto, using(crate::proofs::Laws::subtracted))]
pub fn difference(t: Integer, a: u64, b: u64) -> u64
    ensures { result ≡ lowest (span t) (number t a -ℤ number t b) }
{
    reduced(a.wrapping_sub(b), t)
}

#[tactic(auto, using(crate::proofs::Laws::multiplied))]
pub fn product(t: Integer, a: u64, b: u64) -> u64
    ensures { result ≡ lowest (span t) (number t a *ℤ number t b) }
{
    reduced(wrapping_mul(a, b), t)
}

pub fn negated(t: Integer, a: u64) -> u64
    ensures { result ≡ lowest (span t) (neg_ℤ (number t a)) }
{
    reduced(a.wrapping_neg(), t)
}

// Whether the number with these bits is below zero.
pub fn negative(t: Integer, a: u64) -> bool
    ensures { result ≡ not (non_neg (number t a)) }
{
    match t {
        Integer::I8 => 1 << 7 <= reduced(a, t),
        Integer::I16 => 1 << 15 <= reduced(a, t),
        Integer::I32 => 1 << 31 <= reduced(a, t),
        Integer::I64 => 1 << 63 <= reduced(a, t),
        Integer::U8 | Integer::U16 | Integer::U32 | Integer::U64 => false,
    }
}

// The number without its sign.
#[tactic(auto, using(crate::proofs::Signs::size_under, crate::proofs::Signs::size_over))]
pub fn magnitude(t: Integer, a: u64) -> u64
    ensures { result ≡ unsigned_abs (number t a) }
{
    if negative(t, a) {
        return negated(t, a);
    }
    reduced(a, t)
}

// None where the divisor is zero.
pub fn quotient(t: Integer, a: u64, b: u64) -> Option<u64>
    ensures { result ≡ quotient_of t a b }
{
    let d = magnitude(t, b);
    if d == 0 {
        return None;
    }
    let q = magnitude(t, a) / d;
    if negative(t, a) == negative(t, b) {
        Some(reduced(q, t))
    } else {
        Some(negated(t, q))
    }
}

// None where the divisor is zero.
#[tactic(auto, using(crate::proofs::Signs::no_remainder, crate::proofs::Signs::rest_over, crate::proofs::Signs::rest_under))]
pub fn remainder(t: Integer, a: u64, b: u64) -> Option<u64>
    ensures { result ≡ remainder_of t a b }
{
    let d = magnitude(t, b);
    if d == 0 {
        return None;
    }
    let m = magnitude(t, a) % d;
    if negative(t, a) {
        Some(negated(t, m))
    } else {
        Some(reduced(m, t))
    }
}

// The number with its sign drawn out to 64 bits.
#[tactic(auto, using(crate::proofs::Signs::extended_under, crate::proofs::Signs::extended_over))]
pub fn extended(t: Integer, a: u64) -> u64
    ensures { result ≡ lowest (2 ^ 64) (number t a) }
{
    if negative(t, a) {
        return negated(Integer::U64, magnitude(t, a));
    }
    reduced(a, t)
}

// Whether one number of 64 bits with a sign is below another.
pub fn less(a: u64, b: u64) -> bool
    ensures { result ≡ lt_z (number Integer.I64 a) (number Integer.I64 b) }
{
    let below = negative(Integer::I64, a);
    if below == negative(Integer::I64, b) {
        a < b
    } else {
        below
    }
}
