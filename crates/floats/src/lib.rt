// The float nearest to a fraction of two whole numbers, a tie to the even one: the bits of an f32 or of an f64.
#![tactic(auto)]

ghost use Rattle.std.specs.Prelude.{◌≡◌, ℕ, ◌+◌, ◌-◌, ◌*◌, ◌^◌, ◌≤◌, ◌<◌};
ghost use Rattle.std.specs.Float.Ieee.Nearest.{closest};
ghost use Rattle.floats.specs.Bits.{bits_of, decimal_of};
ghost use Rattle.floats.specs.Nearest.{format_of};
ghost use Rattle.floats.specs.Steps.{unit_of, lead_of, last_of, Extended, Scaled};

// The greatest number of 19 digits, and the most digits behind the point.
pub const NINETEEN_NINES: u64 = 9999999999999999999;

pub const MOST_PLACES: usize = 19;

#[derive(Debug, Clone, Copy, PartialEq, Eq)]
pub enum Width {
    F32,
    F64,
}

impl Width {
    // What a quotient of 64 binary digits counts to a float's last digit.
    fn unit(self) -> u64
        ensures { result ≡ unit_of self }
    {
        match self {
            Width::F32 => 1099511627776,
            Width::F64 => 2048,
        }
    }

    // The weight of a float's leading digit, and of its exponent's field.
    fn lead(self) -> u64
        ensures { result ≡ lead_of self }
    {
        match self {
            Width::F32 => 8388608,
            Width::F64 => 4503599627370496,
        }
    }

    // The exponent's field, less one, of a number from 2 ^ 63 on and below 2 ^ 64.
    fn last(self) -> u64
        ensures { result ≡ last_of self }
    {
        match self {
            Width::F32 => 189,
            Width::F64 => 1085,
        }
    }
}

#[derive(Clone, Copy)]
struct Division {
    quotient: u64,
    rest: u64,
}

// So many binary digits more of a quotient, and the rest.
fn extend(q: u64, r: u64, d: u64, steps: u32) -> Division
    requires { (r < d) × ((q + 1) * 2 ^ steps ≤ 2 ^ 64) }
    ensures { Extended (q * d + r) d steps result.quotient result.rest }
{
    let mut quotient = q;
    let mut rest = r;
    for _ in 0..steps {
        let gap = d - rest;
        if gap <= rest {
            quotient = quotient * 2 + 1;
            rest = rest - gap;
        } else {
            quotient = quotient * 2;
            rest = rest + rest;
        }
    }
    Division { quotient, rest }
}

#[derive(Clone, Copy)]
struct Binary {
    quotient: u64,
    rest: u64,
    doubled: u64,
}

// The same quotient with its leading digit at the top.
fn normal(q: u64, r: u64, d: u64) -> Binary
    requires { (r < d) × (0 < q) }
    ensures { (Scaled (q * d + r) d result.quotient result.rest result.doubled) × (result.doubled ≤ 63) }
{
    let z = q.leading_zeros();
    let s = extend(q, r, d, z);
    Binary {
        quotient: s.quotient,
        rest: s.rest,
        doubled: z as u64,
    }
}

// n / d as a quotient of 64 binary digits.
fn scaled(n: u64, d: u64) -> Binary
    requires { (0 < n) × (0 < d) }
    ensures { (Scaled n d result.quotient result.rest result.doubled) × (result.doubled ≤ 127) }
{
    let whole = n / d;
    let rest = n % d;
    if 0 < whole {
        return normal(whole, rest, d);
    }
    let s = extend(0, rest, d, 64);
    let m = normal(s.quotient, s.rest, d);
    Binary {
        quotient: m.quotient,
        rest: m.rest,
        doubled: m.doubled + 64,
    }
}

// A quotient to the nearest multiple of the unit, in units, a tie to the even one.
fn rounded(q: u64, r: u64, w: Width) -> u64
    ensures { (d : ℕ) → r < d → result ≡ closest (q * d + r) (d * unit_of w) }
{
    let u = w.unit();
    let m = q / u;
    let part = q % u;
    let half = u / 2;
    if part < half {
        return m;
    }
    if half < part {
        return m + 1;
    }
    if 0 < r {
        return m + 1;
    }
    m + m % 2
}

// The bits of the float nearest to n / d.
fn nearest(n: u64, d: u64, w: Width) -> u64
    requires { 0 < d }
    ensures { result ≡ bits_of (format_of w) n d }
{
    if n == 0 {
        return 0;
    }
    let s = scaled(n, d);
    let m = rounded(s.quotient, s.rest, w);
    (w.last() - s.doubled) * w.lead() + m
}

// The bits of the number that digits write before and behind the point, of which so many behind it; none for too many digits.
pub fn decimal(whole: u64, part: u64, places: usize, w: Width) -> Option<u64>
    ensures { result ≡ decimal_of (format_of w) whole part places }
{
    if MOST_PLACES < places {
        return None;
    }
    let d = 10u64.pow(places as u32);
    if NINETEEN_NINES < part {
        return None;
    }
    if (NINETEEN_NINES - part) / d < whole {
        return None;
    }
    Some(nearest(whole * d + part, d, w))
}
