// The remainder of two floats, as `%` has it. `%` itself links the C library's fmod in a version that machines of today may lack.
#![tactic(auto)]

ghost use Rattle.std.specs.Prelude.{◌≡◌, T};
ghost use Rattle.std.specs.Float.Ieee as Ieee;
ghost use Rattle.std.specs.Float.{binary64};
ghost use Rattle.remainders.specs.Amounts.{amount, divisor};

// 2^1023: twice this is more than any float.
const HALF_RANGE: f64 = 8.98846567431158e307;

// What is left of an amount: by twice a divisor first, and then by the divisor, unless twice it could be too large for a float.
fn rest(x: f64, y: f64) -> f64
    requires amount { T (amount x) }
    requires divisor { T (divisor y) }
    ensures { result ≡ Ieee.rem binary64 x y }
{
    if x < y {
        return x - 0.0;
    }
    if y < HALF_RANGE {
        let r = rest(x, y + y);
        if r < y {
            return r;
        }
        return r - y;
    }
    x - y
}

// What `%` gives for two floats.
pub fn remainder(a: f64, b: f64) -> f64
    ensures { result ≡ Ieee.rem binary64 a b }
{
    if !a.is_finite() {
        return a - a;
    }
    if b.is_nan() {
        return b;
    }
    if !b.is_finite() {
        return a;
    }
    let y = b.abs();
    if 0.0 < y {
        let r = rest(a.abs(), y);
        if a.is_sign_negative() {
            return -r;
        }
        return r;
    }
    b / b
}
