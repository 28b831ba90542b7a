// The values of IPv4 and IPv6 addresses.
#![tactic(auto)]

ghost use Rattle.std.specs.Prelude.{◌≡◌, ◌+◌, ◌-◌, ◌≤◌, ◌<◌, length, take, drop, replicate};
ghost use Rattle.addresses.specs.Groups.{separator_of, short_of, group_of, parts, values_of, push_of, push_all, heard, all_zero, only_of};
ghost use Rattle.addresses.specs.Addresses.{quad_of, gap, side_of, filled, groups_in, front_of, wide_of, whole_of, end_of, half_of, both_of};

use numbers::Base;

const ZERO: u16 = b'0' as u16;

const DOT: u16 = b'.' as u16;

const COLON: u16 = b':' as u16;

// How an address is written: octets between dots, or groups of hex digits between colons.
#[derive(Debug, Clone, Copy, PartialEq, Eq)]
pub enum Form {
    Dotted,
    Hexed,
}

impl Form {
    fn separator(self) -> u16
        ensures { result ≡ separator_of self }
    {
        match self {
            Form::Dotted => DOT,
            Form::Hexed => COLON,
        }
    }
}

// A number of 128 bits in its halves.
// kept: no u128, since a row has the halves apart, as its value and its detail.
#[derive(Debug, Clone, Copy, PartialEq, Eq)]
pub struct Wide {
    pub high: u64,
    pub low: u64,
}

// What of a half stays in it when a group of 16 bits comes behind.
const STAYS: u64 = 1 << 48;

// No group yet.
const NOTHING: Wide = Wide { high: 0, low: 0 };

// The most groups of an address, and the most before a quad.
const GROUPS: usize = 8;

const GROUPS_BEFORE_QUAD: usize = 6;

// A number of at most so many digits.
#[tactic(auto, unfolding(crate::specs::Groups::short_of))]
fn short(n: Option<(u64, usize)>, most: usize) -> Option<(u64, usize)>
    ensures { result ≡ short_of n most }
{
    n.filter(|(_, digits)| *digits <= most)
}

// What a whole text says as one octet or one group.
fn group(t: &[u8], form: Form) -> Option<(u64, usize)>
    ensures { result ≡ group_of form t.now }
{
    match form {
        Form::Dotted => {
            let is_long = 1 < t.len();
            if is_long && chars::byte_at(t, 0) == ZERO {
                return None;
            }
            short(numbers::number_of(t, Base::Ten, 255, false), 3)
        }
        Form::Hexed => short(numbers::number_of(t, Base::Sixteen, 65535, false), 4),
    }
}

// One octet or group more: what stands before it moves up.
fn push(form: Form, wide: Wide, g: u64) -> Wide
    requires { g < 65536 }
    ensures { result ≡ push_of form wide g }
{
    let high = wide.high % STAYS;
    let low = wide.low % STAYS;
    match form {
        Form::Dotted => Wide {
            high: 0,
            low: low * 256 + g,
        },
        Form::Hexed => Wide {
            high: high * 65536 + wide.low / STAYS,
            low: low * 65536 + g,
        },
    }
}

// The groups of a whole text, behind those already read: at most eight in all.
fn joined(t: &[u8], form: Form, count: usize, wide: Wide) -> Option<(usize, Wide)>
    ensures { result ≡ heard form count wide (values_of form (parts (separator_of form) t.now)) }
{
    let separator = form.separator();
    let mut n = count;
    let mut w = wide;
    for part in t.split(|b| u16::from(*b) == separator) {
        if GROUPS <= n {
            return None;
        }
        let (value, _) = group(part, form)?;
        w = push(form, w, value);
        n += 1;
    }
    Some((n, w))
}

pub fn ipv4(t: &[u8]) -> Option<u64>
    ensures { result ≡ quad_of t.now }
{
    let (count, wide) = joined(t, Form::Dotted, 0, NOTHING)?;
    if count == 4 { Some(wide.low) } else { None }
}

// Groups, where there are so many.
#[tactic(auto, unfolding(crate::specs::Groups::only_of))]
fn only(groups: Option<(usize, Wide)>, whole: usize) -> Option<(usize, Wide)>
    ensures { result ≡ only_of whole groups }
{
    groups.filter(|(count, _)| *count == whole)
}

// The place of the first `::`, or the end.
fn gap_at(t: &[u8]) -> usize
    ensures { result ≡ gap t.now }
{
    for i in 0..t.len() {
        if chars::byte_at(t, i) == COLON && chars::byte_at(t, i + 1) == COLON {
            return i;
        }
    }
    t.len()
}

// The groups on one side of the `::`, behind those already read; there may be none.
fn side(t: &[u8], count: usize, wide: Wide) -> Option<(usize, Wide)>
    requires { count ≤ 8 }
    ensures { result ≡ heard Form.Hexed count wide (side_of t.now) }
{
    if t.len() == 0 {
        return Some((count, wide));
    }
    joined(t, Form::Hexed, count, wide)
}

// Zero groups behind those already read.
fn zeros(wide: Wide, count: usize) -> Wide
    ensures { result ≡ push_all Form.Hexed wide (replicate count 0) }
{
    let mut w = wide;
    for _ in 0..count {
        w = push(Form::Hexed, w, 0);
    }
    w
}

// So many groups with a `::` at a place. What stands behind it is read twice: how many groups it has says how many are zero.
fn shortened(t: &[u8], at: usize, whole: usize) -> Option<(usize, Wide)>
    requires at_in_bounds { at + 2 ≤ length t.now }
    requires whole_bound { whole ≤ 8 }
    ensures { result ≡ heard Form.Hexed 0 all_zero (filled whole (side_of (take at t.now)) (side_of (drop (at + 2) t.now))) }
{
    let (count, wide) = side(&t[..at], 0, NOTHING)?;
    let (right, _) = side(&t[at + 2..], 0, wide)?;
    if whole <= count + right {
        return None;
    }
    let filled = zeros(wide, whole - (count + right));
    side(&t[at + 2..], whole - right, filled)
}

// So many groups, or fewer with one `::`.
fn groups_in(t: &[u8], whole: usize) -> Option<(usize, Wide)>
    requires { whole ≤ 8 }
    ensures { result ≡ heard Form.Hexed 0 all_zero (groups_in whole t.now) }
{
    let at = gap_at(t);
    if at < t.len() {
        return shortened(t, at, whole);
    }
    only(joined(t, Form::Hexed, 0, NOTHING), whole)
}

// Where the groups end before a quad that starts at a place.
#[tactic(auto, unfolding(crate::specs::Addresses::front_of))]
fn front(t: &[u8], at: usize) -> usize
    ensures { result ≡ front_of t.now at }
{
    if chars::byte_at(t, at.saturating_sub(2)) == COLON {
        at
    } else {
        at.saturating_sub(1)
    }
}

// The quad from a place on. No text under seven bytes is one, so that most addresses are done here.
fn quad_behind(t: &[u8], at: usize) -> Option<u64>
    requires { at ≤ length t.now }
    ensures { result ≡ quad_of (drop at t.now) }
{
    if t.len() - at < 7 {
        return None;
    }
    ipv4(&t[at..])
}

// How many groups stand before a quad, or without one.
fn whole_with(quad: Option<u64>) -> usize
    ensures { result ≡ whole_of quad }
{
    match quad {
        Some(_) => GROUPS_BEFORE_QUAD,
        None => GROUPS,
    }
}

fn end_with(t: &[u8], at: usize, quad: Option<u64>) -> usize
    ensures { result ≡ end_of t.now at quad }
{
    match quad {
        Some(_) => front(t, at),
        None => t.len(),
    }
}

// Groups and the quad behind them, whose halves are two groups more.
fn both(wide: Wide, quad: Option<u64>) -> Wide
    requires { half_of quad < 65536 }
    ensures { result ≡ both_of wide quad }
{
    let Some(q) = quad else {
        return wide;
    };
    let seven = push(Form::Hexed, wide, q / 65536);
    push(Form::Hexed, seven, q % 65536)
}

pub fn ipv6(t: &[u8]) -> Option<Wide>
    ensures { result ≡ wide_of t.now }
{
    let at = chars::behind_last(t, t.len(), COLON);
    let quad = quad_behind(t, at);
    let end = end_with(t, at, quad);
    let (_, wide) = groups_in(&t[..end], whole_with(quad))?;
    Some(both(wide, quad))
}
