// The value of a literal token, by the token's code.
#![tactic(auto)]

ghost use Rattle.std.specs.Prelude.{◌≡◌};
ghost use Rattle.values.specs.Literals.{from_amount, from_value, from_number, from_address, from_size, bool_of, literal_of, literal_at, literal_numbers};

use addresses::Wide;
use numbers::Amount;
use rows::kind;

// The codes of the tokens that are literals.
const IPV6: u64 = 1;

const IPV4: u64 = 2;

const ASN: u64 = 5;

const HEX: u64 = 6;

const INTEGER: u64 = 7;

const FLOAT: u64 = 8;

const STRING: u64 = 9;

const CHAR: u64 = 10;

const BOOL: u64 = 12;

// A literal's row: its kind, its value and its detail.
#[derive(Debug, Clone, Copy, PartialEq, Eq)]
pub struct Literal {
    pub kind: u64,
    pub value: u64,
    pub detail: u64,
}

fn from_amount(a: Option<Amount>) -> Option<Literal>
    ensures { result ≡ from_amount a }
{
    match a? {
        Amount::Integer { value, suffix } => Some(Literal {
            kind: kind::INTEGER,
            value,
            detail: suffix,
        }),
        Amount::Float(suffix) => Some(Literal {
            kind: kind::FLOAT,
            value: 0,
            detail: suffix,
        }),
    }
}

// A row that has a value and no detail.
fn from_value(kind: u64, value: Option<u64>) -> Option<Literal>
    ensures { result ≡ from_value kind value }
{
    Some(Literal {
        kind,
        value: value?,
        detail: 0,
    })
}

fn from_number(kind: u64, n: Option<(u64, usize)>) -> Option<Literal>
    ensures { result ≡ from_number kind n }
{
    let (value, _) = n?;
    Some(Literal {
        kind,
        value,
        detail: 0,
    })
}

fn from_address(a: Option<Wide>) -> Option<Literal>
    ensures { result ≡ from_address a }
{
    let Wide { high, low } = a?;
    Some(Literal {
        kind: kind::IPV6,
        value: high,
        detail: low,
    })
}

fn from_size(n: Option<usize>) -> Option<Literal>
    ensures { result ≡ from_size n }
{
    n?;
    Some(Literal {
        kind: kind::STRING,
        value: 0,
        detail: 0,
    })
}

fn bool_of(t: &[u8]) -> Option<Literal>
    ensures { result ≡ bool_of t.now }
{
    if chars::same(t, b"true") {
        return Some(Literal {
            kind: kind::BOOL,
            value: 1,
            detail: 0,
        });
    }
    if chars::same(t, b"false") {
        return Some(Literal {
            kind: kind::BOOL,
            value: 0,
            detail: 0,
        });
    }
    None
}

// The value of a whole text that a token of a code has.
fn of_text(code: u64, t: &[u8]) -> Option<Literal>
    ensures { result ≡ literal_of code t.now }
{
    match code {
        IPV6 => from_address(addresses::ipv6(t)),
        IPV4 => from_value(kind::IPV4, addresses::ipv4(t)),
        ASN => from_number(kind::ASN, numbers::as_number(t)),
        HEX => from_number(kind::INTEGER, numbers::hex(t)),
        INTEGER => from_amount(numbers::integer(t)),
        FLOAT => from_amount(numbers::float(t)),
        STRING => from_size(strings::string(t)),
        CHAR => from_value(kind::CHAR, strings::char_of(t)),
        BOOL => bool_of(t),
        _ => None,
    }
}

// The value of the token of a code from start to end; none where the source has no such part.
pub fn literal_at(s: &[u8], code: u64, start: usize, end: usize) -> Option<Literal>
    ensures { (result ≡ literal_at code start end s.now) × (literal_numbers result ≡ literal_numbers (literal_at code start end s.now)) }
{
    of_text(code, s.get(start..end)?)
}
