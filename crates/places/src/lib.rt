// What the place of a row asks of it, and whether the row is put in parentheses there.
#![tactic(auto)]

ghost use Rattle.std.specs.Prelude.{◌≡◌, ◌&&◌, ◌||◌, ℕ, eqb};
ghost use Rattle.grammar.specs.Grammar.{one_of};
ghost use Rattle.canon.specs.Trees.{Forest, copied};
ghost use Rattle.canon.specs.Layout as canon;
ghost use Rattle.canon.specs.Text.{inner};
ghost use Rattle.places.specs.Meant.{mark, meant, unless_in, unless_of};

use rows::kind;

pub mod under;

// With what nothing may begin: nothing, one of the four, `{`.
#[derive(Clone, Copy, Debug, PartialEq, Eq)]
pub enum Unless {
    Nothing,
    Four,
    Brace,
}

impl Unless {
    // By its number: 1 the four, 2 `{`, any other nothing.
    pub fn of(n: u64) -> Unless
        ensures { result ≡ unless_in n }
    {
        match n {
            1 => Unless::Four,
            2 => Unless::Brace,
            _ => Unless::Nothing,
        }
    }
}

// What a place asks: a level at least; whether a record may stand; whether a path may; with which words nothing may begin there; whether an arm follows.
#[derive(Clone, Copy, Debug, PartialEq, Eq)]
pub struct Place {
    pub level: u64,
    pub records: bool,
    pub path: bool,
    pub unless: Unless,
    pub more: bool,
}

impl Place {
    pub fn asks(level: u64, records: bool, unless: Unless) -> Place
        ensures { meant result ≡ canon.asks level records (unless_of unless) }
    {
        Place {
            level,
            records,
            path: true,
            unless,
            more: false,
        }
    }

    pub fn whole() -> Place
        ensures { meant result ≡ canon.whole }
    {
        Place::asks(0, true, Unless::Nothing)
    }

    pub fn head() -> Place
        ensures { meant result ≡ canon.head }
    {
        Place::asks(0, false, Unless::Nothing)
    }

    pub fn left(self, level: u64) -> Place
        ensures { meant result ≡ canon.left level (meant self) }
    {
        Place::asks(level, self.records, self.unless)
    }

    pub fn right(self, level: u64) -> Place
        ensures { meant result ≡ canon.right level (meant self) }
    {
        Place::asks(level, self.records, Unless::Nothing)
    }

    pub fn pathless(self) -> Place
        ensures { meant result ≡ canon.pathless (meant self) }
    {
        Place {
            path: false,
            more: false,
            ..self
        }
    }

    pub fn with_more(more: bool) -> Place
        ensures { meant result ≡ canon.with_more more }
    {
        Place {
            more,
            ..Place::whole()
        }
    }

    // In a pair of parentheses a row is a whole expr.
    pub fn inner(self, pair: bool) -> Place
        ensures { meant result ≡ inner pair (meant self) }
    {
        if pair { Place::whole() } else { self }
    }
}

// What a place asks, with what nothing may begin by its number.
pub fn asks(level: u64, records: bool, unless: u64) -> Place
    ensures { meant result ≡ canon.asks level records (unless_of (unless_in unless)) }
{
    Place::asks(level, records, Unless::of(unless))
}

// What a row is, by its numbers.
#[derive(Clone, Copy, Debug, PartialEq, Eq)]
pub struct Mark {
    pub kind: u64,
    pub value: u64,
    pub detail: u64,
}

// The levels.

const COMPARISON: u64 = 3;

const SUM: u64 = 4;

const PRODUCT: u64 = 5;

pub const SIGNED: u64 = 6;

pub const OPERAND: u64 = 7;

pub fn binary_level(detail: u64) -> u64
    ensures { result ≡ canon.binary_level detail }
{
    match detail {
        0..=2 => detail,
        3..=8 => COMPARISON,
        9..=10 => SUM,
        _ => PRODUCT,
    }
}

impl Mark {
    fn level(self) -> u64
        ensures { result ≡ canon.level (mark self) }
    {
        match self.kind {
            kind::ASSIGN | kind::RETURN => 0,
            kind::BINARY => binary_level(self.detail),
            kind::NOT | kind::NEGATE => SIGNED,
            _ => OPERAND,
        }
    }

    fn opens_brace(self) -> bool
        ensures { result ≡ eqb self.kind 35 || (eqb self.kind 36 && eqb self.value 0) }
    {
        self.kind == kind::BLOCK || (self.kind == kind::RECORD && self.value == 0)
    }

    // Whether it begins with what the place rules out.
    fn begins_so(self, unless: Unless) -> bool
        ensures { result ≡ one_of (canon.begins (mark self)) (unless_of unless) }
    {
        match unless {
            Unless::Four => is_four(self.kind),
            Unless::Brace => self.opens_brace(),
            Unless::Nothing => false,
        }
    }

    // A pair of parentheses.
    pub fn needs_pair(self, children: usize, c: Place) -> bool
        ensures { (kids : Forest) → canon.empty kids ≡ eqb children 0 → result ≡ canon.needs (meant c) (mark self) kids }
    {
        self.level() < c.level
            || (!c.path && self.kind == kind::PATH)
            || (!c.records
                && (self.kind == kind::RECORD || (self.kind == kind::RETURN && children == 0)))
            || self.begins_so(c.unless)
    }
}

// "A comparison isn't chained."
pub fn left_level(detail: u64) -> u64
    ensures { result ≡ canon.left_level detail }
{
    let k = binary_level(detail);
    if k == COMPARISON { k + 1 } else { k }
}

pub fn is_four(k: u64) -> bool
    ensures { result ≡ canon.is_four k }
{
    matches!(k, kind::IF | kind::WHILE | kind::FOR | kind::MATCH)
}

// Of these rows the text is copied.
pub fn is_copied(k: u64) -> bool
    ensures { result ≡ one_of k copied }
{
    matches!(
        k,
        kind::NAME
            | kind::INTEGER
            | kind::FLOAT
            | kind::BOOL
            | kind::ASN
            | kind::IPV4
            | kind::IPV6
            | kind::STRING
            | kind::CHAR
            | kind::ANY
            | kind::F_STRING
    )
}
