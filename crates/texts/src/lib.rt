// The text of an f-string (C-11): where a piece of it ends, and how many bytes it has in the end.
#![tactic(auto)]

ghost use Rattle.std.specs.Prelude.{◌≡◌, ◌+◌, ◌-◌, ◌≤◌};
ghost use Rattle.strings.specs.Utf8.{width_of};
ghost use Rattle.texts.specs.Modes.{mode_after, scans, ended_at};
ghost use Rattle.texts.specs.Halves.{with_code};
ghost use Rattle.texts.specs.Parts.{part_at};
ghost use Rattle.texts.specs.Texts.{text_of};

// How an f-string's text stands where it is scanned, and what ended it.
#[derive(Debug, Clone, Copy, PartialEq, Eq)]
pub enum Mode {
    Text,
    Escape,
    Letter,
    Code,
    Brace,
    Hole,
    Last,
    Torn,
}

// The end of a piece of text: before the `{` of a hole, or before the closing quote.
#[derive(Debug, Clone, Copy, PartialEq, Eq)]
pub enum Part {
    Before(usize),
    Ends(usize),
}

// How many bytes a text has so far, and whether its last one is a `{`, or a `}`, that has no second yet.
#[derive(Debug, Clone, Copy, PartialEq, Eq)]
pub struct Halves {
    pub size: usize,
    pub opened: bool,
    pub closed: bool,
}

const BACKSLASH: u8 = b'\\';

const QUOTE: u8 = b'"';

const OPEN_BRACE: u8 = b'{';

const CLOSE_BRACE: u8 = b'}';

// the braces as code points
const OPEN_CODE: u64 = OPEN_BRACE as u64;

const CLOSE_CODE: u64 = CLOSE_BRACE as u64;

const SMALL_U: u8 = b'u';

const CAPITAL_U: u8 = b'U';

// The mode behind one more byte.
#[tactic(auto, unfolding(crate::specs::Modes::mode_after))]
fn mode_after(mode: Mode, b: u8) -> Mode
    ensures { result ≡ mode_after mode b }
{
    match (mode, b) {
        (Mode::Text, BACKSLASH) => Mode::Escape,
        (Mode::Text, OPEN_BRACE) => Mode::Brace,
        (Mode::Text, QUOTE) => Mode::Last,
        (Mode::Escape, SMALL_U | CAPITAL_U) => Mode::Letter,
        (Mode::Escape, _) => Mode::Text,
        (Mode::Letter, OPEN_BRACE) => Mode::Code,
        (Mode::Letter, _) => Mode::Torn,
        (Mode::Code, CLOSE_BRACE) => Mode::Text,
        (Mode::Brace, OPEN_BRACE) => Mode::Text,
        (Mode::Brace, _) => Mode::Hole,
        _ => mode,
    }
}

fn scanning(mode: Mode) -> bool
    ensures { result ≡ scans mode }
{
    !matches!(mode, Mode::Hole | Mode::Last | Mode::Torn)
}

// What ended before a place: two bytes behind the `{` of a hole, or one behind the quote.
fn ended(mode: Mode, at: usize) -> Option<Part>
    ensures { result ≡ ended_at mode at }
{
    match mode {
        Mode::Hole => Some(Part::Before(at.saturating_sub(2))),
        Mode::Last => Some(Part::Ends(at.saturating_sub(1))),
        _ => None,
    }
}

// The piece of text from a place on.
pub fn f_string_part(s: &[u8], at: usize) -> Option<Part>
    ensures { result ≡ part_at s.now at }
{
    let mut mode = Mode::Text;
    for i in at..s.len() {
        if !scanning(mode) {
            return ended(mode, i);
        }
        mode = mode_after(mode, s[i]);
    }
    ended(mode, s.len())
}

fn with_code(h: Halves, code: u64) -> Halves
    requires { h.size + width_of code ≤ 9223372036854775807 }
    ensures { result ≡ with_code h code }
{
    if h.opened & (code == OPEN_CODE) {
        return Halves {
            size: h.size,
            opened: false,
            closed: h.closed,
        };
    }
    if h.closed & (code == CLOSE_CODE) {
        return Halves {
            size: h.size,
            opened: false,
            closed: false,
        };
    }
    Halves {
        size: h.size + strings::width(code),
        opened: code == OPEN_CODE,
        closed: code == CLOSE_CODE,
    }
}

// How many bytes a piece of text has in the end.
// kept: a `while`, since a character has from one byte on, and only what is read there says how many.
pub fn text(t: &[u8]) -> Option<usize>
    ensures { result ≡ text_of t.now }
{
    let mut i = 0;
    let mut h = Halves {
        size: 0,
        opened: false,
        closed: false,
    };
    while i < t.len() {
        let (code, size) = strings::piece_of(&t[i..], QUOTE as u16)?;
        h = with_code(h, code);
        i += size;
    }
    Some(h.size)
}
