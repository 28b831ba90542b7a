// What a refusal says, in the filter author's words: a sentence for each number and, where the place tells, for each cause.
use super::next_words::{CONST, Expected, NAMES, Tries};
use super::part::{Part, Quoted};
use super::value_causes;
use chars::{Answer, refusal};
use std::fmt;
use tokens::{Cursor, word};

// A byte-order mark's first byte: in UTF-8, and from this one on in UTF-16.
const MARK_8: u8 = 239;

const MARK_16: u8 = 254;

// The code of a keyword's token.
const KEYWORD: u64 = 11;

// The word of the token that starts where a part does.
fn word_of(part: Part) -> u64 {
    let cursor = Cursor { at: part.start };
    let step = cursor.step(part.source);
    let Ok((w, start, _)) = step else {
        return word::NONE;
    };
    if start == part.start { w } else { word::NONE }
}

fn is_mark(b: u8) -> bool {
    (b == MARK_8) | (MARK_16 <= b)
}

// 2: a byte-order mark has bytes of its own.
fn high_byte<W: fmt::Write>(out: &mut W, part: Part) -> fmt::Result {
    if part.start == 0 && part.first().is_none_or(is_mark) {
        return out.write_str(
            "the file begins with a byte-order mark: save it as ASCII or as UTF-8 without one",
        );
    }
    let b = part.first().unwrap_or(0);
    write!(
        out,
        "byte 0x{b:02x} is not ASCII: write ASCII alone, in comments too, and \\u{{..}} in a string"
    )
}

// Whether a text ends in a backslash that begins an escape: in an odd number of them.
fn ends_in_escape(t: &[u8]) -> bool {
    t.iter().rev().take_while(|b| **b == b'\\').count() % 2 == 1
}

// 4 at a quote: the text has no closing one, or has it as the last byte of the file.
fn open_quote<W: fmt::Write>(out: &mut W, part: Part, quote: u8) -> fmt::Result {
    let text = part.to(part.source.len());
    if let [_, inside @ .., last] = text.bytes() {
        if (*last == quote) & !ends_in_escape(inside) {
            return write!(out, "{text} at the end of a file needs a newline after it");
        }
    }
    let quote = char::from(quote);
    write!(
        out,
        "a text that begins with {quote} has no closing {quote}"
    )
}

// 4: no token starts with this byte.
fn no_token<W: fmt::Write>(out: &mut W, part: Part) -> fmt::Result {
    match part.first() {
        Some(b @ (b'"' | b'\'')) => open_quote(out, part, b),
        Some(b'#') => out.write_str("'#' means nothing here: a comment begins with //"),
        Some(b'&') => out.write_str("'&' alone means nothing: write '&&'"),
        Some(b'|') => out.write_str("'|' alone means nothing: write '||'"),
        Some(b) if b.is_ascii_control() => {
            write!(out, "byte 0x{b:02x} can't stand in a filter: remove it")
        }
        _ => {
            let byte = Quoted(part.to(part.start.wrapping_add(1)));
            write!(out, "{byte} means nothing outside of strings and comments")
        }
    }
}

// 6: a keyword where a name could stand, one that declares nothing here, or another token.
fn unusable(w: u64, expected: &Expected) -> &'static str {
    if expected.passed[NAMES] & (tokens::code_of(w) == KEYWORD) {
        return " is a keyword and can't be a name";
    }
    if expected.passed[CONST] & matches!(w, word::RECORD | word::ENUM | word::TEST) {
        return " declares nothing in a filter file: remove it";
    }
    " can't stand here"
}

// 9: by the token, which limit is passed.
fn too_deep(w: u64) -> &'static str {
    match w {
        word::ROUND_LEFT | word::SQUARE_LEFT | word::CURLY_LEFT => {
            "at most 32 brackets ( [ { can be open"
        }
        word::IF => {
            "at most 32 'else if' in one chain, at most 32 'if', 'while', 'for' and 'match' before their '{'"
        }
        word::WHILE | word::FOR | word::MATCH => {
            "at most 32 'if', 'while', 'for' and 'match' before their '{'"
        }
        _ => "at most 32 of '!', '-', 'return', 'accept' and 'reject' in a row",
    }
}

// 11: an f-string's text has no end, or the file ends where more has to stand. Behind a text that has no end a sign that begins no token is text.
fn ends_early(tries: &mut Tries) -> &'static str {
    if !tries.pass("$") {
        return "the file ends too early";
    }
    if tries.pass("\" $") {
        return "\\u in an f-string needs a '{' after it";
    }
    "an f-string has no closing '\"'"
}

// What a refusal says. Words can be tried where it stands, and some of them the reader goes past.
pub fn message<W: fmt::Write>(
    out: &mut W,
    s: &[u8],
    a: Answer,
    tries: &mut Tries,
    expected: &Expected,
) -> fmt::Result {
    let part = Part {
        source: s,
        start: a.start,
        end: a.end,
    };
    let count = a.count;
    // kept: the numbers are document 01's, which the answer of a C function holds too.
    match a.number {
        refusal::TOO_LONG => out.write_str("the file has more than 65535 bytes: split it"),
        refusal::HIGH_BYTE => high_byte(out, part),
        refusal::SHEBANG => out.write_str("a filter has no '#!' line: remove it"),
        refusal::NO_TOKEN => no_token(out, part),
        refusal::F_STRING => {
            out.write_str("an f-string is more than a token: a token list can't hold it")
        }
        refusal::UNUSABLE => write!(out, "{}{}", Quoted(part), unusable(word_of(part), expected)),
        refusal::VALUELESS => value_causes::valueless(out, part),
        refusal::NO_PATH => out.write_str(
            "only a name or a path such as a.b can be assigned to; to compare, write '=='",
        ),
        refusal::TOO_DEEP => write!(out, "nested more than 32 deep: {}", too_deep(word_of(part))),
        refusal::NO_ROOM => write!(out, "no room: {count} are needed"),
        refusal::ENDS_EARLY => out.write_str(ends_early(tries)),
        _ => Ok(()),
    }
}
