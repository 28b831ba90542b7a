// Why a literal, or a piece of an f-string's text, has no value.
use super::part::Part;
use chars::Class;
use std::fmt;
use tokens::{Cursor, word};

const QUOTE: u16 = b'"' as u16;

const APOSTROPHE: u16 = b'\'' as u16;

// What stands before the digits of a hex literal.
const HEX_SIGN: usize = "0x".len();

// The greatest value under an integer's suffix.
fn greatest(suffix: &[u8]) -> Option<u64> {
    match suffix {
        b"i8" => Some(i8::MAX as u64),
        b"i16" => Some(i16::MAX as u64),
        b"i32" => Some(i32::MAX as u64),
        b"i64" => Some(i64::MAX as u64),
        b"u8" => Some(u8::MAX as u64),
        b"u16" => Some(u16::MAX as u64),
        b"u32" => Some(u32::MAX as u64),
        b"u64" => Some(u64::MAX),
        _ => None,
    }
}

fn no_suffix<W: fmt::Write>(out: &mut W, suffix: Part, those: &str) -> fmt::Result {
    write!(out, "'{suffix}' is no suffix here: write {those}")
}

fn too_large<W: fmt::Write>(out: &mut W, literal: Part, most: &str) -> fmt::Result {
    write!(out, "{literal} is too large (at most {most})")
}

// An integer: its suffix is none, or its digits say too much.
fn integer<W: fmt::Write>(out: &mut W, literal: Part) -> fmt::Result {
    let e = chars::past(literal.source, literal.start, Class::Figure);
    if literal.end <= e {
        let most = "9223372036854775807; 18446744073709551615 with the suffix u64";
        return too_large(out, literal, most);
    }
    let digits = literal.to(e);
    let suffix = literal.from(e);
    match greatest(suffix.bytes()) {
        Some(most) => write!(out, "{digits} doesn't fit {suffix} (at most {most})"),
        None => no_suffix(out, suffix, "i8 i16 i32 i64 u8 u16 u32 u64 f32 or f64"),
    }
}

// A float: its suffix is none.
fn float<W: fmt::Write>(out: &mut W, literal: Part) -> fmt::Result {
    let point = chars::past(literal.source, literal.start, Class::Figure);
    let e = chars::past(literal.source, point.wrapping_add(1), Class::Figure);
    no_suffix(out, literal.from(e), "f32 or f64")
}

fn hex<W: fmt::Write>(out: &mut W, literal: Part) -> fmt::Result {
    if literal.end <= literal.start.wrapping_add(HEX_SIGN) {
        return out.write_str("0x needs a hex digit after it");
    }
    too_large(out, literal, "0x7fffffffffffffff")
}

// How many bytes the character at the start of a part has.
fn size(part: Part, quote: u16) -> Option<usize> {
    match strings::piece_of(part.bytes(), quote) {
        Some((_, size)) => Some(size),
        None => None,
    }
}

// From the first place on that no character of a string begins at.
fn unreadable(inside: Part<'_>) -> Part<'_> {
    let mut rest = inside;
    // kept: a count of turns for a `while let`, since no clause says that a character has a byte at least.
    for _ in inside.start..inside.end {
        match size(rest, QUOTE) {
            Some(n) => rest = rest.from(rest.start.saturating_add(n).min(rest.end)),
            None => return rest,
        }
    }
    rest
}

// Why no character begins at a place.
fn no_character<W: fmt::Write>(out: &mut W, part: Part) -> fmt::Result {
    out.write_str(match part.first() {
        Some(b'\\') => return no_escape(out, part),
        Some(b'\r') => {
            "a carriage return can't stand in a text: write \\r, or end the line with a newline alone"
        }
        Some(b'\t') => "a tab can't stand between ' and ': write '\\t'",
        Some(b'\n') => "a newline can't stand between ' and ': write '\\n'",
        _ => "'' is no character: one has to stand between ' and '",
    })
}

// Why a backslash begins no escape.
fn no_escape<W: fmt::Write>(out: &mut W, part: Part) -> fmt::Result {
    let next = part.from(part.start.wrapping_add(1));
    out.write_str(match next.first() {
        Some(b'x') => "\\x takes two hex digits, up to \\x7f: write \\u{..} for more",
        Some(b'u') => {
            "\\u takes one to six hex digits in braces, as \\u{e9}, of a character that there is"
        }
        Some(b'\n') => {
            "a backslash can't stand at the end of a line: a text goes on over lines without it"
        }
        _ => return unknown_escape(out, part.to(next.start.wrapping_add(1))),
    })
}

fn unknown_escape<W: fmt::Write>(out: &mut W, escape: Part) -> fmt::Result {
    write!(
        out,
        "{escape} is no escape: those are \\n \\r \\t \\\\ \\0 \\' \\\" \\x41 and \\u{{e9}}"
    )
}

fn string<W: fmt::Write>(out: &mut W, inside: Part) -> fmt::Result {
    no_character(out, unreadable(inside))
}

// A literal without the quotes around it.
fn inside(literal: Part<'_>) -> Part<'_> {
    Part {
        source: literal.source,
        start: literal.start.wrapping_add(1),
        end: literal.end.wrapping_sub(1),
    }
}

fn char_of<W: fmt::Write>(out: &mut W, literal: Part) -> fmt::Result {
    let inside = inside(literal);
    if size(inside, APOSTROPHE).is_none() {
        return no_character(out, inside);
    }
    write!(
        out,
        "{literal} is more than one character: write a string, with \" and \""
    )
}

// Why the literal of a word has no value.
fn literal<W: fmt::Write>(out: &mut W, w: u64, literal: Part) -> fmt::Result {
    // kept: words are numbers in crate tokens, below.
    match w {
        word::IPV6 => write!(
            out,
            "{literal} is no IPv6 address: eight groups of one to four hex digits, one '::' for groups of zeros"
        ),
        word::IPV4 => write!(
            out,
            "{literal} is no IPv4 address: four numbers up to 255, none with a zero before it"
        ),
        word::ASN => too_large(out, literal, "AS4294967295"),
        word::HEX => hex(out, literal),
        word::INTEGER => integer(out, literal),
        word::FLOAT => float(out, literal),
        word::CHAR => char_of(out, literal),
        _ => string(out, inside(literal)),
    }
}

// Why what stands at a place has no value: a token, or a piece of an f-string's text.
pub fn valueless<W: fmt::Write>(out: &mut W, part: Part) -> fmt::Result {
    let cursor = Cursor { at: part.start };
    let step = cursor.step(part.source);
    let Ok((w, from, next)) = step else {
        return string(out, part);
    };
    let is_whole = (from == part.start) & (next.at == part.end);
    if is_whole & (tokens::code_of(w) <= word::CHAR) {
        return literal(out, w, part);
    }
    string(out, part)
}
