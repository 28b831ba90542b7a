// A part of a source, and how it is shown in a sentence.
use std::fmt;
use std::fmt::Write;

// How much of a part a sentence shows.
const MOST_SHOWN: usize = 40;

#[derive(Clone, Copy)]
pub struct Part<'a> {
    pub source: &'a [u8],
    pub start: usize,
    pub end: usize,
}

impl<'a> Part<'a> {
    // Those of its bytes that the source has.
    pub fn bytes(&self) -> &'a [u8] {
        let end = self.end.min(self.source.len());
        if self.start < end {
            &self.source[self.start..end]
        } else {
            b""
        }
    }

    // The byte at its start.
    pub fn first(&self) -> Option<u8> {
        self.source.get(self.start).copied()
    }

    // From a place on.
    pub fn from(&self, start: usize) -> Part<'a> {
        Part { start, ..*self }
    }

    // Up to a place.
    pub fn to(&self, end: usize) -> Part<'a> {
        Part { end, ..*self }
    }
}

// A byte that is printable and one column wide, but for a tab.
pub fn shown(b: u8) -> u8 {
    if (b == b'\t') | (b == b' ') | b.is_ascii_graphic() {
        b
    } else {
        b'?'
    }
}

// Cut where it is long.
impl fmt::Display for Part<'_> {
    fn fmt<W: fmt::Write>(&self, f: &mut fmt::Formatter<W>) -> fmt::Result {
        let cut = self.start.wrapping_add(MOST_SHOWN);
        let is_long = cut < self.end;
        let seen = if is_long { self.to(cut) } else { *self };
        for b in seen.bytes() {
            f.write_char(char::from(shown(*b)))?;
        }
        f.write_str(if is_long { ".." } else { "" })
    }
}

// A part in quotes, unless it has its own.
#[derive(Clone, Copy)]
pub struct Quoted<'a>(pub Part<'a>);

impl fmt::Display for Quoted<'_> {
    fn fmt<W: fmt::Write>(&self, f: &mut fmt::Formatter<W>) -> fmt::Result {
        let part = self.0;
        match part.first() {
            Some(b'"' | b'\'') => write!(f, "{part}"),
            _ => write!(f, "'{part}'"),
        }
    }
}
