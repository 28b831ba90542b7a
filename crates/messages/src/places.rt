// Where a place is: its line and column, and the part of its line that is shown.
use super::page::Page;
use super::part::{Part, shown as printable};

// The widest part of a line that is shown, and how much of it stands before the place where the line is longer.
const WINDOW: usize = 100;

const BEFORE: usize = 40;

const NEWLINE: u16 = b'\n' as u16;

// A line and a column in it, in bytes from 1, and where the line begins.
#[derive(Clone, Copy)]
pub struct Spot {
    pub line: usize,
    pub column: usize,
    pub from: usize,
}

// Where a place is. Only a newline ends a line.
pub fn spot_of(s: &[u8], at: usize) -> Spot {
    let before = &s[..at.min(s.len())];
    let from = chars::behind_last(before, before.len(), NEWLINE);
    Spot {
        line: before.iter().filter(|b| **b == b'\n').count() + 1,
        column: before.len().saturating_sub(from) + 1,
        from,
    }
}

// The line that begins at a place, without a carriage return before its newline.
fn line_from(s: &[u8], from: usize) -> Part<'_> {
    let end = numbers::until(s, from, NEWLINE);
    let line = Part {
        source: s,
        start: from,
        end,
    };
    match line.bytes() {
        [.., b'\r'] => line.to(end.saturating_sub(1)),
        _ => line,
    }
}

// What is shown of a line for a place in it: all of it, or a window with the place in it.
fn window<'a>(line: Part<'a>, at: usize) -> Part<'a> {
    if line.end.saturating_sub(line.start) <= WINDOW {
        return line;
    }
    let last = line.end.saturating_sub(WINDOW);
    let first = at.saturating_sub(BEFORE).min(last).max(line.start);
    Part {
        source: line.source,
        start: first,
        end: first.saturating_add(WINDOW).min(line.end),
    }
}

// What stands under a byte of a line: a mark, but for a tab.
fn unless_tab(b: u8, mark: u8) -> u8 {
    if b == b'\t' { b } else { mark }
}

// At least one caret.
fn put_carets(page: &mut Page, part: Part) {
    if part.end <= part.start {
        page.put(b'^');
    }
    page.put_each(part.bytes(), |b| unless_tab(b, b'^'));
}

// The line of a place, and carets under the place as far as its line is shown. Periods stand for what was cut off, and blanks under them.
pub fn show(page: &mut Page, s: &[u8], start: usize, end: usize) {
    let line = line_from(s, spot_of(s, start).from);
    let seen = window(line, start);
    let is_cut = line.start < seen.start;
    page.put_all(if is_cut { b"  .." } else { b"  " });
    page.put_each(seen.bytes(), printable);
    page.put_all(if seen.end < line.end {
        b"..\n  "
    } else {
        b"\n  "
    });
    page.put_all(if is_cut { b"  " } else { b"" });
    page.put_each(seen.to(start).bytes(), |b| unless_tab(b, b' '));
    put_carets(page, seen.from(start).to(end.min(seen.end)));
    page.put(b'\n');
}
