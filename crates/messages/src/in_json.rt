// What stands in a JSON string.
use super::page::Page;
use std::fmt;

// The character that stands for a byte of no UTF-8.
const REPLACEMENT: &[u8] = b"\\ufffd";

const HEX_DIGITS: &[u8; 16] = b"0123456789abcdef";

// Text put on a page is escaped.
#[derive(Drop)]
pub struct Json<'p, 'a> {
    pub page: &'p mut Page<'a>,
}

impl fmt::Write for Json<'_, '_> {
    fn write_str(&mut self, t: &str) -> fmt::Result {
        put_all(self.page, t.as_bytes());
        Ok(())
    }
}

fn put(page: &mut Page, b: u8) {
    if b.is_ascii_control() {
        page.put_all(b"\\u00");
        page.put(HEX_DIGITS[b as usize / 16]);
        page.put(HEX_DIGITS[b as usize % 16]);
        return;
    }
    if (b == b'"') | (b == b'\\') {
        page.put(b'\\');
    }
    page.put(b);
}

fn put_all(page: &mut Page, t: &[u8]) {
    for b in t {
        put(page, *b);
    }
}

// A text in quotes.
pub fn put_string(page: &mut Page, t: &str) {
    page.put(b'"');
    put_all(page, t.as_bytes());
    page.put(b'"');
}

// The name of a file, which needn't be UTF-8.
pub fn put_name(page: &mut Page, name: &[u8]) {
    if std::str::from_utf8(name).is_ok() {
        return put_all(page, name);
    }
    for b in name {
        if b.is_ascii() {
            put(page, *b);
        } else {
            page.put_all(REPLACEMENT);
        }
    }
}
