// Refusals of (a) in words, as text and as JSON, put on a page. Promises nothing but to be safe and to end.
#![tactic(auto)]

ghost use Rattle.std.specs.Prelude.{ℕ, ◌≡◌, ◌+◌, ◌<◌, cond, length, max, min, take, slice_index};
ghost use Rattle.std.specs.Char.{is_ascii_control};

use chars::{Answer, refusal};
use in_json::Json;
use next_words::{Expected, NOTHING, Tries};
pub use page::Page;
use std::fmt;
use std::fmt::Write;

mod causes;
mod in_json;
mod next_words;
pub mod page;
mod part;
pub mod places;
mod value_causes;

// Whether words could stand at a refusal's place: not where a text has no end, behind which a sign that begins no token is text.
fn asks(a: Answer, tries: &mut Tries) -> bool {
    match a.number {
        refusal::UNUSABLE => true,
        refusal::ENDS_EARLY => !tries.pass("$"),
        _ => false,
    }
}

// What could stand at a refusal's place, where nothing is said yet.
fn expect(a: Answer, tries: &mut Tries, expected: &mut Expected) {
    if asks(a, tries) {
        expected.fill(tries);
    }
}

// The name of a file in a line of text: without control bytes, each of which is a question mark there, byte 63.
pub fn put_name(page: &mut Page, name: &[u8])
    ensures bytes { (i : ℕ) → i < length name.now → page.old.len + i < length page.old.bytes.now → slice_index page.new.bytes.now (page.old.len + i) ≡ cond (is_ascii_control (slice_index name.now i)) 63 (slice_index name.now i) }
    ensures before { take page.old.len page.new.bytes.now ≡ take page.old.len page.old.bytes.now }
    ensures len { page.new.len ≡ max page.old.len (min (page.old.len + length name.now) (length page.old.bytes.now)) }
{
    page.put_each(name, |b| if b.is_ascii_control() { b'?' } else { b });
}

// `NAME:LINE:COLUMN: error[NUMBER]: `.
fn head(page: &mut Page, name: &[u8], s: &[u8], a: Answer) -> fmt::Result {
    let spot = places::spot_of(s, a.start);
    put_name(page, name);
    write!(
        page,
        ":{}:{}: error[{}]: ",
        spot.line, spot.column, a.number
    )
}

// The source between where declarations begin and a refusal, for words to be tried behind it in a lent room.
fn behind<'a>(room: &'a mut [u8], s: &[u8], from: usize, a: Answer) -> Tries<'a> {
    let before = part::Part {
        source: s,
        start: from,
        end: a.start,
    };
    Tries::new(room, before.bytes())
}

fn reported(
    page: &mut Page,
    name: &[u8],
    s: &[u8],
    from: usize,
    a: Answer,
    room: &mut [u8],
) -> fmt::Result {
    let mut tries = behind(room, s, from, a);
    let mut expected = NOTHING;
    expect(a, &mut tries, &mut expected);
    head(page, name, s, a)?;
    causes::message(page, s, a, &mut tries, &expected)?;
    page.put(b'\n');
    places::show(page, s, a.start, a.end);
    expected.put_line(page);
    Ok(())
}

// A refusal as lines of text: place and message, the line, carets under the place, what could stand there. The room is for the source and a
// word more.
pub fn report(page: &mut Page, name: &[u8], s: &[u8], a: Answer, room: &mut [u8]) {
    report_from(page, name, s, 0, a, room);
}

// The same of a declaration that begins at a place: what stands before it isn't read.
pub fn report_from(
    page: &mut Page,
    name: &[u8],
    s: &[u8],
    from: usize,
    a: Answer,
    room: &mut [u8],
) {
    // A page takes each text, as far as it reaches.
    let _ = reported(page, name, s, from, a, room);
}

// `{"file":NAME,"status":STATUS`.
pub fn json_head(page: &mut Page, name: &[u8], status: &[u8]) {
    page.put_all(b"{\"file\":\"");
    in_json::put_name(page, name);
    page.put_all(b"\",\"status\":\"");
    page.put_all(status);
    page.put(b'"');
}

// Where a refusal is: line and column of its first byte and of the byte behind its last, and both by their number from 0.
fn json_place(page: &mut Page, s: &[u8], a: Answer) -> fmt::Result {
    let first = places::spot_of(s, a.start);
    let last = places::spot_of(s, a.end);
    write!(
        page,
        ",\"number\":{},\"line\":{},\"column\":{}",
        a.number, first.line, first.column
    )?;
    write!(
        page,
        ",\"endLine\":{},\"endColumn\":{},\"start\":{},\"end\":{}",
        last.line, last.column, a.start, a.end
    )
}

fn json_reported(
    page: &mut Page,
    name: &[u8],
    s: &[u8],
    a: Answer,
    room: &mut [u8],
) -> fmt::Result {
    let mut tries = behind(room, s, 0, a);
    let mut expected = NOTHING;
    expect(a, &mut tries, &mut expected);
    json_head(page, name, b"refused");
    json_place(page, s, a)?;
    page.put_all(b",\"message\":\"");
    causes::message(&mut Json { page }, s, a, &mut tries, &expected)?;
    page.put_all(b"\",\"expected\":[");
    expected.put_json(page);
    page.put_all(b"]}\n");
    Ok(())
}

// A refusal as a line of JSON.
pub fn json(page: &mut Page, name: &[u8], s: &[u8], a: Answer, room: &mut [u8]) {
    // A page takes each text, as far as it reaches.
    let _ = json_reported(page, name, s, a, room);
}
