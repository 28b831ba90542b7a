// Prints the source on standard input in its one way (C-20); a refusal goes to standard error in words. The argument is the source's name.
#![tactic(auto)]

use chars::{Answer, refusal};
use messages::Page;
use reader::entries;
use setter::entries::Printed;
use std::fmt;
use std::fmt::Write as _;
use std::io::{Error, Stderr, Write};

// Rows that there is room for: 8 MiB of stack hold both tables. Only a source with long sums in f-strings has more rows and a print that isn't too long.
const MOST_ROWS: usize = 65536;

// Why a source that can be read can't be printed.
#[derive(Clone, Copy)]
struct Unprinted(Printed);

impl fmt::Display for Unprinted {
    fn fmt<W: fmt::Write>(&self, f: &mut fmt::Formatter<W>) -> fmt::Result {
        let Unprinted(a) = *self;
        let number = a.number;
        write!(f, ": error[{number}]: ")?;
        match number {
            refusal::TOO_LONG => f.write_str(
                "its print would have more than 65535 bytes: split it\n",
            ),
            refusal::TOO_DEEP => writeln!(
                f,
                "its print would have 33 prefixes in a row (bytes {}..{} of the print)",
                a.start, a.end
            ),
            _ => writeln!(
                f,
                "its tree has {} rows, and there is room for {MOST_ROWS}: split it",
                a.count
            ),
        }
    }
}

// What reading says, with no room for any row; so a source is accepted if it says nothing else than that.
fn read(s: &[u8]) -> Answer {
    let mut none = [0u64; 1];
    entries::old_tree(s, &mut none)
}

// A refusal in words: the reader's, or why the source that it takes has no print.
fn refused(err: &mut Stderr, name: &[u8], s: &[u8], a: Printed) -> Result<(), Error> {
    let mut room = io::large_buffer();
    let mut out = io::large_buffer();
    let mut page = Page::new(&mut out);
    let r = read(s);
    if r.number == refusal::NO_ROOM {
        messages::put_name(&mut page, name);
        // A page takes each text, as far as it reaches.
        let _ = write!(page, "{}", Unprinted(a));
    } else {
        messages::report(&mut page, name, s, r, &mut room);
    }
    err.write_all(page.written())
}

fn printed(rt: &HostRuntime, name: &[u8], s: &[u8]) {
    let mut table = [0u64; MOST_ROWS * rows::WIDTH];
    let mut plan = [0u64; MOST_ROWS * setter::PLAN_WIDTH];
    let mut text = io::large_buffer();
    let a = setter::entries::print_tree(s, &mut table, &mut plan, &mut text);
    let accepted = a.number == refusal::NONE;
    let said = if accepted {
        rt.stdout().write_all(text.get(..a.count).unwrap_or(&text))
    } else {
        refused(&mut rt.stderr(), name, s, a)
    };
    programs::end(rt, accepted, said);
}

fn main(rt: HostRuntime) {
    let mut name = io::buffer();
    let Some(name) = programs::name(&rt, &mut name) else {
        return;
    };
    let mut source = io::large_buffer();
    let Some(source) = programs::source(&rt, &mut source) else {
        return;
    };
    printed(&rt, name, source);
}
