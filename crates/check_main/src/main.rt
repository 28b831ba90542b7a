// Checks sources. Arguments: `text` or `json`, then files, each with a letter before its name: `-` standard input, `f` a file or a pipe, `o`
// anything else. Writes a report of each refusal, or a line of JSON for each file, and how many there were of each kind.
#![tactic(auto)]

use chars::{Answer, refusal};
use messages::Page;
use programs::{Ending, Out};
use reader::entries;
use std::fs;
use std::fs::File;
use std::io::{Error, ErrorKind, Read};
use std::rt::Env;

const STDERR_FILENO: i32 = 2;

// The first argument that is a file.
const FIRST_FILE: usize = 2;

// What became of one file.
#[derive(Clone, Copy, Debug, PartialEq, Eq)]
enum Outcome {
    Accepted,
    Refused,
    Unread,
}

// How many files there were of each kind.
#[derive(Clone, Copy, Default)]
struct Tally {
    accepted: u64,
    refused: u64,
    unread: u64,
}

impl Tally {
    fn add(&mut self, outcome: Outcome) {
        match outcome {
            Outcome::Accepted => self.accepted = self.accepted.saturating_add(1),
            Outcome::Refused => self.refused = self.refused.saturating_add(1),
            Outcome::Unread => self.unread = self.unread.saturating_add(1),
        }
    }
}

// Where what becomes of a file is said, in which form, and the file's name. An error is one of saying it.
#[derive(Drop)]
struct Report<'a> {
    to: &'a mut Out,
    json: bool,
    name: &'a [u8],
}

impl Report<'_> {
    // A file without a refusal: a line of JSON, and nothing as text.
    fn plain(&mut self, status: &[u8], outcome: Outcome) -> Result<Outcome, Error> {
        if self.json {
            let mut out = io::large_buffer();
            let mut page = Page::new(&mut out);
            messages::json_head(&mut page, self.name, status);
            page.put_all(b"}\n");
            self.to.say(page.written());
            self.to.written()?;
        }
        Ok(outcome)
    }

    fn refused(&mut self, s: &[u8], a: Answer) -> Result<Outcome, Error> {
        let mut room = io::large_buffer();
        let mut out = io::large_buffer();
        let mut page = Page::new(&mut out);
        if self.json {
            messages::json(&mut page, self.name, s, a, &mut room);
        } else {
            messages::report(&mut page, self.name, s, a, &mut room);
        }
        self.to.say(page.written());
        self.to.written()?;
        Ok(Outcome::Refused)
    }

    // The reader has no room for any row: so a source is accepted if it says nothing else.
    fn checked(&mut self, s: &[u8]) -> Result<Outcome, Error> {
        let mut none = [0u64; 1];
        let a = entries::tree(s, &mut none);
        if a.number == refusal::NO_ROOM {
            return self.plain(b"accepted", Outcome::Accepted);
        }
        self.refused(s, a)
    }

    fn unread(&mut self, rt: &HostRuntime, why: &Error) -> Result<Outcome, Error> {
        programs::fail(rt.alloc(), self.name, why);
        self.plain(b"unreadable", Outcome::Unread)
    }

    fn other(&mut self) -> Result<Outcome, Error> {
        io::write_all(STDERR_FILENO, self.name);
        io::write_all(STDERR_FILENO, b": no regular file and no pipe\n");
        self.plain(b"unreadable", Outcome::Unread)
    }

    // A file that is open.
    fn opened(&mut self, rt: &HostRuntime, input: &mut impl Read) -> Result<Outcome, Error> {
        let mut buffer = io::large_buffer();
        match programs::read(input, &mut buffer) {
            Ok(source) => self.checked(source),
            Err(why) => self.unread(rt, &why),
        }
    }

    fn named(&mut self, rt: &HostRuntime) -> Result<Outcome, Error> {
        match open(rt, self.name) {
            Ok(mut file) => self.opened(rt, &mut file),
            Err(why) => self.unread(rt, &why),
        }
    }

    // A file by the letter before its name.
    fn file(&mut self, rt: &HostRuntime, letter: u8) -> Result<Outcome, Error> {
        match letter {
            b'-' => self.opened(rt, &mut rt.reader()),
            b'o' => self.other(),
            _ => self.named(rt),
        }
    }
}

// A file by its name, which has to be UTF-8.
fn open(rt: &HostRuntime, name: &[u8]) -> Result<File, Error> {
    match std::str::from_utf8(name) {
        Ok(path) => fs::open(rt, path),
        Err(_) => Err(Error::from(ErrorKind::InvalidFilename)),
    }
}

// The argument with a number.
fn argument(rt: &HostRuntime, to: &mut Out, json: bool, i: usize) -> Result<Outcome, Error> {
    let mut buffer = io::buffer();
    let length = match rt.arg(i, &mut buffer) {
        Ok(length) => length,
        Err(why) => {
            let name = b"a name";
            return Report { to, json, name }.unread(rt, &programs::lacking(why));
        }
    };
    let Some((letter, name)) = buffer[..length].split_first() else {
        let name = b"";
        return Report { to, json, name }.unread(rt, &Error::from_raw_os_error(0));
    };
    Report { to, json, name }.file(rt, *letter)
}

// The arguments behind the first.
fn arguments(rt: &HostRuntime, to: &mut Out, json: bool, count: usize) -> Tally {
    let mut tally = Tally::default();
    for i in FIRST_FILE..count {
        match argument(rt, to, json, i) {
            Ok(outcome) => tally.add(outcome),
            Err(why) => programs::fail(rt.alloc(), b"standard output", &why),
        }
    }
    tally
}

fn ending(tally: Tally, written: Result<(), Error>) -> Ending {
    if (0 < tally.unread) | written.is_err() {
        return Ending::Failed;
    }
    if 0 < tally.refused {
        return Ending::Refused;
    }
    Ending::Accepted
}

fn main(rt: HostRuntime) {
    let json = programs::asked(&rt) == Some(b'j');
    let count = programs::arguments(&rt);
    let mut to = Out::new(rt.stdout());
    let tally = arguments(&rt, &mut to, json, count);
    let files = count.saturating_sub(FIRST_FILE);
    if (1 < files) & !json {
        let Tally {
            accepted,
            refused,
            unread,
        } = tally;
        to.print(format_args!(
            "{files} files: {accepted} accepted, {refused} refused, {unread} unreadable\n"
        ));
    }
    programs::status(&rt, ending(tally, to.written()).into());
}
