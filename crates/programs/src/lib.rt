// What the programs behind the commands share: how they are asked, the room that they have, how they read and write, and how they end. Promises
// little but to be safe and to end.
#![tactic(auto)]

ghost use Rattle.std.specs.Prelude.{◌≡◌, ◌≤◌, length, IfOk, IfSome, OnErr};

use std::alloc::{AllocError, Global};
use std::env::FillError;
use std::fmt;
use std::fmt::{Display, Write as _};
use std::io::{Error, Read, Stdout, Write};
use std::rt::Env;

// What a command ends with, by its number.
#[derive(Clone, Copy, Debug, PartialEq, Eq)]
pub enum Ending {
    Accepted,
    Refused,
    Failed,
}

impl From<Ending> for u8 {
    fn from(ending: Ending) -> u8 {
        b'0' + ending as u8
    }
}

const STDERR_FILENO: i32 = 2;

// Where the command that calls a program reads what it is to end with.
const STATUS_FILENO: i32 = 3;

// Rows that are enough for any source, and a place for the number that the check of a file keeps behind them.
const MOST_ROWS: usize = 98305;

// Zeros for their numbers.
pub fn rows_table() -> [u64; MOST_ROWS * rows::WIDTH] {
    [0; MOST_ROWS * rows::WIDTH]
}

// The first letter of a program's argument.
pub fn asked(rt: &impl Env) -> Option<u8> {
    let mut word = [0u8; 16];
    match rt.arg(1, &mut word) {
        Err(FillError::NotPresent) => None,
        _ => Some(word[0]),
    }
}

// How many arguments a program has, its own name among them.
pub fn arguments(rt: &impl Env) -> usize {
    for i in 0..usize::MAX {
        let mut word = [0u8; 16];
        if let Err(FillError::NotPresent) = rt.arg(i, &mut word) {
            return i;
        }
    }
    usize::MAX
}

// Tells the command that called this program what to end with. A program without arguments has no such caller.
pub fn status(rt: &impl Env, what: u8) {
    if 1 < arguments(rt) {
        io::write_all(STATUS_FILENO, &[what]);
    }
}

// What the library says behind an error's text.
const CODE: &str = " (os error ";

// Writes a line to standard error: what failed, a colon and why.
pub fn fail(alloc: Global, what: &[u8], why: &Error) {
    io::write_all(STDERR_FILENO, what);
    io::write_all(STDERR_FILENO, b": ");
    if reason(alloc, why).is_err() {
        io::write_all(STDERR_FILENO, b"no memory");
    }
    io::write_all(STDERR_FILENO, b"\n");
}

// An error's text, without its number.
fn reason(alloc: Global, why: &Error) -> Result<(), AllocError> {
    let text = format!(in alloc; "{why}")?;
    let all = text.as_str();
    let words = all.split_once(CODE).map_or(all, |(words, _)| words);
    io::write_all(STDERR_FILENO, words.as_bytes());
    Ok(())
}

// Reads until the buffer is full or the input ends: the part that was read.
// kept: no method of the library reads so far and no farther, and the place moves by what each read gives.
pub fn read<'b>(input: &mut impl Read, buffer: &'b mut [u8]) -> Result<&'b mut [u8], Error>
    ensures { IfOk result (λ part. length part.now ≤ length buffer.old) }
{
    let mut done = 0;
    while done < buffer.len() {
        let n = input.read(&mut buffer[done..])?;
        if n == 0 {
            break;
        }
        done += n;
    }
    Ok(&mut buffer[..done])
}

// Says that something couldn't be had, and what to end with.
fn give_up(rt: &(impl Env + AllocGlobal), what: &[u8], why: &Error) {
    fail(rt.alloc(), what, why);
    status(rt, Ending::Failed.into());
}

// The system's numbers for why an argument can't be had: there is none, and it is too long.
const EINVAL: i32 = 22;

const ENAMETOOLONG: i32 = 36;

// Why an argument can't be had, as the system says it.
pub fn lacking(why: FillError) -> Error {
    match why {
        FillError::NotPresent => Error::from_raw_os_error(EINVAL),
        FillError::TooLong => Error::from_raw_os_error(ENAMETOOLONG),
    }
}

// The first argument, which is a name; none if it can't be had, which is said then.
pub fn name<'b>(rt: &(impl Env + AllocGlobal), buffer: &'b mut [u8]) -> Option<&'b [u8]>
    ensures { IfSome result (λ name. length name.now ≤ length buffer.old) }
{
    match rt.arg(1, buffer) {
        Ok(length) => Some(&buffer[..length]),
        Err(why) => {
            give_up(rt, b"a name", &lacking(why));
            None
        }
    }
}

// Standard input, as far as the buffer reaches; none if it couldn't be read, which is said then.
pub fn source<'b>(
    rt: &(impl Env + Input + AllocGlobal),
    buffer: &'b mut [u8],
) -> Option<&'b mut [u8]>
    ensures { IfSome result (λ source. length source.now ≤ length buffer.old) }
{
    match read(&mut rt.reader(), buffer) {
        Ok(source) => Some(source),
        Err(why) => {
            give_up(rt, b"standard input", &why);
            None
        }
    }
}

// Standard output, and why writing to it failed, if it did; nothing is written then.
#[derive(Clone, Copy)]
pub struct Out {
    stdout: Stdout,
    written: Result<(), Error>,
}

impl Out {
    pub fn new(stdout: Stdout) -> Out
        ensures { result.written ≡ Ok tt }
    {
        Out {
            stdout,
            written: Ok(()),
        }
    }

    // Bytes as they are.
    pub fn say(&mut self, text: &[u8])
        ensures { OnErr self.old.written (self.new.written ≡ self.old.written) }
    {
        self.written = self.written.and_then(|()| self.stdout.write_all(text));
    }

    // A text, a number or a format, written at once up to `PIECE` bytes.
    pub fn print(&mut self, what: impl Display + Drop)
        ensures { OnErr self.old.written (self.new.written ≡ self.old.written) }
    {
        if self.written.is_ok() {
            let mut piece = Piece {
                out: *self,
                bytes: [0; PIECE],
                length: 0,
            };
            // A piece takes each text: what can't be written is known to `out`.
            let _ = piece.write_fmt(what);
            piece.pass_on();
            *self = piece.out;
        }
    }

    // Whether all of it was written.
    pub fn written(&self) -> Result<(), Error>
        ensures { result ≡ self.now.written }
    {
        self.written
    }
}

// Bytes of what is printed that are written at once.
const PIECE: usize = 256;

// What is printed, put together before it is written.
#[derive(Drop)]
struct Piece {
    out: Out,
    bytes: [u8; PIECE],
    length: usize,
}

impl Piece {
    fn pass_on(&mut self) {
        self.out.say(&self.bytes[..self.length.min(PIECE)]);
        self.length = 0;
    }
}

impl fmt::Write for Piece {
    fn write_str(&mut self, text: &str) -> fmt::Result {
        for b in text.as_bytes() {
            if PIECE <= self.length {
                self.pass_on();
            }
            if let Some(place) = self.bytes.get_mut(self.length) {
                *place = *b;
                self.length += 1;
            }
        }
        Ok(())
    }
}

// The end of a program that accepted or refused what it read, and wrote its answer, or couldn't.
pub fn end(rt: &(impl Env + AllocGlobal), accepted: bool, written: Result<(), Error>) {
    match written {
        Err(why) => give_up(rt, b"standard output", &why),
        Ok(()) if accepted => status(rt, Ending::Accepted.into()),
        Ok(()) => status(rt, Ending::Refused.into()),
    }
}

// A whole program: has what is on standard input answered, and ends by whether it was accepted, which is the result; none if it couldn't be read.
// The buffer is as long as the input can be.
pub fn run_in<F: FnOnce(&mut Out, &[u8]) -> bool + Drop>(
    rt: &HostRuntime,
    buffer: &mut [u8],
    answer: F,
) -> Option<bool>
    requires { F.IsAlwaysCallable answer }
    ensures { IfSome result (λ accepted. (out : _) × (source : _) × (after : _) × F.post answer out source accepted after × out.now.written ≡ Ok tt × length source.now ≤ length buffer.old) }
{
    let source = source(rt, buffer)?;
    let mut out = Out::new(rt.stdout());
    let accepted = answer(&mut out, source);
    end(rt, accepted, out.written());
    Some(accepted)
}

// The same, for a source.
pub fn run<F: FnOnce(&mut Out, &[u8]) -> bool + Drop>(rt: &HostRuntime, answer: F) -> Option<bool>
    requires { F.IsAlwaysCallable answer }
    ensures { IfSome result (λ accepted. (out : _) × (source : _) × (after : _) × F.post answer out source accepted after × out.now.written ≡ Ok tt) }
{
    run_in(rt, &mut io::large_buffer(), answer)
}
