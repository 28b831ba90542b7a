// Salvages the source on standard input: writes what is left of it, and to standard error a report of each range that was dropped. The argument is
// the source's name.
#![tactic(auto)]

ghost use Rattle.std.specs.Prelude.{◌≤◌, length};

use chars::{Answer, refusal};
use messages::{Page, places};
use std::fmt;
use std::fmt::{Display, Write as _};
use std::io::{Error, Stderr, Write};

// Ranges that are enough for any source: three bytes each.
const MOST_RANGES: usize = 21845;

// What was dropped of a source: the lines that it is in, and its ends.
#[derive(Clone, Copy)]
struct Dropped {
    first: usize,
    last: usize,
    start: usize,
    end: usize,
}

impl Dropped {
    fn of(s: &[u8], start: usize, end: usize) -> Dropped {
        Dropped {
            first: places::spot_of(s, start).line,
            last: places::spot_of(s, end.saturating_sub(1)).line,
            start,
            end,
        }
    }
}

impl fmt::Display for Dropped {
    fn fmt<W: fmt::Write>(&self, f: &mut fmt::Formatter<W>) -> fmt::Result {
        let Dropped {
            first,
            last,
            start,
            end,
        } = *self;
        if first == last {
            write!(f, "  dropped line {first}")?;
        } else {
            write!(f, "  dropped lines {first} to {last}")?;
        }
        writeln!(f, " (bytes {start}..{end})")
    }
}

// What reports are made of and where they go.
#[derive(Drop)]
struct Reports<'a> {
    to: Stderr,
    name: &'a [u8],
    source: &'a [u8],
}

impl Reports<'_> {
    // A refusal of a declaration that begins at a place, in words, and what is said behind it. Nothing before it is read for it, since declarations
    // alone stand there, and spaces.
    fn refusal(
        &mut self,
        from: usize,
        why: Answer,
        behind: impl Display + Drop,
    ) -> Result<(), Error> {
        let mut room = io::large_buffer();
        let mut out = io::large_buffer();
        let mut page = Page::new(&mut out);
        messages::report_from(&mut page, self.name, self.source, from, why, &mut room);
        // A page takes each text, as far as it reaches.
        let _ = write!(page, "{behind}");
        self.to.write_all(page.written())
    }

    // A range: its refusal, and what was dropped.
    fn range(&mut self, range: &[u64; salvage::WIDTH]) -> Result<(), Error> {
        let [start, end, number, refusal_start, refusal_end] = *range;
        let why = Answer {
            number,
            start: refusal_start as usize,
            end: refusal_end as usize,
            count: 0,
        };
        let dropped = Dropped::of(self.source, start as usize, end as usize);
        self.refusal(start as usize, why, dropped)
    }

    fn ranges(&mut self, ranges: &[u64], count: usize) -> Result<(), Error> {
        let (ranges, _) = ranges.as_chunks::<{ salvage::WIDTH }>();
        for range in ranges.iter().take(count) {
            self.range(range)?;
        }
        Ok(())
    }
}

// A copy in a buffer.
fn copied<'b>(s: &[u8], buffer: &'b mut [u8]) -> &'b [u8]
    requires { length s.now ≤ length buffer.old }
{
    let copy = &mut buffer[..s.len()];
    copy.copy_from_slice(s);
    copy
}

// A source: its bytes become what is left of it.
fn salvaged(rt: &HostRuntime, name: &[u8], s: &mut [u8])
    requires { length s.old ≤ 65536 }
{
    let mut buffer = io::large_buffer();
    let came = copied(s, &mut buffer);
    let mut reports = Reports {
        to: rt.stderr(),
        name,
        source: came,
    };
    let mut table = programs::rows_table();
    let mut ranges = [0u64; MOST_RANGES * salvage::WIDTH];
    let a = salvage::salvage(s, &mut table, &mut ranges);
    if a.number == refusal::NONE {
        let written = rt.stdout().write_all(s);
        let said = reports.ranges(&ranges, a.ranges);
        programs::end(rt, a.ranges == 0, written.and(said));
        return;
    }
    let why = Answer {
        number: a.number,
        start: a.start,
        end: a.end,
        count: 0,
    };
    let said = reports.refusal(0, why, "");
    programs::end(rt, false, said);
}

fn main(rt: HostRuntime) {
    let mut name = io::buffer();
    let Some(name) = programs::name(&rt, &mut name) else {
        return;
    };
    let mut source = io::large_buffer();
    let Some(source) = programs::source(&rt, &mut source) else {
        return;
    };
    salvaged(&rt, name, source);
}
