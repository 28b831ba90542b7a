// Little-endian numbers in lent bytes: of four bytes, and of eight.
ghost use Rattle.std.specs.Prelude.{◌≡◌, ◌+◌, ◌≤◌, ◌<◌, length};
ghost use Rattle.std.proofs.lemmas.List.Edits.{sets};
ghost use Rattle.sheets.specs.Files.{bytes};
ghost use Rattle.sheets.specs.Places.{number_at};

// The bytes of a count or an index, and of a number of a row.
pub const SHORT: usize = 4;

pub const LONG: usize = 8;

pub fn short_at(b: &[u8], at: usize) -> u32
    requires { at + 4 ≤ length b.now }
    ensures { result ≡ number_at 4 b.now at }
{
    u32::from_le_bytes([b[at], b[at + 1], b[at + 2], b[at + 3]])
}

pub fn long_at(b: &[u8], at: usize) -> u64
    requires { at + 8 ≤ length b.now }
    ensures { result ≡ number_at 8 b.now at }
{
    u64::from_le_bytes([
        b[at],
        b[at + 1],
        b[at + 2],
        b[at + 3],
        b[at + 4],
        b[at + 5],
        b[at + 6],
        b[at + 7],
    ])
}

// Some bytes at a place.
// kept: byte by byte, since with `copy_from_slice` the library for C would need memmove from outside.
pub fn put(b: &mut [u8], at: usize, part: &[u8])
    requires { at + length part.now ≤ length b.old }
    ensures { b.new ≡ sets b.old at part.now }
{
    for (i, x) in part.iter().enumerate() {
        b[at + i] = *x;
    }
}

pub fn put_long(b: &mut [u8], at: usize, x: u64)
    requires { at + 8 ≤ length b.old }
    ensures { b.new ≡ sets b.old at (bytes 8 x) }
{
    put(b, at, &x.to_le_bytes());
}

// The low four bytes of a number.
pub fn put_short(b: &mut [u8], at: usize, x: usize)
    requires { at + 4 ≤ length b.old }
    ensures { b.new ≡ sets b.old at (bytes 4 x) }
{
    put(b, at, &x.to_le_bytes()[..SHORT]);
}
