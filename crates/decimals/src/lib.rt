// Decimals in what the programs are given. Promises nothing but to be safe and to end.
#![tactic(auto)]

const STDIN_FILENO: i32 = 0;

// No number of 64 bits has more digits.
const MOST_DIGITS: usize = 20;

// The next byte of standard input, a newline behind the last.
pub fn next_byte() -> u8 {
    let mut one = [b'\n'; 1];
    io::read_full(STDIN_FILENO, &mut one);
    one[0]
}

// What a digit says.
fn digit(b: u8) -> Option<u64> {
    if b.is_ascii_digit() {
        Some(u64::from(b - b'0'))
    } else {
        None
    }
}

// A number with a digit more, or without it where 64 bits don't hold that.
fn longer(value: u64, digit: u64) -> u64 {
    value
        .checked_mul(10)
        .and_then(|tens| tens.checked_add(digit))
        .unwrap_or(value)
}

// A number and the byte behind it.
#[derive(Clone, Copy)]
pub struct Numeral {
    pub value: u64,
    pub behind: u8,
}

// The next number of standard input, and the byte behind it taken too.
pub fn figure() -> Numeral {
    let mut read = Numeral {
        value: 0,
        behind: b'0',
    };
    for _ in 0..=MOST_DIGITS {
        read.behind = next_byte();
        let Some(next) = digit(read.behind) else {
            return read;
        };
        read.value = longer(read.value, next);
    }
    read
}

// The number that digits say.
fn number(digits: &[u8]) -> u64 {
    digits
        .iter()
        .filter_map(|b| digit(*b))
        .fold(0, |value, next| longer(value, next))
}

// The numbers of a text, with anything but digits between, put into a table as far as it reaches: the part that has them.
pub fn numbers<'t>(text: &[u8], table: &'t mut [u64]) -> &'t [u64] {
    let figures = text
        .split(|b| !b.is_ascii_digit())
        .filter(|digits| !digits.is_empty());
    let mut count = 0;
    for digits in figures {
        if count < table.len() {
            table[count] = number(digits);
            count += 1;
        }
    }
    &table[..count]
}
