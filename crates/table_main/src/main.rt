// Checks a file of a source and its rows, or writes one. Standard input is `t`, a newline and the file, or `w`, a newline and the source.
#![tactic(auto)]

// Bytes of the longest file that is read or written here: that of an ordinary filter of 50 KiB.
const MOST_BYTES: usize = 688128;

// Zeros for its bytes.
// kept: a function, since the checker runs out of stack on a slice of zeros that are written so where they are lent.
fn file_buffer() -> [u8; MOST_BYTES] {
    [0; MOST_BYTES]
}

fn main(rt: HostRuntime) {
    let what = decimals::next_byte();
    decimals::next_byte();
    let mut table = programs::rows_table();
    let mut file = file_buffer();
    if what == b'w' {
        programs::run(&rt, |out, source| {
            print::answer_file(out, source, &mut table, &mut file)
        });
    } else {
        programs::run_in(&rt, &mut file, |out, file| {
            print::answer_check(out, file, &mut table)
        });
    }
}
