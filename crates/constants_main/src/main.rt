// Prints each constant of a source on standard input: its name, its type, and its value or its refusal with line and column; or the source's refusal.
#![tactic(auto)]

fn main(rt: HostRuntime) {
    let mut table = programs::rows_table();
    // Room for the instructions of the longest constant.
    let mut list = [0u64; machine::MOST * machine::WIDTH];
    programs::run(&rt, |out, source| {
        print::constant::answer_all(out, source, &mut table, &mut list)
    });
}
