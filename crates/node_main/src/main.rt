// Prints the leaf that holds a byte, its row and its text, or a refusal. Standard input is the byte's position, a newline and the source.
#![tactic(auto)]

fn main(rt: HostRuntime) {
    let position = decimals::figure().value;
    let mut table = programs::rows_table();
    programs::run(&rt, |out, source| {
        print::answer_leaf(out, source, &mut table, position)
    });
}
