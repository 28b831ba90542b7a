// Prints the rows of the tree of the source on standard input, or its refusal; with the argument `names` as a tree with names.
#![tactic(auto)]

fn main(rt: HostRuntime) {
    let named = programs::asked(&rt) == Some(b'n');
    let mut table = programs::rows_table();
    programs::run(&rt, |out, source| {
        print::answer_tree(out, source, &mut table, named)
    });
}
