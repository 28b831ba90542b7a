// Prints the token list of the source on standard input, or its refusal; with the argument `names` by names and with texts.
#![tactic(auto)]

// More tokens than any source has.
const MOST_TOKENS: usize = 65536;

fn main(rt: HostRuntime) {
    let named = programs::asked(&rt) == Some(b'n');
    programs::run(&rt, |out, source| {
        print::answer_tokens(out, source, MOST_TOKENS, named)
    });
}
