// Recorded answers, replayed: the cases of `stdin` are assigned, and what is written must be `stdout`. HOW.md says how the two were made.
#![tactic(auto)]

fn main(rt: HostRuntime) {
    turns::run::answer_input(answers::Way::Assign, &mut rt.stdin());
}
