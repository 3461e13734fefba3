// Plays the day sheet on standard input, and prints its printout.
#![tactic(auto)]

fn main(rt: HostRuntime) {
    script_runner::run(&rt, &mut rt.stdin(), &mut rt.stdout());
}
