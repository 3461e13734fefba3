// Plays the season whose list is on standard input, and prints its printout.
#![tactic(auto)]

fn main(rt: HostRuntime) {
    season_runner::run(&rt, &mut rt.stdin(), &mut rt.stdout());
}
