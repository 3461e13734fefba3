// Plays the seasons whose lists the arguments name, each after its name.
#![tactic(auto)]

fn main(rt: HostRuntime) {
    season_runner::run_files(&rt);
}
