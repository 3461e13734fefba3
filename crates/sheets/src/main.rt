// Plays the day sheets that the arguments name, each after its name.
#![tactic(auto)]

fn main(rt: HostRuntime) {
    script_runner::run_files(&rt);
}
