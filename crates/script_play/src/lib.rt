// Where a script stands between two of its pieces.
#![tactic(auto)]

ghost use Rattle.std.specs.Prelude.{◌≡◌};
ghost use Rattle.script_play.specs.Progress.{goes_on_of};

use scheduler::Scheduler;

#[derive(Clone, Copy)]
pub enum Stage {
    First,
    Playing,
    Over,
}

impl Stage {
    pub fn goes_on(self) -> bool
        ensures { result ≡ goes_on_of self }
    {
        !matches!(self, Stage::Over)
    }
}

// The place of the next line, the steps of a wait still to go, and the scheduler.
#[derive(Clone, Copy)]
pub struct Play {
    pub stage: Stage,
    pub at: usize,
    pub steps: u32,
    pub scheduler: Scheduler,
}

// What a page is left with: where its lines end, and where the script stands then.
#[derive(Clone, Copy)]
pub struct Played {
    pub end: usize,
    pub play: Play,
}
