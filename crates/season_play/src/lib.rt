// Where a season stands between two of its pieces.
#![tactic(auto)]

use scheduler::Scheduler;
use script_play::Stage;

// The place of the next line, how many lines are done with, the highest arrival of those that have the form, and the scheduler.
#[derive(Clone, Copy)]
pub struct Standing {
    pub stage: Stage,
    pub at: usize,
    pub above: usize,
    pub highest: u32,
    pub scheduler: Scheduler,
}
