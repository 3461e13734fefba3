// A season: a list of jobs with their arrivals and actual run lengths, played through a scheduler (document 02, No. 6). The types; what they mean
// is in specs/.
#![tactic(auto)]

// A line of the list: a job that arrives in a minute, and how long it will have run.
#[derive(Clone, Copy)]
pub struct Arrival {
    pub minute: u32,
    pub nodes: u32,
    pub estimate: u32,
    pub actual: u32,
}
