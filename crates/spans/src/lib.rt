// Nodes taken over stretches of minutes: the types; what they mean and its laws are in specs/.
#![tactic(auto)]

// Nodes that are taken from one minute on until another, in which they are free again.
#[derive(Clone, Copy)]
pub struct Span {
    pub from: u32,
    pub until: u32,
    pub nodes: u32,
}

// A minute, and the nodes that are free from it on.
#[derive(Clone, Copy)]
pub struct Point {
    pub minute: u32,
    pub free: u32,
}

// A block's fewest and most free nodes.
#[derive(Clone, Copy)]
pub struct Block {
    pub fewest: u32,
    pub most: u32,
}
