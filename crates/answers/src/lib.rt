// The answers of the twelve calls: `Result`s, where the error is document 01's refusal. What each means is in specs/Answers, what each call
// promises in specs/Promises.
#![tactic(auto)]

use protocol::Number;
use verdicts::Refusal;

// What a Receive that was carried out answers: how many entries were new, and whether the packet came into view.
#[derive(Clone, Copy, PartialEq, Eq)]
pub struct Received {
    pub new_blocks: u64,
    pub new_votes: u64,
    pub viewed: bool,
}

// The calls that carry a beat. Propose is given the new block's number.
#[derive(Clone, Copy, PartialEq, Eq)]
pub enum Call {
    Receive,
    Propose(Number),
    Vote,
    Merge,
}

// What one of them answers: Merge Done, Propose the base as Block, Vote the head as Block.
#[derive(Clone, Copy, PartialEq, Eq)]
pub enum Answer {
    Done,
    Received(Received),
    Block(Number),
}

// What Fit answers of a packet: how many entries would be new, and how many bytes a wide gossip packet would have afterwards.
#[derive(Clone, Copy, PartialEq, Eq)]
pub struct Figures {
    pub new_blocks: u64,
    pub new_votes: u64,
    pub bytes: u64,
}

// Why Compare compares nothing.
#[derive(Clone, Copy, PartialEq, Eq)]
pub enum NotCompared {
    // before a packet was looked at
    Memory(Refusal),
    // Receive would refuse the first packet on fresh tables, or the second
    First(Refusal),
    Second(Refusal),
}
