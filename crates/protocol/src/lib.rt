// The records that code and definitions share. Assumes nothing.
#![tactic(auto)]

ghost use Rattle.std.specs.Prelude.{Some, decimal};
ghost use Rattle.protocol.specs.Words.{value};

use std::fmt;

// Which set of limits a node keeps to: a loom controller's or a rack controller's.
#[derive(Clone, Copy, PartialEq, Eq)]
pub enum Profile {
    Loom,
    Rack,
}

// What a node is opened with.
#[derive(Clone, Copy, PartialEq, Eq)]
pub struct Settings {
    pub profile: Profile,
    pub nodes: u64,
    pub own: u64,
    pub expiry: u64,
    pub depth: u64,
}

// What a node knows of time: the beat last seen, the last beat done, the slot last merged,
// and the slot of the last proposal that was made or brought into view.
#[derive(Clone, Copy, PartialEq, Eq)]
pub struct Clock {
    pub seen: u64,
    pub done: u64,
    pub merged: u64,
    pub proposed: u64,
}

// A block's number: lower + 2^64 * upper. The upper half stands first, so that the derived order is that of the numbers.
#[derive(Clone, Copy, PartialEq, Eq, PartialOrd, Ord)]
pub struct Number {
    pub upper: u64,
    pub lower: u64,
}

// In decimal digits.
impl fmt::Display for Number {
    ghost output = { λ n. Some (decimal (value n)) };

    #[tactic(auto, unfolding(crate::specs::Words::from_halves))]
    fn fmt<W: fmt::Write>(&self, f: &mut fmt::Formatter<W>) -> fmt::Result {
        let n = self.lower as u128 + (1 << 64) * self.upper as u128;
        write!(f, "{n}")
    }
}

// How many bytes a block's number takes in a packet: 8 or 16.
#[derive(Clone, Copy, PartialEq, Eq)]
pub enum Width {
    Narrow,
    Wide,
}

#[derive(Clone, Copy, PartialEq, Eq)]
pub struct Block {
    pub number: Number,
    pub parent: Number,
    pub slot: u64,
}

// A voter's vote of a slot for the block with this number.
#[derive(Clone, Copy, PartialEq, Eq)]
pub struct Vote {
    pub voter: u64,
    pub slot: u64,
    pub number: Number,
}
