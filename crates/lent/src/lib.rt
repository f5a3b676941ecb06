// What a call is lent: the node's settings, its clock, and the memory of both tables, to be read or to be changed. Nothing is asked of it.
#![tactic(auto)]

ghost use Rattle.std.specs.Prelude.{◌≡◌};
ghost use Rattle.lent.specs.Memory.{memory, memory_mut};

use protocol::{Clock, Settings};

// What a question is lent: the words of both tables are only read.
#[derive(Clone, Copy)]
pub struct Lent<'a> {
    pub settings: Settings,
    pub clock: Clock,
    pub blocks: &'a [u64],
    pub blocks_used: usize,
    pub votes: &'a [u64],
    pub votes_used: usize,
}

// What a call is lent that changes the memory: it moves the clock and both counts on in place.
#[derive(Drop)]
pub struct LentMut<'a> {
    pub settings: Settings,
    pub clock: Clock,
    pub blocks: &'a mut [u64],
    pub blocks_used: usize,
    pub votes: &'a mut [u64],
    pub votes_used: usize,
}

impl<'a> LentMut<'a> {
    // The same, to be read.
    pub fn read(&self) -> Lent<'_>
        ensures settings { result.settings ≡ self.now.settings }
        ensures memory { memory result ≡ memory_mut self.now }
    {
        Lent {
            settings: self.settings,
            clock: self.clock,
            blocks: &*self.blocks,
            blocks_used: self.blocks_used,
            votes: &*self.votes,
            votes_used: self.votes_used,
        }
    }
}
