// What a node itself may do and did: whether it is joined, proposes, has voted, has proposed; and which votes it keeps.
// Each takes a look through one table at most.
#![tactic(auto)]

ghost use Rattle.std.specs.Prelude.{◌&&◌, cond, [], ◌≡◌, ◌+◌, ◌/◌, ◌%◌, ◌<◌, eqb};
ghost use Rattle.protocol.specs.Lists.{any_pass};
ghost use Rattle.protocol.specs.Store.{entries, view_of, kept_from};
ghost use Rattle.protocol.specs.Chain.{genesis};
ghost use Rattle.protocol.specs.Words.{block_of};
ghost use Rattle.protocol.specs.Lent.{rows_of, make_block, make_vote};
ghost use Rattle.protocol.specs.Calls.Write.{last_block, proposed_now};

use protocol::{Block, Clock, Number, Settings, Vote};
use rows::Table;

// Block 0.
const GENESIS: Block = Block {
    number: Number { upper: 0, lower: 0 },
    parent: Number { upper: 0, lower: 0 },
    slot: 0,
};

// Whether the node is joined for the beat's slot: the slot before it was the last one merged.
pub fn joined(clock: Clock, beat: u64) -> bool
    ensures { result ≡ eqb (clock.merged + 1) (beat / 3) }
{
    let slot = beat / 3;
    slot != 0 && clock.merged == slot - 1
}

// The first slot whose votes the node keeps once this slot is merged.
pub fn kept_from(settings: Settings, slot: u64) -> u64
    ensures { result ≡ kept_from settings slot }
{
    slot.saturating_sub(settings.expiry)
}

// Whether the node is the proposer of the beat's slot.
pub fn is_proposer(settings: Settings, beat: u64) -> bool
    requires { 0 < settings.nodes }
    ensures { result ≡ eqb (beat / 3 % settings.nodes) settings.own }
{
    beat / 3 % settings.nodes == settings.own
}

// Whether a vote of this voter for this slot is known.
pub fn has_voted(votes: Table<'_, Vote>, voter: u64, slot: u64) -> bool
    ensures { result ≡ any_pass (λ a. eqb a.voter voter && eqb a.slot slot) (entries (rows_of make_vote votes.entry.words.now votes.entry.used)) }
{
    for i in 0..votes.used {
        let vote = votes.row(i).entry;
        if vote.voter == voter && vote.slot == slot {
            return true;
        }
    }
    false
}

// The last block in view.
// Block 0 where none is, as the definition `last_block` says.
pub fn last_in_view(blocks: Table<'_, Block>) -> Block
    ensures { block_of result ≡ last_block (view_of (rows_of make_block blocks.entry.words.now blocks.entry.used)) }
{
    let mut last = GENESIS;
    for i in 0..blocks.used {
        let row = blocks.row(i);
        if row.viewed {
            last = row.entry;
        }
    }
    last
}

// The block that the header of a packet names: the proposed one, in gossip block 0.
#[tactic(auto, unfolding(protocol::specs::Words::from_halves))]
pub fn header_block(blocks: Table<'_, Block>, proposal: bool) -> Block
    ensures { block_of result ≡ cond proposal (last_block (view_of (rows_of make_block blocks.entry.words.now blocks.entry.used))) genesis }
{
    if proposal {
        last_in_view(blocks)
    } else {
        GENESIS
    }
}

// Whether the beat seen is phase 0 of a slot that this node proposed.
// The rule asks nothing of the votes.
#[tactic(auto, unfolding(protocol::specs::Calls::Write::proposed_now))]
pub fn proposed_now(settings: Settings, clock: Clock, blocks: Table<'_, Block>) -> bool
    requires { 0 < settings.nodes }
    ensures { result ≡ proposed_now settings (record { blocks = rows_of make_block blocks.entry.words.now blocks.entry.used; votes = []; clock = clock }) }
{
    clock.seen % 3 == 0
        && clock.done == clock.seen
        && is_proposer(settings, clock.seen)
        && last_in_view(blocks).slot == clock.seen / 3
}
