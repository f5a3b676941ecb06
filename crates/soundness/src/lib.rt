// Refusal 6: whether lent memory is sound, for any words, lengths and counts that a caller may lend.
// Lengths and counts are tested first, so nothing is read outside the slices; then marks, voters and slots, in one pass over each
// table. Then one pass over the blocks builds an index of their numbers, one looks each parent up and one each vote's block, and one
// over the votes builds an index of them, by which no vote stands twice.
// The whole test costs two lookups for each block and two for each vote. Honest entries meet a row or two in a lookup.
// Stack: 24 KiB for the links of 2,048 blocks and 48 KiB for those of 8,192 votes.
#![tactic(auto)]

ghost use Rattle.std.specs.Prelude.{true, ◌&&◌, ◌≡◌, ◌≤◌};
ghost use Rattle.protocol.specs.Limits.{loom};
ghost use Rattle.protocol.specs.Words.{block_of};
ghost use Rattle.protocol.specs.Lists.{all_pass};
ghost use Rattle.protocol.specs.Chain.{genesis};
ghost use Rattle.protocol.specs.Store.{same_block};
ghost use Rattle.protocol.specs.Lent.{rows_of, make_block, make_vote, lent_sound};
ghost use Rattle.lent.specs.Memory.{memory};
ghost use Rattle.rows.specs.Rows.{marked_block, marked_vote};
ghost use Rattle.search_tree.specs.Tree.{Blank};
ghost use Rattle.index.specs.Index.{TableRoom};
ghost use Rattle.soundness.specs.Parts.{parent_sound, chain_sound, voted_sound, tables_sound, Indexed, TablesIndexed};

use lent::Lent;
use protocol::{Block, Number, Vote};
use rows::{Row, Table};

// Block 0, which is its own parent.
const GENESIS: Block = Block {
    number: Number { upper: 0, lower: 0 },
    parent: Number { upper: 0, lower: 0 },
    slot: 0,
};

// Whether a row is block 0, in view.
#[tactic(auto, unfolding(protocol::specs::Words::from_halves, protocol::specs::Store::same_block))]
fn first_sound(row: Row<Block>) -> bool
    ensures { result ≡ (same_block (block_of row.entry) genesis && row.viewed) }
{
    row.entry == GENESIS && row.viewed
}

// Blocks and links to them travel together, but in no struct with a ghost field that says what the links are: an index is a fact of which there can be
// more than one proof, and such a field has to be one of which there is at most one.

// Whether the parent of row i stands before it with a lower slot, in view if the row is. The cost is a lookup.
// Apart from `voted_sound`: that looks among all rows, and up to a slot; a generic would take both as parameters.
fn parent_sound(blocks: Table<'_, Block>, links: &[u16], i: usize, row: Row<Block>) -> bool
    requires indexed { Indexed blocks.words.now blocks.used links.now }
    requires within { i ≤ blocks.used }
    ensures { result ≡ parent_sound (rows_of make_block blocks.entry.words.now i) (marked_block row) }
{
    let Some(j) = index::link(blocks, links, row.entry.parent) else {
        return false;
    };
    if j >= i {
        return false;
    }
    let parent = blocks.row(j);
    parent.entry.slot < row.entry.slot && (!row.viewed || parent.viewed)
}

// Whether block 0 stands first, in view, and each other block's parent is sound. The cost is a lookup for each block.
fn chain_sound(blocks: Table<'_, Block>, links: &[u16]) -> bool
    requires { Indexed blocks.words.now blocks.used links.now }
    ensures { result ≡ chain_sound (rows_of make_block blocks.entry.words.now blocks.entry.used) }
{
    if blocks.used == 0 || !first_sound(blocks.row(0)) {
        return false;
    }
    for i in 1..blocks.used {
        if !parent_sound(blocks, links, i, blocks.row(i)) {
            return false;
        }
    }
    true
}

// Whether the vote's block is there with no later slot, in view if the vote is. The cost is a lookup.
fn voted_sound(blocks: Table<'_, Block>, links: &[u16], row: Row<Vote>) -> bool
    requires { Indexed blocks.words.now blocks.used links.now }
    ensures { result ≡ voted_sound (rows_of make_block blocks.entry.words.now blocks.entry.used) (marked_vote row) }
{
    let Some(j) = index::link(blocks, links, row.entry.number) else {
        return false;
    };
    let voted = blocks.row(j);
    voted.entry.slot <= row.entry.slot && (!row.viewed || voted.viewed)
}

// Whether the block of each vote is sound. The cost is a lookup for each vote.
fn all_voted_sound(blocks: Table<'_, Block>, links: &[u16], votes: Table<'_, Vote>) -> bool
    requires { Indexed blocks.words.now blocks.used links.now }
    ensures { result ≡ all_pass (voted_sound (rows_of make_block blocks.entry.words.now blocks.entry.used)) (rows_of make_vote votes.entry.words.now votes.entry.used) }
{
    for i in 0..votes.used {
        if !voted_sound(blocks, links, votes.row(i)) {
            return false;
        }
    }
    true
}

// The rules that look at several rows; and the links, all free before, are indices of both tables if these keep them. The cost is two
// lookups for each row.
#[tactic(auto, unfolding(crate::specs::Parts::tables_sound))]
fn tables_sound(
    blocks: Table<'_, Block>,
    votes: Table<'_, Vote>,
    block_links: &mut [u16],
    vote_links: &mut [u16],
) -> bool
    requires block_room { TableRoom blocks.used block_links.old }
    requires block_links { Blank block_links.old }
    requires vote_room { TableRoom votes.used vote_links.old }
    requires vote_links { Blank vote_links.old }
    ensures sound { result ≡ tables_sound (rows_of make_block blocks.entry.words.now blocks.entry.used) (rows_of make_vote votes.entry.words.now votes.entry.used) }
    ensures indexed { result ≡ true → TablesIndexed blocks.entry.words.now blocks.entry.used block_links.new votes.entry.words.now votes.entry.used vote_links.new }
{
    index::build_blocks(blocks, block_links)
        && chain_sound(blocks, block_links)
        && all_voted_sound(blocks, block_links, votes)
        && index::build_votes(votes, vote_links)
}

// Whether lent memory is sound. If it is, the links, all free before, are indices of both tables. Nothing is asked of what is lent.
#[tactic(auto, using(crate::proofs::Whole::whole))]
pub fn sound_indexed(lent: Lent<'_>, block_links: &mut [u16], vote_links: &mut [u16]) -> bool
    requires block_room { TableRoom loom.blocks block_links.old }
    requires block_links { Blank block_links.old }
    requires vote_room { TableRoom loom.votes vote_links.old }
    requires vote_links { Blank vote_links.old }
    ensures sound { result ≡ lent_sound lent.entry.settings (memory lent.entry) }
    ensures indexed { result ≡ true → TablesIndexed lent.entry.blocks.now lent.entry.blocks_used block_links.new lent.entry.votes.now lent.entry.votes_used vote_links.new }
{
    let settings = lent.settings;
    if !ranges::settings_sound(settings)
        || !ranges::places_sound(settings.profile, lent.blocks, lent.votes)
    {
        return false;
    }
    let Some(blocks) = ranges::table::<Block>(lent.blocks, lent.blocks_used) else {
        return false;
    };
    let Some(votes) = ranges::table::<Vote>(lent.votes, lent.votes_used) else {
        return false;
    };
    let slot = lent.clock.seen / 3;
    ranges::clock_sound(lent.clock)
        && ranges::blocks_in_range(blocks, slot)
        && ranges::votes_in_range(votes, settings.nodes, slot)
        && tables_sound(blocks, votes, block_links, vote_links)
}

// Whether lent memory is sound. Nothing is asked of what is lent. Stack: 72 KiB of links.
pub fn lent_sound(lent: Lent<'_>) -> bool
    ensures { result ≡ lent_sound lent.entry.settings (memory lent.entry) }
{
    let mut block_links = [0u16; index::BLOCK_LINKS];
    let mut vote_links = [0u16; index::VOTE_LINKS];
    sound_indexed(lent, &mut block_links, &mut vote_links)
}
