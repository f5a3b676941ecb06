// Which entries of a packet keep the rules, and which are new. Nothing may be changed before that is known, so the packet's entries are looked up
// in an index of the table and in one of the packet, which they join, and the first row of each is noted in a set, by which they are stored and come
// into view later. All entries together cost four lookups for each block and four for each vote. No function keeps an array.
// The table, the packet, both indices, the salt and the set travel together, but in no struct with a ghost field that says what they are: an index is a
// fact of which there can be more than one proof, and such a field has to be one of which there is at most one. Without it each function would ask the
// same of a struct, and say more.
#![tactic(auto)]

ghost use Rattle.std.specs.Prelude.{true, ◌&&◌, ◌≡◌, ◌+◌, ◌*◌, ◌<◌, ◌≤◌, length, get_or, take, IfOk, IfErr, OnOk, IfSome, is_some};
ghost use Rattle.protocol.specs.Words.{block_of, vote_of};
ghost use Rattle.protocol.specs.Chain.{genesis};
ghost use Rattle.protocol.specs.Store.{entries, since};
ghost use Rattle.protocol.specs.Packet.{packet_of};
ghost use Rattle.protocol.specs.Lent.{rows_of, make_block, make_vote};
ghost use Rattle.protocol.specs.Calls.Receive.{add_blocks, add_since, block_allowed, vote_allowed, header_allowed, first_bad_block, first_bad_vote};
ghost use Rattle.packets.specs.Header.{no_vote};
ghost use Rattle.search_tree.specs.Tree.{link_of};
ghost use Rattle.index.specs.Index.{PacketRoom};
ghost use Rattle.index.specs.Links.{known_blocks, lookup_at, numbers_differ, votes_differ, BlocksIndexed, VotesIndexed};
ghost use Rattle.index.specs.Firsts.{block_new, vote_new};
ghost use Rattle.admission.specs.Lookup.{lookup_of, block_passes, vote_passes, bad_of};
ghost use Rattle.admission.specs.Seen.{BlocksSeen, VotedSeen, VotesSeen};

use packets::Packed;
use protocol::{Block, Vote};
use rows::Table;

// ---- looking a block up

// The block at a row of the table and the packet together.
#[tactic(auto, unfolding(index::specs::Links::lookup_at))]
#[inline(always)]
fn found(blocks: Table<'_, Block>, bytes: &[u8], row: Option<usize>) -> Option<Block>
    requires { link_of row ≤ blocks.used + length (packet_of bytes.now).blocks }
    ensures { lookup_of result ≡ lookup_at (known_blocks blocks.entry.words.now blocks.entry.used bytes.now) (link_of row) }
{
    Some(index::block_at(blocks, bytes, row?))
}

// ---- blocks

// Whether block b keeps the rules at a beat of this slot, by what was found among the blocks before it: by its parent's number and by its own.
// Apart from `vote_allowed`, and `admit_block` from `is_new_vote`: the rules differ, and a generic would take each of them as a parameter.
#[tactic(auto, unfolding(crate::specs::Lookup::block_passes, protocol::specs::Chain::found_with, protocol::specs::Calls::Receive::known_as, protocol::specs::Store::same_block, protocol::specs::Words::from_halves))]
fn block_allowed(slot: u64, b: Block, parent: Option<Block>, old: Option<Block>) -> bool
    ensures { result ≡ block_passes slot (block_of b) (lookup_of parent) (lookup_of old) }
{
    ranges::within(1, slot, b.slot)
        && parent.is_some_and(|p| p.slot < b.slot)
        && old.is_none_or(|c| c == b)
}

// Block i of the packet, where the table and the packet's earlier blocks are known: whether it is new, or none if it is not allowed. It joins these,
// and its first row is noted. The cost is four walks.
fn admit_block(
    slot: u64,
    blocks: Table<'_, Block>,
    bytes: &[u8],
    i: usize,
    links: &[u16],
    packet_links: &mut [u16],
    salt: u64,
    firsts: &mut [u64],
) -> Option<bool>
    requires differ { numbers_differ (rows_of make_block blocks.words.now blocks.used) ≡ true }
    requires within { i < length (packet_of bytes.now).blocks }
    requires room { PacketRoom salt (i + 1) packet_links.old }
    requires indexed { BlocksIndexed salt blocks.words.now blocks.used bytes.now i links.now packet_links.old }
    requires places { blocks.used + i < 64 * length firsts.old }
    requires seen { BlocksSeen blocks.words.now blocks.used bytes.now i firsts.old }
    ensures allowed { is_some result ≡ block_allowed slot (add_blocks (entries (rows_of make_block blocks.entry.words.now blocks.entry.used)) (take i (packet_of bytes.now).blocks)) (get_or (packet_of bytes.now).blocks i genesis) }
    ensures new { IfSome result (λ new. new ≡ block_new blocks.entry.words.now blocks.entry.used bytes.now i) }
    ensures indexed { BlocksIndexed salt blocks.entry.words.now blocks.entry.used bytes.now (i + 1) links.now packet_links.new }
    ensures seen { BlocksSeen blocks.entry.words.now blocks.entry.used bytes.now (i + 1) firsts.new }
{
    let b = Block::at(bytes, i);
    let parent_row = index::known_block(blocks, bytes, i, links, packet_links, salt, b.parent);
    let parent = found(blocks, bytes, parent_row);
    let row = index::join_block(blocks, bytes, i, links, packet_links, salt, b.number);
    let earlier = found(blocks, bytes, row);
    index::note_first(firsts, blocks.used + i, row);
    block_allowed(slot, b, parent, earlier).then_some(row.is_none())
}

// How many of the packet's blocks are new, or the index of the first that is not allowed: the table and the packet's earlier blocks are known. If all
// are allowed, they have joined the packet's links, and their first rows are noted in the set, which was empty. The cost is four lookups for each block.
pub fn admit_blocks(
    slot: u64,
    blocks: Table<'_, Block>,
    bytes: &[u8],
    links: &[u16],
    packet_links: &mut [u16],
    salt: u64,
    firsts: &mut [u64],
) -> Result<usize, usize>
    requires differ { numbers_differ (rows_of make_block blocks.words.now blocks.used) ≡ true }
    requires room { PacketRoom salt (length (packet_of bytes.now).blocks) packet_links.old }
    requires indexed { BlocksIndexed salt blocks.words.now blocks.used bytes.now 0 links.now packet_links.old }
    requires places { blocks.used + length (packet_of bytes.now).blocks ≤ 64 * length firsts.old }
    requires seen { BlocksSeen blocks.words.now blocks.used bytes.now 0 firsts.old }
    ensures bad { bad_of (length (packet_of bytes.now).blocks) result ≡ first_bad_block slot (entries (rows_of make_block blocks.entry.words.now blocks.entry.used)) (packet_of bytes.now).blocks }
    ensures within { IfErr result (λ i. i < length (packet_of bytes.now).blocks) }
    ensures new { IfOk result (λ new. blocks.entry.used + new ≡ length (add_blocks (entries (rows_of make_block blocks.entry.words.now blocks.entry.used)) (packet_of bytes.now).blocks)) }
    ensures indexed { OnOk result (BlocksIndexed salt blocks.entry.words.now blocks.entry.used bytes.now (length (packet_of bytes.now).blocks) links.now packet_links.new) }
    ensures seen { OnOk result (BlocksSeen blocks.entry.words.now blocks.entry.used bytes.now (length (packet_of bytes.now).blocks) firsts.new) }
{
    let mut new = 0;
    for i in 0..Block::count(bytes) {
        let Some(is_new) = admit_block(slot, blocks, bytes, i, links, packet_links, salt, firsts)
        else {
            return Err(i);
        };
        new += is_new as usize;
    }
    Ok(new)
}

// ---- votes

// Whether a vote keeps the rules at a beat of this slot, by the block that was found by its number.
#[tactic(auto, unfolding(crate::specs::Lookup::vote_passes, protocol::specs::Chain::found_with))]
fn vote_allowed(nodes: u64, slot: u64, vote: Vote, block: Option<Block>) -> bool
    ensures { result ≡ vote_passes nodes slot (vote_of vote) (lookup_of block) }
{
    vote.voter < nodes
        && ranges::within(1, slot, vote.slot)
        && block.is_some_and(|b| b.slot <= vote.slot)
}

// Vote i of the packet, where all blocks of the packet are known. Its block's first row is noted, if it is allowed. The cost is two lookups.
fn admit_vote(
    nodes: u64,
    slot: u64,
    blocks: Table<'_, Block>,
    bytes: &[u8],
    known: usize,
    i: usize,
    links: &[u16],
    packet_links: &[u16],
    salt: u64,
    firsts: &mut [u64],
) -> bool
    requires differ { numbers_differ (rows_of make_block blocks.words.now blocks.used) ≡ true }
    requires known { known ≡ length (packet_of bytes.now).blocks }
    requires few { known ≤ 65535 }
    requires within { i < length (packet_of bytes.now).votes }
    requires indexed { BlocksIndexed salt blocks.words.now blocks.used bytes.now known links.now packet_links.now }
    requires places { blocks.used + known ≤ 64 * length firsts.old }
    requires seen { VotedSeen blocks.words.now blocks.used bytes.now i firsts.old }
    ensures allowed { result ≡ vote_allowed nodes slot (add_blocks (entries (rows_of make_block blocks.entry.words.now blocks.entry.used)) (packet_of bytes.now).blocks) (get_or (packet_of bytes.now).votes i no_vote) }
    ensures seen { result ≡ true → VotedSeen blocks.entry.words.now blocks.entry.used bytes.now (i + 1) firsts.new }
{
    let vote = Vote::at(bytes, i);
    let row = index::known_block(blocks, bytes, known, links, packet_links, salt, vote.number);
    let block = found(blocks, bytes, row);
    if !vote_allowed(nodes, slot, vote, block) {
        return false;
    }
    index::note_first(firsts, blocks.used + known, row);
    true
}

// Whether all votes are allowed, or the index of the first that is not. All blocks of the packet are known. If all votes are allowed, the first
// rows of their blocks are noted in the set. The cost is two lookups for each vote.
pub fn admit_votes(
    nodes: u64,
    slot: u64,
    blocks: Table<'_, Block>,
    bytes: &[u8],
    links: &[u16],
    packet_links: &[u16],
    salt: u64,
    firsts: &mut [u64],
) -> Result<(), usize>
    requires differ { numbers_differ (rows_of make_block blocks.words.now blocks.used) ≡ true }
    requires indexed { BlocksIndexed salt blocks.words.now blocks.used bytes.now (length (packet_of bytes.now).blocks) links.now packet_links.now }
    requires places { blocks.used + length (packet_of bytes.now).blocks ≤ 64 * length firsts.old }
    requires seen { BlocksSeen blocks.words.now blocks.used bytes.now (length (packet_of bytes.now).blocks) firsts.old }
    ensures bad { bad_of (length (packet_of bytes.now).votes) result ≡ first_bad_vote nodes slot (add_blocks (entries (rows_of make_block blocks.entry.words.now blocks.entry.used)) (packet_of bytes.now).blocks) (packet_of bytes.now).votes }
    ensures within { IfErr result (λ i. i < length (packet_of bytes.now).votes) }
    ensures seen { OnOk result (VotedSeen blocks.entry.words.now blocks.entry.used bytes.now (length (packet_of bytes.now).votes) firsts.new) }
{
    let known = Block::count(bytes);
    for j in 0..Vote::count(bytes) {
        if !admit_vote(
            nodes,
            slot,
            blocks,
            bytes,
            known,
            j,
            links,
            packet_links,
            salt,
            firsts,
        ) {
            return Err(j);
        }
    }
    Ok(())
}

// ---- new votes

// Whether vote i of the packet is new: not old, that is of slot `from` or later, and not known. It joins the packet's links in any case, and its
// first row is noted. The cost is two lookups.
fn is_new_vote(
    votes: Table<'_, Vote>,
    bytes: &[u8],
    i: usize,
    from: u64,
    links: &[u16],
    packet_links: &mut [u16],
    salt: u64,
    firsts: &mut [u64],
) -> bool
    requires differ { votes_differ (rows_of make_vote votes.words.now votes.used) ≡ true }
    requires within { i < length (packet_of bytes.now).votes }
    requires room { PacketRoom salt (i + 1) packet_links.old }
    requires indexed { VotesIndexed salt votes.words.now votes.used bytes.now i links.now packet_links.old }
    requires places { votes.used + i < 64 * length firsts.old }
    requires seen { VotesSeen votes.words.now votes.used bytes.now i firsts.old }
    ensures new { result ≡ (since from (get_or (packet_of bytes.now).votes i no_vote) && vote_new votes.entry.words.now votes.entry.used bytes.now i) }
    ensures indexed { VotesIndexed salt votes.entry.words.now votes.entry.used bytes.now (i + 1) links.now packet_links.new }
    ensures seen { VotesSeen votes.entry.words.now votes.entry.used bytes.now (i + 1) firsts.new }
{
    let vote = Vote::at(bytes, i);
    let row = index::join_vote(votes, bytes, i, links, packet_links, salt, vote);
    index::note_first(firsts, votes.used + i, row);
    match row {
        None => vote.slot >= from,
        Some(_) => false,
    }
}

// How many votes of the packet are new: those of slot `from` and later that are not known. The first row of each vote is noted in the set, which
// was empty. The cost is two lookups for each vote.
pub fn new_votes(
    votes: Table<'_, Vote>,
    bytes: &[u8],
    from: u64,
    links: &[u16],
    packet_links: &mut [u16],
    salt: u64,
    firsts: &mut [u64],
) -> usize
    requires differ { votes_differ (rows_of make_vote votes.words.now votes.used) ≡ true }
    requires room { PacketRoom salt (length (packet_of bytes.now).votes) packet_links.old }
    requires indexed { VotesIndexed salt votes.words.now votes.used bytes.now 0 links.now packet_links.old }
    requires places { votes.used + length (packet_of bytes.now).votes ≤ 64 * length firsts.old }
    requires seen { VotesSeen votes.words.now votes.used bytes.now 0 firsts.old }
    ensures new { votes.entry.used + result ≡ length (add_since from (entries (rows_of make_vote votes.entry.words.now votes.entry.used)) (packet_of bytes.now).votes) }
    ensures seen { VotesSeen votes.entry.words.now votes.entry.used bytes.now (length (packet_of bytes.now).votes) firsts.new }
{
    let mut new = 0;
    for i in 0..Vote::count(bytes) {
        new += is_new_vote(votes, bytes, i, from, links, packet_links, salt, firsts) as usize;
    }
    new
}

// ---- the header

// Whether a proposal's block is among the packet's, with the header's slot.
pub fn header_allowed(bytes: &[u8]) -> bool
    ensures { result ≡ header_allowed (packet_of bytes.now) }
{
    let h = packets::header_of(bytes);
    if !packets::is_proposal(h.kind) {
        return true;
    }
    for i in 0..h.blocks as usize {
        let b = Block::at(bytes, i);
        if b.number == h.number && b.slot == h.slot {
            return true;
        }
    }
    false
}
