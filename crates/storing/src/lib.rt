// A packet's new entries are added at the tables' ends, where they wait.
// Which are new was found when the packet was tested: `firsts` is a set of rows, of a table and then the packet's entries, and an
// entry is new if its row is in it. The cost is one step for each entry of the packet, and no function keeps an array.
#![tactic(auto)]

ghost use Rattle.std.specs.Prelude.{true, ◌≡◌, ◌+◌, ◌*◌, ◌≤◌, ◌++◌, length};
ghost use Rattle.protocol.specs.Entry.{Block as block, Vote as vote};
ghost use Rattle.protocol.specs.Store.{Marked, entries, all_waiting};
ghost use Rattle.protocol.specs.Packet.{packet_of};
ghost use Rattle.protocol.specs.Lent.{BlocksFit, VotesFit, rows_of, make_block, make_vote, block_row, vote_row, marks_sound};
ghost use Rattle.protocol.specs.Calls.Receive.{add_blocks, add_since};
ghost use Rattle.index.specs.Firsts.{BlocksNew, VotesNew};
ghost use Rattle.storing.specs.Grown.{grown, is_added, chosen, Holds};

use packets::Packed;
use protocol::{Block, Vote};

// The packet's entries of slot `from` and later that are new are added, in order.
fn add_new<E: Packed>(words: &mut [u64], used: &mut usize, bytes: &[u8], firsts: &[u64], from: u64)
    requires { (E.make.words * (used.old + length (chosen (is_added firsts.now used.old E.slot from) 0 (E.listed (packet_of bytes.now)))) ≤ length words.old)
        × (marks_sound E.make words.old used.old ≡ true) × (used.old + length (E.listed (packet_of bytes.now)) ≤ 64 * length firsts.now) }
    ensures { Holds (Marked E.Of) E.written (rows_of E.make words.old used.old ++ all_waiting (chosen (is_added firsts.now used.old E.slot from) 0 (E.listed (packet_of bytes.now)))) words.old words.new used.new }
{
    let before = *used;
    for i in 0..E::count(bytes) {
        if bitset::has(firsts, before + i) {
            let entry = E::at(bytes, i);
            if entry.slot() >= from {
                changes::append(words, used, entry, false);
            }
        }
    }
}

// The packet's new blocks are added, in order. Row `used` + i of `firsts` says whether block i is new, with `used` as it is before the call.
// The cost is one step for each block of the packet. Beside `add_votes`, though one function makes both: their clauses speak of `add_blocks` and `add_since`.
pub fn add_blocks(blocks: &mut [u64], used: &mut usize, bytes: &[u8], firsts: &[u64])
    requires { BlocksFit (length (add_blocks (entries (rows_of make_block blocks.old used.old)) (packet_of bytes.now).blocks)) blocks.old × (marks_sound make_block blocks.old used.old ≡ true)
        × (used.old + length (packet_of bytes.now).blocks ≤ 64 * length firsts.now) × BlocksNew blocks.old used.old bytes.now firsts.now }
    ensures { Holds (Marked block) block_row (grown add_blocks (rows_of make_block blocks.old used.old) (packet_of bytes.now).blocks) blocks.old blocks.new used.new }
{
    add_new::<Block>(blocks, used, bytes, firsts, 0);
}

// The packet's new votes of slot `from` and later are added, in order. Row `used` + i of `firsts` says whether vote i is new, old or not.
// The cost is one step for each vote of the packet.
pub fn add_votes(votes: &mut [u64], used: &mut usize, bytes: &[u8], firsts: &[u64], from: u64)
    requires { VotesFit (length (add_since from (entries (rows_of make_vote votes.old used.old)) (packet_of bytes.now).votes)) votes.old × (marks_sound make_vote votes.old used.old ≡ true)
        × (used.old + length (packet_of bytes.now).votes ≤ 64 * length firsts.now) × VotesNew votes.old used.old bytes.now firsts.now }
    ensures { Holds (Marked vote) vote_row (grown (add_since from) (rows_of make_vote votes.old used.old) (packet_of bytes.now).votes) votes.old votes.new used.new }
{
    add_new::<Vote>(votes, used, bytes, firsts, from);
}
