// A packet that was accepted is received: its new entries are stored, and those of a slot's first proposal come into view
// with all that they stand on. Which entries are new, and which rows the packet names, was found when it was tested, and is in the set `firsts`.
// So storing costs one step for each entry of the packet, and coming into view one for each row; for blocks the rows are then indexed, a lookup
// for each, and the parents of those in view looked up, a lookup for each.
// Stack: 24 KiB of links for the blocks of a packet that comes into view, else less than 1 KB.
#![tactic(auto)]

ghost use Rattle.std.specs.Prelude.{true, ◌≡◌, ◌+◌, ◌*◌, ◌≤◌, length};
ghost use Rattle.protocol.specs.Limits.{loom};
ghost use Rattle.protocol.specs.Entry.{Block as block, Vote as vote};
ghost use Rattle.protocol.specs.Store.{Marked, entries, view};
ghost use Rattle.protocol.specs.Packet.{packet_of};
ghost use Rattle.protocol.specs.Lent.{BlocksFit, VotesFit, rows_of, stored, make_block, make_vote, block_row, vote_row, marks_sound};
ghost use Rattle.protocol.specs.Calls.Receive.{add_blocks, add_since, stood_on, receive_into, viewed_at_once as viewed_at_once};
ghost use Rattle.index.specs.Firsts.{BlocksNew, VotesNew, named, BlocksNamed, VotesNamed};
ghost use Rattle.storing.specs.Grown.{Holds};
ghost use Rattle.views.specs.Named.{named_at, Agrees};
ghost use Rattle.receiving.specs.Accepted.{Carried, Accepted, only_blocks, only_votes, only_clock};

use protocol::{Block, Clock, Vote};
use rows::Table;

// Whether a packet is the first proposal of the beat's slot, in phase 0, and so comes into view.
pub fn viewed_at_once(clock: Clock, beat: u64, bytes: &[u8]) -> bool
    ensures { result ≡ viewed_at_once (only_clock clock) beat (packet_of bytes.now) }
{
    let h = packets::header_of(bytes);
    packets::is_proposal(h.kind) && beat % 3 == 0 && beat / 3 == h.slot && clock.proposed != h.slot
}

// All blocks that the packet stands on come into view: its blocks, those that its votes are for, and their ancestors. Those that it names stand
// at row `before` or later, or are in `firsts`. Stack: 24 KiB of links.
fn view_stood_on(blocks: &mut [u64], before: usize, used: usize, bytes: &[u8], firsts: &[u64])
    requires { BlocksFit used blocks.old × (marks_sound make_block blocks.old used ≡ true) × Carried (rows_of make_block blocks.old used) (packet_of bytes.now)
        × (before ≤ used) × (before ≤ 64 * length firsts.now) × (used ≤ loom.blocks) × Agrees block make_block blocks.old used (named_at before firsts.now) (named (packet_of bytes.now)) }
    ensures { blocks.new ≡ stored block_row (view (λ b. stood_on (entries (rows_of make_block blocks.old used)) (packet_of bytes.now) b) (rows_of make_block blocks.old used)) blocks.old }
{
    views::view_named::<Block>(blocks, before, used, firsts);
    let mut links = [0u16; index::BLOCK_LINKS];
    index::build_blocks(Table::new(&*blocks, used), &mut links);
    views::view_ancestors(blocks, used, &links);
}

// ---- the tables after Receive. Each table has a function of its own: what comes into view differs, blocks with all that they stand on, votes alone

// The blocks of an accepted packet, which comes into view or not. The set holds the rows of blocks that are new and of rows that the packet
// names, and there are at most 2,048 rows afterwards. The cost is one step for each block of the packet, and if it comes into view one for each
// row, a lookup to index it, and a lookup for each row in view.
pub fn receive_blocks(
    blocks: &mut [u64],
    used: &mut usize,
    bytes: &[u8],
    firsts: &[u64],
    viewed: bool,
)
    requires { BlocksFit (length (add_blocks (entries (rows_of make_block blocks.old used.old)) (packet_of bytes.now).blocks)) blocks.old × (marks_sound make_block blocks.old used.old ≡ true) × Accepted (rows_of make_block blocks.old used.old) (packet_of bytes.now)
        × (used.old + length (packet_of bytes.now).blocks ≤ 64 * length firsts.now) × BlocksNew blocks.old used.old bytes.now firsts.now × BlocksNamed blocks.old used.old bytes.now firsts.now
        × (length (add_blocks (entries (rows_of make_block blocks.old used.old)) (packet_of bytes.now).blocks) ≤ loom.blocks) }
    ensures { Holds (Marked block) block_row (receive_into 0 viewed 0 (only_blocks (rows_of make_block blocks.old used.old)) (packet_of bytes.now)).blocks blocks.old blocks.new used.new }
{
    let before = *used;
    storing::add_blocks(blocks, used, bytes, firsts);
    if viewed {
        view_stood_on(blocks, before, *used, bytes, firsts);
    }
}

// The votes of a packet, which comes into view or not. Old ones, of slots below `from`, are not stored. The set holds the rows of votes that are
// new, old or not, and of rows that the packet has. The cost is one step for each vote of the packet, and if it comes into view one for each row.
pub fn receive_votes(
    votes: &mut [u64],
    used: &mut usize,
    bytes: &[u8],
    firsts: &[u64],
    from: u64,
    viewed: bool,
)
    requires { VotesFit (length (add_since from (entries (rows_of make_vote votes.old used.old)) (packet_of bytes.now).votes)) votes.old × (marks_sound make_vote votes.old used.old ≡ true)
        × (used.old + length (packet_of bytes.now).votes ≤ 64 * length firsts.now) × VotesNew votes.old used.old bytes.now firsts.now × VotesNamed votes.old used.old bytes.now firsts.now }
    ensures { Holds (Marked vote) vote_row (receive_into from viewed 0 (only_votes (rows_of make_vote votes.old used.old)) (packet_of bytes.now)).votes votes.old votes.new used.new }
{
    let before = *used;
    storing::add_votes(votes, used, bytes, firsts, from);
    if viewed {
        views::view_named::<Vote>(votes, before, *used, firsts);
    }
}
