// The two confirmations, over lent tables: the deep block and the fast block.
#![tactic(auto)]

ghost use Rattle.std.specs.Prelude.{true, false, ◌≡◌, ◌+◌, ◌*◌, ◌^◌, ◌<◌, ◌≤◌, leb, length};
ghost use Rattle.protocol.specs.Limits.{loom};
ghost use Rattle.protocol.specs.Words.{value, bit_of};
ghost use Rattle.protocol.specs.Store.{view_of};
ghost use Rattle.protocol.specs.Lent.{rows_of, make_block, make_vote};
ghost use Rattle.protocol.specs.Walk.{count_below};
ghost use Rattle.protocol.specs.Confirm.{deep_from, deep_block, fast_block};
ghost use Rattle.rows.specs.Rows.{row_at};
ghost use Rattle.subtree_voters.specs.BlockRows.{block_at, blocks_of, BlocksSound, Parents};
ghost use Rattle.confirm.specs.Top.{choice_in, top_choice};

use fork_choice::Tables;
use protocol::{Block, Number};
use rows::Table;

// The number of the first block of a slot of at most m, from the block at a row down by the parents' rows. One turn for each block on the way.
fn climb_down(blocks: Table<'_, Block>, parents: &[u16], from: usize, m: u64) -> Number
    requires { (blocks.used ≤ length parents.now) × BlocksSound blocks.words.now blocks.used × Parents blocks.words.now blocks.used parents.now
        × (from < blocks.used) × ((row_at make_block blocks.words.now from).viewed ≡ true) }
    ensures { value result ≡ deep_from (blocks_of false blocks.entry.words.now blocks.entry.used) m (block_at blocks.entry.words.now from).number }
{
    // links are walked, which no range names
    let mut i: usize = from;
    loop {
        let row = blocks.row(i);
        if row.entry.slot <= m {
            break row.entry.number;
        }
        i = search_tree::link_at(parents, i);
    }
}

// The deep block of slot t, over the view. The head's cost, and one turn for each block on the way down.
pub fn deep(tables: Tables<'_>, t: u64) -> Number
    requires { t + 1 < 2 ^ 64 }
    ensures { value result ≡ deep_block (view_of (rows_of make_block tables.entry.blocks.words.now tables.entry.blocks.used))
        (view_of (rows_of make_vote tables.entry.votes.words.now tables.entry.votes.used))
        tables.entry.settings.nodes tables.entry.settings.expiry tables.entry.settings.depth t }
{
    let mut parents = [0u16; limits::LOOM_BLOCKS];
    let a = fork_choice::heaviest_leaf(tables, false, t, t + 1, &mut parents);
    climb_down(
        tables.blocks,
        &parents,
        a,
        t.saturating_sub(tables.settings.depth),
    )
}

// Whether a set has three quarters of n voters.
fn is_quorum(n: u64, mask: u64) -> bool
    requires { n ≤ loom.nodes }
    ensures { result ≡ leb (3 * n) (4 * count_below (bit_of mask) 64) }
{
    3 * n <= 4 * (masks::weight(mask) as u64)
}

// The last block in view with three quarters of n voters. The blocks with as many are on one chain, so it is the highest of them.
fn top(blocks: Table<'_, Block>, masks: &[u64], n: u64) -> Option<Number>
    requires { (blocks.used ≤ length masks.now) × (n ≤ loom.nodes) }
    ensures { choice_in result ≡ top_choice blocks.entry.words.now masks.now n blocks.entry.used }
{
    for i in (0..blocks.used).rev() {
        let row = blocks.row(i);
        if row.viewed && is_quorum(n, masks[i]) {
            return Some(row.entry.number);
        }
    }
    None
}

// The fast block of slot t, over the view, if there is one: the weights are those of the votes of slot t.
// The cost of the weights, and one turn for each row. Stack: 16 KiB for the words of 2,048 blocks; with what gathers the kept votes 86 KiB.
pub fn fast(tables: Tables<'_>, t: u64) -> Option<Number>
    requires { t + 1 < 2 ^ 64 }
    ensures { choice_in result ≡ fast_block (view_of (rows_of make_block tables.entry.blocks.words.now tables.entry.blocks.used))
        (view_of (rows_of make_vote tables.entry.votes.words.now tables.entry.votes.used))
        tables.entry.settings.nodes t }
{
    let mut parents = [0u16; limits::LOOM_BLOCKS];
    let mut masks = [0u64; limits::LOOM_BLOCKS];
    fork_choice::weigh(tables, false, 1, t + 1, &mut parents, &mut masks);
    top(tables.blocks, &masks, tables.settings.nodes)
}
