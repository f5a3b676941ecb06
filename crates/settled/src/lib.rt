// The settled block, over lent tables: the walk from block 0 by the weights without the silent voters, as far as these cannot turn it aside.
#![tactic(auto)]

ghost use Rattle.std.specs.Prelude.{false, ◌≡◌, ◌+◌, ◌^◌, ◌<◌, ◌≤◌, length};
ghost use Rattle.protocol.specs.Limits.{loom};
ghost use Rattle.protocol.specs.Words.{value, bit_of};
ghost use Rattle.protocol.specs.Store.{view_of};
ghost use Rattle.protocol.specs.Lent.{rows_of, make_block, make_vote};
ghost use Rattle.protocol.specs.Settled.{settled_block};
ghost use Rattle.protocol.specs.SettledWalk.{rivalled, margin_walk};
ghost use Rattle.subtree_voters.specs.BlockRows.{block_at, blocks_of, parent_row, BlocksSound, Parents};
ghost use Rattle.fork_choice.specs.Walks.{weight_in};
ghost use Rattle.fork_choice.specs.Children.{Linked};
ghost use Rattle.settled.specs.Rivals.{overtakes_at, rival_at};

use fork_choice::{Kin, Tables};
use protocol::{Block, Number};
use rows::Table;

// Whether the block at row d, another than the one at row c, goes before it with k voters more.
fn overtakes(blocks: Table<'_, Block>, weights: &[u32], k: u32, d: usize, c: usize) -> bool
    requires { (d < blocks.used) × (c < blocks.used) × (d < length weights.now) × (c < length weights.now) }
    ensures { result ≡ overtakes_at blocks.entry.words.now weights.now k d c }
{
    if d == c {
        return false;
    }
    let x = weights[c];
    let y = weights[d];
    // y + k could leave the 32 bits
    if x < y || x - y < k {
        return true;
    }
    if x - y != k {
        return false;
    }
    let p = blocks.row(d);
    let q = blocks.row(c);
    numbers::is_below(p.entry.number, q.entry.number)
}

// Whether the block at row d is a rival of the one at row c: in view, a child of block a of a slot below t, and before c with k voters more.
fn is_rival(
    blocks: Table<'_, Block>,
    weights: &[u32],
    k: u32,
    t: u64,
    a: Number,
    d: usize,
    c: usize,
) -> bool
    requires { (d < blocks.used) × (c < blocks.used) × (d < length weights.now) × (c < length weights.now) }
    ensures { result ≡ rival_at blocks.entry.words.now weights.now k t (value a) c d }
{
    let row = blocks.row(d);
    if !row.viewed || !fork_choice::is_child(t, a, row.entry) {
        return false;
    }
    overtakes(blocks, weights, k, d, c)
}

// Whether the child at row c of the block at row a has a rival among the other children. One turn for each of them.
fn has_rival(
    blocks: Table<'_, Block>,
    kin: &[Kin],
    weights: &[u32],
    k: u32,
    t: u64,
    a: usize,
    c: usize,
) -> bool
    requires { (blocks.used ≤ length kin.now) × (blocks.used ≤ length weights.now) × (a < blocks.used) × (c < blocks.used)
        × BlocksSound blocks.words.now blocks.used × Linked (λ i. parent_row blocks.words.now i) blocks.used 1 kin.now }
    ensures { result ≡ rivalled (weight_in blocks.entry.words.now blocks.entry.used weights.now) k (blocks_of false blocks.entry.words.now blocks.entry.used) t
        (block_at blocks.entry.words.now a).number (block_at blocks.entry.words.now c) }
{
    let parent = blocks.row(a);
    // links are walked, which no range names
    let mut d = kin[a].child as usize;
    while d != 0 {
        if is_rival(blocks, weights, k, t, parent.entry.number, d, c) {
            return true;
        }
        d = kin[d].next as usize;
    }
    false
}

// The row at which the walk with a margin of k voters stops: at a leaf, or before a best child that has a rival. Each level searches the children of its
// block alone, for the best child and for its rivals. So no row has more than two turns, however long the chain is. Stack: 8 KiB for the links of 2,048 rows.
// No index is counted: links are walked.
fn last_safe(blocks: Table<'_, Block>, parents: &[u16], weights: &[u32], k: u32, t: u64) -> usize
    requires { (blocks.used ≤ loom.blocks) × (blocks.used ≤ length weights.now) × (length parents.now ≡ loom.blocks)
        × BlocksSound blocks.words.now blocks.used × Parents blocks.words.now blocks.used parents.now × (t + 1 < 2 ^ 64) }
    ensures { (result < blocks.entry.used) × ((block_at blocks.entry.words.now result).number
        ≡ margin_walk (weight_in blocks.entry.words.now blocks.entry.used weights.now) k (blocks_of false blocks.entry.words.now blocks.entry.used) t) }
{
    let mut kin = [Kin { child: 0, next: 0 }; limits::LOOM_BLOCKS];
    fork_choice::link_children(parents, blocks.used, &mut kin);
    let end = t + 1;
    let mut a: usize = 0;
    while let Some(c) = fork_choice::best_child(blocks, &kin, weights, false, end, a) {
        if has_rival(blocks, &kin, weights, k, t, a, c) {
            break;
        }
        a = c;
    }
    a
}

// The settled block of slot t, over the view: the farthest block from block 0 that is on the chain of the head whatever the nodes of the set `silent` count
// for. The cost of a head, and one turn more for each child on the way. Stack: 28 KiB for the words, weights and parents' rows of 2,048 blocks.
pub fn settled_block(tables: Tables<'_>, t: u64, silent: u64) -> Number
    requires { (t + 1 < 2 ^ 64) × (silent < 2 ^ tables.settings.nodes) }
    ensures { value result ≡ settled_block (view_of (rows_of make_block tables.entry.blocks.words.now tables.entry.blocks.used))
        (view_of (rows_of make_vote tables.entry.votes.words.now tables.entry.votes.used))
        tables.entry.settings.nodes tables.entry.settings.expiry t (bit_of silent) }
{
    let mut parents = [0u16; limits::LOOM_BLOCKS];
    let mut masks = [0u64; limits::LOOM_BLOCKS];
    fork_choice::weigh(
        tables,
        false,
        tables.settings.expiry,
        t,
        &mut parents,
        &mut masks,
    );
    let mut weights = [0u32; limits::LOOM_BLOCKS];
    fork_choice::count_voters(&masks, silent, tables.blocks.used, &mut weights);
    let k = masks::weight(silent);
    let a = last_safe(tables.blocks, &parents, &weights, k, t);
    let row = tables.blocks.row(a);
    row.entry.number
}
