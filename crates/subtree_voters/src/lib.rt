// The voters of each block and of all blocks above it, as words by rows; and the row of each block's parent.
#![tactic(auto)]

ghost use Rattle.std.specs.Prelude.{cond, ◌≡◌, ◌<◌, ◌≤◌, length, get_or, set, replicate};
ghost use Rattle.std.specs.Int.Bits.{bit_or};
ghost use Rattle.protocol.specs.Limits.{loom};
ghost use Rattle.protocol.specs.Words.{value, bit_of};
ghost use Rattle.masks.specs.Masks.{mask_of, added};
ghost use Rattle.search_tree.specs.Tree.{Blank};
ghost use Rattle.index.specs.Index.{TableRoom};
ghost use Rattle.index.specs.Links.{BlockIndex};
ghost use Rattle.subtree_voters.specs.BlockRows.{row_in, Parents};
ghost use Rattle.subtree_voters.specs.Subtrees.{voted, voted_for, Subtrees};

use protocol::{Block, Number, Vote};
use rows::Table;

// The row of block x; row 0 if none has that number, as in no sound table and as its definition `row_in` says. The cost is a lookup.
fn row_in(blocks: Table<'_, Block>, links: &[u16], x: Number) -> usize
    requires { BlockIndex blocks.words.now blocks.used links.now }
    ensures { result ≡ row_in blocks.entry.words.now blocks.entry.used (value x) }
{
    index::link(blocks, links, x).unwrap_or(0)
}

// The row of each row's parent, each looked up once among the rows before it; and the index of all rows. The cost is two lookups for each row.
fn parent_rows(blocks: Table<'_, Block>, links: &mut [u16], parents: &mut [u16])
    requires { (blocks.used ≤ loom.blocks) × TableRoom blocks.used links.old × Blank links.old × (length parents.old ≡ loom.blocks) }
    ensures { BlockIndex blocks.entry.words.now blocks.entry.used links.new × Parents blocks.entry.words.now blocks.entry.used parents.new }
{
    for i in 0..blocks.used {
        let row = blocks.row(i);
        let p = row_in(blocks.first(i), links, row.entry.parent);
        search_tree::put_link(parents, i, p);
        index::add_block(blocks, i, links);
    }
}

// Voter v is set at the row of its vote's block, if it has a vote. The cost is a lookup.
#[tactic(auto, using(crate::proofs::BlockRows::link_lt))]
fn add_voter(
    blocks: Table<'_, Block>,
    links: &[u16],
    kept: &[Option<Vote>],
    v: usize,
    masks: &mut [u64],
)
    requires { BlockIndex blocks.words.now blocks.used links.now × (0 < blocks.used) × (blocks.used ≤ length masks.old)
        × (length kept.now ≡ loom.nodes) × (v < loom.nodes) }
    ensures { masks.new ≡ cond (voted kept.now v)
        (set masks.old (row_in blocks.entry.words.now blocks.entry.used (voted_for kept.now v))
        (mask_of 64 (added (bit_of (get_or masks.old (row_in blocks.entry.words.now blocks.entry.used (voted_for kept.now v)) 0)) v)))
        masks.old }
{
    if let Some(vote) = kept[v] {
        let p = row_in(blocks, links, vote.number);
        masks[p] = masks::with(masks[p], v as u64);
    }
}

// All voters are set at the rows of their votes' blocks.
fn add_voters(blocks: Table<'_, Block>, links: &[u16], kept: &[Option<Vote>], masks: &mut [u64])
    requires { BlockIndex blocks.words.now blocks.used links.now × (0 < blocks.used) × (blocks.used ≤ loom.blocks)
        × (length kept.now ≡ loom.nodes) × (masks.old ≡ replicate loom.blocks 0) }
    ensures { Subtrees blocks.entry.words.now blocks.entry.used kept.now blocks.entry.used masks.new }
{
    for v in 0..limits::LOOM_NODES {
        add_voter(blocks, links, kept, v, masks);
    }
}

// Row i hands its voters to its parent's row.
fn hand_on(parents: &[u16], i: usize, masks: &mut [u64])
    requires { (i < length parents.now) × (get_or parents.now i 0 < length masks.old) × (i < length masks.old) }
    ensures { masks.new ≡ set masks.old (get_or parents.now i 0)
        (bit_or (get_or masks.old (get_or parents.now i 0) 0) (get_or masks.old i 0)) }
{
    let p = search_tree::link_at(parents, i);
    masks[p] |= masks[i];
}

// The voters of each subtree, in one pass from the last row to the first: a row has all its voters when it hands them to its parent's row.
// The cost is two lookups for each row, one for each voter with a vote, and one step for each row. Stack: 24 KiB for the links of 2,048 blocks.
pub fn supporters(
    blocks: Table<'_, Block>,
    kept: &[Option<Vote>],
    parents: &mut [u16],
    masks: &mut [u64],
)
    requires { (0 < blocks.used) × (blocks.used ≤ loom.blocks) × (length kept.now ≡ loom.nodes)
        × (length parents.old ≡ loom.blocks) × (masks.old ≡ replicate loom.blocks 0) }
    ensures { Parents blocks.entry.words.now blocks.entry.used parents.new
        × Subtrees blocks.entry.words.now blocks.entry.used kept.now 1 masks.new }
{
    let mut links = [0u16; index::BLOCK_LINKS];
    parent_rows(blocks, &mut links, parents);
    add_voters(blocks, &links, kept, masks);
    for i in (1..blocks.used).rev() {
        hand_on(parents, i, masks);
    }
}
