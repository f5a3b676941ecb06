// Heads and bases: the walk from block 0 to the heaviest leaf, over lent tables.
#![tactic(auto)]

ghost use Rattle.std.specs.Prelude.{true, ◌≡◌, ℕ, ◌+◌, ◌^◌, ◌<◌, ◌≤◌, length, get_or, replicate};
ghost use Rattle.protocol.specs.Limits.{loom};
ghost use Rattle.protocol.specs.Words.{value, block_of};
ghost use Rattle.protocol.specs.Store.{entries, view_of};
ghost use Rattle.protocol.specs.Lent.{rows_of, make_block, make_vote, lent_sound};
ghost use Rattle.protocol.specs.Walk.{is_child, best_child, walk, weight_at, head_block, base_block};
ghost use Rattle.lent.specs.Memory.{memory};
ghost use Rattle.vote_filters.specs.Latest.{votes_of};
ghost use Rattle.subtree_voters.specs.BlockRows.{block_at, blocks_of, parent_row, BlocksSound, Parents};
ghost use Rattle.fork_choice.specs.Walks.{weight_in, beats_at, Within, found_row, better_row};
ghost use Rattle.fork_choice.specs.Children.{child_at, put_child, put_next, Linked};
ghost use Rattle.fork_choice.specs.Tables.{TablesSound, AreSound};
ghost use Rattle.fork_choice.specs.Weights.{Supporters, Counted};

use lent::Lent;
use protocol::{Block, Number, Settings, Vote};
use rows::Table;

// Lent tables of a sound node, with its settings.
#[derive(Clone, Copy)]
pub struct Tables<'a> {
    pub settings: Settings,
    pub blocks: Table<'a, Block>,
    pub votes: Table<'a, Vote>,
    ghost sound: { AreSound settings blocks.words.now blocks.used votes.words.now votes.used },
}

impl<'a> Tables<'a> {
    pub fn new(settings: Settings, blocks: Table<'a, Block>, votes: Table<'a, Vote>) -> Self
        requires { TablesSound settings blocks.words.now blocks.used votes.words.now votes.used }
        ensures settings { result.settings ≡ settings }
        ensures blocks { result.blocks ≡ blocks.entry }
        ensures votes { result.votes ≡ votes.entry }
    {
        Tables {
            settings,
            blocks,
            votes,
        }
    }

    // The tables of a sound node, as they are lent.
    pub fn of(lent: Lent<'a>) -> Self
        requires { lent_sound lent.settings (memory lent) ≡ true }
        ensures settings { result.settings ≡ lent.entry.settings }
        ensures blocks { result.blocks.words ≡ lent.entry.blocks }
        ensures blocks_used { result.blocks.used ≡ lent.entry.blocks_used }
        ensures votes { result.votes.words ≡ lent.entry.votes }
        ensures votes_used { result.votes.used ≡ lent.entry.votes_used }
    {
        let blocks = Table::new(lent.blocks, lent.blocks_used);
        let votes = Table::new(lent.votes, lent.votes_used);
        Tables::new(lent.settings, blocks, votes)
    }
}

// Whether b is a child of block a, of a slot below the limit.
#[tactic(auto, unfolding(protocol::specs::Words::from_halves, protocol::specs::Walk::is_child))]
pub fn is_child(lim: u64, a: Number, b: Block) -> bool
    ensures { result ≡ is_child lim (value a) (block_of b) }
{
    !numbers::is_zero(b.number) && b.parent == a && b.slot < lim
}

// Whether the block at row d goes before the one at row c: more voters, or as many and a smaller number.
fn beats(blocks: Table<'_, Block>, weights: &[u32], d: usize, c: usize) -> bool
    requires { (d < blocks.used) × (c < blocks.used) × (d < length weights.now) × (c < length weights.now) }
    ensures { result ≡ beats_at blocks.entry.words.now weights.now d c }
{
    let x = weights[c];
    let y = weights[d];
    if x != y {
        return x < y;
    }
    let p = blocks.row(d);
    let q = blocks.row(c);
    numbers::is_below(p.entry.number, q.entry.number)
}

// The better of the best child so far and row i, if that is a child of block a.
fn better_row(
    blocks: Table<'_, Block>,
    weights: &[u32],
    whole: bool,
    lim: u64,
    a: Number,
    i: usize,
    best: Option<usize>,
) -> Option<usize>
    requires { (i < blocks.used) × Within blocks.used best × (blocks.used ≤ length weights.now) }
    ensures { result ≡ better_row blocks.entry.words.now weights.now whole lim (value a) i best }
{
    let row = blocks.row(i);
    if !rows::selects(whole, row.viewed) || !is_child(lim, a, row.entry) {
        return best;
    }
    match best {
        Some(b) if beats(blocks, weights, b, i) => best,
        _ => Some(i),
    }
}

// The links of a row: its first child, and the next child of its parent. Row 0 is nobody's child, so 0 says that there is none: an Option would take twice
// the memory.
#[derive(Clone, Copy)]
pub struct Kin {
    pub child: u16,
    pub next: u16,
}

// Row i becomes the first child of its parent's row; the child that was first comes after it.
fn link_child(parents: &[u16], i: usize, kin: &mut [Kin])
    requires { (i < length parents.now) × (get_or parents.now i 0 < length kin.old) × (i < length kin.old) × (i < loom.blocks) }
    ensures { kin.new ≡ put_child (put_next kin.old i (child_at kin.old (get_or parents.now i 0))) (get_or parents.now i 0) i }
{
    let p = search_tree::link_at(parents, i);
    kin[i].next = kin[p].child;
    kin[p].child = i as u16;
}

// The children of each row, linked in the order of their rows. One turn for each row.
pub fn link_children(parents: &[u16], used: usize, kin: &mut [Kin])
    requires { (0 < used) × (used ≤ loom.blocks) × (length parents.now ≡ loom.blocks) × ((i : ℕ) → i < used → get_or parents.now i 0 < used)
        × (length kin.old ≡ loom.blocks) × ((a : ℕ) → a < loom.blocks → child_at kin.old a ≡ 0) }
    ensures { Linked (λ i. get_or parents.now i 0) used 1 kin.new }
{
    for i in (1..used).rev() {
        link_child(parents, i, kin);
    }
}

// The heaviest child of the block at row a, if it has one. One turn for each of its children.
#[inline(always)]
pub fn best_child(
    blocks: Table<'_, Block>,
    kin: &[Kin],
    weights: &[u32],
    whole: bool,
    lim: u64,
    a: usize,
) -> Option<usize>
    requires { (blocks.used ≤ length kin.now) × (blocks.used ≤ length weights.now) × (a < blocks.used)
        × BlocksSound blocks.words.now blocks.used × Linked (λ i. parent_row blocks.words.now i) blocks.used 1 kin.now }
    ensures { Within blocks.entry.used result × (best_child (weight_in blocks.entry.words.now blocks.entry.used weights.now) lim (block_at blocks.entry.words.now a).number
        (blocks_of whole blocks.entry.words.now blocks.entry.used) ≡ found_row blocks.entry.words.now result) }
{
    let parent = blocks.row(a);
    let mut best = None;
    // links are walked, which no range names
    let mut c = kin[a].child as usize;
    while c != 0 {
        best = better_row(blocks, weights, whole, lim, parent.entry.number, c, best);
        c = kin[c].next as usize;
    }
    best
}

// The row of the leaf at which the walk from block 0 stops, level by level: each level searches the children of its block alone.
// So no row has two turns, however long the chain is. Stack: 8 KiB for the links of 2,048 rows.
fn leaf(blocks: Table<'_, Block>, parents: &[u16], weights: &[u32], whole: bool, lim: u64) -> usize
    requires { (blocks.used ≤ loom.blocks) × (blocks.used ≤ length weights.now) × (length parents.now ≡ loom.blocks)
        × BlocksSound blocks.words.now blocks.used × Parents blocks.words.now blocks.used parents.now }
    ensures { (result < blocks.entry.used) × ((block_at blocks.entry.words.now result).number
        ≡ walk (weight_in blocks.entry.words.now blocks.entry.used weights.now) (blocks_of whole blocks.entry.words.now blocks.entry.used) lim) }
{
    let mut kin = [Kin { child: 0, next: 0 }; limits::LOOM_BLOCKS];
    link_children(parents, blocks.used, &mut kin);
    let mut a: usize = 0;
    // document 01 names this form: a loop over levels that break leaves with the row (DECISIONS 38)
    'levels: loop {
        let Some(c) = best_child(blocks, &kin, weights, whole, lim, a) else {
            break 'levels a;
        };
        a = c;
    }
}

// The voters of each subtree, by the votes kept for slot t: the word at a block's row is the set of the voters whose kept vote is for it or
// for a block above it. Also the row of each block's parent.
// The cost is a lookup for each vote, two for each block and one for each voter. Stack: 2.5 KB for the kept votes of 64 voters, and while they
// are gathered 48 KiB.
pub fn weigh(
    tables: Tables<'_>,
    whole: bool,
    expiry: u64,
    t: u64,
    parents: &mut [u16],
    masks: &mut [u64],
)
    requires { (length parents.old ≡ loom.blocks) × (masks.old ≡ replicate loom.blocks 0) }
    ensures { Parents tables.entry.blocks.words.now tables.entry.blocks.used parents.new
        × Supporters whole tables.entry.blocks.words.now tables.entry.blocks.used tables.entry.votes.words.now tables.entry.votes.used expiry t masks.new }
{
    let mut kept = [None; limits::LOOM_NODES];
    vote_filters::kept_votes(tables.votes, whole, expiry, t, &mut kept);
    subtree_voters::supporters(tables.blocks, &kept, parents, masks);
}

// The weight of each block without the silent voters, by the word at its row: each word is counted once. The arrays have room for the largest table
// (fixed memory), and its first `used` rows count. A struct of a row's word, weight and parent would take 16 bytes in place of 14.
pub fn count_voters(masks: &[u64], silent: u64, used: usize, weights: &mut [u32])
    requires { (used ≤ length masks.now) × (used ≤ length weights.old) }
    ensures { Counted silent masks.now used weights.new }
{
    for i in 0..used {
        weights[i] = masks::weight(masks::without(masks[i], silent));
    }
}

// The row of the heaviest leaf: by the weights of slot t, with children of slots below the limit. Also the row of each block's parent.
// Stack: 24 KiB for the words and weights of 2,048 blocks; with what gathers the kept votes 74 KiB, the most that any call here takes.
pub fn heaviest_leaf(
    tables: Tables<'_>,
    whole: bool,
    t: u64,
    lim: u64,
    parents: &mut [u16],
) -> usize
    requires { length parents.old ≡ loom.blocks }
    ensures { Parents tables.entry.blocks.words.now tables.entry.blocks.used parents.new × (result < tables.entry.blocks.used)
        × ((block_at tables.entry.blocks.words.now result).number
        ≡ walk (weight_at (blocks_of whole tables.entry.blocks.words.now tables.entry.blocks.used) (votes_of whole tables.entry.votes.words.now tables.entry.votes.used)
        tables.entry.settings.nodes tables.entry.settings.expiry t)
        (blocks_of whole tables.entry.blocks.words.now tables.entry.blocks.used) lim) }
{
    let mut masks = [0u64; limits::LOOM_BLOCKS];
    weigh(
        tables,
        whole,
        tables.settings.expiry,
        t,
        parents,
        &mut masks,
    );
    let mut weights = [0u32; limits::LOOM_BLOCKS];
    count_voters(&masks, 0, tables.blocks.used, &mut weights);
    leaf(tables.blocks, parents, &weights, whole, lim)
}

// The number of the heaviest leaf. Stack: 4 KiB more, for the parents' rows.
fn heaviest(tables: Tables<'_>, whole: bool, t: u64, lim: u64) -> Number
    ensures { value result ≡ walk (weight_at (blocks_of whole tables.entry.blocks.words.now tables.entry.blocks.used)
        (votes_of whole tables.entry.votes.words.now tables.entry.votes.used) tables.entry.settings.nodes tables.entry.settings.expiry t)
        (blocks_of whole tables.entry.blocks.words.now tables.entry.blocks.used) lim }
{
    let mut parents = [0u16; limits::LOOM_BLOCKS];
    let a = heaviest_leaf(tables, whole, t, lim, &mut parents);
    let row = tables.blocks.row(a);
    row.entry.number
}

// The head of slot t, over the view: children of slots up to t. The cost is a few walks for each vote and block.
pub fn head(tables: Tables<'_>, t: u64) -> Number
    requires { t + 1 < 2 ^ 64 }
    ensures { value result ≡ head_block (view_of (rows_of make_block tables.entry.blocks.words.now tables.entry.blocks.used))
        (view_of (rows_of make_vote tables.entry.votes.words.now tables.entry.votes.used))
        tables.entry.settings.nodes tables.entry.settings.expiry t }
{
    heaviest(tables, false, t, t + 1)
}

// The base of a proposal of slot t, over the whole store: children of slots below t only. The head's cost.
pub fn base(tables: Tables<'_>, t: u64) -> Number
    ensures { value result ≡ base_block (entries (rows_of make_block tables.entry.blocks.words.now tables.entry.blocks.used))
        (entries (rows_of make_vote tables.entry.votes.words.now tables.entry.votes.used))
        tables.entry.settings.nodes tables.entry.settings.expiry t }
{
    heaviest(tables, true, t, t)
}
