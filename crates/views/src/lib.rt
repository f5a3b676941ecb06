// Bringing a proposal's entries into view: its own in one pass over each table, and then all that its blocks stand on in another.
// Which rows are the packet's own was found when it was tested: they are in a set of rows, or stand behind those that were there before it.
// A parent is looked up in an index of the blocks, in links that the caller lends. A mark is in no key, so the index serves until a row is added.
// No function keeps an array: the largest call takes less than 1 KB of stack.
#![tactic(auto)]

ghost use Rattle.std.specs.Prelude.{true, ◌≡◌, ◌*◌, ◌≤◌, eqb, length};
ghost use Rattle.protocol.specs.Words.{value};
ghost use Rattle.protocol.specs.Store.{view};
ghost use Rattle.protocol.specs.Lent.{BlocksFit, rows_of, stored, make_block, block_row, marks_sound};
ghost use Rattle.index.specs.Links.{BlockIndex};
ghost use Rattle.views.specs.Ancestors.{Ordered, view_ancestors};
ghost use Rattle.views.specs.Named.{named_at, ViewedAt};

use protocol::{Block, Number};
use rows::{Entry, Table};

// ---- the packet's own entries

// Whether the packet names row j: it stands at row `before` or later, or is in the set.
#[tactic(auto, unfolding(crate::specs::Named::named_at))]
fn is_named(before: usize, firsts: &[u64], j: usize) -> bool
    requires { before ≤ 64 * length firsts.now }
    ensures { result ≡ named_at before firsts.now j }
{
    before <= j || bitset::has(firsts, j)
}

// The rows that the packet names come into view: those at row `before` and later, and those that are in `firsts`.
// The cost is one step for each row.
pub fn view_named<E: Entry>(words: &mut [u64], before: usize, used: usize, firsts: &[u64])
    requires { (E.make.words * used ≤ length words.old) × (marks_sound E.make words.old used ≡ true) × (before ≤ used) × (before ≤ 64 * length firsts.now) }
    ensures { ViewedAt E.Of E.make E.written words.old used (named_at before firsts.now) words.new }
{
    for j in 0..used {
        if is_named(before, firsts, j) {
            changes::view_row::<E>(words, j);
        }
    }
}

// ---- what its blocks stand on

// The block with this number comes into view. The cost is a lookup.
fn view_block(blocks: &mut [u64], used: usize, links: &[u16], number: Number)
    requires { BlocksFit used blocks.old × (marks_sound make_block blocks.old used ≡ true) × Ordered (rows_of make_block blocks.old used)
        × BlockIndex blocks.old used links.now }
    ensures { blocks.new ≡ stored block_row (view (λ b. eqb b.number (value number)) (rows_of make_block blocks.old used)) blocks.old }
{
    if let Some(row) = index::link(Table::new(&*blocks, used), links, number) {
        changes::view_row::<Block>(blocks, row);
    }
}

// The blocks that a block in view stands on come into view: parents stand before their children, so one pass from the last row
// to the first is enough. The links are those that `index::build_blocks` wrote; marks may have changed since. The cost is a lookup for each
// row in view.
pub fn view_ancestors(blocks: &mut [u64], used: usize, links: &[u16])
    requires { BlocksFit used blocks.old × (marks_sound make_block blocks.old used ≡ true) × Ordered (rows_of make_block blocks.old used)
        × BlockIndex blocks.old used links.now }
    ensures { blocks.new ≡ stored block_row (view_ancestors (rows_of make_block blocks.old used)) blocks.old }
{
    for i in (1..used).rev() {
        let row = Table::<Block>::new(&*blocks, used).row(i);
        if row.viewed {
            view_block(blocks, used, links, row.entry.parent);
        }
    }
}
