// Changes of lent tables. Each says what all words of a table are at its end, unused places included.
// No function keeps an array: the largest call takes less than 1 KB of stack.
#![tactic(auto)]

ghost use Rattle.std.specs.Prelude.{true, ◌++◌, ◌∷◌, [], ◌≡◌, ◌+◌, ◌-◌, ◌*◌, ◌≤◌, length, replicate};
ghost use Rattle.protocol.specs.Store.{in_view, view_all, rows_since, fresh};
ghost use Rattle.protocol.specs.Lent.{BlocksFit, VotesFit, block_words, rows_of, words_of, stored, make_vote, block_row, vote_row, marks_sound, emptied};
ghost use Rattle.rows.specs.Rows.{row_at, put_row};

use protocol::{Block, Number, Vote};
use rows::{Entry, Row, Table};

// One entry more, at the end.
pub fn append<E: Entry>(words: &mut [u64], used: &mut usize, entry: E, viewed: bool)
    requires { (E.make.words * (used.old + 1) ≤ length words.old) × (marks_sound E.make words.old used.old ≡ true) }
    ensures { (words.new ≡ stored E.written (rows_of E.make words.old used.old ++ (record { entry = E.of entry; viewed = viewed } ∷ [])) words.old)
        × (used.new ≡ used.old + 1) }
{
    rows::put(words, *used, Row { entry, viewed });
    *used += 1;
}

// Row i comes into view.
pub fn view_row<E: Entry>(words: &mut [u64], i: usize)
    requires { E.make.words * (i + 1) ≤ length words.old }
    ensures { words.new ≡ put_row E.make.words words.old i (E.written (in_view (row_at E.make words.old i).entry)) }
{
    let row = Table::<E>::new(&*words, i + 1).row(i);
    rows::put(
        words,
        i,
        Row {
            entry: row.entry,
            viewed: true,
        },
    );
}

// Every row comes into view.
pub fn view_all<E: Entry>(words: &mut [u64], used: usize)
    requires { E.make.words * used ≤ length words.old }
    ensures { words.new ≡ stored E.written (view_all (rows_of E.make words.old used)) words.old }
{
    for i in 0..used {
        view_row::<E>(words, i);
    }
}

// ---- old votes leave; no block does, so these are of votes alone

// The votes of slot `from` and later come into view and move up to the front, in their order. The answer is how many these are.
fn move_up(votes: &mut [u64], used: usize, from: u64) -> usize
    requires { VotesFit used votes.old }
    ensures { (votes.new ≡ stored vote_row (view_all (rows_since from (rows_of make_vote votes.old used))) votes.old)
        × (result ≡ length (rows_since from (rows_of make_vote votes.old used))) × (result ≤ used) }
{
    let mut kept = 0;
    for i in 0..used {
        let vote = Table::<Vote>::new(&*votes, used).row(i).entry;
        if from <= vote.slot {
            rows::put(
                votes,
                kept,
                Row {
                    entry: vote,
                    viewed: true,
                },
            );
            kept += 1;
        }
    }
    kept
}

// Every vote comes into view, and those of slots below `from` are removed: the others move up in their order, and the places that
// become free are set to zero. The cost is one pass over the rows.
pub fn merge_votes(votes: &mut [u64], used: &mut usize, from: u64)
    requires { VotesFit used.old votes.old }
    ensures { (votes.new ≡ stored vote_row (view_all (rows_since from (rows_of make_vote votes.old used.old))) (emptied used.old votes.old))
        × (used.new ≡ length (rows_since from (rows_of make_vote votes.old used.old))) }
{
    let before = *used;
    let kept = move_up(votes, before, from);
    votes[Vote::WORDS * kept..Vote::WORDS * before].fill(0);
    *used = kept;
}

// The tables of a fresh node: block 0 alone, in view, and every other place zero.
pub fn clear(blocks: &mut [u64], votes: &mut [u64])
    requires { BlocksFit 1 blocks.old }
    ensures { (blocks.new ≡ words_of block_row fresh.blocks ++ replicate (length blocks.old - block_words) 0)
        × (votes.new ≡ replicate (length votes.old) 0) }
{
    blocks.fill(0);
    votes.fill(0);
    let zero = Number { upper: 0, lower: 0 };
    rows::put(
        blocks,
        0,
        Row {
            entry: Block {
                number: zero,
                parent: zero,
                slot: 0,
            },
            viewed: true,
        },
    );
}
