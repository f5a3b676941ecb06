// Tables of rows in lent words, six to a row of blocks and five to one of votes: one trait tells what a row's words are, and rows are read and written by it
// as structs. A search takes as many steps as rows are used. No function keeps an array: the largest call takes less than 1 KB of stack.
#![tactic(auto)]

ghost use Rattle.std.specs.Prelude.{◌||◌, ◌≡◌, ◌+◌, ◌*◌, ◌≤◌, ◌<◌, ◌++◌, ℕ, Bool, List, length, drop};
ghost use Rattle.protocol.specs.Entry as entry;
ghost use Rattle.protocol.specs.Words.{value, is_wide, block_of, vote_of};
ghost use Rattle.protocol.specs.Chain.{genesis};
ghost use Rattle.protocol.specs.Store.{Marked};
ghost use Rattle.protocol.specs.Packet.{Packet, read_block, read_vote, block_bytes, vote_bytes};
ghost use Rattle.protocol.specs.Lent.{Make, block_words, vote_words, rows_of, make_block, make_vote, block_row, vote_row};
ghost use Rattle.protocol.proofs.Lent.Rows.{Codec, block-codec, vote-codec};
ghost use Rattle.rows.specs.Rows.{row_at, clean_at, put_row, marked, marked_block, marked_vote};
ghost use Rattle.rows.specs.Find.{row_of};

use protocol::{Block, Number, Vote};
use std::alloc::AllocError;
use std::marker::PhantomData;

// A row of a table: an entry, in view or waiting.
#[derive(Clone, Copy)]
pub struct Row<E> {
    pub entry: E,
    pub viewed: bool,
}

// A kind of entry that a table has rows of: a block, or a vote.
pub trait Entry: Copy {
    // How many words a row takes: the entry's, and one for its mark.
    const WORDS: usize;

    ghost WORDS: { ℕ };

    // What an entry is in the definitions; what a row's words make; and which words a row is written as.
    ghost Of: { Type 0 };

    ghost of: { Self → Of };

    ghost make: { Make (Marked Of) };

    ghost written: { Marked Of → List ℕ };

    // The entries of this kind that a packet lists, and what stands for one where there is none; and the entry at the front of a packet's bytes,
    // where a number takes so many.
    ghost listed: { Packet → List Of };

    ghost none: { Of };

    ghost packed: { ℕ → List ℕ → Of };

    // The bytes of an entry in a packet, where a number takes so many; and whether one of its numbers has more than 64 bits.
    ghost bytes: { ℕ → Of → List ℕ };

    ghost wide: { Of → Bool };

    // An entry's slot.
    ghost slot: { Of → ℕ };

    fn slot(self) -> u64
        ensures { result ≡ slot (of self) };

    // The row at the front of the words.
    fn read(words: &[u64]) -> Row<Self>
        requires { make.words ≤ length words.now }
        ensures { marked of result ≡ make.of words.now };

    // Whether the mark of the row at the front of the words is 0 or 1.
    fn is_clean(words: &[u64]) -> bool
        requires { make.words ≤ length words.now }
        ensures { result ≡ make.clean words.now };

    // The row at the front of the words becomes this one.
    fn write(row: Row<Self>, words: &mut [u64])
        requires { make.words ≤ length words.old }
        ensures { words.new ≡ written (marked of row) ++ drop make.words words.old };

    ghost words_lem: { make.words ≡ WORDS };

    // What is written is read again.
    ghost codec: { Codec (Marked Of) make written };
}

impl Entry for Block {
    const WORDS: usize = 6;

    ghost WORDS = { 6 };

    ghost Of = { entry.Block };

    ghost of = { block_of };

    ghost make = { make_block };

    ghost written = { block_row };

    ghost listed = { λ p. p.blocks };

    ghost none = { genesis };

    ghost packed = { read_block };

    ghost bytes = { block_bytes };

    ghost wide = { λ b. is_wide b.number || is_wide b.parent };

    ghost slot = { λ b. b.slot };

    ghost words_lem = { Prim.search };

    ghost codec = { block-codec };

    fn slot(self) -> u64 {
        self.slot
    }

    fn read(words: &[u64]) -> Row<Block> {
        Row {
            entry: Block {
                number: numbers::kept_at(words, 0),
                parent: numbers::kept_at(words, 1),
                slot: words[4],
            },
            viewed: words[5] == 1,
        }
    }

    fn is_clean(words: &[u64]) -> bool {
        words[5] <= 1
    }

    fn write(row: Row<Block>, words: &mut [u64])
        requires { block_words ≤ length words.old }
        ensures { words.new ≡ block_row (marked_block row) ++ drop block_words words.old }
    {
        numbers::keep(words, 0, row.entry.number);
        numbers::keep(words, 1, row.entry.parent);
        words[4] = row.entry.slot;
        words[5] = row.viewed as u64;
    }
}

impl Entry for Vote {
    const WORDS: usize = 5;

    ghost WORDS = { 5 };

    ghost Of = { entry.Vote };

    ghost of = { vote_of };

    ghost make = { make_vote };

    ghost written = { vote_row };

    ghost listed = { λ p. p.votes };

    ghost none = { record { voter = 0; slot = 0; number = 0 } };

    ghost packed = { read_vote };

    ghost bytes = { vote_bytes };

    ghost wide = { λ a. is_wide a.number };

    ghost slot = { λ a. a.slot };

    ghost words_lem = { Prim.search };

    ghost codec = { vote-codec };

    fn slot(self) -> u64 {
        self.slot
    }

    fn read(words: &[u64]) -> Row<Vote> {
        Row {
            entry: Vote {
                voter: words[0],
                slot: words[1],
                number: numbers::kept_at(words, 1),
            },
            viewed: words[4] == 1,
        }
    }

    fn is_clean(words: &[u64]) -> bool {
        words[4] <= 1
    }

    fn write(row: Row<Vote>, words: &mut [u64])
        requires { vote_words ≤ length words.old }
        ensures { words.new ≡ vote_row (marked_vote row) ++ drop vote_words words.old }
    {
        words[0] = row.entry.voter;
        words[1] = row.entry.slot;
        numbers::keep(words, 1, row.entry.number);
        words[4] = row.viewed as u64;
    }
}

// A table: lent words, of which the first `used` rows are read.
pub struct Table<'a, E: Entry> {
    pub words: &'a [u64],
    pub used: usize,
    kind: PhantomData<E>,
    ghost fit: { E.make.words * used ≤ length words.now },
}

impl<'a, E: Entry> Clone for Table<'a, E> {
    ghost is_clone = { λ x y. y ≡ x };

    ghost is_infallible = { λ _. Unit {0} };

    fn clone(&self) -> Result<Self, AllocError> {
        Ok(*self)
    }
}

impl<'a, E: Entry> Copy for Table<'a, E> {}

impl<'a, E: Entry> Table<'a, E> {
    pub fn new(words: &'a [u64], used: usize) -> Self
        requires { E.make.words * used ≤ length words.now }
        ensures words { result.words ≡ words.entry }
        ensures used { result.used ≡ used }
    {
        Table {
            words,
            used,
            kind: PhantomData,
        }
    }

    // The first n rows.
    pub fn first(self, n: usize) -> Self
        requires { n ≤ self.used }
        ensures words { result.words ≡ self.entry.words }
        ensures used { result.used ≡ n }
    {
        Table {
            words: self.words,
            used: n,
            kind: PhantomData,
        }
    }

    // Row i.
    pub fn row(self, i: usize) -> Row<E>
        requires { i < self.used }
        ensures { marked E.of result ≡ row_at E.make self.entry.words.now i }
    {
        E::read(&self.words[E::WORDS * i..])
    }

    // Whether the mark of row i is 0 or 1.
    pub fn is_clean(self, i: usize) -> bool
        requires { i < self.used }
        ensures { result ≡ clean_at E.make self.entry.words.now i }
    {
        E::is_clean(&self.words[E::WORDS * i..])
    }
}

impl<'a> Table<'a, Block> {
    // Where the first block with a number stands. The cost is one step for each block before it.
    pub fn find(self, number: Number) -> Option<usize>
        ensures { result ≡ row_of (rows_of make_block self.entry.words.now self.entry.used) (value number) }
    {
        for i in 0..self.used {
            if self.row(i).entry.number == number {
                return Some(i);
            }
        }
        None
    }
}

// Row i of the words becomes this one.
pub fn put<E: Entry>(words: &mut [u64], i: usize, row: Row<E>)
    requires { E.make.words * (i + 1) ≤ length words.old }
    ensures { words.new ≡ put_row E.make.words words.old i (E.written (marked E.of row)) }
{
    E::write(row, &mut words[E::WORDS * i..])
}

// Whether a row is selected: of the whole store each row is, of the view those in view.
pub fn selects(whole: bool, viewed: bool) -> bool
    ensures { result ≡ (whole || viewed) }
{
    whole || viewed
}
