// What the programs of cases share: each line of the input prepares what a node is lent, or makes a call on that and prints what came out.
#![tactic(auto)]

mod line;
mod packet;
mod shown;
mod tried;

ghost use Rattle.lent.specs.Memory.{IsSameLoan};

use answers::{Answer, Call};
use lent::{Lent, LentMut};
pub use line::Line;
pub use packet::{packet_bytes, packet_in};
use protocol::{Clock, Number, Settings};
pub use shown::{print_compared, print_figures};
use std::io;
use std::io::Write;
pub use tried::Tried;
use verdicts::Refusal;

// Where the first word begins, from the colon on.
const WORD: usize = 2;

// What a program asks beside the calls that each of them makes.
pub trait Questions {
    // Asks the question of a line and prints what came out; or answers false, and the line is another call.
    fn ask(&self, rt: &impl Print, lent: Lent<'_>, line: Line<'_>) -> io::Result<bool>;
}

// How many words of a table are lent, and how many rows are used.
#[derive(Clone, Copy)]
struct Space {
    lent: usize,
    used: usize,
}

// What a node is lent beside the words of its tables.
#[derive(Clone, Copy)]
struct Held {
    settings: Settings,
    clock: Clock,
    blocks: Space,
    votes: Space,
}

// What a call left: whether the memory is as before, and what is lent from here on.
#[derive(Clone, Copy)]
struct After {
    answer: Result<Answer, Refusal>,
    unchanged: bool,
    held: Held,
}

fn copy(from: &[u64], to: &mut [u64]) {
    let n = from.len().min(to.len());
    to[..n].copy_from_slice(&from[..n]);
}

// The given words, and one word everywhere else.
fn laid(words: &mut [u64], line: Line<'_>) -> Space {
    let lent = line.size(0).min(words.len());
    if 3 <= line.numbers.len() {
        words[..lent].fill(line.numbers[1]);
        copy(&line.numbers[3..], words);
    }
    Space {
        lent,
        used: line.size(2),
    }
}

// A call that may change what is lent, by the first letter of the line's word.
fn carried(lent: &mut LentMut<'_>, line: Line<'_>, bytes: &[u8]) -> Result<Answer, Refusal>
    ensures { IsSameLoan lent.old lent.new }
{
    let call = match line.letter(WORD) {
        b'o' => {
            node::open(lent)?;
            return Ok(Answer::Done);
        }
        b'p' => Call::Propose(line.block_number(1)),
        b'v' => Call::Vote,
        b'm' => Call::Merge,
        _ => Call::Receive,
    };
    node::carry(lent, call, line.number(0), bytes)
}

// The same on these tables. Open is given its settings by the line. Every word is compared with what was lent.
fn left(held: Held, blocks: &mut [u64], votes: &mut [u64], line: Line<'_>) -> After {
    let mut bytes = [0u8; 4200];
    let n = packet_bytes(line.letter(WORD), line.numbers, &mut bytes);
    let mut old_blocks = [0u64; 12294];
    let mut old_votes = [0u64; 40965];
    let blocks_lent = held.blocks.lent.min(blocks.len());
    let votes_lent = held.votes.lent.min(votes.len());
    copy(&blocks[..blocks_lent], &mut old_blocks);
    copy(&votes[..votes_lent], &mut old_votes);
    let mut lent = LentMut {
        settings: if line.letter(WORD) == b'o' {
            line.settings()
        } else {
            held.settings
        },
        clock: held.clock,
        blocks: &mut blocks[..blocks_lent],
        blocks_used: held.blocks.used,
        votes: &mut votes[..votes_lent],
        votes_used: held.votes.used,
    };
    let answer = carried(&mut lent, line, &bytes[..n]);
    let mut next = held;
    next.clock = lent.clock;
    next.blocks.used = lent.blocks_used;
    next.votes.used = lent.votes_used;
    let unchanged = next.clock == held.clock
        && next.blocks.used == held.blocks.used
        && next.votes.used == held.votes.used
        && old_blocks.starts_with(&*lent.blocks)
        && old_votes.starts_with(&*lent.votes);
    After {
        answer,
        unchanged,
        held: next,
    }
}

// A node between calls: the words that its tables may be given, and what it is lent.
#[derive(Drop)]
struct Node<'a> {
    held: Held,
    blocks: &'a mut [u64],
    votes: &'a mut [u64],
}

impl Node<'_> {
    fn lent(&self) -> Lent<'_> {
        let held = self.held;
        Lent {
            settings: held.settings,
            clock: held.clock,
            blocks: &self.blocks[..held.blocks.lent.min(self.blocks.len())],
            blocks_used: held.blocks.used,
            votes: &self.votes[..held.votes.lent.min(self.votes.len())],
            votes_used: held.votes.used,
        }
    }

    // What is lent from here on, by the first letter of the line's word.
    fn prepare(&mut self, line: Line<'_>) {
        match line.letter(WORD) {
            b'S' => self.held.settings = line.settings(),
            b'C' => self.held.clock = line.clock(),
            b'B' => self.held.blocks = laid(self.blocks, line),
            _ => self.held.votes = laid(self.votes, line),
        }
    }

    // Makes a call that may change what is lent, and prints what it left.
    fn carry(&mut self, rt: &impl Print, line: Line<'_>) -> io::Result<()> {
        let left = left(self.held, &mut *self.blocks, &mut *self.votes, line);
        self.held = left.held;
        shown::print_answer(rt, left.answer)?;
        if left.answer.is_err() {
            return shown::print_same(rt, left.unchanged);
        }
        shown::print_lent(rt, self.lent())?;
        if line.letter(WORD) == b'o' {
            shown::print_zeros(rt, self.lent())?;
        }
        Ok(())
    }

    // Any call, by the first letter of the line's word.
    fn call(
        &mut self,
        rt: &impl Print,
        questions: &impl Questions,
        line: Line<'_>,
    ) -> io::Result<()> {
        if questions.ask(rt, self.lent(), line)? {
            return Ok(());
        }
        match line.letter(WORD) {
            b'w' => written(rt, self.lent(), line),
            b'h' | b'd' | b'f' | b's' => shown::print_found(rt, found(self.lent(), line)),
            _ => self.carry(rt, line),
        }
    }

    // Without a colon there is no letter, and a line does nothing.
    fn act(
        &mut self,
        rt: &impl Print,
        questions: &impl Questions,
        line: Line<'_>,
    ) -> io::Result<()> {
        let letter = line.letter(WORD);
        if letter == 0 {
            return Ok(());
        }
        if letter < b'a' {
            self.prepare(line);
            return Ok(());
        }
        io::writer(rt).write_all(line.what)?;
        print!(rt; ": ")?;
        self.call(rt, questions, line)?;
        println!(rt)
    }
}

// The question about a slot by the first letter of its word. Fast alone may find no block.
fn found(lent: Lent<'_>, line: Line<'_>) -> Result<Option<Number>, Refusal> {
    let slot = line.number(0);
    match line.letter(WORD) {
        b'h' => queries::head(lent, slot).map(Some),
        b'd' => queries::deep(lent, slot).map(Some),
        b's' => queries::settled(lent, slot, line.number(1)).map(Some),
        _ => queries::fast(lent, slot),
    }
}

// Write, to a buffer of which each byte is 238.
fn written(rt: &impl Print, lent: Lent<'_>, line: Line<'_>) -> io::Result<()> {
    let mut space = [238u8; 200];
    let n = line.size(2).min(200);
    let answer = writing::write(lent, line.number(0) == 1, line.width(), &mut space[..n]);
    shown::print_written(rt, answer, &space)
}

// Does what each line says, from a node that is lent nothing.
pub fn run(rt: &impl Print, questions: &impl Questions, input: &[u8]) -> io::Result<()> {
    let mut blocks = [0u64; 12294];
    let mut votes = [0u64; 40965];
    let nothing = Line {
        what: &[],
        rest: &[],
        numbers: &[],
    };
    let no_space = Space { lent: 0, used: 0 };
    let mut node = Node {
        held: Held {
            settings: nothing.settings(),
            clock: nothing.clock(),
            blocks: no_space,
            votes: no_space,
        },
        blocks: &mut blocks,
        votes: &mut votes,
    };
    for text in input.split(|&byte| byte == b'\n') {
        let mut words = [0u64; 256];
        let line = Line::read(text, &mut words);
        node.act(rt, questions, line)?;
    }
    Ok(())
}
