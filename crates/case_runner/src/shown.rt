// How answers and what a node is lent are printed.

use answers::{Answer, Figures, NotCompared};
use equivocation::Equivocation;
use lent::Lent;
use protocol::{Block, Clock, Number, Vote};
use std::io;
use verdicts::Refusal;

fn print_refusal(rt: &impl Print, refusal: Refusal) -> io::Result<()> {
    print!(rt; "refused {}", refusal.number())?;
    match refusal {
        Refusal::BadBlock(i) | Refusal::BadVote(i) => print!(rt; " at {i}"),
        _ => Ok(()),
    }
}

pub fn print_answer(rt: &impl Print, answer: Result<Answer, Refusal>) -> io::Result<()> {
    match answer {
        Err(refusal) => print_refusal(rt, refusal),
        Ok(Answer::Done) => print!(rt; "done"),
        Ok(Answer::Block(block)) => print!(rt; "block {block}"),
        Ok(Answer::Received(taken)) => {
            print!(rt;
                "received {} blocks {} votes",
                taken.new_blocks, taken.new_votes
            )?;
            if taken.viewed {
                print!(rt; " in view")
            } else {
                Ok(())
            }
        }
    }
}

pub fn print_found(rt: &impl Print, answer: Result<Option<Number>, Refusal>) -> io::Result<()> {
    match answer {
        Ok(Some(block)) => print!(rt; "block {block}"),
        Ok(None) => print!(rt; "none"),
        Err(refusal) => print_refusal(rt, refusal),
    }
}

pub fn print_figures(rt: &impl Print, answer: Result<Figures, Refusal>) -> io::Result<()> {
    match answer {
        Ok(figures) => print!(rt;
            "takes {} blocks {} votes, then {} bytes",
            figures.new_blocks, figures.new_votes, figures.bytes
        ),
        Err(refusal) => print_refusal(rt, refusal),
    }
}

pub fn print_compared(
    rt: &impl Print,
    answer: Result<Option<Equivocation>, NotCompared>,
) -> io::Result<()> {
    match answer {
        Ok(Some(e)) => print!(rt;
            "voter {} slot {} blocks {} {}",
            e.voter, e.slot, e.block, e.other
        ),
        Ok(None) => print!(rt; "nobody"),
        Err(NotCompared::Memory(refusal)) => print_refusal(rt, refusal),
        Err(NotCompared::First(refusal)) => {
            print_refusal(rt, refusal)?;
            print!(rt; ", first")
        }
        Err(NotCompared::Second(refusal)) => {
            print_refusal(rt, refusal)?;
            print!(rt; ", second")
        }
    }
}

// What Write answers, and whether the buffer is untouched behind the packet: each of its bytes was 238.
pub fn print_written(
    rt: &impl Print,
    answer: Result<u64, Refusal>,
    buffer: &[u8],
) -> io::Result<()> {
    let touched = buffer
        .iter()
        .rposition(|&byte| byte != 238)
        .map_or(0, |i| i + 1);
    match answer {
        Ok(n) => print!(rt; "wrote {n} bytes, untouched beyond {touched}"),
        Err(refusal) => {
            print_refusal(rt, refusal)?;
            if touched == 0 {
                print!(rt; ", buffer as before")
            } else {
                print!(rt; ", BUFFER CHANGED")
            }
        }
    }
}

pub fn print_same(rt: &impl Print, same: bool) -> io::Result<()> {
    if same {
        print!(rt; ", memory as before")
    } else {
        print!(rt; ", MEMORY CHANGED")
    }
}

// ---- what is lent

fn mark(viewed: bool) -> &'static str {
    if viewed { "in view" } else { "waiting" }
}

// A block's row: number, parent and slot, and whether it is in view. At most 64 rows.
// Apart from the votes' rows: a trait for one line of each kind is no plainer.
fn print_blocks(rt: &impl Print, words: &[u64], used: usize) -> io::Result<()> {
    let Some(blocks) = ranges::table::<Block>(words, used) else {
        return Ok(());
    };
    for i in 0..used.min(64) {
        let row = blocks.row(i);
        let Block {
            number,
            parent,
            slot,
        } = row.entry;
        print!(rt; " {number}/{parent}/{slot} {}", mark(row.viewed))?;
    }
    Ok(())
}

// A vote's row: voter, slot and number, and whether it is in view.
fn print_votes(rt: &impl Print, words: &[u64], used: usize) -> io::Result<()> {
    let Some(votes) = ranges::table::<Vote>(words, used) else {
        return Ok(());
    };
    for i in 0..used.min(64) {
        let row = votes.row(i);
        let Vote {
            voter,
            slot,
            number,
        } = row.entry;
        print!(rt; " {voter}/{slot}/{number} {}", mark(row.viewed))?;
    }
    Ok(())
}

// The clock and the rows of both tables.
pub fn print_lent(rt: &impl Print, lent: Lent<'_>) -> io::Result<()> {
    let Clock {
        seen,
        done,
        merged,
        proposed,
    } = lent.clock;
    print!(rt; ", clock {seen} {done} {merged} {proposed}, blocks")?;
    print_blocks(rt, lent.blocks, lent.blocks_used)?;
    print!(rt; ", votes")?;
    print_votes(rt, lent.votes, lent.votes_used)
}

// Whether every word is zero but for the first block's row.
pub fn print_zeros(rt: &impl Print, lent: Lent<'_>) -> io::Result<()> {
    let mut words = lent.blocks.iter().skip(6).chain(lent.votes);
    if words.all(|&word| word == 0) {
        print!(rt; ", zero elsewhere")
    } else {
        print!(rt; ", NOT ZERO ELSEWHERE")
    }
}
