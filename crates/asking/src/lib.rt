// A question to a fresh node and its answers: what the programs `chainask`, `silentask`, `fitask` and `pairask` and the programs of their cases share.
// The input is n (1 byte), E and K (2 each), a slot (4), and a packet; for `silentask` the set of silent nodes (8) stands before the packet. Node 0 receives
// the packet and merges it. For `fitask` and `pairask` the length of the packet (4) stands before it, and a second packet behind it: `fitask` asks about that
// one, and for `pairask` node 0 receives nothing, and is asked about both.
// The tables and the input take 131 KB of stack.
#![tactic(auto)]

ghost use Rattle.std.specs.Prelude.{true, ◌≡◌, ◌≤◌};
ghost use Rattle.protocol.specs.Lent.{places_of, node_of, lent_sound};
ghost use Rattle.lent.specs.Memory.{memory, memory_mut, IsSameLoan};
ghost use Rattle.asking.specs.Ask.{prepared, ask_all, ask_for, settings_in, ask_after, ask_with, ask_with_silent};
ghost use Rattle.asking.specs.Steps.{IsCarried};
ghost use Rattle.asking.specs.ChainAnswer.{chain_answer_of};
ghost use Rattle.asking.specs.AskPackets.{ask_two, fit_with, pair_with};
ghost use Rattle.asking.specs.PacketAnswer.{packet_answer_of};

use answers::{Figures, NotCompared};
use equivocation::Equivocation;
use lent::{Lent, LentMut};
use protocol::{Clock, Number, Profile, Settings};
use std::fmt;
use verdicts::Refusal;

// The programs that ask.
#[derive(Clone, Copy, PartialEq, Eq)]
pub enum Program {
    Chainask,
    Silentask,
    Fitask,
    Pairask,
}

// What the node is asked for: head, deep and fast block, or the settled block with this set of silent nodes.
#[derive(Clone, Copy, PartialEq, Eq)]
pub enum Question {
    Chain,
    Settled(u64),
}

// The three answers, of which Fast may find no block; or the settled block.
#[derive(Clone, Copy, PartialEq, Eq)]
pub enum ChainAnswer {
    Found {
        head: Number,
        deep: Number,
        fast: Option<Number>,
    },
    Settled(Number),
}

// What Fit or Compare answers about packets.
#[derive(Clone, Copy)]
pub enum PacketAnswer {
    Figures(Figures),
    Compared(Result<Option<Equivocation>, NotCompared>),
}

// ---- the node

// Before Open.
const NO_CLOCK: Clock = Clock {
    seen: 0,
    done: 0,
    merged: 0,
    proposed: 0,
};

// A fresh node, which receives a packet and merges it.
fn prepared(lent: &mut LentMut<'_>, beat: u64, packet: &[u8]) -> Result<(), Refusal>
    ensures carried { IsCarried lent.old.settings (prepared lent.old.settings beat packet.now) (memory_mut lent.old) (memory_mut lent.new) result }
    ensures same { IsSameLoan lent.old lent.new }
{
    node::open(lent)?;
    node::receive(lent, beat, packet)?;
    node::merge(lent, beat)
}

// The answers of Head, Deep and Fast together, or the first refusal.
fn queried(lent: Lent<'_>, slot: u64) -> Result<ChainAnswer, Refusal>
    requires { lent_sound lent.settings (memory lent) ≡ true }
    ensures { chain_answer_of result ≡ ask_all lent.entry.settings slot (places_of (memory lent.entry)) (node_of (memory lent.entry)) }
{
    let head = queries::head(lent, slot)?;
    let deep = queries::deep(lent, slot)?;
    let fast = queries::fast(lent, slot)?;
    Ok(ChainAnswer::Found { head, deep, fast })
}

fn answered(lent: Lent<'_>, slot: u64, question: Question) -> Result<ChainAnswer, Refusal>
    requires { lent_sound lent.settings (memory lent) ≡ true }
    ensures { chain_answer_of result ≡ ask_for lent.entry.settings slot question (places_of (memory lent.entry)) (node_of (memory lent.entry)) }
{
    match question {
        Question::Chain => queried(lent, slot),
        Question::Settled(silent) => {
            let block = queries::settled(lent, slot, silent)?;
            Ok(ChainAnswer::Settled(block))
        }
    }
}

// ---- the input

// n, E and K of an input.
fn settings_in(input: &[u8]) -> Settings
    ensures { result ≡ settings_in input.now }
{
    Settings {
        profile: Profile::Loom,
        nodes: packets::number_at(input, 0, 1),
        own: 0,
        expiry: packets::number_at(input, 1, 2),
        depth: packets::number_at(input, 3, 2),
    }
}

// The length is tested before anything else: the packet comes after n bytes, of which the first nine are read here.
fn asked_after(input: &[u8], n: usize, question: Question) -> Result<ChainAnswer, Refusal>
    requires { 9 ≤ n }
    ensures { chain_answer_of result ≡ ask_after n question input.now }
{
    if input.len() < n || 32768 < input.len() {
        return Err(Refusal::PacketMalformed);
    }
    let slot = packets::number_at(input, 5, 4);
    let mut blocks = [0u64; 3072];
    let mut votes = [0u64; 5120];
    let mut lent = LentMut {
        settings: settings_in(input),
        clock: NO_CLOCK,
        blocks: &mut blocks,
        blocks_used: 0,
        votes: &mut votes,
        votes_used: 0,
    };
    prepared(&mut lent, 3 * slot + 2, &input[n..])?;
    answered(lent.read(), slot, question)
}

// What `chainask` answers.
pub fn asked(input: &[u8]) -> Result<ChainAnswer, Refusal>
    ensures { chain_answer_of result ≡ ask_with input.now }
{
    asked_after(input, 9, Question::Chain)
}

// What `silentask` answers. Where there are too few bytes for the set, what is read of it does not matter.
pub fn asked_with_silent(input: &[u8]) -> Result<ChainAnswer, Refusal>
    ensures { chain_answer_of result ≡ ask_with_silent input.now }
{
    let silent = packets::number_at(input, 9, 8);
    asked_after(input, 17, Question::Settled(silent))
}

// An input with two packets, for Fit, or to compare both. Whether the first one is there is tested with the length.
// `both` is a flag, since the definition `ask_two` takes one.
fn asked_two(input: &[u8], both: bool) -> Result<PacketAnswer, Refusal>
    ensures { packet_answer_of result ≡ ask_two both input.now }
{
    let first = packets::number_at(input, 9, 4) as usize;
    if input.len() < 13 || 65536 < input.len() || input.len() - 13 < first {
        return Err(Refusal::PacketMalformed);
    }
    let one = &input[13..13 + first];
    let two = &input[13 + first..];
    let beat = 3 * packets::number_at(input, 5, 4) + 2;
    let mut blocks = [0u64; 3072];
    let mut votes = [0u64; 5120];
    let mut lent = LentMut {
        settings: settings_in(input),
        clock: NO_CLOCK,
        blocks: &mut blocks,
        blocks_used: 0,
        votes: &mut votes,
        votes_used: 0,
    };
    if both {
        node::open(&mut lent)?;
        let compared = queries::compare(lent.read(), beat, one, two);
        return Ok(PacketAnswer::Compared(compared));
    }
    prepared(&mut lent, beat, one)?;
    let figures = queries::fit(lent.read(), beat, two)?;
    Ok(PacketAnswer::Figures(figures))
}

// What `fitask` answers.
pub fn fit_asked(input: &[u8]) -> Result<PacketAnswer, Refusal>
    ensures { packet_answer_of result ≡ fit_with input.now }
{
    asked_two(input, false)
}

// What `pairask` answers.
pub fn pair_asked(input: &[u8]) -> Result<PacketAnswer, Refusal>
    ensures { packet_answer_of result ≡ pair_with input.now }
{
    asked_two(input, true)
}

// ---- printing

impl fmt::Display for ChainAnswer {
    fn fmt<W: fmt::Write>(&self, f: &mut fmt::Formatter<W>) -> fmt::Result {
        match *self {
            ChainAnswer::Found { head, deep, fast } => {
                write!(f, "head {head}\ndeep {deep}\nfast ")?;
                match fast {
                    Some(block) => write!(f, "{block}"),
                    None => write!(f, "none"),
                }
            }
            ChainAnswer::Settled(block) => write!(f, "block {block}"),
        }
    }
}

impl fmt::Display for PacketAnswer {
    fn fmt<W: fmt::Write>(&self, f: &mut fmt::Formatter<W>) -> fmt::Result {
        match *self {
            PacketAnswer::Figures(figures) => write!(
                f,
                "blocks {}\nvotes {}\nbytes {}",
                figures.new_blocks, figures.new_votes, figures.bytes
            ),
            PacketAnswer::Compared(Ok(Some(e))) => write!(
                f,
                "voter {} slot {} blocks {} {}",
                e.voter, e.slot, e.block, e.other
            ),
            PacketAnswer::Compared(Ok(None)) => write!(f, "none"),
            PacketAnswer::Compared(Err(NotCompared::Memory(refusal))) => {
                write!(f, "refused {}", refusal.number())
            }
            PacketAnswer::Compared(Err(NotCompared::First(refusal))) => {
                write!(f, "refused {} first", refusal.number())
            }
            PacketAnswer::Compared(Err(NotCompared::Second(refusal))) => {
                write!(f, "refused {} second", refusal.number())
            }
        }
    }
}

// An answer, or the first refusal of a call.
fn print<T: fmt::Display + Drop>(
    rt: &impl Print,
    answer: Result<T, Refusal>,
) -> std::io::Result<()> {
    match answer {
        Ok(answer) => println!(rt; "{answer}"),
        Err(refusal) => println!(rt; "refused {}", refusal.number()),
    }
}

// Prints what a program answers to an input. A failed write is passed over: there is nowhere to tell of it.
pub fn answer(rt: &impl Print, program: Program, input: &[u8]) {
    let _ = match program {
        Program::Chainask => print(rt, asked(input)),
        Program::Silentask => print(rt, asked_with_silent(input)),
        Program::Fitask => print(rt, fit_asked(input)),
        Program::Pairask => print(rt, pair_asked(input)),
    };
}

// The same of standard input. Reads one byte more than the program allows, so that what is too long is seen.
pub fn ask(rt: &impl Print, program: Program) {
    let most = match program {
        Program::Chainask | Program::Silentask => 32769,
        Program::Fitask | Program::Pairask => 65537,
    };
    let mut buf = [0u8; 65537];
    let n = io::read_full(0, &mut buf[..most]);
    answer(rt, program, &buf[..n]);
}
