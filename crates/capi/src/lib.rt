// The node for programs in C and Rust: the twelve calls under the names that include/likvost.h declares.
// An enum cannot be exported, so an answer is a struct of numbers; specs/Structs says which struct stands for which answer.
// Every function takes any memory, any clock and any settings that a caller may pass.
#![tactic(auto)]

ghost use Rattle.std.specs.Prelude.{◌≡◌};
ghost use Rattle.protocol.specs.Words.{value};
ghost use Rattle.verdicts.specs.Lent.{lent, lent_at_entry, lent_at_exit};
ghost use Rattle.answers.specs.Promises.{Opens, Receives, Proposes, Votes, Merges, IsHead, IsDeep, IsFast, IsSettled, IsFit, IsCompared, Writes};
ghost use Rattle.capi.specs.Structs.{node_settings, node_clock, exported_clock, node_number, node_width, exported_number, refused_struct, done_struct, received_struct, block_struct, found_struct, fast_struct, fitted_struct, refused_of, compared_struct, written_struct, Stands};

use answers::{Figures, NotCompared, Received};
use equivocation::Equivocation;
use lent::{Lent, LentMut};
use protocol::{Profile, Width};
use verdicts::Refusal;

// The names of the profiles. Every other number, 0 too, names none.
const LOOM: u64 = 1;

const RACK: u64 = 2;

// What a node is opened with.
#[repr(C)]
#[derive(Clone, Copy)]
pub struct Settings {
    pub profile: u64,
    pub nodes: u64,
    pub own: u64,
    pub expiry: u64,
    pub depth: u64,
}

// What a node knows of time.
#[repr(C)]
#[derive(Clone, Copy)]
pub struct Clock {
    pub seen: u64,
    pub done: u64,
    pub merged: u64,
    pub proposed: u64,
}

// A block's number: lower + 2^64 * upper.
#[repr(C)]
#[derive(Clone, Copy)]
pub struct Number {
    pub lower: u64,
    pub upper: u64,
}

// The answer of a call that changes the memory, with the clock after the call. The index is that of the entry which Receive refused.
#[repr(C)]
#[derive(Clone, Copy)]
pub struct Answer {
    pub refusal: u64,
    pub index: u64,
    pub value: Number,
    pub new_blocks: u64,
    pub new_votes: u64,
    pub viewed: u64,
    pub clock: Clock,
}

// The answer of Head, Deep, Fast and Settled.
#[repr(C)]
#[derive(Clone, Copy)]
pub struct Found {
    pub refusal: u64,
    pub found: u64,
    pub value: Number,
}

// The answer of Fit. The index is that of the entry which Receive would refuse.
#[repr(C)]
#[derive(Clone, Copy)]
pub struct Fitted {
    pub refusal: u64,
    pub index: u64,
    pub new_blocks: u64,
    pub new_votes: u64,
    pub bytes: u64,
}

// The answer of Compare. If it is refused, the packet is 1 or 2, or 0 if neither was looked at; the index is that of the entry which Receive would refuse.
#[repr(C)]
#[derive(Clone, Copy)]
pub struct Compared {
    pub refusal: u64,
    pub index: u64,
    pub packet: u64,
    pub found: u64,
    pub voter: u64,
    pub slot: u64,
    pub block: Number,
    pub other: Number,
}

// The answer of Write.
#[repr(C)]
#[derive(Clone, Copy)]
pub struct Written {
    pub refusal: u64,
    pub bytes: u64,
}

// ---- from the exported structs to the node's, and back

// A profile that is neither of the two is never taken for one: with no node the settings are out of range, so Open refuses by 1 and every other
// call by 6.
impl From<Settings> for protocol::Settings {
    ghost from_gives = { λ settings r. r ≡ node_settings settings };

    #[tactic(auto, unfolding(crate::specs::Structs::node_settings))]
    fn from(settings: Settings) -> protocol::Settings {
        let (profile, nodes) = match settings.profile {
            LOOM => (Profile::Loom, settings.nodes),
            RACK => (Profile::Rack, settings.nodes),
            _ => (Profile::Loom, 0),
        };
        protocol::Settings {
            profile,
            nodes,
            own: settings.own,
            expiry: settings.expiry,
            depth: settings.depth,
        }
    }
}

impl From<Clock> for protocol::Clock {
    ghost from_gives = { λ clock r. r ≡ node_clock clock };

    fn from(clock: Clock) -> protocol::Clock {
        protocol::Clock {
            seen: clock.seen,
            done: clock.done,
            merged: clock.merged,
            proposed: clock.proposed,
        }
    }
}

impl From<protocol::Clock> for Clock {
    ghost from_gives = { λ clock r. r ≡ exported_clock clock };

    fn from(clock: protocol::Clock) -> Clock {
        Clock {
            seen: clock.seen,
            done: clock.done,
            merged: clock.merged,
            proposed: clock.proposed,
        }
    }
}

impl From<Number> for protocol::Number {
    ghost from_gives = { λ number r. r ≡ node_number number };

    fn from(number: Number) -> protocol::Number {
        protocol::Number {
            lower: number.lower,
            upper: number.upper,
        }
    }
}

impl From<protocol::Number> for Number {
    ghost from_gives = { λ number r. r ≡ exported_number number };

    fn from(number: protocol::Number) -> Number {
        Number {
            lower: number.lower,
            upper: number.upper,
        }
    }
}

// No From: a flag and a width are both foreign here (the orphan rule).
fn node_width(wide: bool) -> Width
    ensures { result ≡ node_width wide }
{
    if wide { Width::Wide } else { Width::Narrow }
}

// ---- from the node's answers to the exported structs

// What stands where an answer has no number.
const NO_NUMBER: Number = Number { lower: 0, upper: 0 };

impl Answer {
    // A call that was refused.
    fn refused(refusal: Refusal, clock: Clock) -> Answer
        ensures { result ≡ refused_struct clock refusal }
    {
        Answer {
            refusal: refusal.number(),
            index: refusal.index() as u64,
            value: NO_NUMBER,
            new_blocks: 0,
            new_votes: 0,
            viewed: 0,
            clock,
        }
    }

    // Open and Merge.
    fn of_done(answer: Result<(), Refusal>, clock: Clock) -> Answer
        ensures same { result ≡ done_struct clock answer }
        ensures clock { result.clock ≡ clock }
    {
        match answer {
            Ok(()) => Answer {
                refusal: 0,
                index: 0,
                value: NO_NUMBER,
                new_blocks: 0,
                new_votes: 0,
                viewed: 0,
                clock,
            },
            Err(refusal) => Answer::refused(refusal, clock),
        }
    }

    // Receive.
    fn of_received(answer: Result<Received, Refusal>, clock: Clock) -> Answer
        ensures same { result ≡ received_struct clock answer }
        ensures clock { result.clock ≡ clock }
    {
        match answer {
            Ok(taken) => Answer {
                new_blocks: taken.new_blocks,
                new_votes: taken.new_votes,
                viewed: taken.viewed as u64,
                ..Answer::of_done(Ok(()), clock)
            },
            Err(refusal) => Answer::refused(refusal, clock),
        }
    }

    // Propose and Vote.
    fn of_block(answer: Result<protocol::Number, Refusal>, clock: Clock) -> Answer
        ensures same { result ≡ block_struct clock answer }
        ensures clock { result.clock ≡ clock }
    {
        match answer {
            Ok(number) => Answer {
                value: number.into(),
                ..Answer::of_done(Ok(()), clock)
            },
            Err(refusal) => Answer::refused(refusal, clock),
        }
    }
}

impl From<Result<Option<protocol::Number>, Refusal>> for Found {
    ghost from_gives = { λ found r. r ≡ fast_struct found };

    fn from(found: Result<Option<protocol::Number>, Refusal>) -> Found {
        match found {
            Ok(Some(number)) => Found {
                refusal: 0,
                found: 1,
                value: number.into(),
            },
            Ok(None) => Found {
                refusal: 0,
                found: 0,
                value: NO_NUMBER,
            },
            Err(refusal) => Found {
                refusal: refusal.number(),
                found: 0,
                value: NO_NUMBER,
            },
        }
    }
}

impl From<Result<protocol::Number, Refusal>> for Found {
    ghost from_gives = { λ found r. r ≡ found_struct found };

    fn from(found: Result<protocol::Number, Refusal>) -> Found {
        Found::from(found.map(Some))
    }
}

impl From<Result<Figures, Refusal>> for Fitted {
    ghost from_gives = { λ fitted r. r ≡ fitted_struct fitted };

    fn from(fitted: Result<Figures, Refusal>) -> Fitted {
        match fitted {
            Ok(figures) => Fitted {
                refusal: 0,
                index: 0,
                new_blocks: figures.new_blocks,
                new_votes: figures.new_votes,
                bytes: figures.bytes,
            },
            Err(refusal) => Fitted {
                refusal: refusal.number(),
                index: refusal.index() as u64,
                new_blocks: 0,
                new_votes: 0,
                bytes: 0,
            },
        }
    }
}

impl Compared {
    // No voter, with the refusal's number and index and the packet that it is of.
    fn refused(packet: u64, refusal: Refusal) -> Compared
        ensures { result ≡ refused_of packet refusal }
    {
        Compared {
            refusal: refusal.number(),
            index: refusal.index() as u64,
            packet,
            found: 0,
            voter: 0,
            slot: 0,
            block: NO_NUMBER,
            other: NO_NUMBER,
        }
    }
}

impl From<Result<Option<Equivocation>, NotCompared>> for Compared {
    ghost from_gives = { λ compared r. r ≡ compared_struct compared };

    fn from(compared: Result<Option<Equivocation>, NotCompared>) -> Compared {
        match compared {
            Ok(Some(e)) => Compared {
                refusal: 0,
                index: 0,
                packet: 0,
                found: 1,
                voter: e.voter,
                slot: e.slot,
                block: e.block.into(),
                other: e.other.into(),
            },
            Ok(None) => Compared {
                refusal: 0,
                index: 0,
                packet: 0,
                found: 0,
                voter: 0,
                slot: 0,
                block: NO_NUMBER,
                other: NO_NUMBER,
            },
            Err(NotCompared::First(refusal)) => Compared::refused(1, refusal),
            Err(NotCompared::Second(refusal)) => Compared::refused(2, refusal),
            Err(NotCompared::Memory(refusal)) => Compared::refused(0, refusal),
        }
    }
}

impl From<Result<u64, Refusal>> for Written {
    ghost from_gives = { λ written r. r ≡ written_struct written };

    fn from(written: Result<u64, Refusal>) -> Written {
        match written {
            Ok(bytes) => Written { refusal: 0, bytes },
            Err(refusal) => Written {
                refusal: refusal.number(),
                bytes: 0,
            },
        }
    }
}

// ---- calls that change the memory

// A count that a call left is written back only where it is another.
fn put_count(count: &mut usize, left: usize)
    ensures { count.new ≡ left }
{
    if *count != left {
        *count = left;
    }
}

// Each lends the node what it is passed and writes the counts back. The lines are the same in the five: a generic over the call is no plainer, since its contract
// has to say what the call leaves behind every reference.

pub fn likvost_open(
    settings: Settings,
    clock: Clock,
    blocks: &mut [u64],
    blocks_used: &mut usize,
    votes: &mut [u64],
    votes_used: &mut usize,
) -> Answer
    ensures { Stands (Opens (node_settings settings) (lent_at_entry blocks blocks_used votes votes_used (node_clock clock))
        (lent_at_exit blocks blocks_used votes votes_used (node_clock result.clock))) (done_struct result.clock) result }
{
    let mut lent = LentMut {
        settings: settings.into(),
        clock: clock.into(),
        blocks: &mut *blocks,
        blocks_used: *blocks_used,
        votes: &mut *votes,
        votes_used: *votes_used,
    };
    let answer = node::open(&mut lent);
    put_count(blocks_used, lent.blocks_used);
    put_count(votes_used, lent.votes_used);
    Answer::of_done(answer, lent.clock.into())
}

pub fn likvost_receive(
    settings: Settings,
    clock: Clock,
    blocks: &mut [u64],
    blocks_used: &mut usize,
    votes: &mut [u64],
    votes_used: &mut usize,
    beat: u64,
    packet: &[u8],
) -> Answer
    ensures { Stands (Receives (node_settings settings) (lent_at_entry blocks blocks_used votes votes_used (node_clock clock)) beat packet.now
        (lent_at_exit blocks blocks_used votes votes_used (node_clock result.clock))) (received_struct result.clock) result }
{
    let mut lent = LentMut {
        settings: settings.into(),
        clock: clock.into(),
        blocks: &mut *blocks,
        blocks_used: *blocks_used,
        votes: &mut *votes,
        votes_used: *votes_used,
    };
    let answer = node::receive(&mut lent, beat, packet);
    put_count(blocks_used, lent.blocks_used);
    put_count(votes_used, lent.votes_used);
    Answer::of_received(answer, lent.clock.into())
}

pub fn likvost_propose(
    settings: Settings,
    clock: Clock,
    blocks: &mut [u64],
    blocks_used: &mut usize,
    votes: &mut [u64],
    votes_used: &mut usize,
    beat: u64,
    number: Number,
) -> Answer
    ensures { Stands (Proposes (node_settings settings) (lent_at_entry blocks blocks_used votes votes_used (node_clock clock)) beat (value (node_number number))
        (lent_at_exit blocks blocks_used votes votes_used (node_clock result.clock))) (block_struct result.clock) result }
{
    let mut lent = LentMut {
        settings: settings.into(),
        clock: clock.into(),
        blocks: &mut *blocks,
        blocks_used: *blocks_used,
        votes: &mut *votes,
        votes_used: *votes_used,
    };
    let answer = node::propose(&mut lent, beat, number.into());
    put_count(blocks_used, lent.blocks_used);
    put_count(votes_used, lent.votes_used);
    Answer::of_block(answer, lent.clock.into())
}

pub fn likvost_vote(
    settings: Settings,
    clock: Clock,
    blocks: &mut [u64],
    blocks_used: &mut usize,
    votes: &mut [u64],
    votes_used: &mut usize,
    beat: u64,
) -> Answer
    ensures { Stands (Votes (node_settings settings) (lent_at_entry blocks blocks_used votes votes_used (node_clock clock)) beat
        (lent_at_exit blocks blocks_used votes votes_used (node_clock result.clock))) (block_struct result.clock) result }
{
    let mut lent = LentMut {
        settings: settings.into(),
        clock: clock.into(),
        blocks: &mut *blocks,
        blocks_used: *blocks_used,
        votes: &mut *votes,
        votes_used: *votes_used,
    };
    let answer = node::vote(&mut lent, beat);
    put_count(blocks_used, lent.blocks_used);
    put_count(votes_used, lent.votes_used);
    Answer::of_block(answer, lent.clock.into())
}

pub fn likvost_merge(
    settings: Settings,
    clock: Clock,
    blocks: &mut [u64],
    blocks_used: &mut usize,
    votes: &mut [u64],
    votes_used: &mut usize,
    beat: u64,
) -> Answer
    ensures { Stands (Merges (node_settings settings) (lent_at_entry blocks blocks_used votes votes_used (node_clock clock)) beat
        (lent_at_exit blocks blocks_used votes votes_used (node_clock result.clock))) (done_struct result.clock) result }
{
    let mut lent = LentMut {
        settings: settings.into(),
        clock: clock.into(),
        blocks: &mut *blocks,
        blocks_used: *blocks_used,
        votes: &mut *votes,
        votes_used: *votes_used,
    };
    let answer = node::merge(&mut lent, beat);
    put_count(blocks_used, lent.blocks_used);
    put_count(votes_used, lent.votes_used);
    Answer::of_done(answer, lent.clock.into())
}

// ---- Head, Deep, Fast, Settled, Fit and Compare: the memory is only read

pub fn likvost_head(
    settings: Settings,
    clock: Clock,
    blocks: &[u64],
    blocks_used: usize,
    votes: &[u64],
    votes_used: usize,
    slot: u64,
) -> Found
    ensures { Stands (IsHead (node_settings settings) (lent blocks.now votes.now blocks_used votes_used (node_clock clock)) slot) found_struct result }
{
    let lent = Lent {
        settings: settings.into(),
        clock: clock.into(),
        blocks,
        blocks_used,
        votes,
        votes_used,
    };
    queries::head(lent, slot).into()
}

pub fn likvost_deep(
    settings: Settings,
    clock: Clock,
    blocks: &[u64],
    blocks_used: usize,
    votes: &[u64],
    votes_used: usize,
    slot: u64,
) -> Found
    ensures { Stands (IsDeep (node_settings settings) (lent blocks.now votes.now blocks_used votes_used (node_clock clock)) slot) found_struct result }
{
    let lent = Lent {
        settings: settings.into(),
        clock: clock.into(),
        blocks,
        blocks_used,
        votes,
        votes_used,
    };
    queries::deep(lent, slot).into()
}

pub fn likvost_fast(
    settings: Settings,
    clock: Clock,
    blocks: &[u64],
    blocks_used: usize,
    votes: &[u64],
    votes_used: usize,
    slot: u64,
) -> Found
    ensures { Stands (IsFast (node_settings settings) (lent blocks.now votes.now blocks_used votes_used (node_clock clock)) slot) fast_struct result }
{
    let lent = Lent {
        settings: settings.into(),
        clock: clock.into(),
        blocks,
        blocks_used,
        votes,
        votes_used,
    };
    queries::fast(lent, slot).into()
}

pub fn likvost_settled(
    settings: Settings,
    clock: Clock,
    blocks: &[u64],
    blocks_used: usize,
    votes: &[u64],
    votes_used: usize,
    slot: u64,
    silent: u64,
) -> Found
    ensures { Stands (IsSettled (node_settings settings) (lent blocks.now votes.now blocks_used votes_used (node_clock clock)) slot silent) found_struct result }
{
    let lent = Lent {
        settings: settings.into(),
        clock: clock.into(),
        blocks,
        blocks_used,
        votes,
        votes_used,
    };
    queries::settled(lent, slot, silent).into()
}

pub fn likvost_fit(
    settings: Settings,
    clock: Clock,
    blocks: &[u64],
    blocks_used: usize,
    votes: &[u64],
    votes_used: usize,
    beat: u64,
    packet: &[u8],
) -> Fitted
    ensures { Stands (IsFit (node_settings settings) (lent blocks.now votes.now blocks_used votes_used (node_clock clock)) beat packet.now) fitted_struct result }
{
    let lent = Lent {
        settings: settings.into(),
        clock: clock.into(),
        blocks,
        blocks_used,
        votes,
        votes_used,
    };
    queries::fit(lent, beat, packet).into()
}

pub fn likvost_compare(
    settings: Settings,
    clock: Clock,
    blocks: &[u64],
    blocks_used: usize,
    votes: &[u64],
    votes_used: usize,
    beat: u64,
    one: &[u8],
    two: &[u8],
) -> Compared
    ensures { Stands (IsCompared (node_settings settings) (lent blocks.now votes.now blocks_used votes_used (node_clock clock)) beat one.now two.now) compared_struct result }
{
    let lent = Lent {
        settings: settings.into(),
        clock: clock.into(),
        blocks,
        blocks_used,
        votes,
        votes_used,
    };
    queries::compare(lent, beat, one, two).into()
}

// ---- Write: the memory is only read, the buffer is written

pub fn likvost_write(
    settings: Settings,
    clock: Clock,
    blocks: &[u64],
    blocks_used: usize,
    votes: &[u64],
    votes_used: usize,
    proposal: bool,
    wide: bool,
    buffer: &mut [u8],
) -> Written
    ensures { Stands (Writes (node_settings settings) (lent blocks.now votes.now blocks_used votes_used (node_clock clock)) proposal (node_width wide) buffer.old buffer.new) written_struct result }
{
    let lent = Lent {
        settings: settings.into(),
        clock: clock.into(),
        blocks,
        blocks_used,
        votes,
        votes_used,
    };
    writing::write(lent, proposal, node_width(wide), buffer).into()
}
