// The archive for programs in C: the twelve calls of capi under the names that include/likvost.h declares, with the clauses of capi.
// The twelve names and their arguments are the C interface, so they stand here and in capi. Each hands its arguments on as they came, so what capi/specs/Structs says of the answers holds of these.
#![tactic(auto)]

ghost use Rattle.protocol.specs.Words.{value};
ghost use Rattle.verdicts.specs.Lent.{lent, lent_at_entry, lent_at_exit};
ghost use Rattle.answers.specs.Promises.{Opens, Receives, Proposes, Votes, Merges, IsHead, IsDeep, IsFast, IsSettled, IsFit, IsCompared, Writes};
ghost use Rattle.capi.specs.Structs.{node_settings, node_clock, node_number, node_width, done_struct, received_struct, block_struct, found_struct, fast_struct, fitted_struct, compared_struct, written_struct, Stands};

use capi::{Answer, Clock, Compared, Fitted, Found, Number, Settings, Written};

// ---- calls that change the memory

#[unsafe(no_mangle)]
pub extern "C" fn likvost_open(
    settings: Settings,
    clock: Clock,
    blocks: &mut [u64],
    blocks_used: &mut usize,
    votes: &mut [u64],
    votes_used: &mut usize,
) -> Answer
    ensures { Stands (Opens (node_settings settings) (lent_at_entry blocks blocks_used votes votes_used (node_clock clock))
        (lent_at_exit blocks blocks_used votes votes_used (node_clock result.clock))) (done_struct result.clock) result }
{
    capi::likvost_open(settings, clock, blocks, blocks_used, votes, votes_used)
}

#[unsafe(no_mangle)]
pub extern "C" fn likvost_receive(
    settings: Settings,
    clock: Clock,
    blocks: &mut [u64],
    blocks_used: &mut usize,
    votes: &mut [u64],
    votes_used: &mut usize,
    beat: u64,
    packet: &[u8],
) -> Answer
    ensures { Stands (Receives (node_settings settings) (lent_at_entry blocks blocks_used votes votes_used (node_clock clock)) beat packet.now
        (lent_at_exit blocks blocks_used votes votes_used (node_clock result.clock))) (received_struct result.clock) result }
{
    capi::likvost_receive(
        settings,
        clock,
        blocks,
        blocks_used,
        votes,
        votes_used,
        beat,
        packet,
    )
}

#[unsafe(no_mangle)]
pub extern "C" fn likvost_propose(
    settings: Settings,
    clock: Clock,
    blocks: &mut [u64],
    blocks_used: &mut usize,
    votes: &mut [u64],
    votes_used: &mut usize,
    beat: u64,
    number: Number,
) -> Answer
    ensures { Stands (Proposes (node_settings settings) (lent_at_entry blocks blocks_used votes votes_used (node_clock clock)) beat (value (node_number number))
        (lent_at_exit blocks blocks_used votes votes_used (node_clock result.clock))) (block_struct result.clock) result }
{
    capi::likvost_propose(
        settings,
        clock,
        blocks,
        blocks_used,
        votes,
        votes_used,
        beat,
        number,
    )
}

#[unsafe(no_mangle)]
pub extern "C" fn likvost_vote(
    settings: Settings,
    clock: Clock,
    blocks: &mut [u64],
    blocks_used: &mut usize,
    votes: &mut [u64],
    votes_used: &mut usize,
    beat: u64,
) -> Answer
    ensures { Stands (Votes (node_settings settings) (lent_at_entry blocks blocks_used votes votes_used (node_clock clock)) beat
        (lent_at_exit blocks blocks_used votes votes_used (node_clock result.clock))) (block_struct result.clock) result }
{
    capi::likvost_vote(
        settings,
        clock,
        blocks,
        blocks_used,
        votes,
        votes_used,
        beat,
    )
}

#[unsafe(no_mangle)]
pub extern "C" fn likvost_merge(
    settings: Settings,
    clock: Clock,
    blocks: &mut [u64],
    blocks_used: &mut usize,
    votes: &mut [u64],
    votes_used: &mut usize,
    beat: u64,
) -> Answer
    ensures { Stands (Merges (node_settings settings) (lent_at_entry blocks blocks_used votes votes_used (node_clock clock)) beat
        (lent_at_exit blocks blocks_used votes votes_used (node_clock result.clock))) (done_struct result.clock) result }
{
    capi::likvost_merge(
        settings,
        clock,
        blocks,
        blocks_used,
        votes,
        votes_used,
        beat,
    )
}

// ---- Head, Deep, Fast, Settled, Fit and Compare: the memory is only read

#[unsafe(no_mangle)]
pub extern "C" fn likvost_head(
    settings: Settings,
    clock: Clock,
    blocks: &[u64],
    blocks_used: usize,
    votes: &[u64],
    votes_used: usize,
    slot: u64,
) -> Found
    ensures { Stands (IsHead (node_settings settings) (lent blocks.now votes.now blocks_used votes_used (node_clock clock)) slot) found_struct result }
{
    capi::likvost_head(
        settings,
        clock,
        blocks,
        blocks_used,
        votes,
        votes_used,
        slot,
    )
}

#[unsafe(no_mangle)]
pub extern "C" fn likvost_deep(
    settings: Settings,
    clock: Clock,
    blocks: &[u64],
    blocks_used: usize,
    votes: &[u64],
    votes_used: usize,
    slot: u64,
) -> Found
    ensures { Stands (IsDeep (node_settings settings) (lent blocks.now votes.now blocks_used votes_used (node_clock clock)) slot) found_struct result }
{
    capi::likvost_deep(
        settings,
        clock,
        blocks,
        blocks_used,
        votes,
        votes_used,
        slot,
    )
}

#[unsafe(no_mangle)]
pub extern "C" fn likvost_fast(
    settings: Settings,
    clock: Clock,
    blocks: &[u64],
    blocks_used: usize,
    votes: &[u64],
    votes_used: usize,
    slot: u64,
) -> Found
    ensures { Stands (IsFast (node_settings settings) (lent blocks.now votes.now blocks_used votes_used (node_clock clock)) slot) fast_struct result }
{
    capi::likvost_fast(
        settings,
        clock,
        blocks,
        blocks_used,
        votes,
        votes_used,
        slot,
    )
}

#[unsafe(no_mangle)]
pub extern "C" fn likvost_settled(
    settings: Settings,
    clock: Clock,
    blocks: &[u64],
    blocks_used: usize,
    votes: &[u64],
    votes_used: usize,
    slot: u64,
    silent: u64,
) -> Found
    ensures { Stands (IsSettled (node_settings settings) (lent blocks.now votes.now blocks_used votes_used (node_clock clock)) slot silent) found_struct result }
{
    capi::likvost_settled(
        settings,
        clock,
        blocks,
        blocks_used,
        votes,
        votes_used,
        slot,
        silent,
    )
}

#[unsafe(no_mangle)]
pub extern "C" fn likvost_fit(
    settings: Settings,
    clock: Clock,
    blocks: &[u64],
    blocks_used: usize,
    votes: &[u64],
    votes_used: usize,
    beat: u64,
    packet: &[u8],
) -> Fitted
    ensures { Stands (IsFit (node_settings settings) (lent blocks.now votes.now blocks_used votes_used (node_clock clock)) beat packet.now) fitted_struct result }
{
    capi::likvost_fit(
        settings,
        clock,
        blocks,
        blocks_used,
        votes,
        votes_used,
        beat,
        packet,
    )
}

#[unsafe(no_mangle)]
pub extern "C" fn likvost_compare(
    settings: Settings,
    clock: Clock,
    blocks: &[u64],
    blocks_used: usize,
    votes: &[u64],
    votes_used: usize,
    beat: u64,
    one: &[u8],
    two: &[u8],
) -> Compared
    ensures { Stands (IsCompared (node_settings settings) (lent blocks.now votes.now blocks_used votes_used (node_clock clock)) beat one.now two.now) compared_struct result }
{
    capi::likvost_compare(
        settings,
        clock,
        blocks,
        blocks_used,
        votes,
        votes_used,
        beat,
        one,
        two,
    )
}

// ---- Write: the memory is only read, the buffer is written

#[unsafe(no_mangle)]
pub extern "C" fn likvost_write(
    settings: Settings,
    clock: Clock,
    blocks: &[u64],
    blocks_used: usize,
    votes: &[u64],
    votes_used: usize,
    proposal: bool,
    wide: bool,
    buffer: &mut [u8],
) -> Written
    ensures { Stands (Writes (node_settings settings) (lent blocks.now votes.now blocks_used votes_used (node_clock clock)) proposal (node_width wide) buffer.old buffer.new) written_struct result }
{
    capi::likvost_write(
        settings,
        clock,
        blocks,
        blocks_used,
        votes,
        votes_used,
        proposal,
        wide,
        buffer,
    )
}
