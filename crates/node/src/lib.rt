// The calls that change a node's memory: Open, Receive, Propose, Vote and Merge.
// Each takes any memory that a caller may lend: the verdict comes first, and a refused call writes nothing. A call that is carried out moves the clock and the
// counts on in place.
#![tactic(auto)]

ghost use Rattle.protocol.specs.Words.{value};
ghost use Rattle.lent.specs.Memory.{memory_mut, IsSameLoan};
ghost use Rattle.answers.specs.Promises.{Opens, Receives, Proposes, Votes, Merges, Carries};

use answers::{Answer, Call, Received};
use fork_choice::Tables;
use lent::LentMut;
use protocol::{Block, Clock, Number, Vote};
use verdicts::Refusal;

// A fresh node: block 0 alone, every other place zero.
pub fn open(lent: &mut LentMut<'_>) -> Result<(), Refusal>
    ensures promise { Opens lent.old.settings (memory_mut lent.old) (memory_mut lent.new) result }
    ensures same { IsSameLoan lent.old lent.new }
{
    verdicts::open_verdict(lent.read())?;
    changes::clear(&mut *lent.blocks, &mut *lent.votes);
    lent.blocks_used = 1;
    lent.votes_used = 0;
    lent.clock = Clock {
        seen: 2,
        done: 2,
        merged: 0,
        proposed: 0,
    };
    Ok(())
}

// New entries wait at the tables' ends, but for votes of slots below the last merged slot less E, which are not stored; the slot's first
// proposal comes into view with all that it stands on. The answer says how many entries were new, and whether the packet came into view.
pub fn receive(lent: &mut LentMut<'_>, beat: u64, bytes: &[u8]) -> Result<Received, Refusal>
    ensures promise { Receives lent.old.settings (memory_mut lent.old) beat bytes.now (memory_mut lent.new) result }
    ensures same { IsSameLoan lent.old lent.new }
{
    let block_rows = lent.blocks_used;
    let vote_rows = lent.votes_used;
    let mut block_firsts = [0u64; verdicts::BLOCK_FIRSTS];
    let mut vote_firsts = [0u64; verdicts::VOTE_FIRSTS];
    verdicts::receive_verdict(
        lent.read(),
        beat,
        bytes,
        &mut block_firsts,
        &mut vote_firsts,
    )?;
    let viewed = receiving::viewed_at_once(lent.clock, beat, bytes);
    receiving::receive_blocks(
        &mut *lent.blocks,
        &mut lent.blocks_used,
        bytes,
        &block_firsts,
        viewed,
    );
    let from = own_entries::kept_from(lent.settings, lent.clock.merged);
    receiving::receive_votes(
        &mut *lent.votes,
        &mut lent.votes_used,
        bytes,
        &vote_firsts,
        from,
        viewed,
    );
    let new_blocks = lent.blocks_used - block_rows;
    let new_votes = lent.votes_used - vote_rows;
    // a packet that came into view is of the beat's slot
    let proposed = if viewed {
        beat / 3
    } else {
        lent.clock.proposed
    };
    lent.clock = Clock {
        seen: beat,
        proposed,
        ..lent.clock
    };
    Ok(Received {
        new_blocks: new_blocks as u64,
        new_votes: new_votes as u64,
        viewed,
    })
}

// A new block on the base; the whole store comes into view. The answer is the base.
pub fn propose(lent: &mut LentMut<'_>, beat: u64, number: Number) -> Result<Number, Refusal>
    ensures promise { Proposes lent.old.settings (memory_mut lent.old) beat (value number) (memory_mut lent.new) result }
    ensures same { IsSameLoan lent.old lent.new }
{
    verdicts::propose_verdict(lent.read(), beat, number)?;
    let slot = beat / 3;
    let base = fork_choice::base(Tables::of(lent.read()), slot);
    changes::view_all::<Block>(&mut *lent.blocks, lent.blocks_used);
    changes::append(
        &mut *lent.blocks,
        &mut lent.blocks_used,
        Block {
            number,
            parent: base,
            slot,
        },
        true,
    );
    changes::view_all::<Vote>(&mut *lent.votes, lent.votes_used);
    lent.clock = Clock {
        seen: beat,
        done: beat,
        proposed: slot,
        ..lent.clock
    };
    Ok(base)
}

// The own vote for the head, which waits. The answer is the head.
pub fn vote(lent: &mut LentMut<'_>, beat: u64) -> Result<Number, Refusal>
    ensures promise { Votes lent.old.settings (memory_mut lent.old) beat (memory_mut lent.new) result }
    ensures same { IsSameLoan lent.old lent.new }
{
    verdicts::vote_verdict(lent.read(), beat)?;
    let slot = beat / 3;
    let head = fork_choice::head(Tables::of(lent.read()), slot);
    changes::append(
        &mut *lent.votes,
        &mut lent.votes_used,
        Vote {
            voter: lent.settings.own,
            slot,
            number: head,
        },
        false,
    );
    lent.clock = Clock {
        seen: beat,
        done: beat,
        ..lent.clock
    };
    Ok(head)
}

// All waiting entries come into view, and votes of slots below t - E are removed: the others move up, and the places freed are zero.
pub fn merge(lent: &mut LentMut<'_>, beat: u64) -> Result<(), Refusal>
    ensures promise { Merges lent.old.settings (memory_mut lent.old) beat (memory_mut lent.new) result }
    ensures same { IsSameLoan lent.old lent.new }
{
    verdicts::merge_verdict(lent.read(), beat)?;
    let slot = beat / 3;
    let from = own_entries::kept_from(lent.settings, slot);
    changes::view_all::<Block>(&mut *lent.blocks, lent.blocks_used);
    changes::merge_votes(&mut *lent.votes, &mut lent.votes_used, from);
    lent.clock = Clock {
        seen: beat,
        done: beat,
        merged: slot,
        ..lent.clock
    };
    Ok(())
}

// The call that is asked for. The bytes are Receive's; the other calls do not look at them.
// A match on the call: which it is comes from outside.
pub fn carry(lent: &mut LentMut<'_>, call: Call, beat: u64, bytes: &[u8]) -> Result<Answer, Refusal>
    ensures promise { Carries lent.old.settings (memory_mut lent.old) call beat bytes.now (memory_mut lent.new) result }
    ensures same { IsSameLoan lent.old lent.new }
{
    match call {
        Call::Receive => receive(lent, beat, bytes).map(Answer::Received),
        Call::Propose(number) => propose(lent, beat, number).map(Answer::Block),
        Call::Vote => vote(lent, beat).map(Answer::Block),
        Call::Merge => merge(lent, beat).and(Ok(Answer::Done)),
    }
}
