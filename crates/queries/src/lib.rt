// Head, Deep, Fast and Settled: questions about a slot, from the one last merged to the one seen, over the view; Fit, a question about a packet; and
// Compare, one about two.
// The memory is only read. Each takes any memory that a caller may lend: the verdict comes first.
#![tactic(auto)]

ghost use Rattle.std.specs.Prelude.{◌≡◌};
ghost use Rattle.lent.specs.Memory.{memory};
ghost use Rattle.answers.specs.Answers.{compared_of};
ghost use Rattle.answers.specs.Promises.{IsHead, IsDeep, IsFast, IsSettled, IsFit, IsCompared};
ghost use Rattle.queries.specs.Comparison.{first_row_verdict, comparison_by};

use answers::{Figures, NotCompared};
use equivocation::Equivocation;
use fork_choice::Tables;
use lent::Lent;
use protocol::Number;
use verdicts::Refusal;

// The head of a slot.
pub fn head(lent: Lent<'_>, slot: u64) -> Result<Number, Refusal>
    ensures { IsHead lent.entry.settings (memory lent.entry) slot result }
{
    verdicts::query_verdict(lent, slot)?;
    Ok(fork_choice::head(Tables::of(lent), slot))
}

// The deep block of a slot.
pub fn deep(lent: Lent<'_>, slot: u64) -> Result<Number, Refusal>
    ensures { IsDeep lent.entry.settings (memory lent.entry) slot result }
{
    verdicts::query_verdict(lent, slot)?;
    Ok(confirm::deep(Tables::of(lent), slot))
}

// The fast block of a slot, or none.
pub fn fast(lent: Lent<'_>, slot: u64) -> Result<Option<Number>, Refusal>
    ensures { IsFast lent.entry.settings (memory lent.entry) slot result }
{
    verdicts::query_verdict(lent, slot)?;
    Ok(confirm::fast(Tables::of(lent), slot))
}

// The settled block of a slot: the farthest block from block 0 that is on the chain of the head, whatever the silent nodes count for. `silent` is the set of
// the silent nodes, bit v for node v. Without any it is the head.
pub fn settled(lent: Lent<'_>, slot: u64, silent: u64) -> Result<Number, Refusal>
    ensures { IsSettled lent.entry.settings (memory lent.entry) slot silent result }
{
    verdicts::settled_verdict(lent, slot, silent)?;
    Ok(settled::settled_block(Tables::of(lent), slot, silent))
}

// How many places a packet would take at a beat: how many of its blocks and votes Receive would store, and how many bytes a wide gossip
// packet would have then. It refuses as Receive would, with the index of the entry, but never for want of places. The sums hold past the
// largest tables too. The cost is that of Receive's tests.
pub fn fit(lent: Lent<'_>, beat: u64, bytes: &[u8]) -> Result<Figures, Refusal>
    ensures { IsFit lent.entry.settings (memory lent.entry) beat bytes.now result }
{
    let mut block_firsts = [0u64; verdicts::BLOCK_FIRSTS];
    let mut vote_firsts = [0u64; verdicts::VOTE_FIRSTS];
    let mut vote_links = [0u16; index::VOTE_LINKS];
    let mut packet_links = [0u16; index::PACKET_LINKS];
    let new = verdicts::packet_verdict(
        lent,
        beat,
        bytes,
        &mut block_firsts,
        &mut vote_firsts,
        &mut vote_links,
        &mut packet_links,
    )?;
    let written = lent.blocks_used - 1 + new.blocks;
    let kept = lent.votes_used + new.votes;
    Ok(Figures {
        new_blocks: new.blocks as u64,
        new_votes: new.votes as u64,
        bytes: packets::packet_length(8, written as u64, kept as u64),
    })
}

// Compare, on sound memory. It is apart from the test of the memory, so that the links here have the place of those there. Stack: 208 KiB of links, and 24 for
// the tests of a packet.
fn compared(
    lent: Lent<'_>,
    beat: u64,
    one: &[u8],
    two: &[u8],
) -> Result<Option<Equivocation>, NotCompared>
    ensures { compared_of result ≡ comparison_by (first_row_verdict lent.entry.settings (memory lent.entry) beat one.now)
        (first_row_verdict lent.entry.settings (memory lent.entry) beat two.now) one.now two.now }
{
    let mut vote_links = [0u16; index::VOTE_LINKS];
    let mut links = [0u16; index::PACKET_LINKS];
    verdicts::fresh_verdict(lent, beat, one, &mut vote_links, &mut links).map_err(
        NotCompared::First,
    )?;
    search_tree::free_all(&mut vote_links);
    search_tree::free_all(&mut links);
    verdicts::fresh_verdict(lent, beat, two, &mut vote_links, &mut links).map_err(
        NotCompared::Second,
    )?;
    search_tree::free_all(&mut links);
    Ok(equivocation::first_equivocation(one, two, &mut links))
}

// Two packets held against each other, as they were saved by different nodes of one network: the lowest voter with two different votes of one slot within or
// between them, its earliest such slot, and the first two different blocks that it voted for there, in the order of the first packet and then the second; or
// nobody. Each packet is refused as Receive would at this beat, on fresh tables with this node's settings and places, the first before the second. Of the node
// nothing else counts: neither its store nor its clock. The cost is that of both Receives' tests, and then a lookup for each vote of the first packet and two
// for each of the second.
pub fn compare(
    lent: Lent<'_>,
    beat: u64,
    one: &[u8],
    two: &[u8],
) -> Result<Option<Equivocation>, NotCompared>
    ensures { IsCompared lent.entry.settings (memory lent.entry) beat one.now two.now result }
{
    verdicts::sound_verdict(lent).map_err(NotCompared::Memory)?;
    compared(lent, beat, one, two)
}
