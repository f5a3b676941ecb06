// Write: the node's gossip or its proposal, narrow or wide, as bytes in a lent buffer. The memory is only read.
// It takes any memory that a caller may lend: the verdict comes first, and a refused Write leaves the buffer alone.
#![tactic(auto)]

ghost use Rattle.lent.specs.Memory.{memory};
ghost use Rattle.answers.specs.Promises.{Writes};

use fork_choice::Tables;
use lent::Lent;
use protocol::Width;
use verdicts::Refusal;
use writer::Sent;

// How many bytes of the buffer the packet takes.
pub fn write(
    lent: Lent<'_>,
    proposal: bool,
    width: Width,
    buffer: &mut [u8],
) -> Result<u64, Refusal>
    ensures { Writes lent.entry.settings (memory lent.entry) proposal width buffer.old buffer.new result }
{
    verdicts::write_verdict(lent, proposal, width, buffer)?;
    let tables = Tables::of(lent);
    let sent = Sent {
        blocks: tables.blocks,
        votes: tables.votes,
        proposal,
        width,
    };
    let length = writer::written_length(sent);
    let named = own_entries::header_block(tables.blocks, proposal);
    writer::write_packet(sent, named.slot, named.number, buffer);
    Ok(length as u64)
}
