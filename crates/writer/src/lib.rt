// Packets written: the header, then each section into the unwritten rest of the lent buffer.
// Each function takes time linear in the rows that it goes over and the bytes that it writes.
#![tactic(auto)]

ghost use Rattle.std.specs.Prelude.{◌≡◌, ◌+◌, ◌≤◌, ℕ, length, drop};
ghost use Rattle.std.proofs.lemmas.List.Edits.{sets};
ghost use Rattle.protocol.specs.Words.{value};
ghost use Rattle.protocol.specs.Packet.{bytes_of, section};
ghost use Rattle.protocol.specs.Lists.{any_pass};
ghost use Rattle.protocol.specs.Lent.{rows_of};
ghost use Rattle.protocol.specs.Calls.Write.{bytes_in, kind_of, sent_of, too_wide, packet_out, over};
ghost use Rattle.protocol.proofs.Packet.Bytes.{block-coded, vote-coded};
ghost use Rattle.writer.specs.Rows.{taken, entries_bytes};
ghost use Rattle.writer.specs.Sent.{node_in, RowsReadable};

use packets::Packed;
use protocol::{Block, Number, Vote, Width};
use rows::Table;

// What a packet is written of: two tables, of which gossip takes every row and a proposal those in view, with numbers of so many bytes.
#[derive(Clone, Copy)]
pub struct Sent<'a> {
    pub blocks: Table<'a, Block>,
    pub votes: Table<'a, Vote>,
    pub proposal: bool,
    pub width: Width,
    ghost readable: { RowsReadable blocks.words.now blocks.used votes.words.now votes.used },
}

// ---- bytes

// Writes a word to `width` bytes from a position on, the lowest first.
fn put_word(buf: &mut [u8], at: usize, width: usize, n: u64)
    requires { at + width ≤ length buf.old }
    ensures { buf.new ≡ sets buf.old at (bytes_of width n) }
{
    let mut rest = n;
    for i in 0..width {
        buf[at + i] = (rest % 256) as u8;
        rest /= 256;
    }
}

// Writes a number, the upper half to so many bytes.
fn put_number(buf: &mut [u8], at: usize, upper: usize, n: Number)
    requires { at + (8 + upper) ≤ length buf.old }
    ensures { buf.new ≡ sets buf.old at (bytes_of (8 + upper) (value n)) }
{
    put_word(buf, at, 8, n.lower);
    put_word(buf, at + 8, upper, n.upper);
}

// ---- entries

// A kind of entry that is written.
trait Written: Packed {
    // Writes it from a position on, the upper half of a number to so many bytes.
    fn put(self, buf: &mut [u8], at: usize, upper: usize)
        requires { at + Self.width (8 + upper) ≤ length buf.old }
        ensures { buf.new ≡ sets buf.old at (Self.bytes (8 + upper) (Self.of self)) };

    fn is_wide(self) -> bool
        ensures { result ≡ Self.wide (Self.of self) };

    // So many bytes are written.
    ghost size: { (w : ℕ) (x : Self.Of) → length (Self.bytes w x) ≡ Self.width w };
}

impl Written for Block {
    ghost size = { λ w. (block-coded w).size };

    fn put(self, buf: &mut [u8], at: usize, upper: usize) {
        put_number(buf, at, upper, self.number);
        put_number(buf, at + (8 + upper), upper, self.parent);
        put_word(buf, at + (16 + 2 * upper), 4, self.slot);
    }

    fn is_wide(self) -> bool {
        numbers::is_wide(self.number) || numbers::is_wide(self.parent)
    }
}

impl Written for Vote {
    ghost size = { λ w. (vote-coded w).size };

    fn put(self, buf: &mut [u8], at: usize, upper: usize) {
        put_word(buf, at, 1, self.voter);
        put_word(buf, at + 1, 4, self.slot);
        put_number(buf, at + 5, upper, self.number);
    }

    fn is_wide(self) -> bool {
        numbers::is_wide(self.number)
    }
}

// ---- rows

// How many rows of a table go into a packet, those before `from` left out.
fn count_sent<E: Written>(table: Table<'_, E>, from: usize, proposal: bool) -> u64
    ensures { result ≡ length (taken proposal (drop from (rows_of E.make table.entry.words.now table.entry.used))) }
{
    let mut n = 0;
    for i in from..table.used {
        if rows::selects(!proposal, table.row(i).viewed) {
            n += 1;
        }
    }
    n
}

// Whether an entry that goes into a packet has a number of more than 64 bits. One pass over the rows.
fn any_wide<E: Written>(table: Table<'_, E>, from: usize, proposal: bool) -> bool
    ensures { result ≡ any_pass E.wide (taken proposal (drop from (rows_of E.make table.entry.words.now table.entry.used))) }
{
    for i in from..table.used {
        let row = table.row(i);
        if rows::selects(!proposal, row.viewed) && row.entry.is_wide() {
            return true;
        }
    }
    false
}

// The entries that go into a packet, in table order, from the start of what is lent. The answer is their length.
fn put_entries<E: Written>(
    buf: &mut [u8],
    upper: usize,
    table: Table<'_, E>,
    from: usize,
    proposal: bool,
) -> usize
    requires { (upper ≤ 8) × (length (entries_bytes (E.bytes (8 + upper)) (taken proposal (drop from (rows_of E.make table.words.now table.used)))) ≤ length buf.old) }
    ensures { (result ≡ length (entries_bytes (E.bytes (8 + upper)) (taken proposal (drop from (rows_of E.make table.entry.words.now table.entry.used)))))
        × (buf.new ≡ over (entries_bytes (E.bytes (8 + upper)) (taken proposal (drop from (rows_of E.make table.entry.words.now table.entry.used)))) buf.old) }
{
    let mut at = 0;
    for i in from..table.used {
        let row = table.row(i);
        if rows::selects(!proposal, row.viewed) {
            row.entry.put(buf, at, upper);
            at += E::size(upper);
        }
    }
    at
}

// A section: the count, and the entries.
fn put_section<E: Written>(
    buf: &mut [u8],
    upper: usize,
    table: Table<'_, E>,
    from: usize,
    proposal: bool,
) -> usize
    requires { (upper ≤ 8) × (length (section (E.bytes (8 + upper)) (taken proposal (drop from (rows_of E.make table.words.now table.used)))) ≤ length buf.old) }
    ensures { (result ≡ length (section (E.bytes (8 + upper)) (taken proposal (drop from (rows_of E.make table.entry.words.now table.entry.used)))))
        × (buf.new ≡ over (section (E.bytes (8 + upper)) (taken proposal (drop from (rows_of E.make table.entry.words.now table.entry.used)))) buf.old) }
{
    put_word(buf, 0, 2, count_sent(table, from, proposal));
    2 + put_entries(&mut buf[2..], upper, table, from, proposal)
}

// ---- packets

// How many bytes the upper half of a number takes.
fn upper_bytes(width: Width) -> usize
    ensures { (8 + result ≡ bytes_in width) × (result ≤ 8) }
{
    match width {
        Width::Narrow => 0,
        Width::Wide => 8,
    }
}

// The kind of a packet.
fn kind_of(proposal: bool, width: Width) -> u64
    ensures { result ≡ kind_of proposal width }
{
    match (proposal, width) {
        (false, Width::Narrow) => 0,
        (true, Width::Narrow) => 1,
        (false, Width::Wide) => 2,
        (true, Width::Wide) => 3,
    }
}

// The length of the packet that the tables give. Row 0 is block 0's, which is never written.
pub fn written_length(sent: Sent<'_>) -> usize
    ensures { result ≡ length (packet_out sent.entry.proposal sent.entry.width (node_in sent.entry.blocks.words.now sent.entry.blocks.used sent.entry.votes.words.now sent.entry.votes.used)) }
{
    let b = count_sent(sent.blocks, 1, sent.proposal);
    let v = count_sent(sent.votes, 0, sent.proposal);
    packets::packet_length(upper_bytes(sent.width), b, v) as usize
}

// Whether narrow writing meets a number of more than 64 bits. The header's number is that of the proposed block, in gossip 0.
// One pass over each table, and none where the numbers are written wide.
pub fn too_wide(sent: Sent<'_>, number: Number) -> bool
    requires { value number ≡ (sent_of sent.proposal sent.width (node_in sent.blocks.words.now sent.blocks.used sent.votes.words.now sent.votes.used)).number }
    ensures { result ≡ too_wide sent.entry.width (sent_of sent.entry.proposal sent.entry.width (node_in sent.entry.blocks.words.now sent.entry.blocks.used sent.entry.votes.words.now sent.entry.votes.used)) }
{
    match sent.width {
        Width::Wide => false,
        Width::Narrow => {
            numbers::is_wide(number)
                || any_wide(sent.blocks, 1, sent.proposal)
                || any_wide(sent.votes, 0, sent.proposal)
        }
    }
}

// Writes the packet that the tables give. Slot and number are those of the proposed block, in gossip 0.
pub fn write_packet(sent: Sent<'_>, slot: u64, number: Number, buf: &mut [u8])
    requires { (slot ≡ (sent_of sent.proposal sent.width (node_in sent.blocks.words.now sent.blocks.used sent.votes.words.now sent.votes.used)).slot)
        × (value number ≡ (sent_of sent.proposal sent.width (node_in sent.blocks.words.now sent.blocks.used sent.votes.words.now sent.votes.used)).number)
        × (length (packet_out sent.proposal sent.width (node_in sent.blocks.words.now sent.blocks.used sent.votes.words.now sent.votes.used)) ≤ length buf.old) }
    ensures { buf.new ≡ over (packet_out sent.entry.proposal sent.entry.width (node_in sent.entry.blocks.words.now sent.entry.blocks.used sent.entry.votes.words.now sent.entry.votes.used)) buf.old }
{
    let upper = upper_bytes(sent.width);
    put_word(buf, 0, 1, kind_of(sent.proposal, sent.width));
    put_word(buf, 1, 4, slot);
    put_number(buf, 5, upper, number);
    let first = 13 + upper;
    let size = put_section(&mut buf[first..], upper, sent.blocks, 1, sent.proposal);
    let at = first + size;
    put_section(&mut buf[at..], upper, sent.votes, 0, sent.proposal);
}
