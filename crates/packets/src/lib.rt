// Packets read: numbers at a position, the reader, the header, the entries, and whether bytes are a packet.
// Nothing is read past the end: a byte that is not there counts as 0, as in the definitions.
// What is read whole, a number or an entry, is tested once for the end of the packet and then read at once; only what goes past the end is read
// byte by byte. No function here takes longer than a few numbers.
#![tactic(auto)]

ghost use Rattle.std.specs.Prelude.{◌||◌, ◌≡◌, ◌+◌, ◌*◌, ◌^◌, ◌≤◌, ◌<◌, ℕ, List, eqb, leb, length, get_or, drop};
ghost use Rattle.protocol.specs.Chain.{genesis};
ghost use Rattle.protocol.specs.Words.{value};
ghost use Rattle.protocol.specs.Packet.{Packet, number_at, entries_at, block_width, vote_width, read_block, read_vote, after_blocks, count_of_blocks, size_of, width_of, width_in, is_proposal, packet_of, header_formed, well_formed};
ghost use Rattle.packets.specs.Reader.{position_after};
ghost use Rattle.packets.specs.Header.{no_vote, header_of};
ghost use Rattle.packets.specs.Sections.{section_blocks, section_votes, padded_block, padded_vote};

use protocol::{Block, Number, Vote};
use rows::Entry;

// The bytes and the position of the next one.
#[derive(Clone, Copy)]
pub struct Reader<'a> {
    pub bytes: &'a [u8],
    pub at: usize,
}

// The front of a packet and its two counts.
#[derive(Clone, Copy)]
pub struct Header {
    pub kind: u64,
    pub slot: u64,
    pub number: Number,
    pub blocks: u64,
    pub votes: u64,
}

// Whether `count` more fit behind `used`, where there is room for `most`.
pub fn fits(used: usize, count: usize, most: usize) -> bool
    ensures { result ≡ leb (used + count) most }
{
    used <= most && count <= most - used
}

// ---- numbers

// The byte i bytes behind a position.
fn byte_at(bytes: &[u8], at: usize, i: usize) -> u64
    ensures { (result ≡ get_or bytes.now (at + i) 0) × (result < 256) }
{
    if at < bytes.len() && i < bytes.len() - at {
        bytes[at + i] as u64
    } else {
        0
    }
}

// The number in N bytes that are all there, the lowest first. One test for their end serves all of them, and the compiler reads them at once.
fn whole_at<const N: usize>(bytes: &[u8], at: usize) -> u64
    requires { (at + N ≤ length bytes.now) × (N ≤ 8) }
    ensures { (result ≡ number_at bytes.now at N) × (result < 256 ^ N) }
{
    let mut sum = 0;
    for i in 0..N {
        sum |= (bytes[at + i] as u64) << (8 * i);
    }
    sum
}

// The number in `width` bytes from a position on, byte by byte.
fn bytewise_at(bytes: &[u8], at: usize, width: usize) -> u64
    requires { width ≤ 8 }
    ensures { (result ≡ number_at bytes.now at width) × (result < 256 ^ width) }
{
    let mut sum = 0;
    for i in 0..width {
        sum |= byte_at(bytes, at, i) << (8 * i);
    }
    sum
}

// The number in `width` bytes from a position on, the lowest first.
pub fn number_at(bytes: &[u8], at: usize, width: usize) -> u64
    requires { width ≤ 8 }
    ensures { (result ≡ number_at bytes.now at width) × (result < 256 ^ width) }
{
    if !fits(at, width, bytes.len()) {
        return bytewise_at(bytes, at, width);
    }
    match width {
        8 => whole_at::<8>(bytes, at),
        4 => whole_at::<4>(bytes, at),
        2 => whole_at::<2>(bytes, at),
        1 => whole_at::<1>(bytes, at),
        _ => bytewise_at(bytes, at, width),
    }
}

// The upper half of a number, for which there are so many bytes.
#[tactic(auto, using(crate::proofs::Fields::field_none))]
fn half_at(bytes: &[u8], at: usize, upper: usize) -> u64
    requires { upper ≤ 8 }
    ensures { result ≡ number_at bytes.now at upper }
{
    if upper == 0 {
        0
    } else {
        number_at(bytes, at, upper)
    }
}

// ---- widths

// How many bytes the upper half of a number takes in a packet of the kind: none in kinds 0 and 1.
pub fn upper_bytes(kind: u64) -> usize
    ensures { (8 + result ≡ width_of kind) × (result ≤ 8) }
{
    if kind < 2 { 0 } else { 8 }
}

// The position behind so many blocks, where the upper half of a number takes so many bytes.
fn behind_blocks(upper: usize, blocks: usize) -> usize
    requires { (upper ≤ 8) × (blocks ≤ 65535) }
    ensures { (result ≡ after_blocks (8 + upper) blocks) × (result ≤ 2359283) }
{
    15 + upper + Block::size(upper) * blocks
}

// ---- entries

// A kind of entry that a packet has a section of: a block, or a vote.
pub trait Packed: Entry {
    // Of a packet whose numbers take w bytes: how many bytes an entry takes, and where the section stands.
    ghost width: { ℕ → ℕ };

    ghost front: { ℕ → List ℕ → ℕ };

    // How many bytes an entry takes, where the upper half of a number takes so many.
    fn size(upper: usize) -> usize
        requires { upper ≤ 8 }
        ensures { (result ≡ width (8 + upper)) × (result ≤ 36) };

    // The entry at a position, which does not go past the end.
    fn whole(bytes: &[u8], at: usize, upper: usize) -> Self
        requires { (at + width (8 + upper) ≤ length bytes.now) × (upper ≤ 8) }
        ensures { Self.of result ≡ Self.packed (8 + upper) (drop at bytes.now) };

    // Where the section stands: its count of two bytes, and then its entries.
    fn front(bytes: &[u8], upper: usize) -> usize
        requires { upper ≤ 8 }
        ensures { (result ≡ front (8 + upper) bytes.now) × (result ≤ 2359283) };

    // How many entries there are.
    final fn count(bytes: &[u8]) -> usize
        ensures { (result ≡ length (Self.listed (packet_of bytes.now))) × (result < 65536) }
    {
        let upper = upper_bytes(number_at(bytes, 0, 1));
        number_at(bytes, Self::front(bytes, upper), 2) as usize
    }

    // Entry i.
    final fn at(bytes: &[u8], i: usize) -> Self
        requires { i < length (Self.listed (packet_of bytes.now)) }
        ensures { Self.of result ≡ get_or (Self.listed (packet_of bytes.now)) i Self.none }
    {
        let kind = number_at(bytes, 0, 1);
        let upper = upper_bytes(kind);
        let at = Self::front(bytes, upper) + 2 + Self::size(upper) * i;
        Reader::new(bytes).skip(at).take_entry::<Self>(kind)
    }

    ghost section: { (bs : List ℕ) → Self.listed (packet_of bs)
        ≡ entries_at (Self.packed (width_in bs)) (width (width_in bs)) (number_at bs (front (width_in bs) bs) 2) (drop (front (width_in bs) bs + 2) bs) };

    // Bytes that are not there count as 0.
    ghost padded: { (w : ℕ) (xs ys : List ℕ) → ((i : ℕ) → get_or xs i 0 ≡ get_or ys i 0) → Self.packed w xs ≡ Self.packed w ys };
}

impl Packed for Block {
    ghost width = { block_width };

    ghost front = { λ w bs. 5 + w };

    ghost section = { section_blocks };

    ghost padded = { padded_block };

    fn size(upper: usize) -> usize {
        20 + 2 * upper
    }

    fn whole(bytes: &[u8], at: usize, upper: usize) -> Block {
        Block {
            number: Number {
                lower: whole_at::<8>(bytes, at),
                upper: half_at(bytes, at + 8, upper),
            },
            parent: Number {
                lower: whole_at::<8>(bytes, at + (8 + upper)),
                upper: half_at(bytes, at + (16 + upper), upper),
            },
            slot: whole_at::<4>(bytes, at + (16 + 2 * upper)),
        }
    }

    fn front(_bytes: &[u8], upper: usize) -> usize {
        13 + upper
    }
}

impl Packed for Vote {
    ghost width = { vote_width };

    ghost front = { λ w bs. after_blocks w (count_of_blocks w bs) };

    ghost section = { section_votes };

    ghost padded = { padded_vote };

    fn size(upper: usize) -> usize {
        13 + upper
    }

    fn whole(bytes: &[u8], at: usize, upper: usize) -> Vote {
        Vote {
            voter: whole_at::<1>(bytes, at),
            slot: whole_at::<4>(bytes, at + 1),
            number: Number {
                lower: whole_at::<8>(bytes, at + 5),
                upper: half_at(bytes, at + 13, upper),
            },
        }
    }

    fn front(bytes: &[u8], upper: usize) -> usize {
        behind_blocks(upper, number_at(bytes, 13 + upper, 2) as usize)
    }
}

// The bytes from a position on, as many as the longest entry has, with 0 for those that are not there.
fn padded(bytes: &[u8], at: usize) -> [u8; 36]
    requires { length bytes.now < at + 36 }
    ensures { (i : ℕ) → get_or result i 0 ≡ get_or bytes.now (at + i) 0 }
{
    let mut rest = [0; 36];
    for i in 0..36 {
        rest[i] = byte_at(bytes, at, i) as u8;
    }
    rest
}

// The entry at a position in a packet of the kind.
fn entry_at<E: Packed>(bytes: &[u8], at: usize, kind: u64) -> E
    ensures { E.of result ≡ E.packed (width_of kind) (drop at bytes.now) }
{
    let upper = upper_bytes(kind);
    if fits(at, E::size(upper), bytes.len()) {
        E::whole(bytes, at, upper)
    } else {
        E::whole(&padded(bytes, at), 0, upper)
    }
}

// ---- the reader

impl<'a> Reader<'a> {
    pub fn new(bytes: &'a [u8]) -> Reader<'a>
        ensures { (result.bytes ≡ bytes.entry) × (result.at ≡ 0) }
    {
        Reader { bytes, at: 0 }
    }

    // The number in the next bytes.
    pub fn take(self, width: usize) -> u64
        requires { width ≤ 8 }
        ensures { (result ≡ number_at self.entry.bytes.now self.entry.at width) × (result < 256 ^ width) }
    {
        number_at(self.bytes, self.at, width)
    }

    // The reader n bytes on, or at the end.
    #[tactic(auto, unfolding(crate::specs::Reader::position_after))]
    pub fn skip(self, n: usize) -> Reader<'a>
        ensures { (result.bytes ≡ self.entry.bytes) × (result.at ≡ position_after self.entry.bytes.now self.entry.at n) }
    {
        Reader {
            bytes: self.bytes,
            at: self.at.saturating_add(n).min(self.bytes.len()),
        }
    }

    // The entry in the next bytes of a packet of the kind.
    pub fn take_entry<E: Packed>(self, kind: u64) -> E
        ensures { E.of result ≡ E.packed (width_of kind) (drop self.entry.at self.entry.bytes.now) }
    {
        entry_at(self.bytes, self.at, kind)
    }
}

// The number that a reader takes that was moved to a position.
fn number_from(bytes: &[u8], at: usize, width: usize) -> u64
    requires { width ≤ 8 }
    ensures { (result ≡ number_at bytes.now at width) × (result < 256 ^ width) }
{
    Reader::new(bytes).skip(at).take(width)
}

// ---- packets

pub fn is_proposal(kind: u64) -> bool
    ensures { result ≡ is_proposal kind }
{
    kind == 1 || kind == 3
}

fn is_gossip(kind: u64) -> bool
    ensures { result ≡ (eqb kind 0 || eqb kind 2) }
{
    kind == 0 || kind == 2
}

pub fn header_of(bytes: &[u8]) -> Header
    ensures { result ≡ header_of bytes.now }
{
    let kind = number_from(bytes, 0, 1);
    let slot = number_from(bytes, 1, 4);
    let upper = upper_bytes(kind);
    let lower = number_from(bytes, 5, 8);
    let half = number_from(bytes, 13, upper);
    let blocks = number_from(bytes, 13 + upper, 2);
    let at = behind_blocks(upper, blocks as usize);
    let votes = number_from(bytes, at, 2);
    Header {
        kind,
        slot,
        number: Number { lower, upper: half },
        blocks,
        votes,
    }
}

// The length of a packet with so many blocks and votes, where the upper half of a number takes so many bytes. They may be more than the two bytes of a count
// hold: as many as a table and a packet have together.
pub fn packet_length(upper: usize, blocks: u64, votes: u64) -> u64
    requires { (upper ≤ 8) × (blocks < 131072) × (votes < 131072) }
    ensures size { (result ≡ size_of (8 + upper) blocks votes) × (result ≤ 7471072) }
    ensures counted { blocks < 65536 → votes < 65536 → result ≤ 3735520 }
{
    17 + upper as u64 + Block::size(upper) as u64 * blocks + Vote::size(upper) as u64 * votes
}

// Whether kind and zero fields are right.
#[tactic(auto, unfolding(protocol::specs::Packet::header_formed))]
fn header_formed(h: Header) -> bool
    ensures { result ≡ header_formed h.kind h.slot (value h.number) }
{
    is_proposal(h.kind) || is_gossip(h.kind) && h.slot == 0 && numbers::is_zero(h.number)
}

// Whether length, kind and zero fields are right.
pub fn well_formed(bytes: &[u8]) -> bool
    ensures { result ≡ well_formed bytes.now }
{
    let h = header_of(bytes);
    let length = packet_length(upper_bytes(h.kind), h.blocks, h.votes);
    bytes.len() as u64 == length && header_formed(h)
}
