// Packets of both widths written and read back, with each byte changed, cut to each length, and as each kind.
#![tactic(auto)]

ghost use Rattle.std.specs.Prelude.{◌≤◌, ◌<◌, ◌≡◌, length, IfSome};
ghost use Rattle.protocol.specs.Words.{value};
ghost use Rattle.protocol.specs.Calls.Write.{sent_of};
ghost use Rattle.writer.specs.Sent.{node_in};

use case_runner::Tried;
use packets::Packed;
use protocol::{Block, Number, Vote, Width};
use rows::Table;
use std::io;
use writer::Sent;

// Gossip names no block.
const NONE: Number = Number { upper: 0, lower: 0 };

// ---- what is written

// What a packet holds, on one line, or that the bytes are no packet.
fn print(rt: &impl Print, bytes: &[u8]) -> io::Result<()> {
    if !packets::well_formed(bytes) {
        return println!(rt; " no packet");
    }
    let header = packets::header_of(bytes);
    print!(rt;
        " kind {} slot {} number {}",
        header.kind, header.slot, header.number
    )?;
    for i in 0..Block::count(bytes) {
        let block = Block::at(bytes, i);
        print!(rt;
            ", block {} parent {} slot {}",
            block.number, block.parent, block.slot
        )?;
    }
    for i in 0..Vote::count(bytes) {
        let vote = Vote::at(bytes, i);
        print!(rt;
            ", vote of {} slot {} for {}",
            vote.voter, vote.slot, vote.number
        )?;
    }
    println!(rt)
}

// Every byte of a buffer, so that those behind a packet are seen too.
fn dump(rt: &impl Print, bytes: &[u8]) -> io::Result<()> {
    for byte in bytes {
        print!(rt; "{byte:02x}")?;
    }
    println!(rt)
}

// ---- packets; `up` is the upper half of every number but block 0's

// Writes a packet if the buffer has room for it, and answers its length.
fn put(sent: Sent<'_>, slot: u64, number: Number, buf: &mut [u8]) -> Option<usize>
    requires { (slot ≡ (sent_of sent.proposal sent.width (node_in sent.blocks.words.now sent.blocks.used sent.votes.words.now sent.votes.used)).slot)
        × (value number ≡ (sent_of sent.proposal sent.width (node_in sent.blocks.words.now sent.blocks.used sent.votes.words.now sent.votes.used)).number) }
    ensures { IfSome result (λ n. n ≤ length buf.new) }
{
    let n = writer::written_length(sent);
    if buf.len() < n {
        return None;
    }
    writer::write_packet(sent, slot, number, buf);
    Some(n)
}

// Two blocks, the second a child of the first, and a vote for each. The second ones wait.
fn gossip(width: Width, up: u64, buf: &mut [u8]) -> Option<usize>
    ensures { IfSome result (λ n. n ≤ length buf.new) }
{
    let blocks: [u64; 18] = [0, 0, 0, 0, 0, 1, 11, up, 0, 0, 2, 1, 21, up, 11, up, 3, 0];
    let votes = [4u64, 3, 11, up, 1, 63, 3, 21, up, 0];
    let sent = Sent {
        blocks: Table::new(&blocks, 3),
        votes: Table::new(&votes, 2),
        proposal: false,
        width,
    };
    put(sent, 0, NONE, buf)
}

// Two blocks and two votes, of which one each is in view, as the proposal of that block.
fn proposal(width: Width, up: u64, buf: &mut [u8]) -> Option<usize>
    ensures { IfSome result (λ n. n ≤ length buf.new) }
{
    let blocks: [u64; 18] = [0, 0, 0, 0, 0, 1, 21, up, 0, 0, 2, 0, 11, up, 0, 0, 3, 1];
    let votes = [4u64, 3, 11, up, 1, 63, 2, 21, up, 0];
    let sent = Sent {
        blocks: Table::new(&blocks, 3),
        votes: Table::new(&votes, 2),
        proposal: true,
        width,
    };
    let proposed = Number {
        lower: 11,
        upper: up,
    };
    put(sent, 3, proposed, buf)
}

// The proposal of a block, without a vote: 37 bytes narrow, 61 wide.
fn small(width: Width, up: u64, buf: &mut [u8]) -> Option<usize>
    ensures { IfSome result (λ n. n ≤ length buf.new) }
{
    let blocks = [0u64, 0, 0, 0, 0, 1, 258, up, 0, 0, 7, 1];
    let sent = Sent {
        blocks: Table::new(&blocks, 2),
        votes: Table::new(&[], 0),
        proposal: true,
        width,
    };
    let proposed = Number {
        lower: 258,
        upper: up,
    };
    put(sent, 7, proposed, buf)
}

// Whether narrow gossip of a block and a vote meets an upper half that is not zero, given those of the block, its parent and the vote.
fn print_narrow(rt: &impl Print, block: u64, parent: u64, vote: u64) -> io::Result<()> {
    let blocks = [0u64, 0, 0, 0, 0, 1, 7, block, 5, parent, 2, 0];
    let votes = [4u64, 3, 7, vote, 0];
    let sent = Sent {
        blocks: Table::new(&blocks, 2),
        votes: Table::new(&votes, 1),
        proposal: false,
        width: Width::Narrow,
    };
    let word = if writer::too_wide(sent, NONE) {
        "are too wide"
    } else {
        "fit"
    };
    println!(rt; "upper halves {block} {parent} {vote} {word}")
}

// ---- bytes that may be a packet

// The first bytes, for each length of which they are a packet.
fn cut(rt: &impl Print, bytes: &[u8]) -> io::Result<()> {
    for n in 0..=bytes.len() {
        if packets::well_formed(&bytes[..n]) {
            print!(rt; "first {n}")?;
            print(rt, &bytes[..n])?;
        }
    }
    println!(rt; "no other of 0 to {}", bytes.len())
}

// Each byte one higher, and then as it was.
fn change_each(rt: &impl Print, bytes: &mut [u8]) -> io::Result<()> {
    for i in 0..bytes.len() {
        if bytes[i] < 255 {
            bytes[i] += 1;
            print!(rt; "byte {i}")?;
            print(rt, bytes)?;
            bytes[i] -= 1;
        }
    }
    Ok(())
}

fn each_kind(rt: &impl Print, bytes: &mut [u8]) -> io::Result<()>
    requires { 0 < length bytes.old }
{
    for kind in [0, 1, 2, 3, 4, 255] {
        bytes[0] = kind;
        print!(rt; "bytes {} of kind {kind},", bytes.len())?;
        print(rt, bytes)?;
    }
    Ok(())
}

// ---- the cases of each width

// Packets in buffers of these lengths: what is behind gossip and a proposal is seen too. The small one fits its buffer, or is shorter than it.
fn of_width(
    rt: &impl Print,
    name: &str,
    width: Width,
    up: u64,
    small_up: u64,
    gossip_room: usize,
    proposal_room: usize,
    small_room: usize,
    longer_room: usize,
) -> io::Result<()>
    requires { (gossip_room ≤ 144) × (proposal_room ≤ 144) × (small_room ≤ 144) × (longer_room ≤ 144) }
{
    let mut space = [255u8; 144];
    let buf = &mut space[..gossip_room];
    if let Some(n) = gossip(width, up, buf) {
        print!(rt; "{name} gossip")?;
        print(rt, &buf[..n])?;
    }
    dump(rt, buf)?;
    let mut space = [255u8; 144];
    let buf = &mut space[..proposal_room];
    if let Some(n) = proposal(width, up, buf) {
        print!(rt; "{name} proposal")?;
        print(rt, &buf[..n])?;
    }
    dump(rt, buf)?;
    let mut space = [0u8; 144];
    let buf = &mut space[..small_room];
    small(width, small_up, buf);
    change_each(rt, buf)?;
    let mut space = [0u8; 144];
    let buf = &mut space[..longer_room];
    small(width, small_up, buf);
    cut(rt, buf)
}

// Packets with nothing in them, and counts without entries.
fn empty(rt: &impl Print) -> io::Result<()> {
    let mut zeros = [0u8; 41];
    cut(rt, &zeros)?;
    zeros[0] = 2;
    cut(rt, &zeros)?;
    let mut gossip = [0u8; 17];
    change_each(rt, &mut gossip)?;
    each_kind(rt, &mut gossip)?;
    let mut wider = [0u8; 25];
    wider[0] = 2;
    change_each(rt, &mut wider)?;
    each_kind(rt, &mut wider)?;
    let mut many = [0u8; 17];
    many[13] = 255;
    many[14] = 255;
    print!(rt; "65535 blocks")?;
    print(rt, &many)?;
    let mut more = [0u8; 25];
    more[0] = 2;
    more[21] = 255;
    more[22] = 255;
    print!(rt; "65535 blocks wide")?;
    print(rt, &more)
}

fn all(rt: &impl Print) -> io::Result<()> {
    of_width(rt, "narrow", Width::Narrow, 0, 0, 90, 60, 37, 41)?;
    of_width(
        rt,
        "wide",
        Width::Wide,
        578437695752307201,
        1,
        144,
        87,
        61,
        65,
    )?;
    empty(rt)?;
    print_narrow(rt, 0, 0, 0)?;
    print_narrow(rt, 1, 0, 0)?;
    print_narrow(rt, 0, 1, 0)?;
    print_narrow(rt, 0, 0, 1)
}

fn main(rt: HostRuntime) {
    let _ = all(&Tried { rt: &rt });
}
