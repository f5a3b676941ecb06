// The packets of a line: made of its numbers, of one entry many times, or of zeros.

ghost use Rattle.std.specs.Prelude.{◌+◌, ◌*◌, ◌≤◌, length, min};

use crate::line::{block_number, read_numbers};

// A number that is not there counts as 0.
fn at(numbers: &[u64], i: usize) -> u64 {
    numbers.get(i).copied().unwrap_or(0)
}

// A number below 256, low byte first: the bytes above it stay zero.
fn put(bytes: &mut [u8], at: usize, x: u64) {
    if at < bytes.len() && x < 256 {
        bytes[at] = x as u8;
    }
}

// A field of so many bytes. One of 8 or more is a block's number, whose upper half stands behind the lower one if it has 16.
fn put_field(bytes: &mut [u8], at: usize, size: usize, x: u64)
    requires { at ≤ 1000 }
{
    if size < 8 {
        put(bytes, at, x);
        return;
    }
    let n = block_number(x);
    put(bytes, at, n.lower);
    if size == 16 {
        put(bytes, at + 8, n.upper);
    }
}

// How many bytes number i of a line takes in its packet, where a block's number takes `wide`. Number 0 is the beat, 1 to 3 are the header, 4 is
// the count of blocks, which follow, and `votes` is where the count of votes stands, which follow.
fn bytes_of(i: usize, votes: usize, wide: usize) -> usize
    requires { wide ≤ 16 }
    ensures { result ≤ 16 }
{
    if i == 4 || i == votes {
        2
    } else if 4 < i && i < votes {
        block_bytes(i % 3, wide)
    } else if i < 4 {
        vote_bytes((i + 2) % 3, wide)
    } else {
        vote_bytes(i % 3, wide)
    }
}

// Of a block: slot, number, parent.
fn block_bytes(third: usize, wide: usize) -> usize
    requires { wide ≤ 16 }
    ensures { result ≤ 16 }
{
    if third == 1 { 4 } else { wide }
}

// Of a vote: voter, slot, number. The header's kind, slot and number take the same.
fn vote_bytes(third: usize, wide: usize) -> usize
    requires { wide ≤ 16 }
    ensures { result ≤ 16 }
{
    match third {
        0 => 1,
        1 => 4,
        _ => wide,
    }
}

// Of a block's number, by the packet's kind.
fn number_bytes(kind: u64) -> usize
    ensures { result ≤ 16 }
{
    if kind < 2 { 8 } else { 16 }
}

// Writes a line's numbers from the kind on into bytes that are zero, and answers the length. At most three blocks.
// No bytes are a length too: what a line does on every input may not change.
fn packet(numbers: &[u64], bytes: &mut [u8]) -> usize {
    let n = at(numbers, 4) as usize;
    if 3 < n {
        return 0;
    }
    let votes = 5 + 3 * n;
    let wide = number_bytes(at(numbers, 1));
    let mut position = 0;
    for i in 1..numbers.len().min(32) {
        let size = bytes_of(i, votes, wide);
        put_field(bytes, position, size, numbers[i]);
        position += size;
    }
    position
}

// Where a section ends that starts here, of n entries of so many bytes.
fn behind(start: usize, size: usize, n: usize) -> usize
    requires { (start ≤ 10000) × (size ≤ 36) × (n ≤ 255) }
    ensures { result ≤ start + 9182 }
{
    start + 2 + size * n
}

// Writes a section of equal entries, at most 255, into bytes that are zero, and answers where it ends: so many times the block 5 of slot 1 on
// block 0, or the vote of node 0 in slot 1 for it. An entry has `size` bytes; its number and its slot stand at these.
fn repeat(
    bytes: &mut [u8],
    start: usize,
    count: usize,
    size: usize,
    number: usize,
    slot: usize,
) -> usize
    requires { (start ≤ 10000) × (size ≤ 36) × (number ≤ 36) × (slot ≤ 36) }
    ensures { result ≤ start + 9182 }
{
    put(bytes, start, count as u64);
    let n = count.min(255);
    for i in 0..n {
        let entry = behind(start, size, i);
        put(bytes, entry + number, 5);
        put(bytes, entry + slot, 1);
    }
    behind(start, size, n)
}

// A packet of as many such blocks and votes as the line says, by its kind.
fn long(numbers: &[u64], bytes: &mut [u8]) -> usize {
    let kind = at(numbers, 1);
    let wide = number_bytes(kind);
    put(bytes, 0, kind);
    let blocks = at(numbers, 2) as usize;
    let votes = repeat(bytes, 5 + wide, blocks, 2 * wide + 4, 0, 2 * wide);
    repeat(bytes, votes, at(numbers, 3) as usize, wide + 5, 5, 1)
}

// Bytes that are zero but for the first, the kind.
fn empty(numbers: &[u64], bytes: &mut [u8]) -> usize {
    put(bytes, 0, at(numbers, 2));
    at(numbers, 1) as usize
}

// Writes a packet into bytes that are zero, by the first letter of its word, and answers its length, cut to the bytes that there are; other calls have none.
pub fn packet_bytes(letter: u8, numbers: &[u64], bytes: &mut [u8]) -> usize
    ensures { result ≤ length bytes.new }
{
    let n = match letter {
        b'r' => packet(numbers, bytes),
        b'l' => long(numbers, bytes),
        b'b' => empty(numbers, bytes),
        _ => 0,
    };
    n.min(bytes.len())
}

// The packet of a part of a line, by the first letter of its word, which stands at a byte of that part.
pub fn packet_in(part: &[u8], at: usize, bytes: &mut [u8]) -> usize
    ensures { result ≤ length bytes.new }
{
    let mut words = [0u64; 256];
    let count = read_numbers(part, &mut words);
    let letter = part.get(at).copied().unwrap_or(0);
    packet_bytes(letter, &words[..count], bytes)
}
