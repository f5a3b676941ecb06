// The cases of the questions about packets, Fit and Compare, and every refusal of both, on a small node.
// Each line of the input is what is tried, a colon, a word and numbers; one without a colon is a heading. The word's first letter says what
// to do; what stands between two numbers is free. A capital prepares what the node is lent and writes nothing:
//   Settings: n, own index, E, K, 1 for a rack     Clock: seen, done, merged, proposed
//   Blocks, Votes: the table's length in words, the word everywhere else, the rows used, the words of the rows:
//     six of a block (its number, lower and upper half, its parent's, its slot, its mark), five of a vote (voter, slot, number, mark)
// Any other makes a call on that, which stays as the call leaves it, and writes what is tried and what came out. After a refusal every
// word is compared with what was lent:
//   open: n, own index, E, K, 1 for a rack         propose: beat, number            vote, merge: beat
//   receive: beat, kind, slot, number, how many blocks and these (number, parent, slot), how many votes and these (voter, slot, number)
//   bytes: beat, length, kind; that many bytes are received, zero but for the kind
//   long: beat, kind, how many times block 5 of slot 1 on block 0, how many times the vote of node 0 in slot 1 for it
//   if receive, if bytes, if long: the same numbers; Fit is asked about that packet
//   compare receive, compare bytes, compare long: the same, then a semicolon, and receive, bytes or long with a second packet; the beat is the first one's
//   head, deep, fast: slot                         settled: slot, the set of silent nodes as a number
//   write: 1 for the proposal or 0 for gossip, 1 for wide or 0 for narrow, the buffer's length
// In a call 1000 stands for 2^64: a block's number n is n % 1000 + 2^64 * (n / 1000). In a packet each half of it is below 256.
#![tactic(auto)]

use case_runner::{Line, Questions, Tried};
use lent::Lent;

// Fit and Compare, beside the calls.
struct Packets;

impl Questions for Packets {
    fn ask(&self, rt: &impl Print, lent: Lent<'_>, line: Line<'_>) -> std::io::Result<bool> {
        match line.letter(2) {
            b'i' => fitted(rt, lent, line)?,
            b'c' => compared(rt, lent, line)?,
            _ => return Ok(false),
        }
        Ok(true)
    }
}

// Fit, about the packet of another call, whose word stands behind the call's.
fn fitted(rt: &impl Print, lent: Lent<'_>, line: Line<'_>) -> std::io::Result<()> {
    let mut bytes = [0u8; 4200];
    let n = case_runner::packet_bytes(line.letter(5), line.numbers, &mut bytes);
    case_runner::print_figures(rt, queries::fit(lent, line.number(0), &bytes[..n]))
}

// Compare. The word of the first packet stands behind the call's, and that of the second behind the semicolon.
fn compared(rt: &impl Print, lent: Lent<'_>, line: Line<'_>) -> std::io::Result<()> {
    let rest = line.rest;
    let semicolon = rest
        .iter()
        .position(|&byte| byte == b';')
        .unwrap_or(rest.len());
    let mut one = [0u8; 4200];
    let mut two = [0u8; 4200];
    let n = case_runner::packet_in(&rest[..semicolon], 10, &mut one);
    let m = case_runner::packet_in(&rest[semicolon..], 2, &mut two);
    case_runner::print_compared(
        rt,
        queries::compare(lent, line.number(0), &one[..n], &two[..m]),
    )
}

fn main(rt: HostRuntime) {
    let mut bytes = [0u8; 65536];
    let n = io::read_full(0, &mut bytes);
    let _ = case_runner::run(&Tried { rt: &rt }, &Packets, &bytes[..n]);
}
