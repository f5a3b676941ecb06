// The cases of document 01 and of the requests that no proof holds, and every refusal of every call, on a small node.
// Each line of the input is what is tried, a colon, a word and numbers; one without a colon is a heading. The word's first letter says what
// to do; what stands between two numbers is free. A capital prepares what the node is lent and writes nothing:
//   Settings: n, own index, E, K, 1 for a rack     Clock: seen, done, merged, proposed
//   Blocks, Votes: the table's length in words, the word everywhere else, the rows used, the words of the rows:
//     six of a block (its number, lower and upper half, its parent's, its slot, its mark), five of a vote (voter, slot, number, mark)
// Any other makes a call on that, which stays as the call leaves it, and writes what is tried and what came out. After a refusal every
// word is compared with what was lent:
//   open: n, own index, E, K, 1 for a rack         propose: beat, number            vote, merge: beat
//   receive: beat, kind, slot, number, how many blocks and these (number, parent, slot), how many votes and these (voter, slot, number)
//   bytes: beat, length, kind; that many bytes are received, zero but for the kind
//   long: beat, kind, how many times block 5 of slot 1 on block 0, how many times the vote of node 0 in slot 1 for it
//   head, deep, fast: slot                         settled: slot, the set of silent nodes as a number
//   write: 1 for the proposal or 0 for gossip, 1 for wide or 0 for narrow, the buffer's length
// In a call 1000 stands for 2^64: a block's number n is n % 1000 + 2^64 * (n / 1000). In a packet each half of it is below 256.
#![tactic(auto)]

use case_runner::{Line, Questions, Tried};
use lent::Lent;

// No question beside the calls.
struct Calls;

impl Questions for Calls {
    fn ask(&self, _rt: &impl Print, _lent: Lent<'_>, _line: Line<'_>) -> std::io::Result<bool> {
        Ok(false)
    }
}

fn main(rt: HostRuntime) {
    let mut bytes = [0u8; 32768];
    let n = io::read_full(0, &mut bytes);
    let _ = case_runner::run(&Tried { rt: &rt }, &Calls, &bytes[..n]);
}
