// Answers the question on standard input: how many places a packet would take, and the bytes of the gossip afterwards.
#![tactic(auto)]

use asking::Program;

fn main(rt: HostRuntime) {
    asking::ask(&rt, Program::Fitask)
}
