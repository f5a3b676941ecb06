// Answers the question on standard input: which voter has two different votes of one slot in two packets.
#![tactic(auto)]

use asking::Program;

fn main(rt: HostRuntime) {
    asking::ask(&rt, Program::Pairask)
}
