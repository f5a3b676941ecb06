// Answers the question on standard input.
#![tactic(auto)]

use asking::Program;

fn main(rt: HostRuntime) {
    asking::ask(&rt, Program::Chainask)
}
