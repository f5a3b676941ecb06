// Answers the question on standard input: which block stands whatever the silent nodes count for.
#![tactic(auto)]

use asking::Program;

fn main(rt: HostRuntime) {
    asking::ask(&rt, Program::Silentask)
}
