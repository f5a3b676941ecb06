// The cases of `chainask`: each argument names a file of data/, which is asked as `chainask` asks its standard input.
#![tactic(auto)]

use asking::Program;
use std::io;

fn main(rt: HostRuntime) -> io::Result<()> {
    ask_files::ask_each(&rt, Program::Chainask)
}
