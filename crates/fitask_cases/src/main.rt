// The cases of `fitask`: each argument names a file of data/, which is asked as `fitask` asks its standard input.
#![tactic(auto)]

use asking::Program;
use std::io;

fn main(rt: HostRuntime) -> io::Result<()> {
    ask_files::ask_each(&rt, Program::Fitask)
}
