// The cases of `silentask`: each argument names a file of data/, which is asked as `silentask` asks its standard input.
#![tactic(auto)]

use asking::Program;
use std::io;

fn main(rt: HostRuntime) -> io::Result<()> {
    ask_files::ask_each(&rt, Program::Silentask)
}
