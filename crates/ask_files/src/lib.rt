// Questions from files: each argument of a program names one, which is asked as the program asks its standard input.
#![tactic(auto)]

ghost use Rattle.std.specs.Prelude.{IfOk, length, ◌≤◌};

use asking::Program;
use std::fs::File;
use std::io::Read;
use std::{env, io};

// Reads until `buf` is full or the file ends, and answers how many bytes were read.
fn read_full(file: &mut File, buf: &mut [u8]) -> io::Result<usize>
    ensures { IfOk result (λ n. n ≤ length buf.new) }
{
    let mut done = 0;
    for _ in 0..u64::MAX {
        let n = file.read(&mut buf[done..])?;
        if n == 0 {
            break;
        }
        done += n;
    }
    Ok(done)
}

// A file that cannot be opened is named on standard error, with the reason, and passed over. Reads one byte more than any program allows, so that what is too
// long is seen.
fn ask_one(rt: &HostRuntime, program: Program, name: &str) -> io::Result<()> {
    match File::open(rt, name) {
        Ok(opened) => {
            let mut file = opened;
            println!(rt; "{name}")?;
            let mut buf = [0u8; 65537];
            let n = read_full(&mut file, &mut buf)?;
            asking::answer(rt, program, &buf[..n]);
            Ok(())
        }
        Err(error) => eprintln!(rt; "{name}: {error}"),
    }
}

// Each file is asked as this program asks.
pub fn ask_each(rt: &HostRuntime, program: Program) -> io::Result<()> {
    for name in env::args(rt)?.skip(1) {
        ask_one(rt, program, name.as_str())?;
    }
    Ok(())
}
