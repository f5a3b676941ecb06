// Output of which a write that fails is passed over: every line is still worked through, and every later write still tried.

ghost use Rattle.std.specs.Prelude.{IsOk};

use std::fmt::Display;
use std::io;

#[derive(Drop)]
pub struct Tried<'a, R: Print> {
    pub rt: &'a R,
}

impl<R: Print> Print for Tried<'_, R> {
    fn print<D: Display + Drop>(&self, value: D) -> io::Result<()>
        ensures { IsOk result }
    {
        let _ = self.rt.print(value);
        Ok(())
    }

    fn println<D: Display + Drop>(&self, value: D) -> io::Result<()>
        ensures { IsOk result }
    {
        let _ = self.rt.println(value);
        Ok(())
    }

    fn write_all(&self, bytes: &[u8]) -> io::Result<()>
        ensures { IsOk result }
    {
        let _ = self.rt.write_all(bytes);
        Ok(())
    }
}
