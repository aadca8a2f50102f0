// The lines of a program that runs worked examples: a name, and whether the example gave what it should.
use refusals::Refusal;
use std::io;

pub fn print(rt: &impl Print, name: &[u8], ok: bool) -> io::Result<()> {
    rt.write_all(name)?;
    if ok {
        rt.write_all(b": yes\n")
    } else {
        rt.write_all(b": no\n")
    }
}

// 0, or the number of the refusal.
pub fn number_in(verdict: Result<(), Refusal>) -> u32 {
    match verdict {
        Ok(()) => 0,
        Err(refusal) => refusals::number_of(refusal),
    }
}
