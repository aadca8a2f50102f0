// What a program has read of its input, as a part of the buffer that it read into.
#![tactic(auto)]

ghost use Rattle.std.specs.Prelude.{◌≡◌, ◌≤◌, take, length, IfOk, IfSome};
ghost use Rattle.input_front.specs.Front.{HoldsFront};

use std::io;
use std::io::Read;

// The first n bytes of a buffer, or all of it where it has no more.
pub fn front(buffer: &[u8], n: usize) -> &[u8]
    ensures { result.now ≡ take n buffer.now }
{
    &buffer[..n.min(buffer.len())]
}

// Reads until the buffer is full or the input ends, and answers how many bytes it put at the front of the buffer. What
// they are is known where the reader says what it has left, as one over memory does.
pub fn read_front<R: Read>(reader: &mut R, buffer: &mut [u8]) -> io::Result<usize>
    ensures fits { IfOk result (λ n. n ≤ length buffer.new) }
    ensures front { IfOk result (λ n. n ≡ length (take n buffer.new)) }
    ensures holds { IfOk result (λ n. IfSome (R.remaining reader.old) (λ whole. HoldsFront buffer.new n whole)) }
{
    let mut done = 0;
    while done < buffer.len() {
        let n = reader.read(&mut buffer[done..])?;
        if n == 0 {
            break;
        }
        done += n;
    }
    Ok(done)
}
