// The row program: reads a job from standard input, and prints the answer to it.
#![tactic(auto)]

use std::io;

fn main(rt: HostRuntime) -> io::Result<()> {
    row_text::answer_input(&mut rt.reader(), &mut io::writer(&rt))
}
