// The load program: reads the line that asks for a load from standard input, and prints its text.
#![tactic(auto)]

use std::io;

fn main(rt: HostRuntime) -> io::Result<()> {
    load_text::answer_input(&mut rt.reader(), &mut io::writer(&rt))
}
