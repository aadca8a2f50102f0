// Answers the files that its arguments name, one after another, as the load program answers its input, and prints for
// each a line with the file's name and then the answer.
#![tactic(auto)]

use std::io;
use std::rt::{Env, Files};

fn run_argument(rt: &(impl Env + Files + Print), errors: &impl Print, i: usize) -> io::Result<()> {
    match argument_files::open_argument(rt, errors, i)? {
        Some(file) => {
            let mut file = file;
            load_text::answer_input(&mut file, &mut io::writer(rt))
        }
        None => Ok(()),
    }
}

// The first argument is the program's own name.
fn main(rt: HostRuntime) -> io::Result<()> {
    let count = argument_files::count(&rt);
    let errors = rt.stderr();
    for i in 1..count {
        run_argument(&rt, &errors, i)?;
    }
    Ok(())
}
