// Traces jobs: what each tile has, takes in, lists, decides, paints and hands on. Where no argument names a file it
// reads one job from standard input, as the row program does. Else its arguments name job files, each a picture of its
// own; with the word `then` before it a file is the next frame of the one before, and is worked with the cached tiles
// that it left. Other words choose a tile, a layer or parts of a tile: see the module `choice`.
#![tactic(auto)]

mod changes;
pub mod choice;
pub mod frame;
mod text;
mod tiles;

use choice::Choice;
use frame::Frame;
use std::io;
use std::io::Read;
use std::rt::{Env, Files};

// The contract of `read_front` holds the length: what is read decides the job.
fn trace_text_of(
    rt: &impl Print,
    choice: Choice,
    reader: &mut impl Read,
    before: Frame,
) -> io::Result<Frame> {
    let mut text = [0u8; 65537];
    let n = input_front::read_front(reader, &mut text)?;
    frame::trace_frame(rt, choice, &text, n, before)
}

fn trace_file(
    rt: &(impl Files + Print),
    errors: &impl Print,
    choice: Choice,
    path: &[u8],
    before: Frame,
) -> io::Result<Frame> {
    match argument_files::open_path(rt, errors, path)? {
        Some(file) => {
            let mut file = file;
            trace_text_of(rt, choice, &mut file, before)
        }
        None => Ok(before),
    }
}

// What the last file left, whether the next is its next frame, and which number the last word asks for.
#[derive(Clone, Copy)]
struct Step {
    then: bool,
    asked: u32,
    frame: Frame,
}

fn before_of(step: Step) -> Frame {
    if step.then {
        let frame = step.frame;
        frame
    } else {
        frame::none_before()
    }
}

fn run_word(
    rt: &(impl Files + Print),
    errors: &impl Print,
    choice: Choice,
    word: &[u8],
    step: Step,
) -> io::Result<Step> {
    let asked = choice::asked_after(step.asked, word);
    if (step.asked == choice::NO_NUMBER) & choice::is_file(word) {
        let after = trace_file(rt, errors, choice, word, before_of(step))?;
        return Ok(Step {
            then: false,
            asked: asked,
            frame: after,
        });
    }
    let frame = step.frame;
    Ok(Step {
        then: step.then | choice::is_then(word),
        asked: asked,
        frame: frame,
    })
}

fn run_argument(
    rt: &(impl Env + Files + Print),
    errors: &impl Print,
    choice: Choice,
    i: usize,
    step: Step,
) -> io::Result<Step> {
    let mut path = [0u8; 4096];
    match argument_files::read_argument(rt, errors, i, &mut path)? {
        Some(n) => run_word(rt, errors, choice, &path[..n], step),
        None => Ok(step),
    }
}

// Traces the files that the arguments name, one after the other.
fn run_arguments(
    rt: &(impl Env + Files + Print),
    errors: &impl Print,
    choice: Choice,
    count: usize,
) -> io::Result<()> {
    let mut step = Step {
        then: false,
        asked: choice::NO_NUMBER,
        frame: frame::none_before(),
    };
    for i in 1..count {
        step = run_argument(rt, errors, choice, i, step)?;
    }
    Ok(())
}

// An argument that is missing or too long counts as an empty word.
fn choose_by(env: &impl Env, choice: Choice, i: usize) -> Choice {
    let mut word = [0u8; 4096];
    let n = env.arg(i, &mut word).unwrap_or(0);
    choice::take(choice, &word[..n])
}

// What all arguments choose. The first is the program's own name.
fn chosen_by(env: &impl Env, count: usize) -> Choice {
    let mut choice = choice::everything();
    for i in 1..count {
        choice = choose_by(env, choice, i);
    }
    choice
}

fn print_use(to: &impl Print) -> io::Result<()> {
    to.write_all(b"usage: trace [FILE [then FILE]..].. [tile N] [layer N] [PART]..\n")?;
    to.write_all(
        b"Traces each tile of each job; `then` makes a file the next frame of the one before; \
          without a file one job is\n",
    )?;
    to.write_all(
        b"read from standard input. `tile N` tells one tile only, `layer N` the paintings of one layer only. \
          Parts of a\n",
    )?;
    to.write_all(
        b"tile, all where none is named: segments taken list decision cached painted areas planes handed line.\n",
    )?;
    to.write_all(b"A file of such a name is named with its folder: ./list\n")
}

fn main(rt: HostRuntime) -> io::Result<()> {
    let count = argument_files::count(&rt);
    let choice = chosen_by(&rt, count);
    let errors = rt.stderr();
    if choice.help {
        return print_use(&rt);
    }
    if choice.wrong | (choice.asked != choice::NO_NUMBER) {
        errors.write_all(b"trace: after `tile` and `layer` stands a number\n")?;
        return print_use(&errors);
    }
    if choice.named {
        return run_arguments(&rt, &errors, choice, count);
    }
    trace_text_of(&rt, choice, &mut rt.reader(), frame::none_before())?;
    Ok(())
}
