// The arguments of a program, and the files that they name.
#![tactic(auto)]

ghost use Rattle.std.specs.Prelude.{◌≡◌, ◌≤◌, length, take, IfOk, IfSome};

use std::env::FillError;
use std::fmt::InlineText;
use std::fs::File;
use std::io;
use std::rt::{Env, Files};

// Linux's errors for a path that is too long, and for bytes that are no text, which `std::fs` opens no file by.
const ENAMETOOLONG: i32 = 36;

const EILSEQ: i32 = 84;

// That for an argument that is missing.
const EINVAL: i32 = 22;

// How many arguments the program was started with, its own name among them.
pub fn count(env: &impl Env) -> usize {
    let mut word = [0u8; 4096];
    for i in 0..usize::MAX {
        if matches!(env.arg(i, &mut word), Err(FillError::NotPresent)) {
            return i;
        }
    }
    usize::MAX
}

// An error's words, without the number that std writes after them.
fn words(text: &str) -> &str {
    match text.split_once(" (os error ") {
        Some((words, _)) => words,
        None => text,
    }
}

// Writes a line: what failed, a colon and the error's words.
fn fail(to: &impl Print, what: &[u8], error: io::Error) -> io::Result<()> {
    let text = InlineText::<160>::of(error);
    to.write_all(what)?;
    to.write_all(b": ")?;
    to.write_all(words(text.as_str()).as_bytes())?;
    to.write_all(b"\n")
}

fn error_of(error: FillError) -> io::Error {
    match error {
        FillError::NotPresent => io::Error::from_raw_os_error(EINVAL),
        FillError::TooLong => io::Error::from_raw_os_error(ENAMETOOLONG),
    }
}

// Puts argument i at the front of a buffer and answers its length; where it is missing or too long, `errors` is told.
pub fn read_argument(
    env: &impl Env,
    errors: &impl Print,
    i: usize,
    word: &mut [u8],
) -> io::Result<Option<usize>>
    ensures fits { IfOk result (λ got. IfSome got (λ n. n ≤ length word.new)) }
    ensures front { IfOk result (λ got. IfSome got (λ n. n ≡ length (take n word.new))) }
{
    match env.arg(i, word) {
        Ok(n) => Ok(Some(n)),
        Err(error) => {
            fail(errors, b"path", error_of(error))?;
            Ok(None)
        }
    }
}

fn open<R: Files>(rt: &R, path: &[u8]) -> io::Result<R::File> {
    match std::str::from_utf8(path) {
        Ok(text) => File::open(rt, text),
        Err(_) => Err(io::Error::from_raw_os_error(EILSEQ)),
    }
}

fn print_name(to: &impl Print, path: &[u8]) -> io::Result<()> {
    to.write_all(path)?;
    to.write_all(b"\n")
}

// Opens a file for reading and prints its name on a line; where it can't be opened, `errors` is told why.
pub fn open_path<R: Files + Print>(
    rt: &R,
    errors: &impl Print,
    path: &[u8],
) -> io::Result<Option<R::File>> {
    match open(rt, path) {
        Ok(file) => {
            print_name(rt, path)?;
            Ok(Some(file))
        }
        Err(error) => {
            fail(errors, path, error)?;
            Ok(None)
        }
    }
}

// The same for the file that argument i names.
pub fn open_argument<R: Env + Files + Print>(
    rt: &R,
    errors: &impl Print,
    i: usize,
) -> io::Result<Option<R::File>> {
    let mut path = [0u8; 4096];
    match read_argument(rt, errors, i, &mut path)? {
        Some(n) => open_path(rt, errors, &path[..n]),
        None => Ok(None),
    }
}
