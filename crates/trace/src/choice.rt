// What the arguments choose: `tile N` one tile, `layer N` the paintings of one layer, and the parts of a tile by their
// names. A choice holds for every file, wherever it stands. Any other word names a file.
use crate::tiles::chosen;
use crate::tiles::chosen::Chosen;

// Which number a word asks for: that of a tile, of a layer, or none.
pub const NO_NUMBER: u32 = 0;

const TILE: u32 = 1;

const LAYER: u32 = 2;

#[derive(Clone, Copy)]
pub struct Choice {
    // 0 stands for every part.
    pub parts: u32,
    pub every_tile: bool,
    pub tile: u32,
    pub every_layer: bool,
    pub layer: u32,
    // What the word before asks for.
    pub asked: u32,
    // Whether a file was named, help asked for, a number missing.
    pub named: bool,
    pub help: bool,
    pub wrong: bool,
}

pub fn everything() -> Choice {
    Choice {
        parts: 0,
        every_tile: true,
        tile: 0,
        every_layer: true,
        layer: 0,
        asked: NO_NUMBER,
        named: false,
        help: false,
        wrong: false,
    }
}

pub fn is_then(word: &[u8]) -> bool {
    word == b"then".as_slice()
}

fn number_asked(word: &[u8]) -> u32 {
    match word {
        b"tile" => TILE,
        b"layer" => LAYER,
        _ => NO_NUMBER,
    }
}

// The part that a word names, or 0.
fn part_of(word: &[u8]) -> u32 {
    match word {
        b"segments" => chosen::SEGMENTS,
        b"taken" => chosen::TAKEN_IN,
        b"list" => chosen::LIST,
        b"decision" => chosen::DECISION,
        b"cached" => chosen::CACHED,
        b"painted" => chosen::PAINTED,
        b"areas" => chosen::AREAS,
        b"planes" => chosen::PLANES,
        b"handed" => chosen::HANDED_ON,
        b"line" => chosen::LINE,
        _ => 0,
    }
}

// A word that is neither a number that was asked for nor a part: it asks for a number or help, or names a file.
fn take_name(choice: Choice, word: &[u8]) -> Choice {
    let mut after = choice;
    after.asked = number_asked(word);
    after.help = choice.help | (word == b"--help".as_slice());
    after.named = choice.named | ((after.asked == NO_NUMBER) & !is_then(word));
    after
}

// The number that was asked for.
fn take_number(choice: Choice, number: u32) -> Choice {
    let mut after = choice;
    if choice.asked == TILE {
        after.every_tile = false;
        after.tile = number;
    } else {
        after.every_layer = false;
        after.layer = number;
    }
    after.asked = NO_NUMBER;
    after
}

fn take_wrong(choice: Choice) -> Choice {
    let mut after = choice;
    after.wrong = true;
    after.asked = NO_NUMBER;
    after
}

// A whole number, not below 0, that is the whole word.
fn take_asked(choice: Choice, word: &[u8]) -> Choice {
    match decimal::read_signed(word, 0) {
        Some((number, next)) => {
            if (next == word.len()) & (0 <= number) {
                take_number(choice, row_state::natural(number))
            } else {
                take_wrong(choice)
            }
        }
        None => take_wrong(choice),
    }
}

// The choice with one more word.
pub fn take(choice: Choice, word: &[u8]) -> Choice {
    if choice.asked != NO_NUMBER {
        return take_asked(choice, word);
    }
    let part = part_of(word);
    if part == 0 {
        return take_name(choice, word);
    }
    let mut after = choice;
    after.parts = choice.parts | part;
    after
}

// Whether a word that stands where a number is not asked for names a file.
pub fn is_file(word: &[u8]) -> bool {
    (part_of(word) == 0) & (number_asked(word) == NO_NUMBER) & !is_then(word)
}

// What the next word is asked for after this one.
pub fn asked_after(asked: u32, word: &[u8]) -> u32 {
    if asked == NO_NUMBER {
        number_asked(word)
    } else {
        NO_NUMBER
    }
}

// What is told of a tile.
pub fn chosen_of(choice: Choice, tile: u32) -> Chosen {
    let all = if choice.parts == 0 {
        1023
    } else {
        choice.parts
    };
    let parts = if choice.every_tile | (choice.tile == tile) {
        all
    } else {
        0
    };
    Chosen {
        parts: parts,
        every_layer: choice.every_layer,
        layer: choice.layer,
    }
}
