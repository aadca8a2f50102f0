// Stored answers as text: whole numbers in hexadecimal, small letters. All other bytes part them, so words in between
// are in capitals. Past the end of the text every number is 0.
ghost use Rattle.std.specs.Prelude.{◌≤◌};

use crate::stored::numbers;

#[derive(Clone, Copy)]
pub struct Number {
    pub value: u64,
    pub at: usize,
}

// Where the reader is, and whether every number that was found so far is the stored one.
#[derive(Clone, Copy)]
pub struct Cursor {
    pub at: usize,
    pub same: bool,
}

// The value of a digit; 16 for any other byte.
fn digit(byte: u8) -> u8
    ensures { result ≤ 16 }
{
    match byte {
        b'0'..=b'9' => byte - 48,
        b'a'..=b'f' => byte - 87,
        _ => 16,
    }
}

// The place of the next digit, or the end of the text.
fn skip(text: &[u8], at: usize) -> usize {
    for i in at..text.len() {
        if digit(text[i]) < 16 {
            return i;
        }
    }
    text.len()
}

fn append(value: u64, digit: u8) -> u64
    requires { digit ≤ 15 }
{
    value % 1152921504606846976 * 16 + digit as u64
}

// The next number, and the place after it.
pub fn next(text: &[u8], at: usize) -> Number {
    let mut value: u64 = 0;
    for i in skip(text, at)..text.len() {
        let d = digit(text[i]);
        if 15 < d {
            return Number {
                value: value,
                at: i,
            };
        }
        value = append(value, d);
    }
    Number {
        value: value,
        at: text.len(),
    }
}

// Whether the next number is the one that was found.
pub fn expect(text: &[u8], cursor: Cursor, found: u64) -> Cursor {
    let number = next(text, cursor.at);
    Cursor {
        at: number.at,
        same: cursor.same & (number.value == found),
    }
}

pub fn expect_byte(text: &[u8], cursor: Cursor, found: u8) -> Cursor {
    expect(text, cursor, found as u64)
}

pub fn expect_word(text: &[u8], cursor: Cursor, found: u32) -> Cursor {
    expect(text, cursor, found as u64)
}

pub fn expect_flag(text: &[u8], cursor: Cursor, found: bool) -> Cursor {
    let number = next(text, cursor.at);
    Cursor {
        at: number.at,
        same: cursor.same & (numbers::flag(number.value) == found),
    }
}

pub fn expect_signed_8(text: &[u8], cursor: Cursor, found: i8) -> Cursor {
    let number = next(text, cursor.at);
    Cursor {
        at: number.at,
        same: cursor.same & (numbers::signed_8(number.value) == found),
    }
}

pub fn expect_signed_16(text: &[u8], cursor: Cursor, found: i16) -> Cursor {
    let number = next(text, cursor.at);
    Cursor {
        at: number.at,
        same: cursor.same & (numbers::signed_16(number.value) == found),
    }
}

pub fn expect_float(text: &[u8], cursor: Cursor, found: f32) -> Cursor {
    let number = next(text, cursor.at);
    Cursor {
        at: number.at,
        same: cursor.same & numbers::is_same(numbers::float(number.value), found),
    }
}
