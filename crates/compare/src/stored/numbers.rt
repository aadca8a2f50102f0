// Numbers of the text as the numbers of the operations. Signed ones stand there by their bits; floats by their multiple
// of 1/512, and the others by codes.
ghost use Rattle.std.specs.Prelude.{◌≤◌};

pub fn byte(value: u64) -> u8 {
    (value % 256) as u8
}

pub fn word(value: u64) -> u32 {
    (value % 4294967296) as u32
}

pub fn signed_8(value: u64) -> i8 {
    byte(value).cast_signed()
}

pub fn signed_16(value: u64) -> i16 {
    ((value % 65536) as u16).cast_signed()
}

pub fn signed_32(value: u64) -> i32 {
    word(value).cast_signed()
}

pub fn flag(value: u64) -> bool {
    value == 1
}

// A length that the text gives.
pub fn length(value: u64) -> usize
    ensures { result ≤ 4096 }
{
    value.min(4096) as usize
}

// 0 to 0x7fff: a multiple of 1/512. 0x8000: minus zero. 0x8001: infinity. 0x8002: no number.
pub fn float(value: u64) -> f32 {
    if value == 32768 {
        return -0.0;
    }
    if value == 32769 {
        return 1.0 / 0.0;
    }
    if value == 32770 {
        return 0.0 / 0.0;
    }
    ((value % 32768) as u16) as f32 * 0.001953125
}

// Whether two floats are the same, minus zero and no number too.
pub fn is_same(a: f32, b: f32) -> bool {
    if a == b {
        return 1.0 / a == 1.0 / b;
    }
    (a != a) & (b != b)
}
