// Arrays to lend. Each says only its length: callers then carry no list of that many elements through their proofs.
ghost use Rattle.std.specs.Prelude.{◌≡◌, length};

pub fn text() -> [u8; 540672]
    ensures { 540672 ≡ length result }
{
    [0; 540672]
}

pub fn row() -> [u64; 512]
    ensures { 512 ≡ length result }
{
    [0; 512]
}

pub fn layers() -> [u32; 512]
    ensures { 512 ≡ length result }
{
    [0; 512]
}

pub fn colors() -> [f32; 256]
    ensures { 256 ≡ length result }
{
    [0.0; 256]
}

pub fn ids() -> [u32; 256]
    ensures { 256 ≡ length result }
{
    [7; 256]
}

// No list has such a kind.
pub fn kinds() -> [u8; 256]
    ensures { 256 ≡ length result }
{
    [7; 256]
}

pub fn covers() -> [i8; 4096]
    ensures { 4096 ≡ length result }
{
    [7; 4096]
}

pub fn flags() -> [bool; 256]
    ensures { 256 ≡ length result }
{
    [false; 256]
}

// One entry too few.
pub fn few_flags() -> [bool; 255]
    ensures { 255 ≡ length result }
{
    [false; 255]
}

// Two for each of 256 entries.
pub fn flag_pairs() -> [bool; 512]
    ensures { 512 ≡ length result }
{
    [false; 512]
}

pub fn plane() -> [f32; 256]
    ensures { 256 ≡ length result }
{
    [2.0; 256]
}
