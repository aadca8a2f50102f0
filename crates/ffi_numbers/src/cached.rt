// Cached tiles. A tile is lent as its eight bytes: the tag, the count's three, lowest first, and the colour's four.
ghost use Rattle.std.specs.Prelude.{◌≡◌};
ghost use Rattle.cached_tile.specs.Kept.{settlement_of};
ghost use Rattle.ffi_numbers.specs.Numbers.{refusal_number};
ghost use Rattle.ffi_numbers.specs.Cached.{tile_from, tile_bytes, bytes_by, is_some, given_or, color_or};
ghost use Rattle.ffi_numbers.specs.Cached.{written_or, settled_bytes};

use cached_tile::kept::{Kept, Settlement};
use cached_tile::{CachedTile, SolidColor};

pub fn to_tile(bytes: [u8; 8]) -> CachedTile
    ensures { result ≡ tile_from bytes }
{
    CachedTile {
        tags: bytes[0],
        layer_count: [bytes[1], bytes[2], bytes[3]],
        solid_color: [bytes[4], bytes[5], bytes[6], bytes[7]],
    }
}

pub fn to_bytes(tile: CachedTile) -> [u8; 8]
    ensures { result ≡ tile_bytes tile }
{
    let count = tile.layer_count;
    let color = tile.solid_color;
    [
        tile.tags, count[0], count[1], count[2], color[0], color[1], color[2], color[3],
    ]
}

// The bytes of a tile that is given.
pub fn put_kept(kept: Kept, bytes: &mut [u8; 8])
    ensures { bytes.new ≡ bytes_by kept bytes.old }
{
    if kept.given {
        let tile = kept.tile;
        *bytes = to_bytes(tile);
    }
}

// Whether there is a count; where there is one, it is written.
pub fn put_count(previous: Option<u32>, count: &mut u32) -> bool
    ensures value { result ≡ is_some previous }
    ensures count_after { count.new ≡ given_or previous count.old }
{
    match previous {
        Some(n) => {
            *count = n;
            true
        },
        None => false,
    }
}

// Whether a colour is given; where it is, it is written.
pub fn put_color(previous: SolidColor, color: &mut [u8; 4]) -> bool
    ensures value { result ≡ previous.given }
    ensures color_after { color.new ≡ color_or previous color.old }
{
    if previous.given {
        let bytes = previous.bytes;
        *color = bytes;
        true
    } else {
        false
    }
}

pub fn put_settlement(
    settlement: Settlement,
    after: Kept,
    tile: &mut [u8; 8],
    is_written: &mut bool,
) -> u32
    ensures value { result ≡ refusal_number (settlement_of settlement) }
    ensures is_written_after { is_written.new ≡ written_or (settlement_of settlement) is_written.old }
    ensures tile_after { tile.new ≡ settled_bytes (settlement_of settlement) after tile.old }
{
    match settlement {
        Settlement::Write => {
            put_kept(after, tile);
            *is_written = true;
            0
        },
        Settlement::Keep => {
            put_kept(after, tile);
            *is_written = false;
            0
        },
        Settlement::TagOutOfRange => 6,
    }
}
