// Cached tiles. A tile is lent as its eight bytes: the tag, the count's three, lowest first, and the colour's four.
ghost use Rattle.std.specs.Prelude.{◌≡◌};
ghost use Rattle.cached_tile.specs.Tile.{layer_count_of, solid_color_of, update_count, update_color};
ghost use Rattle.cached_tile.specs.Kept.{settle_of, settled_kept};
ghost use Rattle.ffi_numbers.specs.Numbers.{refusal_number};
ghost use Rattle.ffi_numbers.specs.Cached.{tile_from, tile_bytes, kept_of, is_some, given_or, count_if, color_if, color_or};
ghost use Rattle.ffi_numbers.specs.Cached.{written_or, settled_bytes};

use cached_tile::kept::Kept;
use cached_tile::{SolidColor, kept};
use ffi_numbers::cached;

// Whether the tile keeps a layer count; where it does, the count in `count`.
#[unsafe(no_mangle)]
pub extern "C" fn ffi_layer_count(tile: &[u8; 8], count: &mut u32) -> bool
    ensures value { result ≡ is_some (layer_count_of (tile_from tile.now)) }
    ensures count_after { count.new ≡ given_or (layer_count_of (tile_from tile.now)) count.old }
{
    let bytes = *tile;
    cached::put_count(cached::to_tile(bytes).layer_count(), count)
}

// Whether the tile keeps a solid colour; where it does, its bytes in `color`.
#[unsafe(no_mangle)]
pub extern "C" fn ffi_solid_color(tile: &[u8; 8], color: &mut [u8; 4]) -> bool
    ensures value { result ≡ (solid_color_of (tile_from tile.now)).given }
    ensures color_after { color.new ≡ color_or (solid_color_of (tile_from tile.now)) color.old }
{
    let bytes = *tile;
    cached::put_color(cached::to_tile(bytes).solid_color(), color)
}

// The tile keeps the count, where one is given, or none. Whether it kept one before; where it did, that one in
// `previous`.
#[unsafe(no_mangle)]
pub extern "C" fn ffi_update_layer_count(
    tile: &mut [u8; 8],
    given: bool,
    count: u32,
    previous: &mut u32,
) -> bool
    ensures value { result ≡ is_some (layer_count_of (tile_from tile.old)) }
    ensures previous_after { previous.new
        ≡ given_or (layer_count_of (tile_from tile.old)) previous.old }
    ensures tile_after { tile.new ≡ tile_bytes (update_count (tile_from tile.old) (count_if given count)) }
{
    let bytes = *tile;
    let updated = cached::to_tile(bytes).update_layer_count(count_if(given, count));
    let after = updated.tile;
    *tile = cached::to_bytes(after);
    let before = updated.previous;
    cached::put_count(before, previous)
}

fn count_if(given: bool, count: u32) -> Option<u32>
    ensures { result ≡ count_if given count }
{
    if given { Some(count) } else { None }
}

// The tile keeps the colour, where one is given, or none. Whether it kept one before; where it did, its bytes in
// `previous`.
#[unsafe(no_mangle)]
pub extern "C" fn ffi_update_solid_color(
    tile: &mut [u8; 8],
    given: bool,
    color: &[u8; 4],
    previous: &mut [u8; 4],
) -> bool
    ensures value { result ≡ (solid_color_of (tile_from tile.old)).given }
    ensures previous_after { previous.new
        ≡ color_or (solid_color_of (tile_from tile.old)) previous.old }
    ensures tile_after { tile.new
        ≡ tile_bytes (update_color (tile_from tile.old) (color_if given color.now)) }
{
    let bytes = *tile;
    let color = *color;
    let some = SolidColor {
        given: given,
        bytes: color,
    };
    let updated = cached::to_tile(bytes).update_solid_color(some);
    let after = updated.tile;
    *tile = cached::to_bytes(after);
    let before = updated.previous;
    cached::put_color(before, previous)
}

// Where a tile is given it keeps the bytes. 0 and whether they are to be written in `is_written`, or the number of the
// refusal. The tile's bytes are stored where the call is accepted and a tile is given.
#[unsafe(no_mangle)]
pub extern "C" fn ffi_settle(
    given: bool,
    tile: &mut [u8; 8],
    color: &[u8; 4],
    is_written: &mut bool,
) -> u32
    ensures value { result ≡ refusal_number (settle_of (kept_of given tile.old) color.now) }
    ensures is_written_after { is_written.new
        ≡ written_or (settle_of (kept_of given tile.old) color.now) is_written.old }
    ensures tile_after { tile.new
        ≡ settled_bytes (settle_of (kept_of given tile.old) color.now)
        (settled_kept (kept_of given tile.old) color.now) tile.old }
{
    let bytes = *tile;
    let color = *color;
    let before = Kept {
        given: given,
        tile: cached::to_tile(bytes),
    };
    let settled = kept::settle(before, color);
    let after = settled.kept;
    let settlement = settled.settlement;
    cached::put_settlement(settlement, after, tile, is_written)
}
