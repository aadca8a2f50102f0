// P8 and P12: what a cached tile keeps, and settling; and the two updates of a tile that is lent.
ghost use Rattle.std.specs.Prelude.{◌≡◌, true};
ghost use Rattle.cached_tile.specs.Kept.{settlement_of};
ghost use Rattle.cases.specs.Answers.{is_count, is_no_count, is_write, is_keep, nothing_kept};

use cached_tile::kept::{Kept, Settlement};
use cached_tile::{CachedTile, SolidColor, kept};

fn is_count(count: Option<u32>, number: u32) -> bool
    ensures { result ≡ is_count count number }
{
    match count {
        Some(n) => n == number,
        None => false,
    }
}

fn is_no_count(count: Option<u32>) -> bool
    ensures { result ≡ is_no_count count }
{
    match count {
        Some(_) => false,
        None => true,
    }
}

fn is_write(settlement: Settlement) -> bool
    ensures { result ≡ is_write (settlement_of settlement) }
{
    match settlement {
        Settlement::Write => true,
        Settlement::Keep => false,
        Settlement::TagOutOfRange => false,
    }
}

fn is_keep(settlement: Settlement) -> bool
    ensures { result ≡ is_keep (settlement_of settlement) }
{
    match settlement {
        Settlement::Write => false,
        Settlement::Keep => true,
        Settlement::TagOutOfRange => false,
    }
}

// A tile of tag 0, whose bytes are not 0.
fn nothing_kept() -> CachedTile
    ensures { result ≡ nothing_kept }
{
    CachedTile {
        tags: 0,
        layer_count: [9, 9, 9],
        solid_color: [8, 8, 8, 8],
    }
}

// 16,777,217 is kept as 1, where no count was kept.
pub fn p8_kept() -> bool
    ensures { result ≡ true }
{
    let tile = nothing_kept();
    let updated = tile.update_layer_count(Some(16777217));
    let previous = updated.previous;
    let after = updated.tile;
    is_no_count(previous) & (after.tags == 2) & is_count(after.layer_count(), 1)
}

// The count dropped afterwards leaves its bytes.
pub fn p8_dropped() -> bool
    ensures { result ≡ true }
{
    let tile = nothing_kept();
    let updated = tile.update_layer_count(Some(16777217));
    let counted = updated.tile;
    let dropped = counted.update_layer_count(None);
    let after = dropped.tile;
    let bytes = after.layer_count;
    (after.tags == 0) & (bytes[0] == 1) & (bytes[1] == 0) & (bytes[2] == 0)
}

// The same on a tile that stays with the caller and is lent.
pub fn p8_in_place() -> bool
    ensures { result ≡ true }
{
    let tile = nothing_kept();
    let updated = cached_tile_lent::count_in_place(tile, Some(16777217));
    let previous = updated.previous;
    let after = updated.tile;
    is_no_count(previous) & (after.tags == 2) & is_count(after.layer_count(), 1)
}

// The same bytes settled twice: write, then keep.
pub fn p12() -> bool
    ensures { result ≡ true }
{
    let tile = nothing_kept();
    let first = kept::settle(
        Kept {
            given: true,
            tile: tile,
        },
        [1, 2, 3, 4],
    );
    let before = first.settlement;
    let left = first.kept;
    let second = kept::settle(left, [1, 2, 3, 4]);
    let after = second.settlement;
    is_write(before) & is_keep(after)
}

// Without a cached tile settling says write.
pub fn p12_without() -> bool
    ensures { result ≡ true }
{
    let settled = kept::settle(Kept::absent(), [1, 2, 3, 4]);
    let settlement = settled.settlement;
    is_write(settlement)
}

// Bytes that differ from those of a tile that is lent: none were kept before, then these are.
pub fn p12_in_place() -> bool
    ensures { result ≡ true }
{
    let tile = nothing_kept();
    let color = SolidColor {
        given: true,
        bytes: [1, 2, 3, 4],
    };
    let first = cached_tile_lent::color_in_place(tile, color);
    let before = first.previous;
    let left = first.tile;
    let second = cached_tile_lent::color_in_place(left, color);
    let after = second.previous;
    let bytes = after.bytes;
    !before.given & after.given & (left.tags == 1) & (bytes[0] == 1) & (bytes[3] == 4)
}
