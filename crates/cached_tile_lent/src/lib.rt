// The two updates of a cached tile that stays with the caller (`update_layer_count` and `update_solid_color` of the
// Rust, which take `&mut self`): the tile is read, the method by value is called, the new tile is stored, and what was
// kept before is answered.
#![tactic(auto)]

ghost use Rattle.std.specs.Prelude.{◌≡◌};
ghost use Rattle.cached_tile.specs.Tile.{CountUpdated, ColorUpdated};

use cached_tile::{CachedTile, SolidColor, UpdatedLayerCount, UpdatedSolidColor};

pub fn update_layer_count(tile: &mut CachedTile, layer_count: Option<u32>) -> Option<u32>
    ensures { CountUpdated tile.old layer_count (record { previous = result; tile = tile.new }) }
{
    let updated = CachedTile::update_layer_count(*tile, layer_count);
    *tile = updated.tile;
    updated.previous
}

pub fn update_solid_color(tile: &mut CachedTile, solid_color: SolidColor) -> SolidColor
    ensures { ColorUpdated tile.old solid_color (record { previous = result; tile = tile.new }) }
{
    let updated = CachedTile::update_solid_color(*tile, solid_color);
    *tile = updated.tile;
    updated.previous
}

// A tile of this function's own, lent to the update: plain parameters, for callers that lend no struct.
pub fn count_in_place(tile: CachedTile, layer_count: Option<u32>) -> UpdatedLayerCount
    ensures { CountUpdated tile layer_count result }
{
    let mut kept = tile;
    let previous = update_layer_count(&mut kept, layer_count);
    UpdatedLayerCount {
        previous: previous,
        tile: kept,
    }
}

pub fn color_in_place(tile: CachedTile, solid_color: SolidColor) -> UpdatedSolidColor
    ensures { ColorUpdated tile solid_color result }
{
    let mut kept = tile;
    let previous = update_solid_color(&mut kept, solid_color);
    UpdatedSolidColor {
        previous: previous,
        tile: kept,
    }
}
