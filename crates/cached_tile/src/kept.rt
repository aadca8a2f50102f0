// A cached tile that may be given or not, through the work of a tile (`convert_optimizer_op` of cpu/painter/mod.rs):
// any work updates the count, paint clears the solid colour, and a solid tile is settled by a second call with its
// display bytes.
ghost use Rattle.std.specs.Prelude.{◌≡◌};
ghost use Rattle.laws.specs.Answer.{given};
ghost use Rattle.cached_tile.specs.Kept.{no_tile, tag_out_of_range, KeptCounted, cleared, settlement_of, keep_or_write};
ghost use Rattle.cached_tile.specs.Kept.{same_bytes, TileSettled, KeptSettled};

use crate::{CachedTile, SolidColor};

// Whether a cached tile is given, and the tile.
#[derive(Clone, Copy)]
pub struct Kept {
    pub given: bool,
    pub tile: CachedTile,
}

#[derive(Clone, Copy)]
pub struct Counted {
    pub previous: Option<u32>,
    pub kept: Kept,
}

// What settling answers: the tile is to be written, what is there is kept, or refusal 6.
#[derive(Clone, Copy)]
pub enum Settlement {
    Write,
    Keep,
    TagOutOfRange,
}

#[derive(Clone, Copy)]
pub struct Settled {
    pub settlement: Settlement,
    pub kept: Kept,
}

fn same_bytes(a: [u8; 4], b: [u8; 4]) -> bool
    ensures { result ≡ same_bytes a b }
{
    (a[0] == b[0]) & (a[1] == b[1]) & (a[2] == b[2]) & (a[3] == b[3])
}

impl Kept {
    // No cached tile is given.
    pub fn absent() -> Kept
        ensures { result ≡ no_tile }
    {
        Kept {
            given: false,
            tile: CachedTile::default(),
        }
    }

    // Refusal 6: whether a tile is given whose tag is above 3.
    pub fn is_tag_out_of_range(self) -> bool
        ensures { result ≡ tag_out_of_range self }
    {
        let tile = self.tile;
        self.given & (3 < tile.tags)
    }

    // Any tile work: the count before, and the new one kept.
    pub fn update_layer_count(self, layers: u32) -> Counted
        ensures { KeptCounted self layers result }
    {
        let tile = self.tile;
        if self.given {
            let updated = tile.update_layer_count(Some(layers));
            let previous = updated.previous;
            let tile = updated.tile;
            let kept = Kept {
                given: true,
                tile: tile,
            };
            Counted {
                previous: previous,
                kept: kept,
            }
        } else {
            Counted {
                previous: None,
                kept: self,
            }
        }
    }

    // A tile that is painted: no solid colour is kept any more.
    pub fn clear_solid_color(self) -> Kept
        ensures { result ≡ cleared self }
    {
        let tile = self.tile;
        if self.given {
            let none = SolidColor {
                given: false,
                bytes: [0, 0, 0, 0],
            };
            let updated = tile.update_solid_color(none);
            let tile = updated.tile;
            Kept {
                given: true,
                tile: tile,
            }
        } else {
            self
        }
    }
}

fn keep_or_write(is_same: bool) -> Settlement
    ensures { settlement_of result ≡ given (keep_or_write is_same) }
{
    if is_same {
        Settlement::Keep
    } else {
        Settlement::Write
    }
}

fn settle_tile(tile: CachedTile, color: [u8; 4]) -> Settled
    ensures { TileSettled tile color result }
{
    let some = SolidColor {
        given: true,
        bytes: color,
    };
    let updated = tile.update_solid_color(some);
    let previous = updated.previous;
    let was = previous.bytes;
    let settlement = keep_or_write(previous.given & same_bytes(was, color));
    let tile = updated.tile;
    let kept = Kept {
        given: true,
        tile: tile,
    };
    Settled {
        settlement: settlement,
        kept: kept,
    }
}

// The second call of a solid tile, with its four display bytes: they are kept where a tile is given, and needn't be
// written where it kept the same before.
pub fn settle(kept: Kept, color: [u8; 4]) -> Settled
    ensures { KeptSettled kept color result }
{
    if kept.is_tag_out_of_range() {
        return Settled {
            settlement: Settlement::TagOutOfRange,
            kept: kept,
        };
    }
    if kept.given {
        let tile = kept.tile;
        settle_tile(tile, color)
    } else {
        Settled {
            settlement: Settlement::Write,
            kept: kept,
        }
    }
}
