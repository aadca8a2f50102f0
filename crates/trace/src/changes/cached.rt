// Cached tiles in a lent array, eight bytes each: tag, three count bytes, four colour bytes.
use crate::text::byte_at;
use cached_tile::CachedTile;
use cached_tile::kept::Kept;

// The place of a byte of a tile's eight; the last one for a tile that no row has.
fn place(tile: u32, k: usize) -> usize {
    if 4094 < tile {
        return 32759;
    }
    if 7 < k {
        return 32759;
    }
    tile as usize * 8 + k
}

pub fn tile_at(bytes: &[u8; 32760], tile: u32) -> Kept {
    let count = [
        byte_at(bytes, place(tile, 1)),
        byte_at(bytes, place(tile, 2)),
        byte_at(bytes, place(tile, 3)),
    ];
    let color = [
        byte_at(bytes, place(tile, 4)),
        byte_at(bytes, place(tile, 5)),
        byte_at(bytes, place(tile, 6)),
        byte_at(bytes, place(tile, 7)),
    ];
    let cached = CachedTile {
        tags: byte_at(bytes, place(tile, 0)),
        layer_count: count,
        solid_color: color,
    };
    Kept {
        given: true,
        tile: cached,
    }
}

fn set(bytes: &mut [u8; 32760], i: usize, byte: u8) {
    if i < 32760 {
        bytes[i] = byte;
    }
}

pub fn store(bytes: &mut [u8; 32760], tile: u32, kept: Kept) {
    let cached = kept.tile;
    let count = cached.layer_count;
    let color = cached.solid_color;
    set(bytes, place(tile, 0), cached.tags);
    set(bytes, place(tile, 1), count[0]);
    set(bytes, place(tile, 2), count[1]);
    set(bytes, place(tile, 3), count[2]);
    set(bytes, place(tile, 4), color[0]);
    set(bytes, place(tile, 5), color[1]);
    set(bytes, place(tile, 6), color[2]);
    set(bytes, place(tile, 7), color[3]);
}
