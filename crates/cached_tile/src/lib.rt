// What the last frame left of a tile (`CachedTile` of cpu/painter/mod.rs), by value, with the Rust's methods. `settle`
// is the second call of a solid tile.
#![tactic(auto)]

pub mod kept;

ghost use Rattle.std.specs.Prelude.{◌≡◌, ◌<◌};
ghost use Rattle.cached_tile.specs.Tile.{empty_tile, keeps_count, keeps_color, layer_count_of, solid_color_of};
ghost use Rattle.cached_tile.specs.Tile.{keep_count, drop_count, keep_color, drop_color, CountUpdated, ColorUpdated};

#[derive(Clone, Copy)]
pub struct CachedTile {
    // 1 where a solid colour is kept, plus 2 where a layer count is.
    pub tags: u8,
    // The lowest byte first.
    pub layer_count: [u8; 3],
    pub solid_color: [u8; 4],
}

// Four display bytes, where `given`. An enum can't hold an array.
#[derive(Clone, Copy)]
pub struct SolidColor {
    pub given: bool,
    pub bytes: [u8; 4],
}

#[derive(Clone, Copy)]
pub struct UpdatedLayerCount {
    pub previous: Option<u32>,
    pub tile: CachedTile,
}

#[derive(Clone, Copy)]
pub struct UpdatedSolidColor {
    pub previous: SolidColor,
    pub tile: CachedTile,
}

fn wide(byte: u8) -> u32
    ensures { (result ≡ byte) × (result < 256) }
{
    byte as u32
}

fn keeps_count(tags: u8) -> bool
    ensures { result ≡ keeps_count tags }
{
    (tags == 2) | (tags == 3)
}

fn keeps_color(tags: u8) -> bool
    ensures { result ≡ keeps_color tags }
{
    (tags == 1) | (tags == 3)
}

impl CachedTile {
    // Nothing is kept.
    pub fn default() -> CachedTile
        ensures { result ≡ empty_tile }
    {
        CachedTile {
            tags: 0,
            layer_count: [0, 0, 0],
            solid_color: [0, 0, 0, 0],
        }
    }

    pub fn layer_count(self) -> Option<u32>
        ensures { result ≡ layer_count_of self }
    {
        let bytes = self.layer_count;
        let count = wide(bytes[0]) + 256 * wide(bytes[1]) + 65536 * wide(bytes[2]);
        if keeps_count(self.tags) {
            Some(count)
        } else {
            None
        }
    }

    pub fn solid_color(self) -> SolidColor
        ensures { result ≡ solid_color_of self }
    {
        let bytes = self.solid_color;
        SolidColor {
            given: keeps_color(self.tags),
            bytes: bytes,
        }
    }

    // The tag's second bit is set, and the low 24 bits are stored.
    fn keep_layer_count(self, count: u32) -> CachedTile
        ensures { result ≡ keep_count self count }
    {
        let color = self.solid_color;
        let bytes = [
            (count % 256) as u8,
            (count / 256 % 256) as u8,
            (count / 65536 % 256) as u8,
        ];
        CachedTile {
            tags: self.tags | 0b10,
            layer_count: bytes,
            solid_color: color,
        }
    }

    // Only the tag's first bit stays; every other byte does.
    fn drop_layer_count(self) -> CachedTile
        ensures { result ≡ drop_count self }
    {
        let left = self.layer_count;
        let color = self.solid_color;
        CachedTile {
            tags: self.tags & 0b01,
            layer_count: left,
            solid_color: color,
        }
    }

    // The tag's first bit is set, and the bytes are stored.
    fn keep_solid_color(self, bytes: [u8; 4]) -> CachedTile
        ensures { result ≡ keep_color self bytes }
    {
        let count = self.layer_count;
        CachedTile {
            tags: self.tags | 0b01,
            layer_count: count,
            solid_color: bytes,
        }
    }

    // Only the tag's second bit stays; every other byte does.
    fn drop_solid_color(self) -> CachedTile
        ensures { result ≡ drop_color self }
    {
        let count = self.layer_count;
        let left = self.solid_color;
        CachedTile {
            tags: self.tags & 0b10,
            layer_count: count,
            solid_color: left,
        }
    }

    pub fn update_layer_count(self, layer_count: Option<u32>) -> UpdatedLayerCount
        ensures { CountUpdated self layer_count result }
    {
        let previous = self.layer_count();
        match layer_count {
            Some(count) => {
                let tile = self.keep_layer_count(count);
                UpdatedLayerCount {
                    previous: previous,
                    tile: tile,
                }
            }
            None => {
                let tile = self.drop_layer_count();
                UpdatedLayerCount {
                    previous: previous,
                    tile: tile,
                }
            }
        }
    }

    pub fn update_solid_color(self, solid_color: SolidColor) -> UpdatedSolidColor
        ensures { ColorUpdated self solid_color result }
    {
        let previous = self.solid_color();
        if solid_color.given {
            let bytes = solid_color.bytes;
            let tile = self.keep_solid_color(bytes);
            UpdatedSolidColor {
                previous: previous,
                tile: tile,
            }
        } else {
            let tile = self.drop_solid_color();
            UpdatedSolidColor {
                previous: previous,
                tile: tile,
            }
        }
    }
}
