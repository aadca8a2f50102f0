// `search_last_by_key` in tiles four pixels high.
ghost use Rattle.std.specs.Prelude.{◌≡◌};
ghost use Rattle.pixel_segment.specs.Field.{gpu};
ghost use Rattle.segment_rows.specs.Search.{place_in, search_of, order_at_in};
ghost use Rattle.segment_rows.specs.declared.search.Key.TheVariants.{
  TileY,
  TileX,
  LayerId,
  TileXAtLeast,
  LayerIdAtLeast,
  TileYNotNegative,
};

use pixel_segment::consts::Layout;
use segment_rows::search;
use segment_rows::search::Key;

pub fn search_last_by_key(segments: &[u64], key: Key) -> Result<usize, usize>
    ensures { place_in result ≡ search_of (order_at_in gpu key) segments.now }
{
    search::search_last_by_key_in(Layout::Gpu, segments, key)
}

pub fn search_last_by_tile_y(segments: &[u64], tile_y: i16) -> Result<usize, usize>
    ensures { place_in result ≡ search_of (order_at_in gpu (TileY tile_y)) segments.now }
{
    search::search_last_by_tile_y_in(Layout::Gpu, segments, tile_y)
}

pub fn search_last_by_tile_x(segments: &[u64], tile_x: i16) -> Result<usize, usize>
    ensures { place_in result ≡ search_of (order_at_in gpu (TileX tile_x)) segments.now }
{
    search::search_last_by_tile_x_in(Layout::Gpu, segments, tile_x)
}

pub fn search_last_by_layer_id(segments: &[u64], layer_id: u32) -> Result<usize, usize>
    ensures { place_in result ≡ search_of (order_at_in gpu (LayerId layer_id)) segments.now }
{
    search::search_last_by_layer_id_in(Layout::Gpu, segments, layer_id)
}

pub fn search_last_by_tile_x_at_least(
    segments: &[u64],
    start: i16,
    wanted: bool,
) -> Result<usize, usize>
    ensures { place_in result ≡ search_of (order_at_in gpu (TileXAtLeast start wanted)) segments.now }
{
    search::search_last_by_tile_x_at_least_in(Layout::Gpu, segments, start, wanted)
}

pub fn search_last_by_layer_id_at_least(
    segments: &[u64],
    start: u32,
    wanted: bool,
) -> Result<usize, usize>
    ensures { place_in result ≡ search_of (order_at_in gpu (LayerIdAtLeast start wanted)) segments.now }
{
    search::search_last_by_layer_id_at_least_in(Layout::Gpu, segments, start, wanted)
}

pub fn search_last_by_tile_y_not_negative(segments: &[u64], wanted: bool) -> Result<usize, usize>
    ensures { place_in result ≡ search_of (order_at_in gpu (TileYNotNegative wanted)) segments.now }
{
    search::search_last_by_tile_y_not_negative_in(Layout::Gpu, segments, wanted)
}
