// Whether a lent row of tiles four pixels high is in order.
ghost use Rattle.std.specs.Prelude.{◌≡◌};
ghost use Rattle.pixel_segment.specs.Field.{gpu};
ghost use Rattle.pixel_segment.specs.Order.{order_key};
ghost use Rattle.segment_rows.specs.Rows.{ascends, is_row};

use pixel_segment::consts::Layout;
use segment_rows::order;

pub fn does_ascend(row: &[u64]) -> bool
    ensures { result ≡ ascends (order_key gpu) row.now }
{
    order::does_ascend_in(Layout::Gpu, row)
}

pub fn is_row(row: &[u64], stored_tile_y: u64) -> bool
    ensures { result ≡ is_row gpu stored_tile_y row.now }
{
    order::is_row_in(Layout::Gpu, row, stored_tile_y)
}
