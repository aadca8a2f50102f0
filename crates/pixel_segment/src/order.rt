// How two keys compare.
ghost use Rattle.std.specs.Prelude.{◌≡◌};
ghost use Rattle.pixel_segment.specs.Field.{widths_of};
ghost use Rattle.pixel_segment.specs.Order.{rank, order_key, compare_of};

use crate::consts;
use crate::consts::{BitField, Layout};
use std::cmp::Ordering;

// How an unsigned number compares with another.
pub fn compare(a: u64, b: u64) -> Ordering
    ensures { rank result ≡ compare_of a b }
{
    a.cmp(&b)
}

// How two words compare: by tile y, tile x and layer id, the bits from the layer id up.
pub fn compare_words(layout: Layout, word: u64, other: u64) -> Ordering
    ensures { rank result ≡ compare_of (order_key (widths_of layout) word) (order_key (widths_of layout) other) }
{
    let offset = consts::shift(layout, BitField::LayerId);
    compare(word >> offset, other >> offset)
}
