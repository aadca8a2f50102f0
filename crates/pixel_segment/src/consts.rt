// The bit fields of a packed word (consts.rs): a table of widths for each layout, from which every shift is summed.
ghost use Rattle.std.specs.Prelude.{◌≡◌, ◌+◌, ◌-◌, ◌*◌, ◌%◌, ◌^◌, ◌<◌, ◌≤◌};
ghost use Rattle.pixel_segment.specs.Field.{cpu, widths_of, index_of, shift_of, width_of};
ghost use Rattle.pixel_segment.specs.Field.{field_of, tile_of, cover_of};

// Highest first: tile y, tile x, layer id, local x, local y, double area multiplier, cover.
const CPU_WIDTHS: [u32; 7] = [11, 12, 21, 4, 4, 6, 6];

const GPU_WIDTHS: [u32; 7] = [13, 12, 21, 4, 2, 6, 6];

// Tiles 16 pixels high, or 4 as on the GPU.
#[derive(Clone, Copy)]
pub enum Layout {
    Cpu,
    Gpu,
}

#[derive(Clone, Copy)]
pub enum BitField {
    TileY,
    TileX,
    LayerId,
    LocalX,
    LocalY,
    DoubleAreaMultiplier,
    Cover,
}

// A field's place in the table.
pub fn index(field: BitField) -> usize
    ensures { result ≡ index_of field }
{
    match field {
        BitField::TileY => 0,
        BitField::TileX => 1,
        BitField::LayerId => 2,
        BitField::LocalX => 3,
        BitField::LocalY => 4,
        BitField::DoubleAreaMultiplier => 5,
        BitField::Cover => 6,
    }
}

// The bits of the field at a place in the table. Both tables are read first: a literal place then gives two constants,
// and functions that take a layout stay short enough to be compiled once for each.
fn width(layout: Layout, i: usize) -> u32
    requires { i < 7 }
    ensures { result ≡ width_of (widths_of layout) i }
{
    let cpu = CPU_WIDTHS[i];
    let gpu = GPU_WIDTHS[i];
    match layout {
        Layout::Cpu => cpu,
        Layout::Gpu => gpu,
    }
}

// The bits below a field: the widths after it, summed.
pub fn shift(layout: Layout, field: BitField) -> u32
    ensures { result ≡ shift_of (widths_of layout) (index_of field) }
{
    let mut amount: u32 = 0;
    for i in index(field) + 1..7 {
        amount += width(layout, i);
    }
    amount
}

// How many values a field has: 2 to its width.
pub fn size(layout: Layout, field: BitField) -> u64
    ensures { result ≡ 2 ^ width_of (widths_of layout) (index_of field) }
{
    1u64 << width(layout, index(field))
}

// The cover of a word at 16 bits, with its field's size as a constant, so that what is worked out of it stays in
// registers. The last width is 6 in both layouts; the contract ties the constants to the table.
pub fn cover_of(word: u64) -> i16
    ensures { result ≡ cover_of cpu word }
{
    ((word % 64 + 32) % 64) as i16 - 32
}

// A field of a word, as an unsigned number.
pub fn extract(layout: Layout, word: u64, field: BitField) -> u64
    ensures { result ≡ field_of (widths_of layout) (index_of field) word }
{
    (word >> shift(layout, field)) % size(layout, field)
}

// A tile number of a word, from a field that stores it plus 1.
pub fn tile(layout: Layout, word: u64, field: BitField) -> i16
    requires { width_of (widths_of layout) (index_of field) ≤ 14 }
    ensures { result ≡ tile_of (field_of (widths_of layout) (index_of field) word) }
{
    extract(layout, word, field) as i16 - 1
}

// A word with one more field below what it holds.
pub fn append(layout: Layout, word: u64, field: BitField, value: u64) -> u64
    requires { word < 2 ^ (64 - width_of (widths_of layout) (index_of field)) }
    ensures { result ≡ word * 2 ^ width_of (widths_of layout) (index_of field)
        + value % 2 ^ width_of (widths_of layout) (index_of field) }
{
    let n = size(layout, field);
    word * n + value % n
}
