// A kept set of segments that come and go. The layer and the tile that it is of are lent as numbers, which its
// beginning writes and each edit reads; so are its carry, its loads and how many slots are held, beside the slots and d.
ghost use Rattle.segment_set_statements.specs.Set.{beginning};
ghost use Rattle.ffi_sets.specs.Sets.{set_place, set_numbers, set_lent, BeginTold, TakeTold, LetTold};

use cover::Cover;

// 0, the words of the part in `slots`, their d in `areas`, and which layer and tile the set is of with its other
// numbers; or the number of the refusal. `covers` is the incoming cover.
#[unsafe(no_mangle)]
pub extern "C" fn ffi_begin_set(
    layer_id: u32,
    tile_x: i16,
    tile_y: i16,
    covers: &[i8; 16],
    part: &[u64],
    layer: &mut u32,
    tile: &mut [i16; 2],
    carry: &mut [i8; 16],
    loads: &mut [u16; 16],
    count: &mut usize,
    slots: &mut [u64],
    areas: &mut [i16],
) -> u32
    ensures { BeginTold
        (beginning layer_id tile_x tile_y covers.now part.now)
        (set_lent (set_place layer.old tile.old)
        (set_numbers carry.old loads.old count.old)
        slots.old areas.old)
        result
        (set_lent (set_place layer.new tile.new)
        (set_numbers carry.new loads.new count.new)
        slots.new areas.new) }
{
    let bytes = *covers;
    let edited = segment_set::begin(
        layer_id,
        tile_x,
        tile_y,
        Cover { covers: bytes },
        part,
        slots,
        areas,
    );
    let verdict = edited.verdict;
    let set = edited.set;
    ffi_sets::put_place(verdict, set, layer, tile);
    ffi_sets::put_edited(verdict, set, carry, loads, count)
}

// 0 and the segment taken in, or the number of the refusal. Of which layer and tile it has to be, the beginning wrote.
#[unsafe(no_mangle)]
pub extern "C" fn ffi_take_in(
    word: u64,
    layer: &u32,
    tile: &[i16; 2],
    carry: &mut [i8; 16],
    loads: &mut [u16; 16],
    count: &mut usize,
    slots: &mut [u64],
    areas: &mut [i16],
) -> u32
    ensures { TakeTold
        (set_lent (set_place layer.now tile.now)
        (set_numbers carry.old loads.old count.old)
        slots.old areas.old)
        word result
        (set_lent (set_place layer.now tile.now)
        (set_numbers carry.new loads.new count.new)
        slots.new areas.new) }
{
    let old_layer = *layer;
    let old_tile = *tile;
    let bytes = *carry;
    let old_loads = *loads;
    let old_count = *count;
    let before = ffi_sets::to_set(old_layer, old_tile, bytes, old_loads, old_count);
    let edited = segment_set::take_in(before, word, slots, areas);
    let verdict = edited.verdict;
    let set = edited.set;
    ffi_sets::put_edited(verdict, set, carry, loads, count)
}

// 0 and one equal segment let out, or the number of the refusal. Of which layer and tile it has to be, the beginning
// wrote.
#[unsafe(no_mangle)]
pub extern "C" fn ffi_let_out(
    word: u64,
    layer: &u32,
    tile: &[i16; 2],
    carry: &mut [i8; 16],
    loads: &mut [u16; 16],
    count: &mut usize,
    slots: &mut [u64],
    areas: &mut [i16],
) -> u32
    ensures { LetTold
        (set_lent (set_place layer.now tile.now)
        (set_numbers carry.old loads.old count.old)
        slots.old areas.old)
        word result
        (set_lent (set_place layer.now tile.now)
        (set_numbers carry.new loads.new count.new)
        slots.new areas.new) }
{
    let old_layer = *layer;
    let old_tile = *tile;
    let bytes = *carry;
    let old_loads = *loads;
    let old_count = *count;
    let before = ffi_sets::to_set(old_layer, old_tile, bytes, old_loads, old_count);
    let edited = segment_set::let_out(before, word, slots, areas);
    let verdict = edited.verdict;
    let set = edited.set;
    ffi_sets::put_edited(verdict, set, carry, loads, count)
}
