// One layer's row of tiles four pixels high. A state is lent as its numbers: tile y, from, to, the next tile, the layer
// and its fill rule (0 NonZero, 1 EvenOdd); and beside them the four bytes of its cover.
ghost use Rattle.layer_row_gpu.specs.OpenLayer.{layer_call};
ghost use Rattle.layer_row_gpu.specs.WorkLayer.{layer_choice, work_layer_of};
ghost use Rattle.layer_row_gpu.specs.WorkTiles.{tiles_choice, work_tiles_of};
ghost use Rattle.ffi_four_high.specs.FourHighRows.{layer_numbers, layer_state_from, tiles_numbers};
ghost use Rattle.ffi_four_high.specs.FourHighRows.{OpenLayerTold, WorkLayerTold, TilesTold};

// 0 and the state before the first tile in `words` and `covers`, or the number of the refusal. The layer and the number
// of its rule are judged as a layer record is, by 4.
#[unsafe(no_mangle)]
pub extern "C" fn ffi_gpu_open_layer_row(
    tile_y: i32,
    from: i32,
    to: i32,
    layer_id: u32,
    rule: u32,
    row: &[u64],
    words: &mut [u32; 6],
    covers: &mut [i8; 4],
) -> u32
    ensures { OpenLayerTold (layer_call tile_y from to layer_id rule row.now)
        (layer_numbers words.old covers.old)
        result
        (layer_numbers words.new covers.new) }
{
    ffi::four_high_rows::ffi_gpu_open_layer_row(
        tile_y, from, to, layer_id, rule, row, words, covers,
    )
}

// 0, the tile's coverages in `plane` and the state past the tile, or the number of the refusal.
#[unsafe(no_mangle)]
pub extern "C" fn ffi_gpu_work_tile(
    words: &mut [u32; 6],
    covers: &mut [i8; 4],
    tile: i32,
    row: &[u64],
    plane: &mut [f32],
) -> u32
    ensures { WorkLayerTold
        (work_layer_of (layer_state_from words.old covers.old)
        (layer_choice tile row.now plane.old))
        (layer_numbers words.old covers.old)
        result
        (layer_numbers words.new covers.new)
        plane.new }
{
    ffi::four_high_rows::ffi_gpu_work_tile(words, covers, tile, row, plane)
}

// A range of up to `tiles` tiles from `tile` on: 0, the coverages of each tile in the next 64 numbers of `planes`, the
// state past them, and in `done` how many tiles were worked, why the range ended (0 all that were asked for, 1 the row's
// end, 2 no plane is left, 3 the next tile would be refused) and by which number the next tile would be refused, else 0.
// Or the number by which the first tile's own call would be refused; every lent number is then as it was, `done` too.
#[unsafe(no_mangle)]
pub extern "C" fn ffi_gpu_work_tiles(
    words: &mut [u32; 6],
    covers: &mut [i8; 4],
    tile: i32,
    tiles: usize,
    row: &[u64],
    planes: &mut [f32],
    done: &mut [usize; 3],
) -> u32
    ensures { TilesTold
        (work_tiles_of (layer_state_from words.old covers.old)
        (tiles_choice tile tiles row.now planes.old))
        (tiles_numbers words.old covers.old done.old)
        result
        (tiles_numbers words.new covers.new done.new)
        planes.new }
{
    ffi::four_high_rows::ffi_gpu_work_tiles(words, covers, tile, tiles, row, planes, done)
}
