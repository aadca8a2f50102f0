// W-214, one language leaves another's layers be: two rows share the segments of the French layer 5 and differ in their
// German layers, 3 in one and 7 in the other. Each is opened and worked over tiles 0 and 1, and the French layer
// painted.
use cached_tile::CachedTile;
use cached_tile::kept::Kept;
use refusals::Refusal;
use row_statements::{RowState, TileDone};
use std::io;
use styling::Color;

// The state after a tile, and whether every call so far was accepted.
#[derive(Clone, Copy)]
struct Step {
    state: RowState,
    taken: bool,
}

fn is_done(answer: Result<TileDone, Refusal>) -> bool {
    match answer {
        Err(_) => false,
        Ok(_) => true,
    }
}

fn is_marked(answer: Result<u32, Refusal>) -> bool {
    match answer {
        Ok(_) => true,
        Err(_) => false,
    }
}

// A tile worked without a cached tile, and the French layer painted in it.
fn paint_tile(
    step: Step,
    tile: i32,
    row: &[u64],
    layers: &[u32],
    ids: &[u32],
    covers: &[i8],
    next_ids: &mut [u32],
    next_covers: &mut [i8],
    plane: &mut [f32],
) -> Step {
    let colors = [1.0f32; 8];
    let mut list_ids = [0u32; 256];
    let mut list_covers = [0i8; 4096];
    let mut list_flags = [false; 512];
    let mut list_unmasked = [false; 256];
    let kept = Kept {
        given: false,
        tile: CachedTile {
            tags: 0,
            layer_count: [0u8; 3],
            solid_color: [0u8; 4],
        },
    };
    let clear = Color {
        r: 0.0,
        g: 0.0,
        b: 0.0,
        a: 1.0,
    };
    let worked = row_working::work_tile(
        step.state,
        tile,
        row,
        layers,
        &colors,
        2,
        kept,
        clear,
        None,
        ids,
        covers,
        next_ids,
        next_covers,
        &mut list_ids,
        &mut list_covers,
        &mut list_flags,
        &mut list_unmasked,
    );
    let painted = row_painting::paint_layer(
        worked.state,
        tile,
        5,
        row,
        layers,
        &colors,
        2,
        ids,
        covers,
        plane,
    );
    let work_answer = worked.answer;
    let paint_answer = painted.answer;
    let past = painted.state;
    Step {
        state: past,
        taken: step.taken & is_done(work_answer) & is_marked(paint_answer),
    }
}

// The French layer's coverages in tiles 0 and 1, and whether every call was accepted.
fn paint_both(row: &[u64], layers: &[u32], first: &mut [f32], second: &mut [f32]) -> bool {
    let colors = [1.0f32; 8];
    let mut ids = [0u32; 256];
    let mut covers = [0i8; 4096];
    let mut next_ids = [0u32; 256];
    let mut next_covers = [0i8; 4096];
    match row_opening::open_tile_row(0, 0, 2, row, layers, &colors, 2, &mut ids, &mut covers) {
        Err(_) => false,
        Ok(state) => {
            let opened = Step {
                state: state,
                taken: true,
            };
            let past = paint_tile(
                opened,
                0,
                row,
                layers,
                &ids,
                &covers,
                &mut next_ids,
                &mut next_covers,
                first,
            );
            let end = paint_tile(
                past,
                1,
                row,
                layers,
                &next_ids,
                &next_covers,
                &mut ids,
                &mut covers,
                second,
            );
            end.taken
        }
    }
}

// Whether the French layer looks the same beside layer 3 and in the other row, which has layer 7.
fn is_unmoved(other: &[u64]) -> bool {
    let row: [u64; 5] = [
        0x20000000300010,
        0x20000000530810,
        0x20020000391808,
        0x20020000542A3B,
        0x20040000580430,
    ];
    let layers: [u32; 16] = [3, 1, 0, 0, 0, 0, 0, 0, 5, 0, 0, 0, 0, 0, 0, 0];
    let others: [u32; 16] = [5, 0, 0, 0, 0, 0, 3, 1, 7, 1, 1, 9, 0, 0, 0, 0];
    let mut a0 = [7.0f32; 256];
    let mut a1 = [7.0f32; 256];
    let mut b0 = [8.0f32; 256];
    let mut b1 = [8.0f32; 256];
    let painted = paint_both(&row, &layers, &mut a0, &mut a1)
        & paint_both(other, &others, &mut b0, &mut b1);
    painted & (a0 == b0) & (a1 == b1)
}

pub fn print_cases(rt: &impl Print) -> io::Result<()> {
    let same: [u64; 5] = [
        0x20000000530810,
        0x20020000542A3B,
        0x20020000725510,
        0x20040000580430,
        0x20040000725530,
    ];
    let moved: [u64; 5] = [
        0x20000000530810,
        0x20020000543A3B,
        0x20020000725510,
        0x20040000580430,
        0x20040000725530,
    ];
    crate::printing::print(
        rt,
        b"the French layer beside other German layers stays",
        is_unmoved(&same),
    )?;
    crate::printing::print(
        rt,
        b"with a segment one pixel row lower it moves",
        !is_unmoved(&moved),
    )
}
