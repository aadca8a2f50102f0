// A queue of carry records, by the two operations that take one: P11 by the work on its tile, and the draw of P7 by its
// painting.
ghost use Rattle.std.specs.Prelude.{◌≡◌, true, ◌∷◌, pos, replicate};
ghost use Rattle.laws.specs.Answer.{is_given};
ghost use Rattle.refusals.specs.Refusal.{given_or_refused};
ghost use Rattle.row_statements.specs.TileWork.{work_answer};
ghost use Rattle.cases.specs.Answers.{is_word};

use crate::clips;
use cached_tile::CachedTile;
use cached_tile::kept::Kept;
use cover::entry;
use refusals::Refusal;
use row_statements::{RowState, TileDone};
use styling::Color;
use tile_row_records::records;

fn is_done(answer: Result<TileDone, Refusal>) -> bool
    ensures { result ≡ is_given (work_answer answer) }
{
    match answer {
        Err(_) => false,
        Ok(_) => true,
    }
}

fn is_mark_0(answer: Result<u32, Refusal>) -> bool
    ensures { result ≡ is_word (given_or_refused answer) 0 }
{
    match answer {
        Ok(mark) => mark == 0,
        Err(_) => false,
    }
}

// What a work handed on: whether it was accepted, how many carries there are, and the covers of the first.
#[derive(Clone, Copy)]
pub struct Handed {
    pub accepted: bool,
    pub left: usize,
    pub covers: [i8; 16],
}

// Works tile 2 from one record, of layer 5, with 16 in each row. The row has the word of P11.
fn work_p11() -> Handed
    ensures { (result.accepted ≡ true) × (result.left ≡ 1) × (result.covers ≡ pos 0 ∷ replicate 15 (pos 16)) }
{
    let row: [u64; 1] = [0x0020060000530830];
    let layers: [u32; 8] = [5, 0, 0, 0, 0, 0, 0, 0];
    let colors = [0.0f32; 4];
    let mut next_ids = [0u32; 256];
    let mut next_covers = [0i8; 4096];
    let mut list_ids = [0u32; 256];
    let mut list_covers = [0i8; 4096];
    let mut list_flags = [false; 512];
    let mut list_unmasked = [false; 256];
    let state = RowState {
        tile_y: 0,
        from: 2,
        to: 3,
        next: 2,
        left: 1,
        taken: 0,
        clip: None,
    };
    let tile = CachedTile {
        tags: 0,
        layer_count: [0; 3],
        solid_color: [0; 4],
    };
    let worked = records::work_records(
        state,
        2,
        &row,
        &layers,
        &colors,
        1,
        Kept {
            given: false,
            tile: tile,
        },
        Color {
            r: 0.0,
            g: 0.0,
            b: 0.0,
            a: 0.0,
        },
        None,
        [5u32; 256],
        [16i8; 4096],
        &mut next_ids,
        &mut next_covers,
        &mut list_ids,
        &mut list_covers,
        &mut list_flags,
        &mut list_unmasked,
    );
    let answer = worked.answer;
    let after = worked.state;
    let cover = entry::read_cover(&next_covers, 0);
    let rows = cover.covers;
    Handed {
        accepted: is_done(answer),
        left: after.left,
        covers: rows,
    }
}

// One carry is handed on: 0 in row 0, and 16 in the others.
pub fn p11_worked() -> bool
    ensures { result ≡ true }
{
    let handed = work_p11();
    let rows = handed.covers;
    handed.accepted & (handed.left == 1) & (rows[0] == 0) & (rows[1] == 16) & (rows[15] == 16)
}

// Paints layer 3 of P7's tile from three records, with 8 in each row: its mark is 0, and its plane is written.
pub fn p7_painted() -> bool
    ensures { result ≡ true }
{
    let row: [u64; 1] = [0x0020060000530830];
    let layers: [u32; 24] = [
        1, 0, 1, 1, 0, 0, 0, 0, 2, 0, 1, 5, 0, 0, 0, 0, 3, 0, 0, 0, 1, 1, 0, 0,
    ];
    let colors = [0.0f32; 12];
    let mut ids = [0u32; 256];
    ids[0] = 1;
    ids[1] = 2;
    ids[2] = 3;
    let mut plane = [0.0f32; 256];
    let state = RowState {
        tile_y: 0,
        from: 0,
        to: 1,
        next: 1,
        left: 0,
        taken: 3,
        clip: Some(2),
    };
    let painted = records::paint_records(
        state,
        0,
        3,
        &row,
        &layers,
        &colors,
        3,
        ids,
        [8i8; 4096],
        &mut plane,
    );
    let answer = painted.answer;
    is_mark_0(answer) & clips::is_half(&plane)
}
