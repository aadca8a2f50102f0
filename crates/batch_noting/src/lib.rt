// What a batch notes of a tile in lent memory: the bytes of its cached tile, its numbers, its bottom colour, and two
// words for each layer that is painted.
#![tactic(auto)]

ghost use Rattle.std.specs.Prelude.{◌≡◌, true, [], ◌∷◌, ◌+◌, ◌*◌, ◌≤◌, length, get_or};
ghost use Rattle.std.proofs.lemmas.List.Edits.{sets};
ghost use Rattle.ffi_numbers.specs.Cached.{kept_of};
ghost use Rattle.pass_statements.specs.Decision.{code_of, decision_in};
ghost use Rattle.row_statements.specs.TileWork.{tile_answer_in};
ghost use Rattle.batch_statements.specs.BatchLent.{kept_at, kept_over, before_of, tile_numbers, bottoms_over};
ghost use Rattle.batch_noting.specs.InnerNoting.{NoteRoom};

use cached_tile::kept::Kept;
use ffi_numbers::cached;
use pass_statements::decide::Decision;
use passes::decide;
use row_statements::TileDone;

// The eight bytes of a tile.
fn tile_from(bytes: &[u8]) -> Kept
    requires { 8 ≤ length bytes.now }
    ensures { result ≡ kept_of true bytes.now }
{
    let eight = [
        bytes[0], bytes[1], bytes[2], bytes[3], bytes[4], bytes[5], bytes[6], bytes[7],
    ];
    Kept {
        given: true,
        tile: cached::to_tile(eight),
    }
}

// The cached tile of number i.
pub fn kept_at(keeps: bool, kept: &[u8], i: usize) -> Kept
    requires { keeps ≡ true → (i + 1) * 8 ≤ length kept.now }
    ensures { result ≡ kept_at keeps kept.now i }
{
    if keeps {
        let start = i * 8;
        let end = start + 8;
        let bytes = &kept[start..end];
        tile_from(bytes)
    } else {
        Kept::absent()
    }
}

fn put_bytes(kept: &mut [u8], at: usize, bytes: [u8; 8])
    requires { at + 8 ≤ length kept.old }
    ensures { kept.new ≡ sets kept.old at (get_or bytes 0 0 ∷ get_or bytes 1 0 ∷ get_or bytes 2 0
        ∷ get_or bytes 3 0 ∷ get_or bytes 4 0 ∷ get_or bytes 5 0 ∷ get_or bytes 6 0 ∷ get_or bytes 7 0 ∷ []) }
{
    kept[at] = bytes[0];
    kept[at + 1] = bytes[1];
    kept[at + 2] = bytes[2];
    kept[at + 3] = bytes[3];
    kept[at + 4] = bytes[4];
    kept[at + 5] = bytes[5];
    kept[at + 6] = bytes[6];
    kept[at + 7] = bytes[7];
}

fn put_kept(keeps: bool, kept: &mut [u8], i: usize, after: Kept)
    requires { keeps ≡ true → (i + 1) * 8 ≤ length kept.old }
    ensures { kept.new ≡ kept_over keeps kept.old i after }
{
    if keeps {
        let tile = after.tile;
        put_bytes(kept, i * 8, cached::to_bytes(tile));
    }
}

fn before_of(decision: Decision) -> usize
    ensures { result ≡ before_of (decision_in decision) }
{
    match decision {
        Decision::None => 0,
        Decision::Solid(_, before) => before,
        Decision::Paint => 0,
    }
}

fn code_of(decision: Decision) -> usize
    ensures { result ≡ code_of (decision_in decision) }
{
    decide::code_of(decision) as usize
}

fn put_six(
    told: &mut [usize],
    at: usize,
    a: usize,
    b: usize,
    c: usize,
    d: usize,
    e: usize,
    f: usize,
)
    requires { at + 6 ≤ length told.old }
    ensures { told.new ≡ sets told.old at (a ∷ b ∷ c ∷ d ∷ e ∷ f ∷ []) }
{
    told[at] = a;
    told[at + 1] = b;
    told[at + 2] = c;
    told[at + 3] = d;
    told[at + 4] = e;
    told[at + 5] = f;
}

fn put_told(told: &mut [usize], i: usize, done: TileDone, shown: usize, carried: usize)
    requires { (i + 1) * 6 ≤ length told.old }
    ensures { told.new
        ≡ sets told.old (i * 6) (tile_numbers (tile_answer_in done) shown carried) }
{
    let decision = done.decision;
    let skipped = done.skipped;
    put_six(
        told,
        i * 6,
        code_of(decision),
        before_of(decision),
        done.listed,
        skipped.0,
        shown,
        carried,
    );
}

fn put_four(bottoms: &mut [f32], at: usize, r: f32, g: f32, b: f32, a: f32)
    requires { at + 4 ≤ length bottoms.old }
    ensures { bottoms.new ≡ sets bottoms.old at (r ∷ g ∷ b ∷ a ∷ []) }
{
    bottoms[at] = r;
    bottoms[at + 1] = g;
    bottoms[at + 2] = b;
    bottoms[at + 3] = a;
}

fn put_bottom(bottoms: &mut [f32], i: usize, decision: Decision)
    requires { (i + 1) * 4 ≤ length bottoms.old }
    ensures { bottoms.new ≡ bottoms_over (decision_in decision) i bottoms.old }
{
    match decision {
        Decision::None => {},
        Decision::Solid(color, _) => {
            put_four(bottoms, i * 4, color.r, color.g, color.b, color.a);
        },
        Decision::Paint => {},
    }
}

// The id of a painted layer, and its mark.
pub fn put_words(painted: &mut [u32], at: usize, id: u32, mark: u32)
    requires { at + 2 ≤ length painted.old }
    ensures { painted.new ≡ sets painted.old at (id ∷ mark ∷ []) }
{
    painted[at] = id;
    painted[at + 1] = mark;
}

// What is noted of the tile of number i, beside its layers.
pub fn put_tile(
    keeps: bool,
    i: usize,
    done: TileDone,
    after: Kept,
    shown: usize,
    carried: usize,
    kept: &mut [u8],
    told: &mut [usize],
    bottoms: &mut [f32],
)
    requires { NoteRoom keeps i kept.old told.old bottoms.old }
    ensures kept_after { kept.new ≡ kept_over keeps kept.old i after }
    ensures told_after { told.new
        ≡ sets told.old (i * 6) (tile_numbers (tile_answer_in done) shown carried) }
    ensures bottoms_after { bottoms.new ≡ bottoms_over (decision_in done.decision) i bottoms.old }
{
    let decision = done.decision;
    put_kept(keeps, kept, i, after);
    put_told(told, i, done, shown, carried);
    put_bottom(bottoms, i, decision);
}
