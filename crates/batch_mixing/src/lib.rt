// The layers that a solid tile mixes over its bottom colour, noted in lent memory.
#![tactic(auto)]

ghost use Rattle.std.specs.Prelude.{◌≡◌, true, cond, ◌+◌, ◌*◌, ◌≤◌, length, take};
ghost use Rattle.pass_statements.specs.Decision.{decision_in};
ghost use Rattle.row_lines.specs.Shown.{shown_in};
ghost use Rattle.batch_statements.specs.BatchLent.{mixed_of, words_at, mixes_from};
ghost use Rattle.batch_mixing.specs.InnerMixing.{mix_at, mix_next, mix_from, is_solid, MixRoom};

use pass_statements::decide::Decision;

// How many of the shown layers to come lie before those to mix, and how many planes are used.
#[derive(Clone, Copy)]
pub struct Mixing {
    pub before: usize,
    pub used: usize,
}

// The next listed layer: where it is shown and does not lie before those to mix, its id and mark 0 are noted, as of a
// painted layer; its plane is left as it was.
fn mix_entry(unmasked: bool, id: u32, at: Mixing, painted: &mut [u32]) -> Mixing
    requires { (at.used + 1) * 2 ≤ length painted.old }
    ensures { mix_at result painted.new
        ≡ cond unmasked (mix_next (mix_at at painted.old) id) (mix_at at painted.old) }
{
    if !unmasked {
        return at;
    }
    let lies_before = 0 < at.before;
    if lies_before {
        return Mixing {
            before: at.before - 1,
            used: at.used,
        };
    }
    let words = at.used * 2;
    batch_noting::put_words(painted, words, id, 0);
    Mixing {
        before: 0,
        used: at.used + 1,
    }
}

// The layers of a solid tile that are mixed over its bottom colour: the shown ones but for the first so many.
fn mix_listed(
    list_ids: &[u32],
    list_unmasked: &[bool],
    skipped: usize,
    listed: usize,
    before: usize,
    used: usize,
    painted: &mut [u32],
) -> usize
    requires { MixRoom list_ids.now list_unmasked.now skipped listed used painted.old }
    ensures { words_at result painted.new
        ≡ mix_from (mix_at (record { before = before; used = used }) painted.old)
        (shown_in skipped (take listed list_unmasked.now) (take listed list_ids.now)) }
{
    let mut at = Mixing {
        before: before,
        used: used,
    };
    let flags = &list_unmasked[skipped..listed];
    for (unmasked, id) in flags.iter().zip(&list_ids[skipped..listed]) {
        at = mix_entry(*unmasked, *id, at, painted);
    }
    at.used
}

// Notes the layers that a tile mixes. How many planes are used then.
pub fn put_mixed(
    decision: Decision,
    list_ids: &[u32],
    list_unmasked: &[bool],
    skipped: usize,
    listed: usize,
    used: usize,
    painted: &mut [u32],
) -> usize
    requires { is_solid (decision_in decision) ≡ true
        → MixRoom list_ids.now list_unmasked.now skipped listed used painted.old }
    ensures { words_at result painted.new ≡ mixes_from (words_at used painted.old)
        (mixed_of (decision_in decision)
        (shown_in skipped (take listed list_unmasked.now) (take listed list_ids.now))) }
{
    match decision {
        Decision::None => used,
        Decision::Solid(_, before) => mix_listed(
            list_ids,
            list_unmasked,
            skipped,
            listed,
            before,
            used,
            painted,
        ),
        Decision::Paint => used,
    }
}
