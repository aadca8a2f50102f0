// The second pass, `skip_trivial_clips_pass`, at one layer. The three `if let`s of the Rust's loop are `open_clip`,
// `draw` and `close_clip`; the pass itself is of passes.
#![tactic(auto)]

ghost use Rattle.std.specs.Prelude.{◌≡◌};
ghost use Rattle.pass_statements.specs.Clips.{opened_of, clipped_of, drawn_of, closed_of, is_clip, step_of};

use pass_statements::Index;
use pass_statements::clips::{ActiveClip, Closed, Drawn, Step};
use pass_statements::item::Item;
use styling::Func;

fn open_clip(
    func: Func,
    cur: Option<ActiveClip>,
    id: u32,
    full: bool,
    i: Index,
) -> Option<ActiveClip>
    ensures { result ≡ opened_of func cur id full i.0 }
{
    match func {
        Func::Clip(span) => Some(ActiveClip {
            full: full,
            last: (id as u64) + (span as u64),
            at: i,
            used: false,
        }),
        Func::Draw(_) => cur,
    }
}

fn draw_clipped(cur: Option<ActiveClip>, id: u32) -> Drawn
    ensures { result ≡ clipped_of cur id }
{
    match cur {
        None => Drawn {
            cur: None,
            masked: true,
            unclipped: false,
        },
        Some(k) => {
            if k.last < (id as u64) {
                return Drawn {
                    cur: Some(k),
                    masked: true,
                    unclipped: false,
                };
            }
            let used = k.used | !k.full;
            let at = k.at;
            Drawn {
                cur: Some(ActiveClip {
                    full: k.full,
                    last: k.last,
                    at: at,
                    used: used,
                }),
                masked: false,
                unclipped: k.full,
            }
        }
    }
}

fn draw(clipped: bool, cur: Option<ActiveClip>, id: u32) -> Drawn
    ensures { result ≡ drawn_of clipped cur id }
{
    if clipped {
        draw_clipped(cur, id)
    } else {
        Drawn {
            cur: cur,
            masked: false,
            unclipped: false,
        }
    }
}

fn close_clip(cur: Option<ActiveClip>, id: u32) -> Closed
    ensures { result ≡ closed_of cur id }
{
    match cur {
        None => Closed {
            cur: None,
            unused: false,
            at: Index(0),
        },
        Some(k) => {
            if k.last < (id as u64) {
                let at = k.at;
                return Closed {
                    cur: None,
                    unused: !k.used,
                    at: at,
                };
            }
            Closed {
                cur: Some(k),
                unused: false,
                at: Index(0),
            }
        }
    }
}

pub fn is_clip(func: Func) -> bool
    ensures { result ≡ is_clip func }
{
    match func {
        Func::Clip(_) => true,
        Func::Draw(_) => false,
    }
}

// One turn, at the listed layer x in place i.
pub fn clip_step(x: Item, cur: Option<ActiveClip>, i: Index) -> Step
    ensures { result ≡ step_of x cur i.0 }
{
    let func = x.func;
    let opened = open_clip(func, cur, x.id, x.full, i);
    let drawn = draw(func.is_clipped(), opened, x.id);
    let after = drawn.cur;
    let closed = close_clip(after, x.id);
    let next = closed.cur;
    let at = closed.at;
    let clip = is_clip(func);
    Step {
        cur: next,
        masked: (clip & x.full) | (!clip & drawn.masked),
        unclipped: drawn.unclipped,
        unused: closed.unused,
        at: at,
    }
}
