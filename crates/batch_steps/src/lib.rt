// The steps of a batch between its tiles, by numbers alone: how much room is lent, whether another tile is worked, and
// what the batch answers.
#![tactic(auto)]

ghost use Rattle.std.specs.Prelude.{◌≡◌, Ok, Err, true, not, cond, ◌+◌, ◌/◌, ◌<◌, ◌^◌, min, length};
ghost use Rattle.refusals.specs.Refusal.{judgement_in, number_of};
ghost use Rattle.row_statements.specs.State.{state_in};
ghost use Rattle.batch_statements.specs.BatchLent.{room_for, has_room};
ghost use Rattle.batch_statements.specs.Batch.{next_refused, end_in, answer_in, answer_of};
ghost use Rattle.batch_steps.specs.InnerStanding.{is_pass, goes_on, end_at, end_by, Ends};

use batch_statements::{Batch, End, Room};
use refusals::Refusal;
use row_statements::RowState;

// Where a batch stands between two tiles: the state, how many tiles are worked and planes used, whether the first of the
// two queues holds the carries, and a pass, or why the next tile is refused.
#[derive(Clone, Copy)]
pub struct Standing {
    pub state: RowState,
    pub worked: usize,
    pub used: usize,
    pub first: bool,
    pub verdict: Result<(), Refusal>,
}

fn least(a: usize, b: usize) -> usize
    ensures { result ≡ min a b }
{
    if a < b { a } else { b }
}

// How many tiles there is room for: `keeps` says whether cached tiles are lent.
fn tiles_in(keeps: bool, kept: usize, told: usize, bottoms: usize) -> usize
    ensures { result ≡ cond keeps (min (kept / 8) (min (told / 6) (bottoms / 4))) (min (told / 6) (bottoms / 4)) }
{
    let tiles = least(told / 6, bottoms / 4);
    if keeps { least(kept / 8, tiles) } else { tiles }
}

// The room that is lent. A tile lists at most 256 layers, and none that the table has not.
pub fn room_in(
    count: usize,
    keeps: bool,
    kept: &[u8],
    told: &[usize],
    bottoms: &[f32],
    planes: &[f32],
    painted: &[u32],
) -> Room
    ensures { result ≡ room_for keeps count (length kept.now) (length told.now)
        (length bottoms.now) (length planes.now) (length painted.now) }
{
    Room {
        tiles: tiles_in(keeps, kept.len(), told.len(), bottoms.len()),
        planes: least(planes.len() / 256, painted.len() / 2),
        needed: least(256, count),
    }
}

fn has_room(room: Room, worked: usize, used: usize) -> bool
    ensures { result ≡ has_room room worked used }
{
    if room.planes < room.needed {
        return false;
    }
    (worked < room.tiles) & (used <= room.planes - room.needed)
}

// Whether another tile is worked.
pub fn goes_on(at: Standing, tiles: usize, room: Room) -> bool
    ensures { result ≡ goes_on at tiles room }
{
    let state = at.state;
    at.verdict.is_ok()
        & (at.worked < tiles)
        & (state.next < state.to)
        & has_room(room, at.worked, at.used)
}

// Why no other tile is worked, where none is refused.
fn end_of(state: RowState, worked: usize, tiles: usize) -> End
    ensures { end_in result ≡ end_at (state_in state) worked tiles }
{
    if tiles <= worked {
        return End::Asked;
    }
    if state.to <= state.next {
        return End::RowEnd;
    }
    End::NoRoom
}

// A refusal of the first tile is the batch's own.
fn refused_at(worked: usize, refusal: Refusal) -> Result<End, Refusal>
    ensures { answer_in result ≡ answer_of worked (next_refused (number_of refusal)) }
{
    if worked == 0 {
        return Err(refusal);
    }
    Ok(End::NextRefused(refusal))
}

fn answer_of(at: Standing, tiles: usize) -> Result<End, Refusal>
    ensures { answer_in result ≡ answer_of at.worked (end_by (judgement_in at.verdict) (state_in at.state) at.worked tiles) }
{
    let state = at.state;
    match at.verdict {
        Err(refusal) => refused_at(at.worked, refusal),
        Ok(()) => Ok(end_of(state, at.worked, tiles)),
    }
}

// The batch, where no other tile is worked.
pub fn ended(at: Standing, tiles: usize) -> Batch
    ensures { Ends at tiles result }
{
    let state = at.state;
    let answer = answer_of(at, tiles);
    Batch {
        state: state,
        worked: at.worked,
        used: at.used,
        first: at.first,
        answer: answer,
    }
}

// Before the first tile, by what it is judged.
pub fn started(state: RowState, verdict: Result<(), Refusal>) -> Standing
    ensures { result ≡ record { state = state; worked = 0; used = 0; first = true; verdict = verdict } }
{
    Standing {
        state: state,
        worked: 0,
        used: 0,
        first: true,
        verdict,
    }
}

// The next tile is refused.
pub fn refused(at: Standing, refusal: Refusal) -> Standing
    ensures { result ≡ record {
      state = at.state;
      worked = at.worked;
      used = at.used;
      first = at.first;
      verdict = Err refusal;
    } }
{
    let state = at.state;
    Standing {
        state: state,
        worked: at.worked,
        used: at.used,
        first: at.first,
        verdict: Err(refusal),
    }
}

// Past a tile that is worked and painted: the other queue holds the carries.
pub fn past(at: Standing, state: RowState, used: usize) -> Standing
    requires { at.worked + 1 < 2 ^ 64 }
    ensures { result ≡ record {
      state = state;
      worked = at.worked + 1;
      used = used;
      first = not at.first;
      verdict = Ok tt;
    } }
{
    Standing {
        state: state,
        worked: at.worked + 1,
        used: used,
        first: !at.first,
        verdict: Ok(()),
    }
}
