// The octets of a plane that hold a coverage above 0, as the bits of a mark, and their count.
#![tactic(auto)]

pub mod weights;

ghost use Rattle.std.specs.Prelude.{◌≡◌, ◌<◌, ◌≤◌, ◌/◌, ◌%◌, length};
ghost use Rattle.cover_statements.specs.Mark.{is_octet_used, mark_of, marked, Counted};
ghost use Rattle.refusals.specs.Refusal.{given_or_refused};

use refusals::Refusal;

// Octet h of a column is its rows 8h to 8h + 7, so octet 2 × column + h is the eight numbers from 128 × h + column on,
// 16 apart.
fn is_used(plane: &[f32], octet: usize) -> bool
    requires { (octet < 32) × (256 ≤ length plane.now) }
    ensures { result ≡ is_octet_used plane.now (octet / 2) (octet % 2) }
{
    let a = 128 * (octet % 2) + octet / 2;
    (plane[a] > 0.0)
        | (plane[a + 16] > 0.0)
        | (plane[a + 32] > 0.0)
        | (plane[a + 48] > 0.0)
        | (plane[a + 64] > 0.0)
        | (plane[a + 80] > 0.0)
        | (plane[a + 96] > 0.0)
        | (plane[a + 112] > 0.0)
}

// The mark of a plane, from the highest octet down.
pub fn mark_of(plane: &[f32]) -> u32
    requires { 256 ≤ length plane.now }
    ensures { result ≡ mark_of plane.now }
{
    let mut mark: u32 = 0;
    for octet in (0..32).rev() {
        mark = mark * 2 + is_used(plane, octet) as u32;
    }
    mark
}

// The mark of any plane that is long enough, else refusal 1.
pub fn mark_plane(plane: &[f32]) -> Result<u32, Refusal>
    ensures { given_or_refused result ≡ marked plane.now }
{
    if plane.len() < 256 {
        Err(Refusal::Room)
    } else {
        Ok(mark_of(plane))
    }
}

// How many octets a mark has.
pub fn octets(mark: u32) -> u32
    ensures { Counted mark result }
{
    u32::count_ones(mark)
}
