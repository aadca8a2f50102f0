// A job read from the front of an input: one byte more than a job may have is enough to tell a longer text.
#![tactic(auto)]

ghost use Rattle.std.specs.Prelude.{List, ℕ};
ghost use Rattle.input_front.specs.Front.{HoldsFront};
ghost use Rattle.job_statements.specs.Read.{JobRead};

use job_statements::{JobError, Numbers};

// Reads the job of an input of which the first 65,537 bytes were read, n of them being there: they decide it.
pub fn read_front(
    buffer: &[u8; 65537],
    n: usize,
    layers: &mut [u32],
    colors: &mut [f32],
    row: &mut [u64],
) -> Result<Numbers, JobError>
    ensures { (whole : List ℕ) → HoldsFront buffer.now n whole
        → JobRead whole layers.old colors.old row.old result
        layers.new colors.new row.new }
{
    job::read_job(input_front::front(buffer, n), layers, colors, row)
}
