// The three blocks of a job text, read as numbers.
#![tactic(auto)]

ghost use Rattle.std.specs.Prelude.{◌≤◌, length};
ghost use Rattle.job_text_statements.specs.Read.{BlocksRead};

// Reads the blocks of a text, and stores the numbers of each from the front on: how many lines the second and the third
// block have. Of a broken form it stores what it reads.
pub fn read_blocks(
    s: &[u8],
    head: &mut [i32],
    layers: &mut [i32],
    segments: &mut [i32],
) -> Option<(usize, usize)>
    requires { (4 ≤ length head.old) × (512 ≤ length layers.old) × (3584 ≤ length segments.old) }
    ensures { BlocksRead s.now head.old layers.old segments.old result
        head.new layers.new segments.new }
{
    if 65536 < s.len() {
        return None;
    }
    let (count, head_end) = lines::read_block(s, 0, b"row tiles from to\n", 1, 4, head)?;
    if count != 1 {
        return None;
    }
    let (n, layers_end) = lines::read_block(
        s,
        head_end,
        b"layer rule clip span clipped fill mode alpha\n",
        64,
        8,
        layers,
    )?;
    let (m, end) = lines::read_block(
        s,
        layers_end,
        b"tile_x layer x y rows mult cover\n",
        512,
        7,
        segments,
    )?;
    let is_more = end < s.len();
    if is_more {
        return None;
    }
    Some((n, m))
}
