// The job text of the row program, read into a lent layer table and a lent row. `job_table` and `job_row` write them.
#![tactic(auto)]

ghost use Rattle.job_statements.specs.Read.{LinesJudged, job_outcome_on, Left, JobRead};

use job_statements::{JobError, Numbers};
use job_text_statements::Head;

// Writes a job whose numbers are read and judged: the table and the row, where there is room for both.
fn write_job(
    head: Head,
    layer_numbers: &[i32],
    n: usize,
    segment_numbers: &[i32],
    m: usize,
    count: usize,
    layers: &mut [u32],
    colors: &mut [f32],
    row: &mut [u64],
) -> Result<Numbers, JobError>
    requires { LinesJudged layer_numbers.now n segment_numbers.now m count }
    ensures { Left (job_outcome_on head layer_numbers.now n segment_numbers.now m
        layers.old colors.old row.old)
        layers.old colors.old row.old result layers.new colors.new
        row.new }
{
    let has_room = (n <= layers.len() / 8) & (n <= colors.len() / 4) & (count <= row.len());
    if !has_room {
        return Err(JobError::NoRoom);
    }
    job_table::write_words(layer_numbers, n, layers);
    job_table::write_colors(layer_numbers, n, colors);
    job_row::write_row(segment_numbers, m, head.row, row);
    Ok(Numbers {
        head,
        layers: n,
        segments: count,
    })
}

// Reads a job text. Refusal 10, and arrays that are too short, leave every array as it was.
pub fn read_job(
    text: &[u8],
    layers: &mut [u32],
    colors: &mut [f32],
    row: &mut [u64],
) -> Result<Numbers, JobError>
    ensures { JobRead text.now layers.old colors.old row.old result
        layers.new colors.new row.new }
{
    let mut head_numbers = [0i32; 4];
    let mut layer_numbers = [0i32; 512];
    let mut segment_numbers = [0i32; 3584];
    let counts = job_text::read_numbers(
        text,
        &mut head_numbers,
        &mut layer_numbers,
        &mut segment_numbers,
    )
    .ok_or(JobError::Malformed)?;
    let head = job_text::head_of(&head_numbers);
    write_job(
        head,
        &layer_numbers,
        counts.layers,
        &segment_numbers,
        counts.lines,
        counts.segments,
        layers,
        colors,
        row,
    )
}
