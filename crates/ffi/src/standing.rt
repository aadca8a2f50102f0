// Which layer record stands.
ghost use Rattle.std.specs.Prelude.{◌≡◌};
ghost use Rattle.refusals.specs.Refusal.{given_or_refused};
ghost use Rattle.revision_statements.specs.Sent.{sent_of};
ghost use Rattle.revision_statements.specs.Verdict.{stand_verdict};
ghost use Rattle.ffi_numbers.specs.Numbers.{refusal_number, value_or};
ghost use Rattle.ffi.specs.Revisions.{StandTold};

use refusals::Refusal;

fn put_standing(answer: Result<usize, Refusal>, standing: &mut usize) -> u32
    ensures value { result ≡ refusal_number (given_or_refused answer) }
    ensures standing_after { standing.new ≡ value_or (given_or_refused answer) standing.old }
{
    match answer {
        Ok(n) => {
            *standing = n;
            0
        },
        Err(refusal) => refusals::number_of(refusal),
    }
}

// 0, the standing layers in the lent table and in `standing` how many they are, or the number of the refusal. A record
// is ten words and four floats; what is left over of either plays no part.
#[unsafe(no_mangle)]
pub extern "C" fn ffi_stand(
    records: &[u32],
    record_colors: &[f32],
    layers: &mut [u32],
    colors: &mut [f32],
    standing: &mut usize,
) -> u32
    ensures { StandTold
        (stand_verdict records.now record_colors.now layers.old
        colors.old)
        (sent_of records.now record_colors.now)
        layers.old colors.old standing.old result layers.new
        colors.new standing.new }
{
    let answer = revisions::stand(records, record_colors, layers, colors);
    put_standing(answer, standing)
}
