// Which layer record stands.
ghost use Rattle.revision_statements.specs.Sent.{sent_of};
ghost use Rattle.revision_statements.specs.Verdict.{stand_verdict};
ghost use Rattle.ffi.specs.Revisions.{StandTold};

// 0, the standing layers in the lent table and in `standing` how many they are, or the number of the refusal. A record
// is ten words and four floats; what is left over of either plays no part.
#[unsafe(no_mangle)]
pub extern "C" fn ffi_stand(
    records: &[u32],
    record_colors: &[f32],
    layers: &mut [u32],
    colors: &mut [f32],
    standing: &mut usize,
) -> u32
    ensures { StandTold
        (stand_verdict records.now record_colors.now layers.old
        colors.old)
        (sent_of records.now record_colors.now)
        layers.old colors.old standing.old result layers.new
        colors.new standing.new }
{
    ffi::standing::ffi_stand(records, record_colors, layers, colors, standing)
}
