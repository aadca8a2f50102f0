// Which layer record stands (W-212): records that are sent again, with revisions or as withdrawals, are judged, and the
// layer table of those that stand is written. A record is ten words (id, revision, kind, rule, func, span, clipped,
// fill, blend mode, unchanged), kind 0 with properties and kind 1 a withdrawal, and four floats.
#![tactic(auto)]

pub mod judging;
pub mod writing;

ghost use Rattle.std.specs.Prelude.{◌≡◌};
ghost use Rattle.refusals.specs.Refusal.{judgement_in, given_or_refused};
ghost use Rattle.revision_statements.specs.Sent.{sent_room, sent_of};
ghost use Rattle.revision_statements.specs.Verdict.{stand_verdict, Stands};

use refusals::Refusal;

// How many records the lent memory holds. What is left over plays no part.
fn sent_room(records: &[u32], record_colors: &[f32]) -> usize
    ensures { result ≡ sent_room records.now record_colors.now }
{
    (records.len() / 10).min(record_colors.len() / 4)
}

// Refusals 4, 15 and 1, the first of them that applies.
pub fn judge_records(
    records: &[u32],
    record_colors: &[f32],
    layers: &[u32],
    colors: &[f32],
) -> Result<(), Refusal>
    ensures { judgement_in result ≡ stand_verdict records.now record_colors.now
        layers.now colors.now }
{
    let n = sent_room(records, record_colors);
    if !judging::are_good(records, n) {
        return Err(Refusal::Table);
    }
    let counted = revision_walk::count(records, n);
    if counted.own < n {
        return Err(Refusal::Revisions);
    }
    if layer_table::is_short(layers, colors, counted.standing) {
        return Err(Refusal::Room);
    }
    Ok(())
}

// Writes the layer table of the records that stand, ids ascending, and answers how many they are. A refusal leaves the
// table as it was.
pub fn stand(
    records: &[u32],
    record_colors: &[f32],
    layers: &mut [u32],
    colors: &mut [f32],
) -> Result<usize, Refusal>
    ensures { Stands
        (stand_verdict records.now record_colors.now layers.old
        colors.old)
        (sent_of records.now record_colors.now)
        layers.old colors.old (given_or_refused result) layers.new colors.new }
{
    judge_records(records, record_colors, layers, colors)?;
    Ok(writing::write_standing(
        records,
        record_colors,
        sent_room(records, record_colors),
        layers,
        colors,
    ))
}
