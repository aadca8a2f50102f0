// Which layers are unchanged since the frame before: those with the same record and the same segments.
use crate::text::id_at;
use pixel_segment::PixelSegment;

// A channel of a table's record, which has four.
fn channel_at(colors: &[f32], place: usize) -> f32 {
    colors.get(place).copied().unwrap_or(0.0)
}

// The place of word k of the record at place i. There are at most 64 records.
fn word_place(i: usize, k: usize) -> usize {
    if 64 <= i {
        return 0;
    }
    if 8 <= k {
        return 0;
    }
    i * 8 + k
}

// The place of its alpha.
fn alpha_place(i: usize) -> usize {
    if i < 64 { i * 4 + 3 } else { 0 }
}

fn is_same_alpha(old: &[f32], p: usize, new: &[f32], i: usize) -> bool {
    channel_at(old, alpha_place(p)) == channel_at(new, alpha_place(i))
}

fn is_same_word(old: &[u32], p: usize, new: &[u32], i: usize, k: usize) -> bool {
    id_at(old, word_place(p, k)) == id_at(new, word_place(i, k))
}

// Whether two records are the same but for the last word, which says whether the layer is unchanged.
fn is_same_record(old: &[u32], p: usize, new: &[u32], i: usize) -> bool {
    is_same_word(old, p, new, i, 0)
        & is_same_word(old, p, new, i, 1)
        & is_same_word(old, p, new, i, 2)
        & is_same_word(old, p, new, i, 3)
        & is_same_word(old, p, new, i, 4)
        & is_same_word(old, p, new, i, 5)
        & is_same_word(old, p, new, i, 6)
}

// Whether a table has the record at place i of another.
fn has_record(
    old: &[u32],
    old_colors: &[f32],
    old_count: usize,
    new: &[u32],
    colors: &[f32],
    i: usize,
) -> bool {
    let mut found = false;
    for p in 0..old_count {
        found |= is_same_record(old, p, new, i) & is_same_alpha(old_colors, p, colors, i);
    }
    found
}

// How often a row has a word.
fn count_word(row: &[u64], word: u64) -> usize {
    let mut n: usize = 0;
    for other in row {
        n = n.wrapping_add((*other == word) as usize);
    }
    n
}

fn is_of_layer(word: u64, id: u32) -> bool {
    PixelSegment(word).layer_id() == id
}

// Whether another row has each word of a layer as often.
fn has_segments(row: &[u64], other: &[u64], id: u32) -> bool {
    let mut ok = true;
    for word in row {
        let same = count_word(row, *word) == count_word(other, *word);
        ok &= same | !is_of_layer(*word, id);
    }
    ok
}

fn set_unchanged(layers: &mut [u32; 512], i: usize, unchanged: bool) {
    let at = word_place(i, 7);
    if at < 512 {
        layers[at] = unchanged as u32;
    }
}

// Says of each layer of a table whether it is unchanged.
pub fn mark_unchanged(
    old_layers: &[u32],
    old_colors: &[f32],
    old_count: usize,
    old_row: &[u64],
    layers: &mut [u32; 512],
    colors: &[f32],
    count: usize,
    row: &[u64],
) {
    for i in 0..count {
        let id = id_at(layers, word_place(i, 0));
        let same = has_record(old_layers, old_colors, old_count, layers, colors, i)
            & has_segments(row, old_row, id)
            & has_segments(old_row, row, id);
        set_unchanged(layers, i, same);
    }
}
