// The lent layer table: eight words a record (id, rule, func, span, clipped, fill, blend mode, unchanged), four floats
// a record (red, green, blue, alpha), and how many records there are.
#![tactic(auto)]

ghost use Rattle.std.specs.Prelude.{◌≡◌, ◌*◌, ◌+◌, ◌≤◌, ◌<◌, true, ◌&&◌, ltb, eqb, length};
ghost use Rattle.layer_table.specs.Record.{in_range, func_of, layer_of};
ghost use Rattle.layer_table.specs.Table.{id_at, words_at, color_at, layer_at, table_ids, is_table_short, is_table};
ghost use Rattle.layer_table.specs.Lookup.{record_place, found_of};
ghost use Rattle.styling.specs.Ascending.{strictly_ascends};

use styling::{Color, Func, Layer, Props, Style, codes};

// The largest layer id, and the longest span.
const LAYER_LIMIT: u32 = 2097151;

// How many records are tried from a hint on, before a table is searched.
const TRIES: usize = 6;

// The words of one record, as they stand in the table.
#[derive(Clone, Copy)]
pub struct Words {
    pub id: u32,
    pub rule: u32,
    pub func: u32,
    pub span: u32,
    pub clipped: u32,
    pub fill: u32,
    pub mode: u32,
    pub unchanged: u32,
}

// The id of a record.
pub fn id_at(layers: &[u32], i: usize) -> u32
    requires { 8 * i < length layers.now }
    ensures { result ≡ id_at layers.now i }
{
    layers[8 * i]
}

fn words_at(layers: &[u32], i: usize) -> Words
    requires { 8 * i + 8 ≤ length layers.now }
    ensures { result ≡ words_at layers.now i }
{
    let at = 8 * i;
    Words {
        id: layers[at],
        rule: layers[at + 1],
        func: layers[at + 2],
        span: layers[at + 3],
        clipped: layers[at + 4],
        fill: layers[at + 5],
        mode: layers[at + 6],
        unchanged: layers[at + 7],
    }
}

fn color_at(colors: &[f32], i: usize) -> Color
    requires { 4 * i + 4 ≤ length colors.now }
    ensures { result ≡ color_at colors.now i }
{
    let at = 4 * i;
    Color {
        r: colors[at],
        g: colors[at + 1],
        b: colors[at + 2],
        a: colors[at + 3],
    }
}

fn to_func(words: Words, color: Color) -> Func
    ensures { result ≡ func_of words color }
{
    let fill = codes::fill(words.fill, color);
    let mode = codes::blend_mode(words.mode);
    if words.func == 0 {
        Func::Draw(Style {
            is_clipped: words.clipped == 1,
            fill: fill,
            blend_mode: mode,
        })
    } else {
        Func::Clip(words.span)
    }
}

fn to_layer(words: Words, color: Color) -> Layer
    ensures { result ≡ layer_of words color }
{
    let fill_rule = codes::fill_rule(words.rule);
    let func = to_func(words, color);
    let props = Props {
        fill_rule: fill_rule,
        func: func,
    };
    Layer {
        id: words.id,
        props: props,
        is_unchanged: words.unchanged == 1,
    }
}

// The layer that a record says.
pub fn layer_at(layers: &[u32], colors: &[f32], i: usize) -> Layer
    requires { (8 * i + 8 ≤ length layers.now) × (4 * i + 4 ≤ length colors.now) }
    ensures { result ≡ layer_at layers.now colors.now i }
{
    to_layer(words_at(layers, i), color_at(colors, i))
}

// Refusal 1: whether the table is shorter than its count.
pub fn is_short(layers: &[u32], colors: &[f32], count: usize) -> bool
    ensures { result ≡ is_table_short layers.now colors.now count }
{
    (layers.len() / 8 < count) | (colors.len() / 4 < count)
}

// What refusal 4 asks of one record.
pub fn is_in_range(words: Words) -> bool
    ensures { result ≡ in_range words }
{
    (words.id <= LAYER_LIMIT)
        & (words.rule <= 1)
        & (words.func <= 1)
        & (words.span <= LAYER_LIMIT)
        & (words.clipped <= 1)
        & (words.fill <= 2)
        & (words.mode <= 15)
        & (words.unchanged <= 1)
}

// Whether neither refusal 1 nor refusal 4 applies to the table. `low` is the least id that may follow. No early exit: a
// table is in order more often than not.
pub fn is_table(layers: &[u32], colors: &[f32], count: usize) -> bool
    ensures { result ≡ is_table layers.now colors.now count }
{
    if is_short(layers, colors, count) {
        return false;
    }
    let mut ok = true;
    let mut low: u64 = 0;
    for i in 0..count {
        let words = words_at(layers, i);
        let id = words.id as u64;
        ok &= is_in_range(words) & (low <= id);
        low = id + 1;
    }
    ok
}

// The place of a layer in an ascending table, by halving.
pub fn find(layers: &[u32], count: usize, id: u32) -> Option<usize>
    requires { (8 * count ≤ length layers.now) × (strictly_ascends (table_ids layers.now count) ≡ true) }
    ensures { found_of result ≡ record_place (table_ids layers.now count) id }
{
    if count == 0 {
        return None;
    }
    let mut start = 0;
    let mut len = count;
    while 1 < len {
        let half = len / 2;
        if id_at(layers, start + half) <= id {
            start += half;
            len -= half;
        } else {
            len = half;
        }
    }
    if id_at(layers, start) == id {
        Some(start)
    } else {
        None
    }
}

// Whether the table has a record at a place, and it is the layer's.
fn is_at(layers: &[u32], count: usize, at: usize, id: u32) -> bool
    requires { 8 * count ≤ length layers.now }
    ensures { result ≡ (ltb at count && eqb (id_at layers.now at) id) }
{
    at < count && id_at(layers, at) == id
}

// Where a layer's record stands if no id between it and that of the record at a place is left out.
fn guess_from(layers: &[u32], count: usize, at: usize, id: u32) -> usize
    requires { 8 * count ≤ length layers.now }
{
    if at < count {
        let there = id_at(layers, at);
        if there <= id {
            return at + (id - there) as usize;
        }
    }
    at
}

// The same place as by `find`, with any hint where it may be: layers are mostly looked up in their order, and ids often
// follow each other, so the record as many places on as the id is greater is tried first, then the next ones.
pub fn find_from(layers: &[u32], count: usize, hint: usize, id: u32) -> Option<usize>
    requires { (8 * count ≤ length layers.now) × (strictly_ascends (table_ids layers.now count) ≡ true) }
    ensures { found_of result ≡ record_place (table_ids layers.now count) id }
{
    let guess = guess_from(layers, count, hint, id);
    if is_at(layers, count, guess, id) {
        return Some(guess);
    }
    if hint < count {
        for at in hint..hint + TRIES {
            if is_at(layers, count, at, id) {
                return Some(at);
            }
        }
    }
    find(layers, count, id)
}
