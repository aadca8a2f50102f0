// The layer table of a job: eight words and four floats for each line of block 2.
#![tactic(auto)]

ghost use Rattle.std.specs.Prelude.{◌≡◌, true, ◌*◌, ◌+◌, ◌/◌, ◌≤◌, ◌<◌, pos, length};
ghost use Rattle.laws.specs.Integer.{plus, minus};
ghost use Rattle.laws.specs.Lists.{over, all};
ghost use Rattle.job_lines.specs.Rules.{layer_rule};
ghost use Rattle.job_text_statements.specs.Numbers.{number_at, layer_lines};
ghost use Rattle.job_statements.specs.Table.{pattern, alpha_of, table_words, table_colors};
ghost use Rattle.job_statements.specs.Entries.{word_at, job_color_at};

// A number as a word, a negative one as its 32-bit pattern.
fn to_word(v: i32) -> u32
    ensures { result ≡ pattern v }
{
    v.cast_unsigned()
}

// A word of the table: the number in its place, but 0 (not unchanged) for alpha.
fn word_at(numbers: &[i32], k: usize) -> u32
    requires { k < length numbers.now }
    ensures { result ≡ word_at numbers.now k }
{
    if k % 8 == 7 { 0 } else { to_word(numbers[k]) }
}

pub fn write_words(numbers: &[i32], n: usize, layers: &mut [u32])
    requires { (8 * n ≤ length numbers.now) × (8 * n ≤ length layers.old) }
    ensures { layers.new ≡ over (table_words (layer_lines numbers.now n))
        layers.old }
{
    for k in 0..8 * n {
        layers[k] = word_at(numbers, k);
    }
}

// Alpha becomes an f32 without loss, and the product with 1/256 is exact.
fn to_alpha(v: i32) -> f32
    requires { (minus v ≡ 0) × (plus v ≤ 256) }
    ensures { result ≡ alpha_of (plus v) }
{
    ((v as u16) as f32) * 0.00390625
}

// A float of the table: alpha, or 0 for the other colours.
fn color_at(numbers: &[i32], k: usize) -> f32
    requires { (8 * (k / 4) + 7 < length numbers.now) × (minus (number_at numbers.now (8 * (k / 4) + 7)) ≡ 0)
        × (plus (number_at numbers.now (8 * (k / 4) + 7)) ≤ 256) }
    ensures { result ≡ job_color_at numbers.now k }
{
    if k % 4 == 3 {
        to_alpha(numbers[8 * (k / 4) + 7])
    } else {
        0.0
    }
}

pub fn write_colors(numbers: &[i32], n: usize, colors: &mut [f32])
    requires { (8 * n ≤ length numbers.now) × (4 * n ≤ length colors.old)
        × (all layer_rule (layer_lines numbers.now n) ≡ true) }
    ensures { colors.new ≡ over (table_colors (layer_lines numbers.now n))
        colors.old }
{
    for k in 0..4 * n {
        colors[k] = color_at(numbers, k);
    }
}
