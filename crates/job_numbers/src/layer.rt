// The lines of block 2: layers.
ghost use Rattle.std.specs.Prelude.{◌≡◌, ◌+◌, ◌*◌, ◌≤◌, length};
ghost use Rattle.laws.specs.Lists.{all};
ghost use Rattle.job_lines.specs.Rules.{layer_rule};
ghost use Rattle.job_text_statements.specs.Numbers.{layer_line_at, layer_lines};

use job_lines::layer::{LayerLine, is_layer};

fn layer_at(numbers: &[i32], i: usize) -> LayerLine
    requires { 8 * i + 8 ≤ length numbers.now }
    ensures { result ≡ layer_line_at numbers.now i }
{
    let at = 8 * i;
    LayerLine {
        layer: numbers[at],
        rule: numbers[at + 1],
        clip: numbers[at + 2],
        span: numbers[at + 3],
        clipped: numbers[at + 4],
        fill: numbers[at + 5],
        mode: numbers[at + 6],
        alpha: numbers[at + 7],
    }
}

pub fn are_layers(numbers: &[i32], n: usize) -> bool
    requires { 8 * n ≤ length numbers.now }
    ensures { result ≡ all layer_rule (layer_lines numbers.now n) }
{
    let mut ok = true;
    for i in 0..n {
        ok &= is_layer(layer_at(numbers, i));
    }
    ok
}
