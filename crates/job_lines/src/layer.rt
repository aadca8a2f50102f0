// A line of block 2: a layer.
ghost use Rattle.std.specs.Prelude.{◌≡◌};
ghost use Rattle.job_lines.specs.Rules.{layer_rule};

use crate::range::is_within;

#[derive(Clone, Copy)]
pub struct LayerLine {
    pub layer: i32,
    pub rule: i32,
    pub clip: i32,
    pub span: i32,
    pub clipped: i32,
    pub fill: i32,
    pub mode: i32,
    pub alpha: i32,
}

// A clip has 0 in clipped, fill, mode and alpha; a draw has span 0.
pub fn is_layer(l: LayerLine) -> bool
    ensures { result ≡ layer_rule l }
{
    let is_plain = is_within(l.clipped, 0, 0)
        & is_within(l.fill, 0, 0)
        & is_within(l.mode, 0, 0)
        & is_within(l.alpha, 0, 0);
    is_within(l.alpha, 0, 256)
        & (!is_within(l.clip, 1, 1) | is_plain)
        & (!is_within(l.clip, 0, 0) | is_within(l.span, 0, 0))
}
