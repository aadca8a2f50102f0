// P7: a tile of three layers painted, a clip with span 1, a clip with span 5 and a clipped draw at 3.
ghost use Rattle.std.specs.Prelude.{◌≡◌, true, [], ◌≤◌, length};
ghost use Rattle.laws.specs.Lists.{all};
ghost use Rattle.painter.specs.Painting.{Paints};
ghost use Rattle.cases.specs.Answers.{is_a_half};
ghost use Rattle.cases.specs.Seen.{Known, Sees};
ghost use Rattle.cases.specs.Inputs.{layer_with, clipped_draw, three_layers, three_carries};

use painter::painting;
use painter::painting::Painting;
use styling::{BlendMode, Fill, FillRule, Func, Layer, Props, Style};

fn layer_of(id: u32, func: Func) -> Layer
    ensures { result ≡ layer_with id func }
{
    let props = Props {
        fill_rule: FillRule::NonZero,
        func: func,
    };
    Layer {
        id: id,
        props: props,
        is_unchanged: false,
    }
}

fn clipped_draw() -> Layer
    ensures { result ≡ clipped_draw }
{
    let style = Style {
        is_clipped: true,
        fill: Fill::Gradient,
        blend_mode: BlendMode::Over,
    };
    layer_of(3, Func::Draw(style))
}

// Paints a layer of the tile: each has half a cover in every row from the left, and no segment.
fn paint(layer: Layer, clip: Option<u32>, plane: &mut [f32]) -> Painting
    requires { (256 ≤ length plane.old) × Known layer }
    ensures { Paints three_layers three_carries [] layer.id layer clip
        plane.old result plane.new }
{
    let ids: [u32; 3] = [1, 2, 3];
    let covers = [8i8; 48];
    let part: [u64; 1] = [0];
    let layers: [u32; 24] = [
        1, 0, 1, 1, 0, 0, 0, 0, 2, 0, 1, 5, 0, 0, 0, 0, 3, 0, 0, 0, 1, 1, 0, 0,
    ];
    let colors = [0.0f32; 12];
    let id = layer.id;
    painting::paint(
        &ids,
        &covers,
        3,
        &part[..0],
        &layers,
        &colors,
        3,
        id,
        layer,
        clip,
        plane,
    )
}

// Whether each number of a plane is 0.5.
pub fn is_half(plane: &[f32]) -> bool
    ensures { result ≡ all is_a_half plane.now }
{
    plane.iter().all(|coverage| *coverage == 0.5)
}

// What painting left: the painter's clip, the mark, and whether the plane is 0.5 throughout.
#[derive(Clone, Copy)]
pub struct Seen {
    pub clip: Option<u32>,
    pub mark: u32,
    pub is_half: bool,
}

// Paints a layer of the tile into a plane of zeros.
fn paint_anew(layer: Layer, clip: Option<u32>) -> Seen
    requires { Known layer }
    ensures { Sees layer clip result }
{
    let mut plane = [0.0f32; 256];
    let painting = paint(layer, clip, &mut plane);
    let after = painting.clip;
    let mark = painting.mark;
    let halves = is_half(&plane);
    Seen {
        clip: after,
        mark: mark,
        is_half: halves,
    }
}

// The two clips and then the draw: all marks are 0, and all planes are written.
pub fn p7() -> bool
    ensures { result ≡ true }
{
    let first = paint_anew(layer_of(1, Func::Clip(1)), None);
    let first_clip = first.clip;
    let second = paint_anew(layer_of(2, Func::Clip(5)), first_clip);
    let second_clip = second.clip;
    let third = paint_anew(clipped_draw(), second_clip);
    let unused = (first.mark == 0) & (second.mark == 0) & (third.mark == 0);
    unused & first.is_half & second.is_half & third.is_half
}
