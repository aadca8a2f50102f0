// How layers are drawn (styling.rs), without the contents of gradients and textures. `codes` reads the numbers of a
// layer record.
#![tactic(auto)]

pub mod codes;

ghost use Rattle.std.specs.Prelude.{◌≡◌};
ghost use Rattle.styling.specs.Color.{same_color};
ghost use Rattle.styling.specs.Codes.{mode_code};
ghost use Rattle.styling.specs.Style.{fill_color, has_alpha_one, is_clipped_of, solid_color, is_opaque};

// Four binary32 numbers.
#[derive(Clone, Copy)]
pub struct Color {
    pub r: f32,
    pub g: f32,
    pub b: f32,
    pub a: f32,
}

// Which points a path's windings leave inside.
#[derive(Clone, Copy)]
pub enum FillRule {
    NonZero,
    EvenOdd,
}

#[derive(Clone, Copy)]
pub enum Fill {
    Solid(Color),
    Gradient,
    Texture,
}

#[derive(Clone, Copy)]
pub enum BlendMode {
    Over,
    Multiply,
    Screen,
    Overlay,
    Darken,
    Lighten,
    ColorDodge,
    ColorBurn,
    HardLight,
    SoftLight,
    Difference,
    Exclusion,
    Hue,
    Saturation,
    Color,
    Luminosity,
}

#[derive(Clone, Copy)]
pub struct Style {
    pub is_clipped: bool,
    pub fill: Fill,
    pub blend_mode: BlendMode,
}

// A draw, or a clip of as many layer ids after its own, by which the clipped draws among them are cut.
#[derive(Clone, Copy)]
pub enum Func {
    Draw(Style),
    Clip(u32),
}

#[derive(Clone, Copy)]
pub struct Props {
    pub fill_rule: FillRule,
    pub func: Func,
}

// A layer of the table: what `LayerProps` of the Rust answers for an id.
#[derive(Clone, Copy)]
pub struct Layer {
    pub id: u32,
    pub props: Props,
    pub is_unchanged: bool,
}

impl Color {
    // Field by field. Joined by & there is no branch.
    pub fn eq(self, other: Color) -> bool
        ensures { result ≡ same_color self other }
    {
        (self.r == other.r) & (self.g == other.g) & (self.b == other.b) & (self.a == other.a)
    }
}

impl BlendMode {
    // Its number in a layer record.
    pub fn code(self) -> u32
        ensures { result ≡ mode_code self }
    {
        match self {
            BlendMode::Over => 0,
            BlendMode::Multiply => 1,
            BlendMode::Screen => 2,
            BlendMode::Overlay => 3,
            BlendMode::Darken => 4,
            BlendMode::Lighten => 5,
            BlendMode::ColorDodge => 6,
            BlendMode::ColorBurn => 7,
            BlendMode::HardLight => 8,
            BlendMode::SoftLight => 9,
            BlendMode::Difference => 10,
            BlendMode::Exclusion => 11,
            BlendMode::Hue => 12,
            BlendMode::Saturation => 13,
            BlendMode::Color => 14,
            BlendMode::Luminosity => 15,
        }
    }
}

impl Fill {
    pub fn solid_color(self) -> Option<Color>
        ensures { result ≡ fill_color self }
    {
        match self {
            Fill::Solid(color) => Some(color),
            Fill::Gradient => None,
            Fill::Texture => None,
        }
    }

    // A solid fill that lets nothing through.
    pub fn is_opaque(self) -> bool
        ensures { result ≡ has_alpha_one (fill_color self) }
    {
        match self {
            Fill::Solid(color) => color.a == 1.0,
            Fill::Gradient => false,
            Fill::Texture => false,
        }
    }
}

impl Func {
    // A draw that the clip below it may cut.
    pub fn is_clipped(self) -> bool
        ensures { result ≡ is_clipped_of self }
    {
        match self {
            Func::Draw(style) => style.is_clipped,
            Func::Clip(_) => false,
        }
    }

    // The colour of a draw with a solid fill.
    pub fn solid_color(self) -> Option<Color>
        ensures { result ≡ solid_color self }
    {
        match self {
            Func::Draw(style) => {
                let fill = style.fill;
                fill.solid_color()
            }
            Func::Clip(_) => None,
        }
    }

    // A draw that hides what is below it.
    pub fn is_opaque(self) -> bool
        ensures { result ≡ is_opaque self }
    {
        match self {
            Func::Draw(style) => {
                let fill = style.fill;
                let mode = style.blend_mode;
                fill.is_opaque() & (mode.code() == 0)
            }
            Func::Clip(_) => false,
        }
    }
}
