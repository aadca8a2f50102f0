// Colours and the layer table, as it is lent.
ghost use Rattle.std.specs.Prelude.{◌≡◌};
ghost use Rattle.styling.specs.Codes.{mode_code, mode_of};
ghost use Rattle.styling.specs.Color.{same_color};
ghost use Rattle.styling.specs.Style.{is_opaque};
ghost use Rattle.layer_table.specs.Table.{is_table_short, is_table};
ghost use Rattle.ffi.specs.Layers.{color_from, previous_of, draw_of};

use styling::{Color, Func, Style, codes};

pub fn to_color(numbers: [f32; 4]) -> Color
    ensures { result ≡ color_from numbers }
{
    Color {
        r: numbers[0],
        g: numbers[1],
        b: numbers[2],
        a: numbers[3],
    }
}

// The clear colour of the frame before, where one is given.
pub fn to_previous(given: bool, numbers: [f32; 4]) -> Option<Color>
    ensures { result ≡ previous_of given numbers }
{
    if given { Some(to_color(numbers)) } else { None }
}

#[unsafe(no_mangle)]
pub extern "C" fn ffi_color_eq(color: &[f32; 4], other: &[f32; 4]) -> bool
    ensures { result ≡ same_color (color_from color.now) (color_from other.now) }
{
    let first = *color;
    let second = *other;
    to_color(first).eq(to_color(second))
}

// Whether a draw with this fill, blend mode and colour hides what is below it.
#[unsafe(no_mangle)]
pub extern "C" fn ffi_is_opaque(fill: u32, blend_mode: u32, color: &[f32; 4]) -> bool
    ensures { result ≡ is_opaque (draw_of fill blend_mode color.now) }
{
    let numbers = *color;
    let fill = codes::fill(fill, to_color(numbers));
    let blend_mode = codes::blend_mode(blend_mode);
    Func::Draw(Style {
        is_clipped: false,
        fill: fill,
        blend_mode: blend_mode,
    })
    .is_opaque()
}

// The number of the blend mode of a number.
#[unsafe(no_mangle)]
pub extern "C" fn ffi_blend_mode(code: u32) -> u32
    ensures { result ≡ mode_code (mode_of code) }
{
    codes::blend_mode(code).code()
}

// Whether the table is shorter than its count.
#[unsafe(no_mangle)]
pub extern "C" fn ffi_is_short(layers: &[u32], colors: &[f32], count: usize) -> bool
    ensures { result ≡ is_table_short layers.now colors.now count }
{
    layer_table::is_short(layers, colors, count)
}

// Whether no refusal applies to the table.
#[unsafe(no_mangle)]
pub extern "C" fn ffi_is_table(layers: &[u32], colors: &[f32], count: usize) -> bool
    ensures { result ≡ is_table layers.now colors.now count }
{
    layer_table::is_table(layers, colors, count)
}
