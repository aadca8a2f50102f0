// Covers and coverages. A cover is lent as its 16 signed bytes, and a fill rule is its number in a layer record.
ghost use Rattle.std.specs.Prelude.{◌≡◌};
ghost use Rattle.refusals.specs.Refusal.{given_or_refused};
ghost use Rattle.pixel_segment.specs.Field.{cpu};
ghost use Rattle.styling.specs.Codes.{rule_of};
ghost use Rattle.cover_statements.specs.Cover.{is_empty, is_full};
ghost use Rattle.cover_statements.specs.Carry.{add_of};
ghost use Rattle.cover.specs.Adding.{carried_answer};
ghost use Rattle.cover_statements.specs.Coverage.{area_coverage};
ghost use Rattle.cover_statements.specs.Mark.{marked, Counted};
ghost use Rattle.cover_statements.specs.Paint.{part_answer};
ghost use Rattle.ffi_numbers.specs.Numbers.{refusal_number, value_or};
ghost use Rattle.ffi.specs.Covers.{plane_after};

use cover::carry::Carried;
use cover::{Cover, carry};
use refusals::Refusal;
use styling::codes;

#[unsafe(no_mangle)]
pub extern "C" fn ffi_is_empty(covers: &[i8; 16], rule: u32) -> bool
    ensures { result ≡ is_empty (rule_of rule) covers.now }
{
    let bytes = *covers;
    Cover { covers: bytes }.is_empty(codes::fill_rule(rule))
}

#[unsafe(no_mangle)]
pub extern "C" fn ffi_is_full(covers: &[i8; 16], rule: u32) -> bool
    ensures { result ≡ is_full (rule_of rule) covers.now }
{
    let bytes = *covers;
    Cover { covers: bytes }.is_full(codes::fill_rule(rule))
}

// 0 and the covers of the part added to those in `covers`, or the number of the refusal.
#[unsafe(no_mangle)]
pub extern "C" fn ffi_carry(part: &[u64], covers: &mut [i8; 16]) -> u32
    ensures value { result ≡ refusal_number (add_of cpu 16 covers.old part.now) }
    ensures covers_after { covers.new
        ≡ value_or (add_of cpu 16 covers.old part.now) covers.old }
{
    let bytes = *covers;
    put_carried(carry::carry(part, Cover { covers: bytes }), covers)
}

fn put_carried(carried: Carried, covers: &mut [i8; 16]) -> u32
    ensures value { result ≡ refusal_number (carried_answer carried) }
    ensures covers_after { covers.new ≡ value_or (carried_answer carried) covers.old }
{
    if carried.accepted {
        let cover = carried.cover;
        let bytes = cover.covers;
        *covers = bytes;
        0
    } else {
        9
    }
}

// The coverage of a pixel that sees d.
#[unsafe(no_mangle)]
pub extern "C" fn ffi_doubled_area_to_coverage(d: i16, rule: u32) -> f32
    ensures { result ≡ area_coverage (rule_of rule) d }
{
    weight::doubled_area_to_coverage(d, codes::fill_rule(rule))
}

// 0, the coverages in `plane`, at row × 16 + column, and their mark in `mark`, or the number of the refusal.
#[unsafe(no_mangle)]
pub extern "C" fn ffi_paint_part(
    part: &[u64],
    covers: &[i8; 16],
    rule: u32,
    plane: &mut [f32],
    mark: &mut u32,
) -> u32
    ensures value { result
        ≡ refusal_number
        (part_answer cpu (rule_of rule) covers.now part.now plane.old) }
    ensures mark_after { mark.new
        ≡ value_or (part_answer cpu (rule_of rule) covers.now part.now plane.old)
        mark.old }
    ensures plane_after { plane.new
        ≡ plane_after cpu (rule_of rule) covers.now part.now plane.old }
{
    let bytes = *covers;
    let painted = plane::paint_part(part, Cover { covers: bytes }, codes::fill_rule(rule), plane);
    put_mark(painted, mark)
}

fn put_mark(told: Result<u32, Refusal>, mark: &mut u32) -> u32
    ensures value { result ≡ refusal_number (given_or_refused told) }
    ensures mark_after { mark.new ≡ value_or (given_or_refused told) mark.old }
{
    match told {
        Ok(octets) => {
            *mark = octets;
            0
        },
        Err(refusal) => refusals::number_of(refusal),
    }
}

// 0 and the mark of any plane in `mark`, or the number of the refusal.
#[unsafe(no_mangle)]
pub extern "C" fn ffi_mark_plane(plane: &[f32], mark: &mut u32) -> u32
    ensures value { result ≡ refusal_number (marked plane.now) }
    ensures mark_after { mark.new ≡ value_or (marked plane.now) mark.old }
{
    put_mark(mark::mark_plane(plane), mark)
}

// How many octets a mark has.
#[unsafe(no_mangle)]
pub extern "C" fn ffi_octets(mark: u32) -> u32
    ensures { Counted mark result }
{
    mark::octets(mark)
}
