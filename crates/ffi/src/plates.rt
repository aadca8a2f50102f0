// Rows of a plate: where they stand in all segments, and crops.
ghost use Rattle.std.specs.Prelude.{◌≡◌};
ghost use Rattle.plate.specs.Rows.{cast_of, rows_start, row_place};
ghost use Rattle.plate.specs.Crop.{is_in_crop};
ghost use Rattle.ffi.specs.Plates.{crop_of};

use ffi_numbers::plates;

// Where the segments start that have no negative tile y.
#[unsafe(no_mangle)]
pub extern "C" fn ffi_find_not_negative(segments: &[u64]) -> usize
    ensures { result ≡ rows_start segments.now }
{
    plate::find_not_negative(segments)
}

// Where row j starts; in `end` where it ends, one past its last segment.
#[unsafe(no_mangle)]
pub extern "C" fn ffi_find_row(segments: &[u64], j: usize, end: &mut usize) -> usize
    ensures value { result ≡ (row_place (cast_of j) segments.now).start }
    ensures end_after { end.new ≡ (row_place (cast_of j) segments.now).end }
{
    plates::put_part(plate::find_row(segments, j), end)
}

// A crop from its first row up to its end, or none.
fn to_crop(is_given: bool, start: usize, end: usize) -> Option<(usize, usize)>
    ensures { result ≡ crop_of is_given start end }
{
    if is_given { Some((start, end)) } else { None }
}

#[unsafe(no_mangle)]
pub extern "C" fn ffi_is_in_crop(is_given: bool, start: usize, end: usize, j: usize) -> bool
    ensures { result ≡ is_in_crop (crop_of is_given start end) j }
{
    plate::is_in_crop(to_crop(is_given, start, end), j)
}
