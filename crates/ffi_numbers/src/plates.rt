// Rows of a plate.
ghost use Rattle.std.specs.Prelude.{◌≡◌};

use plate::Part;

// Where a row starts; in `end` where it ends.
pub fn put_part(part: Part, end: &mut usize) -> usize
    ensures value { result ≡ part.start }
    ensures end_after { end.new ≡ part.end }
{
    *end = part.end;
    part.start
}
