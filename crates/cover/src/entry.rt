// Covers in a lent slice, 16 signed bytes an entry.
ghost use Rattle.std.specs.Prelude.{◌≡◌, ◌+◌, ◌*◌, ◌≤◌, length};
ghost use Rattle.cover_statements.specs.Entry.{cover_entry, put_entry};

use crate::Cover;

// The cover at a place.
pub fn read_cover(covers: &[i8], place: usize) -> Cover
    requires { place * 16 + 16 ≤ length covers.now }
    ensures { result.covers ≡ cover_entry 16 place covers.now }
{
    let start = place * 16;
    let mut entry = [0i8; 16];
    entry.copy_from_slice(&covers[start..start + 16]);
    Cover { covers: entry }
}

// A cover written at a place.
pub fn write_cover(covers: &mut [i8], place: usize, cover: Cover)
    requires { place * 16 + 16 ≤ length covers.old }
    ensures { covers.new ≡ put_entry 16 place cover.covers covers.old }
{
    let entry = cover.covers;
    let start = place * 16;
    covers[start..start + 16].copy_from_slice(&entry);
}
