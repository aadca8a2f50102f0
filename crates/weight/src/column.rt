// A part without segments: all columns of its plane are the same, so one is worked out, and each of its numbers fills a
// row. The height of the tile is the length of the column.
ghost use Rattle.std.specs.Prelude.{◌≡◌, ◌+◌, ◌*◌, ◌≤◌, length, replicate};
ghost use Rattle.laws.specs.Lists.{over};
ghost use Rattle.cover_statements.specs.Plane.{size_of};
ghost use Rattle.cover_statements.specs.InnerWeighed.{column_areas, repeated, put_row};

// What the pixels of a column see: 32 times the cover that comes in.
pub fn column_areas(covers: &[i8], areas: &mut [i16])
    requires { length areas.old ≡ length covers.now }
    ensures { areas.new ≡ column_areas covers.now }
{
    for (y, cover) in covers.iter().enumerate() {
        areas[y] = 32 * (*cover as i16);
    }
}

// Row y of a plane, one number everywhere.
fn fill_row(value: f32, y: usize, plane: &mut [f32])
    requires { y * 16 + 16 ≤ length plane.old }
    ensures { plane.new ≡ put_row y (replicate 16 value) plane.old }
{
    let start = y * 16;
    plane[start..start + 16].fill(value);
}

// One column in all columns of a plane. What lies past them stays.
pub fn repeat_column(column: &[f32], plane: &mut [f32])
    requires { size_of (length column.now) ≤ length plane.old }
    ensures { plane.new
        ≡ over (repeated (length column.now) column.now) plane.old }
{
    for (y, value) in column.iter().enumerate() {
        fill_row(*value, y, plane);
    }
}
