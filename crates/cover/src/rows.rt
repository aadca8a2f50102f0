// What is asked of the covers of a tile's pixel rows, and of their loads: one function for every height, which is the
// length of what is lent.
ghost use Rattle.std.specs.Prelude.{◌≡◌, ◌<◌, length, replicate};
ghost use Rattle.cover_statements.specs.Cover.{is_empty, is_full};
ghost use Rattle.cover_statements.specs.InnerLoad.{Magnitudes, all_light};

use styling::FillRule;

// The absolute value of each cover.
pub fn magnitudes(covers: &[i8], loads: &mut [u16])
    requires { loads.old ≡ replicate (length covers.now) 0 }
    ensures { Magnitudes covers.now loads.new }
{
    for (y, cover) in covers.iter().enumerate() {
        loads[y] = weight::cover_magnitude(*cover);
    }
}

// Whether no load is above 127. Light rows are counted: a conjunction would be worked out row by row.
pub fn are_light(loads: &[u16]) -> bool
    requires { length loads.now < 65536 }
    ensures { result ≡ all_light loads.now }
{
    let mut light: u16 = 0;
    for load in loads {
        light += (*load <= 127) as u16;
    }
    light as usize == loads.len()
}

// Rows that are not empty are counted: a conjunction would be worked out row by row.
pub fn are_empty(covers: &[i8], rule: FillRule) -> bool
    requires { length covers.now < 65536 }
    ensures { result ≡ is_empty rule covers.now }
{
    let mut filled: u16 = 0;
    for cover in covers {
        filled += crate::filled_at(*cover, rule);
    }
    filled == 0
}

pub fn are_full(covers: &[i8], rule: FillRule) -> bool
    ensures { result ≡ is_full rule covers.now }
{
    let mut ok = true;
    for cover in covers {
        ok &= crate::is_row_full(*cover, rule);
    }
    ok
}
