// The covers of the painter (painter/mod.rs): empty, full, carried past a part, and stored.
#![tactic(auto)]

pub mod carry;
pub mod entry;
pub mod rows;

ghost use Rattle.std.specs.Prelude.{◌≡◌, cond, ◌≤◌};
ghost use Rattle.cover_statements.specs.Cover.{no_cover, empty_at, full_at, is_empty, is_full};

use styling::FillRule;

// One signed byte for each pixel row of a tile: 16 is a whole pixel, once around.
#[derive(Clone, Copy)]
pub struct Cover {
    pub covers: [i8; 16],
}

// Whether a row's cover leaves all to its right outside.
pub fn is_row_empty(cover: i8, rule: FillRule) -> bool
    ensures { result ≡ empty_at rule cover }
{
    match rule {
        FillRule::NonZero => weight::cover_magnitude(cover) == 0,
        FillRule::EvenOdd => weight::rest_of_cover(cover) == 0,
    }
}

// 1 where a row's cover is not empty, to be counted.
fn filled_at(cover: i8, rule: FillRule) -> u16
    ensures { (result ≡ cond (empty_at rule cover) 0 1) × (result ≤ 1) }
{
    !is_row_empty(cover, rule) as u16
}

// Whether it is full by the rule: 16 or more either way for NonZero, an odd multiple of 16 for EvenOdd.
pub fn is_row_full(cover: i8, rule: FillRule) -> bool
    ensures { result ≡ full_at rule cover }
{
    match rule {
        FillRule::NonZero => weight::cover_magnitude(cover) >= 16,
        FillRule::EvenOdd => weight::rest_of_cover(cover) == 16,
    }
}

impl Cover {
    // No cover in any row.
    pub fn default() -> Cover
        ensures { result.covers ≡ no_cover 16 }
    {
        let covers = [0i8; 16];
        Cover { covers }
    }

    pub fn is_empty(self, rule: FillRule) -> bool
        ensures { result ≡ is_empty rule self.covers }
    {
        let covers = self.covers;
        rows::are_empty(&covers, rule)
    }

    pub fn is_full(self, rule: FillRule) -> bool
        ensures { result ≡ is_full rule self.covers }
    {
        let covers = self.covers;
        rows::are_full(&covers, rule)
    }
}
