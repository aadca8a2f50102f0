// The covers of tiles four pixels high: empty, full, carried past a part; and the coverages of a part in a lent plane.
// What is said of a row's cover, and the weights and coverages, are of cover and weight.
#![tactic(auto)]

pub mod area;
pub mod carry;
pub mod column;
pub mod painting;

ghost use Rattle.std.specs.Prelude.{◌≡◌};
ghost use Rattle.cover_statements.specs.Cover.{no_cover, is_empty, is_full};

use cover::rows;
use styling::FillRule;

// One signed byte for each pixel row of a tile: 16 is a whole pixel, once around.
#[derive(Clone, Copy)]
pub struct GpuCover {
    pub covers: [i8; 4],
}

impl GpuCover {
    // No cover in any row.
    pub fn default() -> GpuCover
        ensures { result.covers ≡ no_cover 4 }
    {
        let covers = [0i8; 4];
        GpuCover { covers }
    }

    pub fn is_empty(self, rule: FillRule) -> bool
        ensures { result ≡ is_empty rule self.covers }
    {
        let covers = self.covers;
        rows::are_empty(&covers, rule)
    }

    pub fn is_full(self, rule: FillRule) -> bool
        ensures { result ≡ is_full rule self.covers }
    {
        let covers = self.covers;
        rows::are_full(&covers, rule)
    }
}
