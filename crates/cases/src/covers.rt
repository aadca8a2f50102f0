// P6, P9, P10 and P11: covers, coverages and carries.
ghost use Rattle.std.specs.Prelude.{◌≡◌, true, ◌∷◌, pos, replicate};

use cover::carry::Carried;
use cover::{Cover, carry};
use styling::FillRule;

// Sixteen of 32 are empty under EvenOdd, not under NonZero.
pub fn p6_empty() -> bool
    ensures { result ≡ true }
{
    let covers = [32i8; 16];
    let cover = Cover { covers };
    cover.is_empty(FillRule::EvenOdd) & !cover.is_empty(FillRule::NonZero)
}

// They are full under NonZero, twice around (W-205), not under EvenOdd.
pub fn p6_twice() -> bool
    ensures { result ≡ true }
{
    let covers = [32i8; 16];
    let cover = Cover { covers };
    cover.is_full(FillRule::NonZero) & !cover.is_full(FillRule::EvenOdd)
}

// Sixteen of -16 are full under both.
pub fn p6_full() -> bool
    ensures { result ≡ true }
{
    let covers = [-16i8; 16];
    let cover = Cover { covers };
    cover.is_full(FillRule::NonZero) & cover.is_full(FillRule::EvenOdd)
}

// So are sixteen of 48, three times around (W-205).
pub fn p6_thrice() -> bool
    ensures { result ≡ true }
{
    let covers = [48i8; 16];
    let cover = Cover { covers };
    cover.is_full(FillRule::NonZero) & cover.is_full(FillRule::EvenOdd)
}

// One row of 15 among them is too little for NonZero.
pub fn p6_row_of_15() -> bool
    ensures { result ≡ true }
{
    let covers: [i8; 16] = [
        15, 48, 48, 48, 48, 48, 48, 48, 48, 48, 48, 48, 48, 48, 48, 48,
    ];
    let cover = Cover { covers };
    !cover.is_full(FillRule::NonZero)
}

// NonZero: 256 gives 0.5, and -512 gives 1.
pub fn p9() -> bool
    ensures { result ≡ true }
{
    let half = weight::doubled_area_to_coverage(256, FillRule::NonZero);
    let whole = weight::doubled_area_to_coverage(-512, FillRule::NonZero);
    (half == 0.5) & (whole == 1.0)
}

// EvenOdd: 700 gives 0.6328125, -256 gives 0.5, and 1,024 gives 0.
pub fn p10() -> bool
    ensures { result ≡ true }
{
    let past = weight::doubled_area_to_coverage(700, FillRule::EvenOdd);
    let half = weight::doubled_area_to_coverage(-256, FillRule::EvenOdd);
    let none = weight::doubled_area_to_coverage(1024, FillRule::EvenOdd);
    (past == 0.6328125) & (half == 0.5) & (none == 0.0)
}

// The word is layer 5, tile x 2, tile y 0, local x 3, local y 0, multiplier 32, cover -16, added to 16 in each row.
fn p11_carried() -> Carried
    ensures { (result.accepted ≡ true) × (result.cover.covers ≡ pos 0 ∷ replicate 15 (pos 16)) }
{
    let part: [u64; 1] = [0x0020060000530830];
    let covers = [16i8; 16];
    carry::carry(&part, Cover { covers })
}

// It hands on 0 in row 0, and 16 up to row 7.
pub fn p11_low() -> bool
    ensures { result ≡ true }
{
    let carried = p11_carried();
    let sum = carried.cover;
    let rows = sum.covers;
    let low = (rows[0] == 0)
        & (rows[1] == 16)
        & (rows[2] == 16)
        & (rows[3] == 16)
        & (rows[4] == 16)
        & (rows[5] == 16)
        & (rows[6] == 16)
        & (rows[7] == 16);
    carried.accepted & low
}

// And 16 in the rows 8 to 15.
pub fn p11_high() -> bool
    ensures { result ≡ true }
{
    let carried = p11_carried();
    let sum = carried.cover;
    let rows = sum.covers;
    (rows[8] == 16)
        & (rows[9] == 16)
        & (rows[10] == 16)
        & (rows[11] == 16)
        & (rows[12] == 16)
        & (rows[13] == 16)
        & (rows[14] == 16)
        & (rows[15] == 16)
}

// Number 9: the same word with cover -8 is refused at 120, though the sum is 112.
pub fn p11_refused() -> bool
    ensures { result ≡ true }
{
    let part: [u64; 1] = [0x0020060000530838];
    let covers = [120i8; 16];
    let carried = carry::carry(&part, Cover { covers });
    !carried.accepted
}

// At 119 it passes.
pub fn p11_passed() -> bool
    ensures { result ≡ true }
{
    let part: [u64; 1] = [0x0020060000530838];
    let covers = [119i8; 16];
    let carried = carry::carry(&part, Cover { covers });
    carried.accepted
}
