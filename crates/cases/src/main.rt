// The worked cases P1 to P12, run, with both sides of what adding refuses and a cover that one row keeps from being
// full; and P7, P8, P11 and P12 once more by the forms that stay with the caller, a cached tile that is lent and a
// queue of carry records. What each check requires is proved from the contracts of the functions that it calls;
// specs/Cases states the same cases about the definitions, and `stated` holds their proof.
#![tactic(auto)]

mod clips;
mod covers;
mod records;
mod stated;
mod tiles;
mod words;

fn main() {
    check::expect(stated::is_proved());
    check::expect(words::p1());
    check::expect(words::p2());
    check::expect(words::p3());
    check::expect(words::p4_tile_y());
    check::expect(words::p4_tile_x());
    check::expect(words::p5_found());
    check::expect(words::p5_absent());
    check::expect(words::p5_empty());
    check::expect(covers::p6_empty());
    check::expect(covers::p6_twice());
    check::expect(covers::p6_full());
    check::expect(covers::p6_thrice());
    check::expect(covers::p6_row_of_15());
    check::expect(clips::p7());
    check::expect(records::p7_painted());
    check::expect(tiles::p8_kept());
    check::expect(tiles::p8_dropped());
    check::expect(tiles::p8_in_place());
    check::expect(covers::p9());
    check::expect(covers::p10());
    check::expect(covers::p11_low());
    check::expect(covers::p11_high());
    check::expect(covers::p11_refused());
    check::expect(covers::p11_passed());
    check::expect(records::p11_worked());
    check::expect(tiles::p12());
    check::expect(tiles::p12_without());
    check::expect(tiles::p12_in_place());
}
