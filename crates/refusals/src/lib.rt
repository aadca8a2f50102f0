// Why a call is turned down. Every operation whose answer can be a refusal answers one of these.
#![tactic(auto)]

ghost use Rattle.std.specs.Prelude.{◌≡◌};
ghost use Rattle.refusals.specs.Refusal.{number_of};

// The conditions of the table of refusals, in its order. Number 10 is the job reader's own answer.
#[derive(Clone, Copy)]
pub enum Refusal {
    Room,
    Tile,
    Row,
    Table,
    Queue,
    Tag,
    Layers,
    Missing,
    Covers,
    Fields,
    NotHeld,
    Slots,
    Bounds,
    Revisions,
}

// The number of a refusal.
pub fn number_of(refusal: Refusal) -> u32
    ensures { result ≡ number_of refusal }
{
    match refusal {
        Refusal::Room => 1,
        Refusal::Tile => 2,
        Refusal::Row => 3,
        Refusal::Table => 4,
        Refusal::Queue => 5,
        Refusal::Tag => 6,
        Refusal::Layers => 7,
        Refusal::Missing => 8,
        Refusal::Covers => 9,
        Refusal::Fields => 11,
        Refusal::NotHeld => 12,
        Refusal::Slots => 13,
        Refusal::Bounds => 14,
        Refusal::Revisions => 15,
    }
}
