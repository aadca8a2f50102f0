// What the passes read of a listed layer: its entry and its record in one value.
use styling::Func;

#[derive(Clone, Copy)]
pub struct Item {
    pub id: u32,
    // Full by its rule, and no segment in the tile.
    pub full: bool,
    pub func: Func,
    pub unchanged: bool,
}
