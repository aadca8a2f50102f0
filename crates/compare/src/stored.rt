// Stored answers: their text, the numbers in it, and what a replay holds them to.
pub mod entries;
pub mod lists;
pub mod numbers;
pub mod rooms;
pub mod stand;
pub mod text;
