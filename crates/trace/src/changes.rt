// What a traced frame is compared with: the cached tiles that the frame before left, and which layers are unchanged
// since then.
pub mod cached;
pub mod changes;
