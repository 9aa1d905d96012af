//! Who looks on as a load is made.

/// Is told how many requests the node took, as each of them is done. What it makes of it changes
/// nothing of the load.
pub trait LoadObserver {
    fn taken(&mut self, requests: u32);
}
