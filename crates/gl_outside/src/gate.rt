/// What a worker with a call of the service goes through before its first turn, before each
/// finish, and when its answer is ready.
pub trait Gate {
    /// Lets the worker with this call go on. It may wait.
    fn enter(&self, call: u64);
}

/// A gate that lets each call go on at once.
#[derive(Clone, Copy, Debug, Default, PartialEq, Eq)]
pub struct OpenGate;

impl Gate for OpenGate {
    fn enter(&self, _call: u64) {}
}
