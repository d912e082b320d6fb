/// Where a worker enters before its share of the work. The program's gate does nothing.
/// It returns, and changes nothing that a clause names.
pub trait Gate {
    /// A worker enters. Workers are counted from 0.
    fn enter(&self, worker: u32);
}

/// An open gate: each worker goes on.
#[derive(Clone, Copy)]
pub struct OpenGate;

impl Gate for OpenGate {
    fn enter(&self, _worker: u32) {}
}
