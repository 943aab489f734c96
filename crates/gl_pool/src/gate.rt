use std::thread;

/// What the workers of a search do beside their work.
pub trait Gate {
    /// Lets a worker pass, once, before its first step. It may wait before.
    fn pass(&self, worker: u32);

    /// Comes between two rounds of a worker over the other deques, of which the first gave it
    /// nothing. It lets other threads run.
    fn rest(&self, _worker: u32) {
        thread::yield_now();
    }
}

/// A gate that lets every worker pass at once.
#[derive(Clone, Copy, Debug)]
pub struct OpenGate;

impl Gate for OpenGate {
    fn pass(&self, _worker: u32) {}
}
