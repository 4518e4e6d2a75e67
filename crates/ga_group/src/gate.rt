/// A run of workers calls this before the tries of each worker in each turn. No contract depends on
/// what it does: it can watch how far the workers have come, and hold one of them back.
pub trait Gate: Sync {
    /// This worker, counted from 0, is about to make its tries of this turn, counted from 0.
    /// `moved` of its tries in this run were `Moved` before.
    fn turn(&self, worker: u32, turn: u64, moved: u64);
}

/// A gate that holds no worker back.
pub struct Open;

impl Gate for Open {
    fn turn(&self, _worker: u32, _turn: u64, _moved: u64) {}
}
