//! How far workers are that share the runs of loops.

use std::sync::atomic::{AtomicUsize, Ordering};

/// How far workers are that share the runs of loops. It only tells a worker what had better be left to all of them.
#[derive(Drop)]
pub(crate) struct Pool {
    /// How many workers there may be.
    workers: usize,
    /// How many loops they share.
    loops: usize,
    /// Of how many of these the run has ended.
    ended: AtomicUsize,
    /// How many workers write lines that others could write too.
    writing: AtomicUsize,
}

impl Pool {
    /// Of `workers` workers before the first run of `loops` loops.
    pub(crate) fn new(workers: usize, loops: usize) -> Pool {
        Pool {
            workers,
            loops,
            ended: AtomicUsize::new(0),
            writing: AtomicUsize::new(0),
        }
    }

    /// The run of one loop more has ended.
    pub(crate) fn end_run(&self) {
        self.ended.fetch_add(1, Ordering::SeqCst);
    }

    /// One worker more writes lines that others could write too.
    pub(crate) fn begin_lines(&self) {
        self.writing.fetch_add(1, Ordering::SeqCst);
    }

    /// One worker less does so.
    pub(crate) fn end_lines(&self) {
        self.writing.fetch_sub(1, Ordering::SeqCst);
    }

    /// Whether all that some workers can do is to wait until these lines are left to all.
    pub(crate) fn others_wait(&self) -> bool {
        self.ended.load(Ordering::SeqCst) >= self.loops
            && self.writing.load(Ordering::SeqCst) < self.workers
    }
}
