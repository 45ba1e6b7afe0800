//! What a caller may do between the pieces of a worker.
ghost use Rattle.std.specs.Prelude.{◌≡◌, Bool, true, IsTrue};

/// What is called between the pieces of a worker, with the worker's number from 0 on. It changes nothing
/// of what workers answer together.
pub trait Gate {
    // The gate always lets a worker go on.
    ghost always_goes_on: { Self → Bool };

    /// Called after each draw that gives a piece, with the piece's number.
    fn at_piece(&self, worker: usize, piece: u64);

    /// Whether the worker goes on. Asked before each draw; a worker that stops leaves the rest to others.
    fn go_on(&self, _worker: usize) -> bool
        ensures { IsTrue (always_goes_on self.now) → result ≡ true }
    {
        true
    }
}

/// A gate that does nothing.
pub struct OpenGate;

impl Gate for OpenGate {
    ghost always_goes_on = { λ _. true };

    fn at_piece(&self, _worker: usize, _piece: u64) {}
}
