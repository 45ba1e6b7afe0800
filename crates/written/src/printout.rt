//! What a command writes.

ghost use Rattle.std.specs.Prelude.{◌≡◌};

use std::marker::Model;

/// What a command writes, whole.
#[derive(Drop)]
pub struct Printout {
    text: Vec<u8>,
    all_met: bool,
}

impl Model for Printout {
    ghost use Rattle.written.specs.Written.{Written};

    ghost Value = { Written };

    ghost view = { λ p. record { text = p.text.items; all_met = p.all_met } };
}

impl Printout {
    /// This text, with whether every loop is met. A command that looks for no kernels leaves none unmet.
    pub fn new(text: Vec<u8>, all_met: bool) -> Printout
        ensures text { result.text ≡ text.items }
        ensures all_met { result.all_met ≡ all_met }
    {
        Printout { text, all_met }
    }

    /// Its text.
    pub fn text(&self) -> &[u8]
        ensures { result.now ≡ self.now.text }
    {
        self.text.as_slice()
    }

    /// Whether every loop is met.
    pub fn all_met(&self) -> bool
        ensures { result ≡ self.now.all_met }
    {
        self.all_met
    }
}
