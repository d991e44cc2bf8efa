//! Values by their spelling.

ghost use Rattle.std.specs.Prelude.{◌≡◌};
ghost use Rattle.trace_text.specs.Trace.{IsPrinted};

use std::marker::Model;

/// The spelling of a value, of whatever weight, in which lists nest at most 64 deep. It is seen as the list of its bytes.
#[derive(Drop)]
pub struct Printed {
    bytes: Vec<u8>,
}

impl Model for Printed {
    ghost use Rattle.std.specs.Prelude.{List, ℕ};
    ghost use Rattle.trace_text.specs.Trace.{IsPrinted};

    ghost Value = { List ℕ };

    ghost view = { λ p. p.bytes.items };

    ghost invariant = { λ p. ∥ IsPrinted p.bytes.items ∥₁ };
}

impl Printed {
    /// These bytes, which are the spelling of a value. Takes no memory.
    pub fn new(bytes: Vec<u8>) -> Printed
        requires { IsPrinted bytes.items }
        ensures { result ≡ bytes.items }
    {
        Printed { bytes }
    }

    /// The bytes. Takes no memory.
    pub fn bytes(&self) -> &[u8]
        ensures content { result.now ≡ self.now }
        ensures spelling { ∥ IsPrinted result.now ∥₁ }
    {
        &self.bytes
    }
}
