ghost use Rattle.std.specs.Prelude.{◌≡◌, ℕ, ◌<◌, List, Option, OnOk, OnErr, length};
ghost use Rattle.page_types.specs.Counts.{raised, HasCause};
ghost use Rattle.page_types.specs.Told.{appended, AppendsStartOf};

/// A piece was not taken, or not all of it.
#[derive(Clone, Copy, PartialEq, Eq, Debug)]
pub struct Failed;

/// Takes bytes, a piece at a time. It may gather them, and hands them on at the end at the latest.
pub trait Sink {
    /// The bytes that it holds, where it tells them.
    ghost bytes: { Self → Option (List ℕ) };

    /// How often a put has failed. It never falls, and stays at the end of a `u64`.
    ghost faults: { Self → ℕ };

    /// How many pieces were put, those that failed among them. It stays at the end of a `u64`.
    ghost puts: { Self → ℕ };

    /// All that was put was handed on.
    ghost IsHandedOn: { Self → Type 0 };

    /// Appends a piece, which is not empty.
    ///
    /// It fails only where the count of faults rose, and then a start of the piece was appended.
    fn put(&mut self, piece: &[u8]) -> Result<(), Failed>
        requires { 0 < length piece.now }
        ensures ok { OnOk result (bytes self.new ≡ appended (bytes self.old) piece.now) }
        ensures failed { OnErr result (AppendsStartOf (bytes self.old) (bytes self.new) piece.now) }
        ensures cause { HasCause (faults self.old) (faults self.new) result }
        ensures counted { puts self.new ≡ raised (puts self.old) };

    /// Says that no more comes. With `Ok` all that was put was handed on.
    ///
    /// It fails only where the count of faults rose. The bytes that the sink tells stay, also then.
    fn finish(&mut self) -> Result<(), Failed>
        ensures whole { OnOk result (IsHandedOn self.new) }
        ensures bytes { bytes self.new ≡ bytes self.old }
        ensures cause { HasCause (faults self.old) (faults self.new) result }
        ensures counted { puts self.new ≡ puts self.old };
}
