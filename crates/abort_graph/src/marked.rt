ghost use Rattle.std.specs.Prelude.{◌≡◌};

use std::marker::Model;

/// The signals that an abort has set the reason on, in the order in which their abort steps run. It is seen as their list.
#[derive(Drop)]
pub struct Marked {
    pub(crate) signals: Vec<u32>,
}

impl Model for Marked {
    ghost use Rattle.std.specs.Prelude.{List, ℕ};

    ghost Value = { List ℕ };

    ghost view = { λ marked. marked.signals.items };
}

impl Marked {
    /// The signals, the aborted one first.
    pub fn signals(&self) -> &[u32]
        ensures { result.now ≡ self.now }
    {
        &self.signals
    }

    /// The signals themselves, with no copy.
    pub fn into_signals(self) -> Vec<u32>
        ensures { result.items ≡ self }
    {
        self.signals
    }
}
