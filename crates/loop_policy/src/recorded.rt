//! Sources from a list.

ghost use Rattle.std.specs.Prelude.{◌≡◌, List};
ghost use Rattle.page_types.specs.declared.Source.{Source};
ghost use Rattle.loop_policy.specs.Rules.{kept_choice};

use crate::seeing::is_ready;
use crate::{Chooser, NoChoice, View};
use page_base::Source;
use std::marker::Model;

/// Answers the sources of a list, one after another. It is seen as those that are left, and how often it has refused.
#[derive(Drop)]
pub struct RecordedChooser {
    picks: Vec<Source>,
    next: usize,
    refused: u64,
}

impl Model for RecordedChooser {
    ghost use Rattle.std.specs.Prelude.{drop};
    ghost use Rattle.loop_policy.specs.Views.{Picks};

    ghost Value = { Picks };

    ghost view = { λ chooser. record { left = drop chooser.next chooser.picks.items; refusals = chooser.refused } };
}

impl RecordedChooser {
    /// A chooser by this list. Takes no memory.
    pub fn new(picks: Vec<Source>) -> RecordedChooser
        ensures { result ≡ record { left = picks.items; refusals = 0 } }
    {
        RecordedChooser {
            picks,
            next: 0,
            refused: 0,
        }
    }
}

impl Chooser for RecordedChooser {
    ghost Held = { List Source };

    ghost held = { λ chooser. chooser.left };

    ghost rule = { kept_choice };

    ghost refusals = { λ chooser. chooser.refusals };

    /// `NoChoice` comes exactly where no pick is left or the next one has no runnable task; then the list stays.
    fn choose(&mut self, view: &View) -> Result<Source, NoChoice> {
        if let Some(pick) = self.picks.get(self.next) {
            let pick = *pick;
            if is_ready(view, pick) {
                self.next += 1;
                return Ok(pick);
            }
        }
        self.refused = self.refused.saturating_add(1);
        Err(NoChoice)
    }
}
