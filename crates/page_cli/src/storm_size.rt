//! The number in the words of a storm.

ghost use Rattle.std.specs.Prelude.{◌≡◌, ◌≤◌, option_map};
ghost use Rattle.arrivals_text.specs.Fields.{number_in};

use page_base::Cursor;

/// How many turns the loop of a storm has, 1 to 100,000.
#[derive(Clone, Copy, Debug)]
pub struct StormSize {
    pub turns: u32,
    ghost has_turns: { (1 ≤ turns) × (turns ≤ 100000) },
}

impl StormSize {
    /// The number that the whole word spells, where it is canonical and within the limits. Takes no memory.
    #[tactic(auto, unfolding(arrivals_text::specs::Fields::number_in))]
    pub(crate) fn read(word: &str) -> Option<StormSize>
        ensures { option_map (λ size. size.turns) result ≡ number_in 1 100000 word.now }
    {
        let mut cursor = Cursor::new(word.as_bytes());
        let turns = cursor.read_u64(100_000)?;
        if cursor.rest().is_empty() && 1 <= turns {
            Some(StormSize {
                turns: turns as u32,
            })
        } else {
            None
        }
    }
}
