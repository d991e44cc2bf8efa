//! How the free choices of a run are made, as a parameter of laws.

ghost use Rattle.page_model.specs.Choosing.{Rules, choice_rules};
ghost use Rattle.page_parts.specs.WrittenChoices.{Choices};

/// Rules by which choices are made.
pub trait Choosing {
    /// What the rules hold.
    ghost Held: { Type 0 };

    /// The rules.
    ghost rules: { Rules Held };
}

/// Choices by recorded lists, or by the written policy and lateness.
pub struct ByLists;

impl Choosing for ByLists {
    ghost Held = { Choices };

    ghost rules = { choice_rules };
}
