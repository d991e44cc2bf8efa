//! The law that rules may be put in the place of others that choose alike.

ghost use Rattle.page_types.specs.Tree.{Program};
ghost use Rattle.page_model.specs.Choosing.{Rules};
ghost use Rattle.page_model.specs.Likeness.{ChooseAlike};
ghost use Rattle.page_model.specs.ChoiceLaws.{RunsAreAlike};

/// Two sets of rules that choose alike.
pub trait Likeness {
    /// What the rules hold.
    ghost Held: { Type 0 };

    /// The rules.
    ghost rules: { Rules Held };

    /// What the other rules hold.
    ghost Other: { Type 0 };

    /// The other rules.
    ghost others: { Rules Other };

    /// What the two hold goes together.
    ghost Together: { Held → Other → Type 0 };

    /// They choose alike as long as it does.
    ghost alike: { ChooseAlike rules others Together };
}

/// By rules that choose alike, runs go alike: they end the same, or are stuck the same, in the same state.
pub fn runs_are_alike<L: Likeness>()
    ensures { (program : Program) → RunsAreAlike L.rules L.others L.Together program }
{}
