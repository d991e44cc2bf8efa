//! What the functions of an expansion mean.

ghost use Rattle.std.specs.Prelude.{ℕ, List};
ghost use Rattle.page_types.specs.Values.{Value};
ghost use Rattle.lang_meaning.specs.HostSteps.{HostRules};
ghost use Rattle.page_model.specs.PageHost.{page_rules};
ghost use Rattle.async_segments.specs.Promising.{KeepsPromises, MeansItsSegments, MeansItsStarts};
ghost use Rattle.async_segments.specs.OnPage.{IsMade, AreKnown, table_rules, AreAny, MeansItsSegmentsOnPage};

/// A host around a script, which answers by steps.
pub trait PromiseHost {
    /// What it tells of itself.
    ghost Told: { Type 0 };

    /// What it does when it is asked.
    ghost rules: { HostRules Told };

    /// The promises that `promise` made.
    ghost made: { Told → ℕ → Type 0 };

    /// The values that it takes.
    ghost takes: { Told → List Value → Type 0 };
}

/// A law: in the expansion of an async script, where its names are resolved, the function that a segment became does what the
/// segment does in the words of the source, around any host that keeps promises. The function that an async function became makes
/// a promise, calls its first segment and gives the promise, around any host.
pub fn functions_mean_their_segments<H: PromiseHost>()
    ensures segments { KeepsPromises H.rules H.made H.takes → MeansItsSegments H.rules H.made H.takes }
    ensures starts { MeansItsStarts H.rules }
{}

/// A page keeps promises, and so the functions of an expansion mean their segments around it. It takes the values that hold no
/// promise, signal or controller but those that it has made. By the table of its operations alone it takes any values.
pub fn a_page_keeps_promises()
    ensures keeps { KeepsPromises page_rules IsMade AreKnown }
    ensures means { MeansItsSegmentsOnPage }
    ensures by_table { MeansItsSegments table_rules IsMade AreAny }
{}
