//! How the host closures stand to those of the model's page.

ghost use Rattle.std.specs.Prelude.{◌≡◌, ℤ, List};
ghost use Rattle.page_types.specs.declared.Source.{Source};
ghost use Rattle.page_parts.specs.HostClosures.{HostClosure};
ghost use Rattle.page_parts.specs.Setup.{Policy};
ghost use Rattle.page_model.specs.State.{Page};
ghost use Rattle.page_model.specs.Choosing.{Rules};
ghost use Rattle.page_model.specs.Operations.{closure_at};
ghost use Rattle.page_hosts.specs.Hosts.{closure_in};
ghost use Rattle.page_hosts.specs.OfPage.{AskedIs, FiredIs, AnsweredIs, DroppedIs, IsLegal, ChoosesRecorded, ChoosesWritten};

/// The law that the closures are found and changed as those of the model's page: `closure_in` is how a page finds a closure,
/// `ask_at` is what an accepted request does to them and `fire_at` what an answer does. What meets the relation of a closure's
/// kind is a legal answer of it. It does nothing when it runs.
pub fn closures_are_those_of_a_page<C>()
    ensures found { (p : Page) (k : ℤ) → closure_at p k ≡ closure_in p.hosts k }
    ensures asked { (p : Page) → AskedIs p }
    ensures fired { (p : Page) → FiredIs p }
    ensures answered { (p : Page) → AnsweredIs p }
    ensures dropped { (p : Page) → DroppedIs p }
    ensures legal { (rules : Rules C) (held : C) (hosts : List HostClosure) → IsLegal rules held hosts }
{}

/// The law that the answers which a port keeps, as it gives them, are those of a run by recorded lists or by the written policy
/// that holds them: the same answer, with the same ones left, and none exactly where the port refuses. It does nothing when it
/// runs.
pub fn kept_answers_are_choices()
    ensures recorded { (hosts : List HostClosure) (sources : List Source) → ChoosesRecorded hosts sources }
    ensures written { (hosts : List HostClosure) (policy : Policy) → ChoosesWritten hosts policy }
{}
