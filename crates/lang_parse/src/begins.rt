//! A law of what begins a script.

ghost use Rattle.std.specs.Prelude.{List, ◌++◌};
ghost use Rattle.lang_tokens.specs.Seen.{TokenSeen};
ghost use Rattle.lang_parse.specs.Laws.{IfScript, BeginByForms};

/// The law that the first tokens of a script begin one by the grammar's forms. So no error is told at a token with which
/// some script goes on.
pub fn a_script_begins()
    ensures { (before more : List TokenSeen) → IfScript (before ++ more) (BeginByForms before) }
{}
