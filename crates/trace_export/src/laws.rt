//! Laws of exports.

ghost use Rattle.std.specs.Prelude.{◌≡◌, ◌++◌, ◌∷◌, [], ℕ, List, All};
ghost use Rattle.serde_json.specs.Written.{compact_text};
ghost use Rattle.trace_export.specs.Export.{Span, IsSpan, HasOneReading, export_text};
ghost use Rattle.trace_export.specs.Json.{json_of};

/// A law: some bytes are the export of one list of calls at most. So what is read is what was written.
pub fn an_export_has_one_reading()
    ensures { (bytes : List ℕ) → HasOneReading bytes }
{}

/// A law: the export of calls is the compact text of a JSON value, and a line feed: of one object, whose member `traceEvents` is the
/// list of the calls.
pub fn an_export_is_json()
    ensures { (spans : List Span) → All IsSpan spans → export_text spans ≡ compact_text (json_of spans) ++ 10 ∷ [] }
{}
