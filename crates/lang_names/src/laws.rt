//! What the rules of names come to.

ghost use Rattle.lang_names.specs.Laws.{AllKnown, FirstIsLeast};

/// A law: in a script whose names are resolved each name is known where it stands, and each operation that is called has
/// as many arguments as it takes.
pub fn resolved_names_are_known()
    ensures { AllKnown }
{}

/// A law: where names stand at rising bytes, as they do in a text, the first fault is the one at the least byte.
pub fn first_fault_is_at_the_least_byte()
    ensures { FirstIsLeast }
{}
