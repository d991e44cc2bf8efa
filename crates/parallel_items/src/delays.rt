//! Which registrations have a delayed `postTask`.
ghost use Rattle.std.specs.Prelude.{◌<◌, nat_eq};
ghost use Rattle.std.specs.HashSet.{contains, spare};
ghost use Rattle.parallel_items.specs.Kept.{NotesDelay, ForgetsDelay};

use crate::Completion;
use std::collections::HashSet;

// Notes the registration, where the completion steps are a delayed `postTask`. There is room for it.
pub(crate) fn note_delay(delayed: &mut HashSet<u32>, completion: Completion)
    requires { 0 < spare delayed.old }
    ensures { NotesDelay completion (contains nat_eq delayed.old) (contains nat_eq delayed.new) }
{
    if let Completion::EnqueuePost { registration, .. } = completion {
        let noted: Result<_, _> = delayed.insert(registration);
        noted.unwrap();
    }
}

// Forgets it.
pub(crate) fn forget_delay(delayed: &mut HashSet<u32>, completion: Completion)
    ensures { ForgetsDelay completion (contains nat_eq delayed.old) (contains nat_eq delayed.new) }
{
    if let Completion::EnqueuePost { registration, .. } = completion {
        delayed.remove(&registration);
    }
}
