ghost use Rattle.std.specs.Prelude.{◌≡◌, ◌≤◌, ℕ, List, Option, IsErr, IsErrOf};
ghost use Rattle.page_types.specs.Counts.{Rose};
ghost use Rattle.page_io.specs.Files.{Fetches};

use crate::{FetchFault, Fetched};

/// Gives files by their names.
pub trait Folder {
    /// The bytes of the file of a name, where the folder tells them.
    ghost file: { Self → List ℕ → Option (List ℕ) };

    /// The folder tells that it has no file of that name.
    ghost IsMissing: { Self → List ℕ → Type 0 };

    /// How often a fetch of a name has failed. It never falls, and stays at the end of a `u64`.
    ghost faults: { Self → List ℕ → ℕ };

    /// Appends the bytes of a file, or of one that is longer than `limit` the first `limit + 1`.
    ///
    /// It fails only where the count of this name rose. A missing file is such a fault.
    fn fetch(&mut self, name: &str, limit: usize, into: &mut Vec<u8>) -> Result<Fetched, FetchFault>
        ensures content { Fetches (file self.old name.now) limit into.old.items result into.new.items }
        ensures missing { IsMissing self.old name.now → IsErr result }
        ensures same { (other : List ℕ) → file self.new other ≡ file self.old other }
        ensures stays { (other : List ℕ) → IsMissing self.old other → IsMissing self.new other }
        ensures later { (other : List ℕ) → faults self.old other ≤ faults self.new other }
        ensures cause { IsErrOf result FetchFault.Failed → Rose (faults self.old name.now) (faults self.new name.now) };
}
