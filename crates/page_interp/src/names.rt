//! Names, and where each stands.

ghost use Rattle.std.specs.Prelude.{◌≡◌, IfOk, length};
ghost use Rattle.page_interp.specs.Places.{place_of};

use page_values::{MemoryFault, Str, same_text};
use std::alloc::Global;
use std::collections::HashMap;
use std::marker::Model;

/// Among how many names a name is sought one after the other.
const FEW: usize = 8;

/// The names of functions or of variables, in order. A name may stand there more than once; it is
/// found by its first place: among a few one after the other, among more by its hash.
#[derive(Drop)]
pub struct Names {
    names: Vec<Str>,
    places: HashMap<Vec<u8>, usize>,
    /// Where this holds, none of them stands there twice.
    once: bool,
}

impl Model for Names {
    ghost use Rattle.std.specs.Prelude.{List, ℕ};
    ghost use Rattle.page_interp.specs.Places.{AreKept};

    ghost Value = { List (List ℕ) };

    ghost view = { λ a. a.names.items };

    ghost invariant = { λ a. AreKept a.names.items a.places a.once };
}

impl Names {
    /// These names.
    pub fn new(alloc: Global, names: Vec<Str>) -> Result<Names, MemoryFault>
        ensures { IfOk result (λ x. x ≡ names.items) }
    {
        let mut places = HashMap::new(alloc);
        let mut once = true;
        let mut left = names.len();
        while left > 0 {
            left -= 1;
            let name = Vec::from_slice(alloc, names[left].bytes())?;
            if places.insert(name, left)?.is_some() {
                once = false;
            }
        }
        Ok(Names {
            names,
            places,
            once,
        })
    }

    /// How many there are.
    pub fn len(&self) -> usize
        ensures { result ≡ length self.now }
    {
        self.names.len()
    }

    /// The first place of a name, counted from 0. `None` exactly where it stands nowhere.
    pub fn place(&self, name: &Str) -> Option<usize>
        ensures { result ≡ place_of self.now name.now }
    {
        if self.names.len() <= FEW {
            return first_place(&self.names, name);
        }
        self.places.get(name.bytes()).copied()
    }

    /// The same, where the name likely stands at the given place: it is sought nowhere else then.
    pub fn place_near(&self, name: &Str, near: usize) -> Option<usize>
        ensures { result ≡ place_of self.now name.now }
    {
        if self.once && near < self.names.len() && same_text(&self.names[near], name) {
            return Some(near);
        }
        self.place(name)
    }
}

/// The first place of a name, sought one after the other.
fn first_place(names: &[Str], name: &Str) -> Option<usize>
    ensures { result ≡ place_of names.now name.now }
{
    for (place, other) in names.iter().enumerate() {
        if same_text(other, name) {
            return Some(place);
        }
    }
    None
}
