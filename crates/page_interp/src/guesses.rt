//! What is guessed of a script before it runs, to spare a search. No answer depends on a guess: each
//! is tested where it is used.

use crate::found::{Found, found_in};
use crate::names::Names;
use lang_ast::{Item, Named, operation_named};
use page_values::MemoryFault;
use std::alloc::Global;
use std::cell::Cell;

/// So many bytes of a script have guesses. A name further behind is found without one.
const GUESSED: usize = 1 << 20;

/// Where the variables that a script names likely stand among those of their call or among the
/// global ones, where what it calls likely stands among its functions, and which of these are likely
/// simple: they return with no loop, and ask the host for nothing.
#[derive(Drop)]
pub struct Guesses {
    /// By the byte of the script at which the name stands.
    places: Vec<usize>,
    /// By the number of the function. A function of which a call could not be done at once is not taken
    /// for a simple one again, so that no call is tried in vain more than once.
    simple: Vec<Cell<bool>>,
}

impl Guesses {
    /// The guesses for a script, by the names of its functions, of their variables and of its global
    /// ones.
    pub fn new(
        alloc: Global,
        items: &[Item],
        functions: &Names,
        locals: &[Names],
        globals: &Names,
    ) -> Result<Guesses, MemoryFault> {
        let mut guesses = Guesses {
            places: Vec::new(alloc),
            simple: Vec::new(alloc),
        };
        let mut own_names = locals.iter();
        for item in items {
            let found = found_in(alloc, item)?;
            let own = match item {
                Item::Fn(_) => {
                    guesses.simple.push(Cell::new(seems_simple(&found)))?;
                    own_names.next()
                }
                Item::Stmt(_) => None,
            };
            guesses.note(own.unwrap_or(globals), globals, &found)?;
            guesses.note_calls(functions, &found)?;
        }
        Ok(guesses)
    }

    // Notes the place of each variable.
    fn note(&mut self, own: &Names, globals: &Names, found: &Found) -> Result<(), MemoryFault> {
        for &name in &found.variables {
            match own.place(&name.name) {
                Some(place) => self.put(name.at, place)?,
                None => match globals.place(&name.name) {
                    Some(place) => self.put(name.at, place)?,
                    None => {}
                },
            }
        }
        Ok(())
    }

    // Notes the place of each function that is called.
    fn note_calls(&mut self, functions: &Names, found: &Found) -> Result<(), MemoryFault> {
        for &name in &found.called {
            if let Some(place) = functions.place(&name.name) {
                self.put(name.at, place)?;
            }
        }
        Ok(())
    }

    fn put(&mut self, at: usize, place: usize) -> Result<(), MemoryFault> {
        if at >= GUESSED {
            return Ok(());
        }
        while self.places.len() <= at {
            self.places.push(0)?;
        }
        self.places[at] = place;
        Ok(())
    }

    /// Where the variable or the function of this name stands, likely.
    pub fn place(&self, name: &Named) -> usize {
        match self.places.get(name.at) {
            Some(place) => *place,
            None => 0,
        }
    }

    /// Whether the function with this number is likely simple.
    pub fn is_simple(&self, number: usize) -> bool {
        match self.simple.get(number) {
            Some(simple) => simple.get(),
            None => false,
        }
    }

    /// The function with this number is no simple one: a call of it could not be done at once.
    pub fn doubt(&self, number: usize) {
        if let Some(simple) = self.simple.get(number) {
            simple.set(false);
        }
    }
}

// Whether a function has no loop and calls no operation.
fn seems_simple(found: &Found) -> bool {
    for &name in &found.called {
        if operation_named(&name.name).is_some() {
            return false;
        }
    }
    found.straight
}
