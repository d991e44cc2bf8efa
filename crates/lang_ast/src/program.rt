//! A script whose names are resolved.

ghost use Rattle.std.specs.Prelude.{◌≡◌, ◌<◌, ◌^◌, length, IfOk};
ghost use Rattle.lang_ast.specs.Seen.{seen_items};
ghost use Rattle.lang_ast.specs.NameFaults.{IsResolved};
ghost use Rattle.lang_ast.specs.Programs.{function_names, function_places};

use crate::tree::{Function, Item, Tree};
use page_values::{FunNames, MemoryFault, Str, copy_text};
use std::alloc::Global;

/// A script whose names are resolved: every name is known, and every operation that is called has as many arguments as
/// it takes.
///
/// Its functions are numbered from 0 in the order of the text. The script's own body, the statements outside functions,
/// has the number after the last one.
#[derive(Drop)]
pub struct Program {
    items: Vec<Item>,
    names: FunNames,
    places: Vec<usize>,
    ghost resolved: { IsResolved (seen_items items.items) },
    ghost named: { names ≡ function_names (seen_items items.items) },
    ghost placed: { places.items ≡ function_places 0 items.items },
    ghost few: { length places.items < 2 ^ 32 },
}

impl Program {
    ghost use Rattle.std.specs.Prelude.{map, IfSome, slice_get};
    ghost use Rattle.std.specs.Option.{option_map};
    ghost use Rattle.lang_meaning.specs.Evaluation.{functions_of, own_body};
    ghost use Rattle.lang_ast.specs.Seen.{seen_tree, seen_function, seen_block};
    ghost use Rattle.lang_ast.specs.Names.{in_block};
    ghost use Rattle.lang_ast.specs.Calls.{CallsFit};
    ghost use Rattle.lang_ast.specs.Programs.{program_of, function_at};
    ghost use Rattle.lang_ast.specs.SeenProgram.{seen_program};

    /// The program of a tree whose names are resolved. More functions than have numbers of 32 bits count as want of memory.
    pub fn new(alloc: Global, tree: Tree) -> Result<Program, MemoryFault>
        requires { IsResolved (seen_tree tree) }
        ensures { IfOk result (λ p. seen_program p ≡ program_of (seen_tree tree)) }
    {
        let names = names_of(alloc, &tree.items)?;
        let places = places_of(alloc, &tree.items)?;
        if places.len() > u32::MAX as usize {
            return Err(MemoryFault::OutOfMemory);
        }
        Ok(Program {
            items: tree.items,
            names,
            places,
        })
    }

    /// The names of the functions, in the order of their numbers. It takes no memory.
    pub fn names(&self) -> &FunNames
        ensures names { result.now ≡ (seen_program self.now).names }
        ensures of_functions { result.now ≡ function_names (seen_program self.now).items }
    {
        &self.names
    }

    /// How many functions there are, which is the number of the script's own body. It takes no memory.
    pub fn function_count(&self) -> u32
        ensures { result ≡ length (functions_of (seen_program self.now).items) }
    {
        self.places.len() as u32
    }

    /// The items, in the order of the text. It takes no memory.
    pub fn items(&self) -> &[Item]
        ensures items { seen_items result.now ≡ (seen_program self.now).items }
        ensures resolved { IsResolved (seen_program self.now).items }
        ensures fits { CallsFit (in_block (own_body (seen_program self.now).items)) }
    {
        &self.items
    }

    /// The function with this number; `None` for that of the script's own body. It takes no memory.
    pub fn function(&self, number: u32) -> Option<&Function>
        ensures found { option_map (λ f. seen_function f.now) result ≡ function_at (seen_program self.now) number }
        ensures fits { IfSome result (λ f. CallsFit (in_block (seen_block f.now.body.items))) }
    {
        match self.place_of(number) {
            Some(place) => match &self.items[place] {
                Item::Fn(function) => Some(function),
                Item::Stmt(_) => None,
            },
            None => None,
        }
    }

    /// The place of a function among the items.
    fn place_of(&self, number: u32) -> Option<usize>
        ensures { result ≡ slice_get (function_places 0 self.now.items.items) number }
    {
        self.places.get(number as usize).copied()
    }
}

/// The names of the functions.
fn names_of(alloc: Global, items: &Vec<Item>) -> Result<FunNames, MemoryFault>
    ensures { IfOk result (λ names. names ≡ function_names (seen_items items.now.items)) }
{
    let mut names: Vec<Str> = Vec::new(alloc);
    for item in items {
        if let Item::Fn(function) = item {
            names.push(copy_text(alloc, &function.name.name)?)?;
        }
    }
    Ok(FunNames::new(names))
}

/// The places of the functions.
fn places_of(alloc: Global, items: &Vec<Item>) -> Result<Vec<usize>, MemoryFault>
    ensures { IfOk result (λ places. places.items ≡ function_places 0 items.now.items) }
{
    let mut places = Vec::new(alloc);
    for (place, item) in items.iter().enumerate() {
        if let Item::Fn(_) = item {
            places.push(place)?;
        }
    }
    Ok(places)
}
