//! A script as the machine has it: with an index of its names.

ghost use Rattle.std.specs.Prelude.{◌≡◌, ◌<◌, [], IfOk, IfSome, IsTrue, Some, None, slice_get};
ghost use Rattle.std.specs.Option.{option_map};
ghost use Rattle.lang_meaning.specs.Evaluation.{functions_of, number_of, own_body};
ghost use Rattle.lang_ast.specs.SeenProgram.{seen_program};
ghost use Rattle.lang_meaning.specs.OpNames.{op_named};
ghost use Rattle.page_interp.specs.Runs.{global_names, count_of_functions};
ghost use Rattle.page_interp.specs.CodeNames.{function_at, names_of_frames, HasOwnName};
ghost use Rattle.page_interp.specs.Places.{place_of};

use crate::found::called_names;
use crate::gathering::{all_frame_names, global_names, own_names, same_names};
use crate::guesses::Guesses;
use crate::names::Names;
use crate::operations::Operations;
use lang_ast::{Function, Item, Named, Op, Program};
use page_values::{MemoryFault, Str};
use std::alloc::Global;
use std::marker::Model;

/// A script, and the names of its functions, of its global variables, of the variables of each
/// function, and of what it calls, with guesses that spare a search.
#[derive(Drop)]
pub struct Code<'p> {
    alloc: Global,
    program: &'p Program,
    functions: Names,
    /// By its number, whether a function's name is no operation's and no global variable's.
    own: Vec<bool>,
    globals: Names,
    no_names: Names,
    locals: Vec<Names>,
    operations: Operations,
    guesses: Guesses,
}

impl<'p> Model for Code<'p> {
    ghost use Rattle.lang_ast.specs.declared.program.Program.{Program};
    ghost use Rattle.page_interp.specs.CodeNames.{AreNamesOf};
    ghost use Rattle.lang_ast.specs.contracts.program.Program as program_code;

    ghost Value = { Program };

    ghost coded = { program_code.the_row.coded };

    ghost view = { λ c. c.program.now };

    ghost invariant = { λ c.
        AreNamesOf c.program.now c.functions c.own.items c.globals c.no_names c.locals.items };
}

impl<'p> Code<'p> {
    /// The script with an index of its names.
    pub fn new(alloc: Global, program: &'p Program) -> Result<Code<'p>, MemoryFault>
        ensures { IfOk result (λ c. c ≡ program.now) }
    {
        let functions = same_names(alloc, program.names().names())?;
        let globals = global_names(alloc, program.items())?;
        let own = own_names(alloc, program.names().names(), &globals)?;
        let no_names = Names::new(alloc, Vec::new(alloc))?;
        let locals = all_frame_names(alloc, program.items())?;
        let operations = Operations::new(alloc, &called_names(alloc, program.items())?)?;
        let guesses = Guesses::new(alloc, program.items(), &functions, &locals, &globals)?;
        let _count = program.function_count();
        Ok(Code {
            alloc,
            program,
            functions,
            own,
            globals,
            no_names,
            locals,
            operations,
            guesses,
        })
    }
}

impl Code<'_> {
    ghost use Rattle.lang_ast.specs.Seen.{seen_function, seen_block, seen_items};
    ghost use Rattle.lang_ast.specs.Names.{in_block};
    ghost use Rattle.lang_ast.specs.Calls.{CallsFit};

    /// Where memory is taken.
    pub fn alloc(&self) -> Global {
        self.alloc
    }

    /// The script's items, in the order of the text.
    pub fn items(&self) -> &[Item]
        ensures items { seen_items result.now ≡ (seen_program self.now).items }
        ensures fits { CallsFit (in_block (own_body (seen_program self.now).items)) }
    {
        self.program.items()
    }

    /// The names of the global variables.
    pub fn globals(&self) -> &Names
        ensures { result.now ≡ global_names (seen_program self.now) }
    {
        &self.globals
    }

    /// The names of the variables of the script's own body besides the global ones: there are none.
    pub fn no_names(&self) -> &Names
        ensures { result.now ≡ [] }
    {
        &self.no_names
    }

    /// The number of the function with this name.
    pub fn number_of(&self, name: &Str) -> Option<u32>
        ensures { result ≡ number_of (functions_of (seen_program self.now).items) name.now }
    {
        match self.functions.place(name) {
            Some(place) => Some(place as u32),
            None => None,
        }
    }

    /// The place at which the variable of this name likely stands, among those of its call or among
    /// the global ones, or the function of this name among the functions.
    pub fn likely_place(&self, name: &Named) -> usize {
        self.guesses.place(name)
    }

    /// The number of the function with this name, which likely stands at the given place among the
    /// functions. It is told where the function is likely simple, and no operation and no global
    /// variable has the name.
    pub fn simple(&self, name: &Str, near: usize) -> Option<u32>
        ensures operation { IfSome result (λ _. op_named name.now ≡ None) }
        ensures global { IfSome result (λ _.
            place_of (global_names (seen_program self.now)) name.now ≡ None) }
        ensures number { IfSome result (λ n.
            number_of (functions_of (seen_program self.now).items) name.now ≡ Some n) }
    {
        let place = self.functions.place_near(name, near)?;
        if !self.guesses.is_simple(place) || !self.is_own(place) {
            return None;
        }
        Some(place as u32)
    }

    /// Whether the function at this place has a name that is no operation's and no global variable's.
    fn is_own(&self, place: usize) -> bool
        ensures { IsTrue result → HasOwnName self.now place }
    {
        match self.own.get(place) {
            Some(own) => *own,
            None => false,
        }
    }

    /// The function with this number is not simple: a call of it could not be done at once.
    pub fn doubt(&self, function: u32) {
        self.guesses.doubt(function as usize);
    }

    /// The operation with this name.
    pub fn operation(&self, name: &Str) -> Option<Op>
        ensures { result ≡ op_named name.now }
    {
        self.operations.named(name)
    }

    /// The function with this number.
    pub fn function(&self, number: u32) -> Option<&Function>
        ensures found { option_map (λ f. seen_function f.now) result ≡ function_at self.now number }
        ensures fits { IfSome result (λ f. CallsFit (in_block (seen_block f.now.body.items))) }
    {
        self.program.function(number)
    }

    /// The names of the variables of the function with this number.
    pub fn locals_of(&self, number: u32) -> &Names
        requires { number < count_of_functions (seen_program self.now) }
        ensures { slice_get (names_of_frames self.now) number ≡ Some result.now }
    {
        &self.locals[number as usize]
    }
}
