//! Counts brackets, functions, parameters and global names, token by token.

ghost use Rattle.std.specs.Prelude.{◌≡◌, ◌≤◌, ◌∷◌, [], List, OnOk, Ok, true, false};
ghost use Rattle.lang_place.specs.Counting.{opened, begun_functions, standing_behind, global_names, head_names, no_counts};
ghost use Rattle.lang_place.specs.NameSets.{Adds};
ghost use Rattle.lang_place.specs.Held.{Holds, HasRoom, CountsOn, StaysWithin, GoesBeyond};

use crate::standing::Standing;
use crate::terminal::Terminal;
use std::alloc::{AllocError, Global};
use std::collections::HashSet;

/// How many brackets may be open at a token, its own counted.
const MOST_BRACKETS: usize = 64;

/// How many functions a script may have.
const MOST_FUNCTIONS: usize = 4096;

/// How many names the head of a function may have: its own, and those of eight parameters.
const MOST_NAMES: usize = 9;

/// How many different names `var` and `catch` may give outside functions.
const MOST_GLOBALS: usize = 4096;

/// What was counted so far.
#[derive(Drop)]
pub(crate) struct Count {
    pub brackets: usize,
    pub functions: usize,
    pub standing: Standing,
    pub globals: HashSet<Vec<u8>>,
}

fn opened(brackets: usize, terminal: Terminal) -> usize
    requires { brackets ≤ 64 }
    ensures { result ≡ opened brackets terminal }
{
    match terminal {
        Terminal::OpenRound => brackets + 1,
        Terminal::OpenSquare => brackets + 1,
        Terminal::OpenBrace => brackets + 1,
        Terminal::CloseRound => brackets.saturating_sub(1),
        Terminal::CloseSquare => brackets.saturating_sub(1),
        Terminal::CloseBrace => brackets.saturating_sub(1),
        _ => brackets,
    }
}

fn begun_functions(functions: usize, terminal: Terminal) -> usize
    requires { functions ≤ 4096 }
    ensures { result ≡ begun_functions functions terminal }
{
    match terminal {
        Terminal::Fn => functions + 1,
        _ => functions,
    }
}

fn standing_behind(brackets: usize, standing: Standing, terminal: Terminal) -> Standing
    requires { head_names standing ≤ 9 }
    ensures { result ≡ standing_behind brackets standing terminal }
{
    match standing {
        Standing::Outside => match terminal {
            Terminal::Fn => Standing::Head(0),
            Terminal::Var => Standing::Naming,
            Terminal::Catch => Standing::Catching,
            _ => Standing::Outside,
        },
        Standing::Naming => Standing::Outside,
        Standing::Catching => Standing::Naming,
        Standing::Head(names) => match terminal {
            Terminal::Name => Standing::Head(names + 1),
            Terminal::OpenBrace => Standing::Inside,
            _ => Standing::Head(names),
        },
        Standing::Inside => {
            if brackets == 0 {
                Standing::Outside
            } else {
                Standing::Inside
            }
        }
    }
}

fn head_names(standing: Standing) -> usize
    ensures { result ≡ head_names standing }
{
    match standing {
        Standing::Head(names) => names,
        Standing::Outside => 0,
        Standing::Naming => 0,
        Standing::Catching => 0,
        Standing::Inside => 0,
    }
}

/// Adds a name to a set, unless it is there. An error comes only for want of memory.
pub fn add_name(
    alloc: Global,
    globals: &mut HashSet<Vec<u8>>,
    name: &[u8],
) -> Result<(), AllocError>
    ensures { OnOk result (Adds globals.old.keys globals.new.keys (name.now ∷ [])) }
{
    let bytes = name.to_vec(alloc)?;
    globals.insert(bytes)?;
    Ok(())
}

/// Adds the content of a token, where it is the name of a global variable.
fn add_global(
    alloc: Global,
    globals: &mut HashSet<Vec<u8>>,
    standing: Standing,
    content: &[u8],
) -> Result<(), AllocError>
    ensures { OnOk result (Adds globals.old.keys globals.new.keys (global_names standing content.now)) }
{
    match standing {
        Standing::Naming => add_name(alloc, globals, content),
        Standing::Outside => Ok(()),
        Standing::Catching => Ok(()),
        Standing::Head(_) => Ok(()),
        Standing::Inside => Ok(()),
    }
}

impl Count {
    pub(crate) fn new(alloc: Global) -> Count
        ensures holds { Holds result no_counts }
        ensures room { HasRoom result }
    {
        Count {
            brackets: 0,
            functions: 0,
            standing: Standing::Outside,
            globals: HashSet::new(alloc),
        }
    }

    /// Counts a token. Says whether the counts are within their limits.
    pub(crate) fn take(
        &mut self,
        alloc: Global,
        terminal: Terminal,
        content: &[u8],
    ) -> Result<bool, AllocError>
        requires { HasRoom self.old }
        ensures holds { OnOk result (CountsOn self.old self.new terminal content.now) }
        ensures within { result ≡ Ok true → StaysWithin self.old terminal content.now }
        ensures room { result ≡ Ok true → HasRoom self.new }
        ensures beyond { result ≡ Ok false → GoesBeyond self.old terminal content.now }
    {
        add_global(alloc, &mut self.globals, self.standing, content)?;
        self.brackets = opened(self.brackets, terminal);
        self.functions = begun_functions(self.functions, terminal);
        self.standing = standing_behind(self.brackets, self.standing, terminal);
        Ok(
            self.brackets <= MOST_BRACKETS
                && self.functions <= MOST_FUNCTIONS
                && head_names(self.standing) <= MOST_NAMES
                && self.globals.len() <= MOST_GLOBALS,
        )
    }
}
