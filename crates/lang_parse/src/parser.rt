//! The tree of a script.

ghost use Rattle.std.specs.Prelude.{◌≡◌, ℕ, List, IfOk, IfErr};
ghost use Rattle.page_types.specs.Tree.{Item};
ghost use Rattle.lang_tokens.specs.Seen.{TokenSeen};
ghost use Rattle.lang_ast.specs.Seen.{seen_tree};
ghost use Rattle.lang_parse.specs.Symbols.{Symbol, symbols_of};
ghost use Rattle.lang_parse.specs.Grammar.{HasTree, HasNoTree};
ghost use Rattle.lang_parse.specs.Faults.{IsNoTree, IsNoParse, IsPlaced};
ghost use Rattle.lang_parse.specs.Laws.{NamesRise};

use crate::fault::{NoParse, NoTree, ParseFault, TreeFault};
use crate::globals::{function_count, global_count};
use crate::limits::is_shallow;
use crate::toplevel::items;
use lang_ast::Tree;
use lang_place::place;
use lang_tokens::Tokens;
use std::alloc::Global;

/// How many functions a script may have.
pub const MOST_FUNCTIONS: usize = 4096;

/// How many different names `var` and `catch` may give outside functions.
pub const MOST_GLOBALS: usize = 4096;

/// The tree that has these tokens, without the place where there is none.
///
/// `NoTree` comes exactly where no tree has them.
fn tree_of(alloc: Global, tokens: &Tokens) -> Result<Tree, TreeFault>
    ensures found { IfOk result (λ tree. HasTree (symbols_of tokens.now.items) (seen_tree tree)) }
    ensures none { IfErr result (λ e. IsNoTree e → (tree : List Item) → HasTree (symbols_of tokens.now.items) tree → ⊥) }
{
    let listed = tokens.items();
    if !is_shallow(listed) {
        return Err(TreeFault::Is(NoTree));
    }
    let items = items(alloc, listed)?;
    if function_count(&items) > MOST_FUNCTIONS {
        return Err(TreeFault::Is(NoTree));
    }
    if global_count(alloc, &items)? > MOST_GLOBALS {
        return Err(TreeFault::Is(NoTree));
    }
    Ok(Tree { items })
}

/// The tree that has these tokens.
///
/// `NoParse` comes exactly where no tree has them, and tells the place of the error. Only then the tokens are gone through
/// once more for it.
pub fn parse(alloc: Global, tokens: &Tokens) -> Result<Tree, ParseFault>
    ensures found { IfOk result (λ tree. HasTree (symbols_of tokens.now.items) (seen_tree tree)) }
    ensures none { IfErr result (λ e. IsNoParse e → HasNoTree (symbols_of tokens.now.items)) }
    ensures place { IfErr result (IsPlaced tokens.now) }
{
    match tree_of(alloc, tokens) {
        Ok(tree) => Ok(tree),
        Err(TreeFault::Is(NoTree)) => {
            let at = place(alloc, tokens)?;
            Err(ParseFault::Is(NoParse { at }))
        }
        Err(TreeFault::OutOfMemory) => Err(ParseFault::OutOfMemory),
    }
}

/// The law that a text has at most one tree.
pub fn one_tree()
    ensures { (ks : List Symbol) (one other : List Item) → HasTree ks one → HasTree ks other → one ≡ other }
{}

/// The law that the names of a script's tree stand in it in the order of the text. So the first fault of its names is
/// the one at the least byte.
pub fn names_rise()
    ensures { (end : ℕ) (tokens : List TokenSeen) (tree : List Item) → NamesRise end tokens tree }
{}
