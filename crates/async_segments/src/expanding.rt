//! The plain script for a script with async functions.

ghost use Rattle.std.specs.Prelude.{◌≡◌, List, IfOk, IfErr, Ok, length, false};
ghost use Rattle.lang_tokens.specs.Seen.{TokenSeen};
ghost use Rattle.lang_tokens.specs.declared.fault.BadByte.{BadByte};
ghost use Rattle.lang_tokens.specs.declared.fault.TokensFault.TheVariants as lexed;
ghost use Rattle.lang_parse.specs.Faults.{IsNoParse};
ghost use Rattle.lang_tokens.specs.Tokens.{tokens_of};
ghost use Rattle.lang_ast.specs.Seen.{seen_tree};
ghost use Rattle.lang_parse.specs.Symbols.{symbols_of};
ghost use Rattle.lang_parse.specs.Grammar.{HasTree, IsShallow, HasNoTree};
ghost use Rattle.async_segments.specs.Script.{Each, IsOwnName, IsNotAsync, IsExpansion, IsNoAsync};
ghost use Rattle.async_segments.specs.Encoded.{has_mark, IsExpandedTo, IsNotExpandable, HasMarkOrIsDeep};
ghost use Rattle.async_segments.specs.Signed.{HasSignedTree, HasNoSignedTree, WritesTree, RefusesTree, LaysOutTree};
ghost use Rattle.async_segments.specs.Written.{shown_all};

use crate::fault::{ExpandFault, NotAsync};
use crate::items::write_items;
use crate::layout::{holds_mark, is_shallow, lay_out};
use crate::marking::{are_own_names, marked};
use crate::written::Written;
use lang_ast::Tree;
use lang_parse::{ParseFault, parse};
use lang_tokens::{Tokens, TokensFault, tokens};
use std::alloc::Global;

fn of_tokens(fault: TokensFault) -> ExpandFault
    ensures { IsNotAsync result → (bad : BadByte) × (fault ≡ lexed.Is bad) }
{
    match fault {
        TokensFault::Is(_) => ExpandFault::Is(NotAsync),
        TokensFault::OutOfMemory => ExpandFault::OutOfMemory,
    }
}

fn of_parse(fault: ParseFault) -> ExpandFault
    ensures { IsNotAsync result → IsNoParse fault }
{
    match fault {
        ParseFault::Is(_) => ExpandFault::Is(NotAsync),
        ParseFault::OutOfMemory => ExpandFault::OutOfMemory,
    }
}

/// The tokens of a script.
fn tokens_of(alloc: Global, bytes: &[u8]) -> Result<Tokens, ExpandFault>
    ensures found { IfOk result (λ t. tokens_of bytes.now ≡ Ok t.items) }
    ensures size { IfOk result (λ t. t.length ≡ length bytes.now) }
    ensures none { IfErr result (λ e. IsNotAsync e → (ts : List TokenSeen) → tokens_of bytes.now ≡ Ok ts → ⊥) }
{
    match tokens(alloc, bytes) {
        Ok(found) => Ok(found),
        Err(fault) => Err(of_tokens(fault)),
    }
}

/// The tree of tokens.
fn parsed(alloc: Global, tokens: &Tokens) -> Result<Tree, ExpandFault>
    ensures found { IfOk result (λ tree. HasTree (symbols_of tokens.now.items) (seen_tree tree)) }
    ensures none { IfErr result (λ e. IsNotAsync e → HasNoTree (symbols_of tokens.now.items)) }
{
    match parse(alloc, tokens) {
        Ok(tree) => Ok(tree),
        Err(fault) => Err(of_parse(fault)),
    }
}

/// The tree of a script.
fn tree_of(alloc: Global, text: &[u8]) -> Result<Tree, ExpandFault>
    ensures found { IfOk result (λ tree. HasSignedTree text.now (seen_tree tree)) }
    ensures none { IfErr result (λ e. IsNotAsync e → HasNoSignedTree text.now) }
{
    match tokens_of(alloc, text) {
        Ok(tokens) => parsed(alloc, &tokens),
        Err(fault) => Err(fault),
    }
}

/// These tokens, if no mark is left and at no token too many brackets are open.
fn tested(written: Vec<Written>) -> Result<Vec<Written>, ExpandFault>
    ensures kept { IfOk result (λ w. w.items ≡ written.items) }
    ensures no_mark { IfOk result (λ w. has_mark (shown_all written.items) ≡ false) }
    ensures shallow { IfOk result (λ w. IsShallow 0 (shown_all written.items)) }
    ensures refused { IfErr result (λ e. HasMarkOrIsDeep (shown_all written.items)) }
{
    if holds_mark(&written) {
        return Err(ExpandFault::Is(NotAsync));
    }
    if !is_shallow(&written) {
        return Err(ExpandFault::Is(NotAsync));
    }
    Ok(written)
}

/// The tokens of the plain script, from the tree of the script with signs in place of `async` and `await`.
fn written(alloc: Global, tree: &Tree) -> Result<Vec<Written>, ExpandFault>
    ensures written { IfOk result (λ w. WritesTree (seen_tree tree.now) w.items) }
    ensures refused { IfErr result (λ e. IsNotAsync e → RefusesTree (seen_tree tree.now)) }
{
    match write_items(alloc, tree) {
        Ok(written) => tested(written),
        Err(fault) => Err(fault),
    }
}

/// The plain script, from the same tree.
fn expanded_tree(alloc: Global, tree: &Tree) -> Result<Vec<u8>, ExpandFault>
    ensures expanded { IfOk result (λ out. LaysOutTree (seen_tree tree.now) out.items) }
    ensures refused { IfErr result (λ e. IsNotAsync e → RefusesTree (seen_tree tree.now)) }
{
    match written(alloc, tree) {
        Ok(written) => Ok(lay_out(alloc, &written)?),
        Err(fault) => Err(fault),
    }
}

/// The plain script for a script with these tokens, whose names hold no `__`.
fn expanded_tokens(alloc: Global, bytes: &[u8], source: &Tokens) -> Result<Vec<u8>, ExpandFault>
    requires lexed { tokens_of bytes.now ≡ Ok source.now.items }
    requires size { source.now.length ≡ length bytes.now }
    requires own_names { Each IsOwnName (symbols_of source.now.items) }
    ensures expanded { IfOk result (λ out. IsExpandedTo bytes.now out.items) }
    ensures refused { IfErr result (λ e. IsNotAsync e → IsNotExpandable bytes.now) }
{
    let text = marked(alloc, bytes, source.items())?;
    match tree_of(alloc, &text) {
        Ok(tree) => expanded_tree(alloc, &tree),
        Err(fault) => Err(fault),
    }
}

/// The plain script for a script with these tokens.
fn expanded_source(alloc: Global, bytes: &[u8], source: &Tokens) -> Result<Vec<u8>, ExpandFault>
    requires lexed { tokens_of bytes.now ≡ Ok source.now.items }
    requires size { source.now.length ≡ length bytes.now }
    ensures expanded { IfOk result (λ out. IsExpandedTo bytes.now out.items) }
    ensures refused { IfErr result (λ e. IsNotAsync e → IsNotExpandable bytes.now) }
{
    if are_own_names(source.items()) {
        expanded_tokens(alloc, bytes, source)
    } else {
        Err(ExpandFault::Is(NotAsync))
    }
}

/// The plain script for a script with async functions: its tokens with a space between each two, and LF at the end.
///
/// What is written is read as the tree that the rules make of the marked tree of the script, the places of names left
/// aside. `NotAsync` comes exactly where the bytes are no async script, so each other one is expanded where memory is found.
/// It takes time and memory in proportion to the script and to what is written, which may be some hundred times as long.
pub fn expand(alloc: Global, bytes: &[u8]) -> Result<Vec<u8>, ExpandFault>
    ensures expanded { IfOk result (λ out. IsExpansion bytes.now out.items) }
    ensures refused { IfErr result (λ e. IsNotAsync e → IsNoAsync bytes.now) }
{
    match tokens_of(alloc, bytes) {
        Ok(source) => expanded_source(alloc, bytes, &source),
        Err(fault) => Err(fault),
    }
}
