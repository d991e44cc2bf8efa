//! The trees of scripts, and scripts that have none.

use crate::rows::expect_met;
use crate::texts::{Long, long_script};
use Long::{Globals, Pieces};
use lang_ast::{Expr, Item, Stmt, Tree};
use lang_parse::{ParseFault, parse};
use lang_tokens::tokens;
use std::alloc::Global;
use std::test::Fail;

pub(crate) fn parsed(alloc: Global, script: &[u8]) -> Result<Result<Tree, ParseFault>, Fail> {
    let tokens = tokens(alloc, script)?;
    let tree = parse(alloc, &tokens);
    drop(tokens);
    Ok(tree)
}

// What is said of a script.
#[derive(Clone, Copy)]
enum Said {
    NoTree,
    // how many items it has
    Items(usize),
    // a letter for the variant of each item
    Letters(&'static [char]),
    // its first item is a sum of three terms
    ThreeTerms,
    // its first item is a function with eight parameters and one statement
    EightParameters,
}

use Said::{EightParameters, Items, Letters, NoTree, ThreeTerms};

// A letter for the variant of a statement.
fn letter_of(stmt: &Stmt) -> char {
    match stmt {
        Stmt::Var(_, _) => 'v',
        Stmt::Assign(_, _) => 'a',
        Stmt::Expr(_) => 'e',
        Stmt::If(_, _, others, last) => {
            if others.len() == 1 && last.is_some() {
                'i'
            } else {
                '?'
            }
        }
        Stmt::While(_, _) => 'w',
        Stmt::Return(None) => 'r',
        Stmt::Return(Some(_)) => 'R',
        Stmt::Throw(_) => 't',
        Stmt::Try(_, _, _) => 'T',
    }
}

fn has_letter(item: Option<&Item>, letter: char) -> bool {
    match item {
        Some(Item::Fn(_)) => letter == 'f',
        Some(Item::Stmt(stmt)) => letter_of(stmt) == letter,
        None => false,
    }
}

fn have_letters(items: &[Item], letters: &[char]) -> bool {
    if items.len() != letters.len() {
        return false;
    }
    for (number, letter) in letters.iter().enumerate() {
        if !has_letter(items.get(number), *letter) {
            return false;
        }
    }
    true
}

// Terms are a list from the left.
fn has_three_terms(items: &[Item]) -> bool {
    match items {
        [Item::Stmt(Stmt::Expr(Expr::Sum(first, terms)))] => {
            matches!(**first, Expr::Name(_)) && terms.len() == 2
        }
        _ => false,
    }
}

fn has_eight_parameters(items: &[Item]) -> bool {
    match items {
        [Item::Fn(function)] => function.parameters.len() == 8 && function.body.len() == 1,
        _ => false,
    }
}

fn is_said(items: &[Item], said: Said) -> bool {
    match said {
        NoTree => false,
        Items(count) => items.len() == count,
        Letters(letters) => have_letters(items, letters),
        ThreeTerms => has_three_terms(items),
        EightParameters => has_eight_parameters(items),
    }
}

fn is_met(alloc: Global, script: &[u8], said: Said) -> Result<bool, Fail> {
    let tree = parsed(alloc, script)?;
    let is_met = match &tree {
        Ok(tree) => is_said(&tree.items, said),
        Err(ParseFault::Is(_)) => matches!(said, NoTree),
        Err(_) => false,
    };
    drop(tree);
    Ok(is_met)
}

const SCRIPTS: [(&'static [u8], Said); 25] = [
    // Each statement is read to its variant.
    (
        b"var a = 1; a = 2; log(a); if (a) { } else if (b) { } else { } while (a) { } return; return 1; throw a; try { } catch (e) { }",
        Letters(&['v', 'a', 'e', 'i', 'w', 'r', 'R', 't', 'T']),
    ),
    (b"a - b - c;", ThreeTerms),
    // Functions have eight parameters at most.
    (
        b"fn f(a, b, c, d, e, f, g, h) { return a; }",
        EightParameters,
    ),
    (b"fn f(a, b, c, d, e, f, g, h, i) { }", NoTree),
    // Scripts outside the grammar.
    (b"log(", NoTree),
    (b"log(1)", NoTree),
    (b"log(1,);", NoTree),
    (b"log(1;", NoTree),
    (b"log(1) log(2);", NoTree),
    (b"1", NoTree),
    (b"a = ;", NoTree),
    (b"a == b == c;", NoTree),
    (b"- - 1;", NoTree),
    (b"1(2);", NoTree),
    (b"var if = 1;", NoTree),
    (b"if (1) a;", NoTree),
    (b"else { }", NoTree),
    (b"if (1) { } else { } else { }", NoTree),
    (b"if (1) { } else if { }", NoTree),
    (b"while { }", NoTree),
    (b"try { } catch { }", NoTree),
    (b"fn f(a,) { }", NoTree),
    (b"fn f() { fn g() { } }", NoTree),
    (b"[1, 2;", NoTree),
    (b"throw;", NoTree),
];

#[test]
fn scripts_have_their_trees_or_none(rt: HostRuntime) -> Result<(), Fail> {
    for (number, (script, said)) in SCRIPTS.iter().enumerate() {
        expect_met(&rt, is_met(rt.alloc(), *script, *said)?, number);
    }
    Ok(())
}

const LONG: [(Long, usize, Said); 7] = [
    // A call of `log` whose number stands in 64 pairs of brackets, that of the call among them, and in more.
    (
        Pieces(&[(b"log", 1), (b"(", 64), (b"1", 1), (b")", 64), (b";", 1)]),
        133,
        Items(1),
    ),
    (
        Pieces(&[(b"log", 1), (b"(", 65), (b"1", 1), (b")", 65), (b";", 1)]),
        135,
        NoTree,
    ),
    // There are 4,096 functions at most.
    (Pieces(&[(b"fn f() { }\n", 4096)]), 45_056, Items(4096)),
    (Pieces(&[(b"fn f() { }\n", 4097)]), 45_067, NoTree),
    // A script of 1,048,576 bytes is read.
    (
        Pieces(&[(
            b"log(\"01234567890123456789012345678901234567890123456789012345\");",
            16_384,
        )]),
        1_048_576,
        Items(16_384),
    ),
    // There are 4,096 global names at most; each is declared twice.
    (Globals(4096, 4096), 106_496, Items(8192)),
    (Globals(4097, 4097), 106_522, NoTree),
];

// The script has so many bytes, and this is said of it.
fn is_long_met(alloc: Global, long: &Long, length: usize, said: Said) -> Result<bool, Fail> {
    let script = long_script(alloc, long)?;
    let is_met = is_met(alloc, &script, said);
    let is_long = script.len() == length;
    drop(script);
    let is_met = is_met?;
    Ok(is_long && is_met)
}

#[test]
fn long_scripts_are_read_up_to_their_limits(rt: HostRuntime) -> Result<(), Fail> {
    for (number, (long, length, said)) in LONG.iter().enumerate() {
        let is_met = is_long_met(rt.alloc(), long, *length, *said)?;
        expect_met(&rt, is_met, number);
    }
    Ok(())
}
