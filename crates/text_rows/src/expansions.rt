//! Async scripts and what they become, worked out by hand, and scripts that are none. Memory is ample.

use crate::rows::expect_met;
use async_segments::{ExpandFault, NotAsync, expand};
use std::alloc::Global;

// Scripts, and what they become.
const EXPANDED: [(&'static [u8], &'static [u8]); 14] = [
    // an await alone, and code behind it that returns
    (
        b"async fn f() { log(\"a\"); await unit; log(\"c\"); return 3; } fn g(v) { log(v); } then(f(), g, unit); \
          log(\"b\");",
        b"fn f ( ) { var p__ = promise ( ) ; f__0 ( p__ ) ; return p__ ; } fn f__0 ( p__ ) { try { log ( \"a\" ) ; \
          then ( resolved ( unit ) , bind ( f__1 , [ p__ ] ) , bind ( f__r , [ p__ ] ) ) ; } catch ( e__ ) { \
          reject ( p__ , e__ ) ; } } fn f__1 ( p__ , v__ ) { try { log ( \"c\" ) ; resolve ( p__ , 3 ) ; return ; \
          resolve ( p__ , unit ) ; } catch ( e__ ) { reject ( p__ , e__ ) ; } } fn f__r ( p__ , r__ ) { reject ( \
          p__ , r__ ) ; } fn g ( v ) { log ( v ) ; } then ( f ( ) , g , unit ) ; log ( \"b\" ) ;\n",
    ),
    // no await
    (
        b"async fn f() { }",
        b"fn f ( ) { var p__ = promise ( ) ; f__0 ( p__ ) ; return p__ ; } fn f__0 ( p__ ) { try { resolve ( p__ , \
          unit ) ; } catch ( e__ ) { reject ( p__ , e__ ) ; } } fn f__r ( p__ , r__ ) { reject ( p__ , r__ ) ; }\n",
    ),
    // an await whose value is returned
    (
        b"async fn f(a) { return await a; }",
        b"fn f ( a ) { var p__ = promise ( ) ; f__0 ( p__ , a ) ; return p__ ; } fn f__0 ( p__ , a ) { try { then \
          ( resolved ( a ) , bind ( f__1 , [ p__ , a ] ) , bind ( f__r , [ p__ ] ) ) ; } catch ( e__ ) { reject ( \
          p__ , e__ ) ; } } fn f__1 ( p__ , a , v__ ) { try { resolve ( p__ , v__ ) ; return ; resolve ( p__ , \
          unit ) ; } catch ( e__ ) { reject ( p__ , e__ ) ; } } fn f__r ( p__ , r__ ) { reject ( p__ , r__ ) ; }\n",
    ),
    // an await in an assignment, and one in a `var`
    (
        b"async fn g(a) { a = await 1; var b = await a + 1; log(b); }",
        b"fn g ( a ) { var p__ = promise ( ) ; g__0 ( p__ , a , unit ) ; return p__ ; } fn g__0 ( p__ , a , b ) { \
          try { then ( resolved ( 1 ) , bind ( g__1 , [ p__ , a , b ] ) , bind ( g__r , [ p__ ] ) ) ; } catch ( \
          e__ ) { reject ( p__ , e__ ) ; } } fn g__1 ( p__ , a , b , v__ ) { try { a = v__ ; then ( resolved ( a + \
          1 ) , bind ( g__2 , [ p__ , a , b ] ) , bind ( g__r , [ p__ ] ) ) ; } catch ( e__ ) { reject ( p__ , e__ \
          ) ; } } fn g__2 ( p__ , a , b , v__ ) { try { b = v__ ; log ( b ) ; resolve ( p__ , unit ) ; } catch ( \
          e__ ) { reject ( p__ , e__ ) ; } } fn g__r ( p__ , r__ ) { reject ( p__ , r__ ) ; }\n",
    ),
    // a throw behind an await
    (
        b"async fn f() { await unit; throw 7; }",
        b"fn f ( ) { var p__ = promise ( ) ; f__0 ( p__ ) ; return p__ ; } fn f__0 ( p__ ) { try { then ( resolved \
          ( unit ) , bind ( f__1 , [ p__ ] ) , bind ( f__r , [ p__ ] ) ) ; } catch ( e__ ) { reject ( p__ , e__ ) \
          ; } } fn f__1 ( p__ , v__ ) { try { throw 7 ; resolve ( p__ , unit ) ; } catch ( e__ ) { reject ( p__ , \
          e__ ) ; } } fn f__r ( p__ , r__ ) { reject ( p__ , r__ ) ; }\n",
    ),
    // parameters that are kept over awaits
    (
        b"async fn f(a, b) { await a; await b; return a + b; }",
        b"fn f ( a , b ) { var p__ = promise ( ) ; f__0 ( p__ , a , b ) ; return p__ ; } fn f__0 ( p__ , a , b ) { \
          try { then ( resolved ( a ) , bind ( f__1 , [ p__ , a , b ] ) , bind ( f__r , [ p__ ] ) ) ; } catch ( \
          e__ ) { reject ( p__ , e__ ) ; } } fn f__1 ( p__ , a , b , v__ ) { try { then ( resolved ( b ) , bind ( \
          f__2 , [ p__ , a , b ] ) , bind ( f__r , [ p__ ] ) ) ; } catch ( e__ ) { reject ( p__ , e__ ) ; } } fn \
          f__2 ( p__ , a , b , v__ ) { try { resolve ( p__ , a + b ) ; return ; resolve ( p__ , unit ) ; } catch ( \
          e__ ) { reject ( p__ , e__ ) ; } } fn f__r ( p__ , r__ ) { reject ( p__ , r__ ) ; }\n",
    ),
    // an await of a rejected promise
    (
        b"async fn f() { await rejected(5); log(1); }",
        b"fn f ( ) { var p__ = promise ( ) ; f__0 ( p__ ) ; return p__ ; } fn f__0 ( p__ ) { try { then ( resolved \
          ( rejected ( 5 ) ) , bind ( f__1 , [ p__ ] ) , bind ( f__r , [ p__ ] ) ) ; } catch ( e__ ) { reject ( \
          p__ , e__ ) ; } } fn f__1 ( p__ , v__ ) { try { log ( 1 ) ; resolve ( p__ , unit ) ; } catch ( e__ ) { \
          reject ( p__ , e__ ) ; } } fn f__r ( p__ , r__ ) { reject ( p__ , r__ ) ; }\n",
    ),
    // two async functions that call each other
    (
        b"async fn f(n) { return await g(n); } async fn g(n) { if (n == 0) { return 0; } return await f(n - 1); }",
        b"fn f ( n ) { var p__ = promise ( ) ; f__0 ( p__ , n ) ; return p__ ; } fn f__0 ( p__ , n ) { try { then \
          ( resolved ( g ( n ) ) , bind ( f__1 , [ p__ , n ] ) , bind ( f__r , [ p__ ] ) ) ; } catch ( e__ ) { \
          reject ( p__ , e__ ) ; } } fn f__1 ( p__ , n , v__ ) { try { resolve ( p__ , v__ ) ; return ; resolve ( \
          p__ , unit ) ; } catch ( e__ ) { reject ( p__ , e__ ) ; } } fn f__r ( p__ , r__ ) { reject ( p__ , r__ ) \
          ; } fn g ( n ) { var p__ = promise ( ) ; g__0 ( p__ , n ) ; return p__ ; } fn g__0 ( p__ , n ) { try { \
          if ( n == 0 ) { resolve ( p__ , 0 ) ; return ; } then ( resolved ( f ( n - 1 ) ) , bind ( g__1 , [ p__ , \
          n ] ) , bind ( g__r , [ p__ ] ) ) ; } catch ( e__ ) { reject ( p__ , e__ ) ; } } fn g__1 ( p__ , n , v__ \
          ) { try { resolve ( p__ , v__ ) ; return ; resolve ( p__ , unit ) ; } catch ( e__ ) { reject ( p__ , e__ \
          ) ; } } fn g__r ( p__ , r__ ) { reject ( p__ , r__ ) ; }\n",
    ),
    // locals of nested blocks, `return;`, and `catch`
    (
        b"async fn f() { while (true) { var i = 1; if (i < 2) { return; } else if (i == 2) { log(i); } else { var \
          j = -i; } } try { throw 1; } catch (e) { log(e); } }",
        b"fn f ( ) { var p__ = promise ( ) ; f__0 ( p__ , unit , unit , unit ) ; return p__ ; } fn f__0 ( p__ , i \
          , j , e ) { try { while ( true ) { i = 1 ; if ( i < 2 ) { resolve ( p__ , unit ) ; return ; } else if ( \
          i == 2 ) { log ( i ) ; } else { j = - i ; } } try { throw 1 ; } catch ( e ) { log ( e ) ; } resolve ( \
          p__ , unit ) ; } catch ( e__ ) { reject ( p__ , e__ ) ; } } fn f__r ( p__ , r__ ) { reject ( p__ , r__ ) \
          ; }\n",
    ),
    // a plain script is copied
    (
        b"var x = [1, \"q\\\"\\\\\\n\"]; // a comment\nfn f() { return; } if (!false && x[0] >= 007 || f() != \
          unit) { x = (2 * 3 / 4 % 5); }",
        b"var x = [ 1 , \"q\\\"\\\\\\n\" ] ; fn f ( ) { return ; } if ( ! false && x [ 0 ] >= 7 || f ( ) != unit ) \
          { x = ( 2 * 3 / 4 % 5 ) ; }\n",
    ),
    // nothing
    (b"", b"\n"),
    // the operand of an await is a whole expression
    (
        b"async fn f() { await a || b && c; await - a; return await (1); }",
        b"fn f ( ) { var p__ = promise ( ) ; f__0 ( p__ ) ; return p__ ; } fn f__0 ( p__ ) { try { then ( resolved \
          ( a || b && c ) , bind ( f__1 , [ p__ ] ) , bind ( f__r , [ p__ ] ) ) ; } catch ( e__ ) { reject ( p__ , \
          e__ ) ; } } fn f__1 ( p__ , v__ ) { try { then ( resolved ( - a ) , bind ( f__2 , [ p__ ] ) , bind ( \
          f__r , [ p__ ] ) ) ; } catch ( e__ ) { reject ( p__ , e__ ) ; } } fn f__2 ( p__ , v__ ) { try { then ( \
          resolved ( ( 1 ) ) , bind ( f__3 , [ p__ ] ) , bind ( f__r , [ p__ ] ) ) ; } catch ( e__ ) { reject ( \
          p__ , e__ ) ; } } fn f__3 ( p__ , v__ ) { try { resolve ( p__ , v__ ) ; return ; resolve ( p__ , unit ) \
          ; } catch ( e__ ) { reject ( p__ , e__ ) ; } } fn f__r ( p__ , r__ ) { reject ( p__ , r__ ) ; }\n",
    ),
    // a local that is named twice, and one that is a parameter too
    (
        b"async fn f(a) { var a = 1; try { } catch (a) { } try { } catch (b) { } try { } catch (b) { } }",
        b"fn f ( a ) { var p__ = promise ( ) ; f__0 ( p__ , a , unit ) ; return p__ ; } fn f__0 ( p__ , a , b ) { \
          try { a = 1 ; try { } catch ( a ) { } try { } catch ( b ) { } try { } catch ( b ) { } resolve ( p__ , \
          unit ) ; } catch ( e__ ) { reject ( p__ , e__ ) ; } } fn f__r ( p__ , r__ ) { reject ( p__ , r__ ) ; }\n",
    ),
    // the marks stand close to other tokens, and comments hold none
    (
        b"1;async fn f(){x=await\"a\";}//async await",
        b"1 ; fn f ( ) { var p__ = promise ( ) ; f__0 ( p__ ) ; return p__ ; } fn f__0 ( p__ ) { try { then ( \
          resolved ( \"a\" ) , bind ( f__1 , [ p__ ] ) , bind ( f__r , [ p__ ] ) ) ; } catch ( e__ ) { reject ( \
          p__ , e__ ) ; } } fn f__1 ( p__ , v__ ) { try { x = v__ ; resolve ( p__ , unit ) ; } catch ( e__ ) { \
          reject ( p__ , e__ ) ; } } fn f__r ( p__ , r__ ) { reject ( p__ , r__ ) ; }\n",
    ),
];

// Whether a script becomes these bytes.
fn is_expanded(alloc: Global, source: &[u8], wanted: &[u8]) -> bool {
    let found = expand(alloc, source);
    let is_it = match &found {
        Ok(written) => written.as_slice() == wanted,
        Err(_) => false,
    };
    drop(found);
    is_it
}

#[test]
fn scripts_are_expanded(rt: HostRuntime) {
    for (number, (source, wanted)) in EXPANDED.iter().enumerate() {
        expect_met(&rt, is_expanded(rt.alloc(), *source, *wanted), number);
    }
}

// Scripts that have no tree with marks.
const REFUSED: [&'static [u8]; 34] = [
    b"@",
    b"log(1",
    b"async f();",
    b"async;",
    b"async",
    b"async async fn f() { }",
    b"async log(1); fn f() { }",
    b"fn async() { }",
    b"x = async - 1;",
    b"if (true) { async fn f() { } }",
    b"fn f() { async fn g() { } }",
    b"async fn f() { async fn g() { } }",
    b"await 1;",
    b"fn f() { await 1; }",
    b"async fn f() { if (true) { await 1; } }",
    b"async fn f() { while (await 1) { } }",
    b"async fn f() { log(await 1); }",
    b"async fn f() { await await 1; }",
    b"async fn f() { await await (1); }",
    b"async fn f() { await; }",
    b"async fn f() { return await; }",
    b"async fn f() { await x = 1; }",
    b"async fn f() { await var x = 1; }",
    b"async fn f() { x = 1 + await 2; }",
    b"async fn f() { throw await 2; }",
    b"async fn f() { if (true) { } await else { } }",
    b"async fn f(await) { }",
    b"async fn await() { }",
    b"async fn f() { return a || await b; }",
    b"async fn f__0() { }",
    b"var a__ = 1;",
    b"async fn f(a, b, c, d, e, g) { var h = 1; }",
    b"async fn n123456789012345678901234567890123456789012345678901() { }",
    b"async fn f() { x = await (1; }",
];

fn is_refused(alloc: Global, source: &[u8]) -> bool {
    expand(alloc, source).err() == Some(ExpandFault::Is(NotAsync))
}

#[test]
fn other_scripts_are_refused(rt: HostRuntime) {
    for (number, source) in REFUSED.iter().enumerate() {
        expect_met(&rt, is_refused(rt.alloc(), *source), number);
    }
}
