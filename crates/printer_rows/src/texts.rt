//! Texts and their canonical texts, worked out by hand from the rules.

use qz_printer::print_module;
use qz_source::read_module;
use std::alloc::{AllocError, Global};
use std::test::Fail;

/// Canonical texts without the line feed at their end: each is printed as it stands.
static CANONICAL: [&[u8]; 34] = [
    b"module L ( event bool ! o ) { loop { event bool x ; if ( x ) emit o ; pause ; emit x ; } }",
    b"module Cell ( event bool ? t , event bool ! c ) { mem bool s ; loop { event bool x ; if ( t & s ) emit x ; if ( t ) next ( s ) = ! s ; if ( x ) emit c ; pause ; } }",
    b"module Cell ( event bool ? t , event bool ! c ) ; module G ( event bool ? i , event bool ! p , event bool ! o ) { event bool c0 , c1 ; Cell ( i , c0 ) ; || Cell ( c0 , c1 ) ; || loop { if ( c0 ) emit p ; if ( c1 ) emit o ; pause ; } }",
    b"module T ( ) { }",
    b"module B ( ) ; module C ( mem bv [ 8 ] ? a ) ; module T ( ) { }",
    b"module T ( mem bool ? a , event bv [ 64 ] ! o ) { }",
    b"module T ( ) { mem bv [ 8 ] x , y , z ; event bool e ; }",
    b"module T ( ) { || nothing ; || }",
    b"module T ( ) { nothing ; pause ; l : pause ; halt ; l : halt ; }",
    b"module T ( ) { await ( a ) ; immediate await ( a ) ; l : await ( a ) ; l : immediate await ( a ) ; }",
    b"module T ( ) { x = a ; next ( x ) = a ; emit x ; emit next ( x ) ; }",
    b"module T ( ) { { mem bool x ; x = a ; || { } } pause ; }",
    b"module T ( ) { if ( a ) pause ; if ( a ) pause ; else nothing ; }",
    b"module T ( ) { if ( a ) if ( b ) pause ; else nothing ; else halt ; }",
    b"module T ( ) { do pause ; while ( a ) ; while ( a ) pause ; every ( a ) loop pause ; }",
    b"module T ( ) { abort pause ; when ( a ) ; weak abort pause ; when ( a ) ; }",
    b"module T ( ) { immediate abort pause ; when ( a ) ; weak immediate abort pause ; when ( a ) ; }",
    b"module T ( ) { suspend pause ; when ( a ) ; weak suspend pause ; when ( a ) ; }",
    b"module T ( ) { immediate suspend pause ; when ( a ) ; weak immediate suspend pause ; when ( a ) ; }",
    b"module T ( ) { B ( ) ; B ( a ) ; B ( a , b + c , ( d ) ) ; }",
    b"module T ( ) { x = true ; x = false ; x = 8'd200 ; x = ( ( a ) ) ; }",
    b"module T ( ) { x = 99999999999999999999'd99999999999999999999 ; }",
    b"module T ( ) { x = ! ~ a ; x = ! ( a { 1 } ) ; x = a { 7 : 0 } { 1 } ; }",
    b"module T ( ) { x = a @ b @ c ; x = a @ ( b @ c ) ; }",
    b"module T ( ) { x = a + b - c ; x = a - ( b - c ) ; }",
    b"module T ( ) { x = a == b ; x = a != b ; x = ( a < b ) < c ; }",
    b"module T ( ) { x = a < b ; x = a <= b ; x = a > b ; x = a >= b ; }",
    b"module T ( ) { x = a & b & c ; x = a & ( b & c ) ; }",
    b"module T ( ) { x = a ^ b ^ c ; x = a ^ ( b ^ c ) ; }",
    b"module T ( ) { x = a | b | c ; x = a | ( b | c ) ; }",
    b"module T ( ) { x = a -> b -> c ; x = ( a -> b ) -> c ; }",
    b"module T ( ) { x = a ? b : c ? d : e ; x = ( a ? b : c ) ? d : e ; }",
    b"module T ( ) { x = a ? b : c -> d | e ^ f & g == h + i @ ! j { 1 } ; }",
    b"module \xc3\xa9 ( ) { \xe6\x97\xa5\xe6\x9c\xac = ( true ) ; }",
];

/// Texts, and the canonical text of each without the line feed at its end.
static OTHERS: [(&[u8], &[u8]); 8] = [
    (
        b"// c\nmodule T(event !o){/* c */emit\to;\r\n}",
        b"module T ( event bool ! o ) { emit o ; }",
    ),
    (
        b"module T(bool ?a,!b,event ?c,bv[08]!d,?e){}",
        b"module T ( mem bool ? a , mem bool ! b , event bool ? c , mem bv [ 8 ] ! d , mem bv [ 8 ] ? e ) { }",
    ),
    (
        b"module B(mem ?a,!b);module T(){}",
        b"module B ( mem bool ? a , mem bool ! b ) ; module T ( ) { }",
    ),
    (
        b"module T(){bool x,y;event z;bv[0]v;event bv[1]w;}",
        b"module T ( ) { mem bool x , y ; event bool z ; mem bv [ 0 ] v ; event bv [ 1 ] w ; }",
    ),
    (
        b"module T(){emit(o);emit(next(o));}",
        b"module T ( ) { emit o ; emit next ( o ) ; }",
    ),
    (
        b"module T(){x=007'd000;x=a{01:00};x=00000000000000000001'd99999999999999999999;}",
        b"module T ( ) { x = 7'd0 ; x = a { 1 : 0 } ; x = 1'd99999999999999999999 ; }",
    ),
    (
        b"module T(){x=a<b;x=a<=b;x=a->b;x=a-b;x=!a!=b;l:immediate await(a==b);}",
        b"module T ( ) { x = a < b ; x = a <= b ; x = a -> b ; x = a - b ; x = ! a != b ; l : immediate await ( a == b ) ; }",
    ),
    (
        b"module T(){if(a)if(b)pause;else nothing;weak immediate suspend{}when(a);B(a,b);||}",
        b"module T ( ) { if ( a ) if ( b ) pause ; else nothing ; weak immediate suspend { } when ( a ) ; B ( a , b ) ; || }",
    ),
];

/// The canonical text of what is read of a text, or none where nothing is.
fn printed(alloc: Global, text: &[u8]) -> Result<Option<Vec<u8>>, AllocError> {
    if text.len() > 1_048_576 {
        return Ok(None);
    }
    let Ok(file) = read_module(alloc, text) else {
        return Ok(None);
    };
    Ok(Some(print_module(alloc, &file)?))
}

/// What is read of the first text has the second one as its canonical text, but for its end.
fn is_printed(alloc: Global, text: &[u8], canonical: &[u8]) -> Result<bool, AllocError> {
    let Some(printed) = printed(alloc, text)? else {
        return Ok(false);
    };
    let mut whole = Vec::from_slice(alloc, canonical)?;
    whole.push(b'\n')?;
    Ok(printed == whole)
}

#[test]
fn canonical_texts(rt: HostRuntime) -> Result<(), Fail> {
    for text in &CANONICAL {
        assert!(rt; is_printed(rt.alloc(), text, text)?);
    }
    Ok(())
}

#[test]
fn other_texts(rt: HostRuntime) -> Result<(), Fail> {
    for (text, canonical) in &OTHERS {
        assert!(rt; is_printed(rt.alloc(), text, canonical)?);
    }
    Ok(())
}
