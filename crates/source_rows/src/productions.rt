//! Each production of the grammar in a text of its own, whose tokens stand with one space between each two: the
//! whole text is a file, and it is none where it is cut after any of its tokens but the last.

use crate::texts::fault_of;
use qz_source::SourceFault;
use std::alloc::{AllocError, Global};
use std::test::Fail;

/// Prototypes, which `module` may follow.
static PROTOTYPES: [&[u8]; 3] = [
    b"module B ( ) ; module T ( ) { }",
    b"module B ( event ? a ) ; module T ( ) { }",
    b"module B ( mem bv [ 8 ] ? a , ! b , bool ! c ) ; module C ( ) ; module T ( ) { }",
];

/// Formals, blocks and declarations.
static BLOCKS: [&[u8]; 12] = [
    b"module T ( ) { }",
    b"module T ( event bool ? a ) { }",
    b"module T ( event ! o , ? a , bool ? b , mem ! c ) { }",
    b"module T ( bv [ 8 ] ? a , event bv [ 2 ] ! o ) { }",
    b"module T ( ) { pause ; nothing ; }",
    b"module T ( ) { || pause ; || }",
    b"module T ( ) { { pause ; || { } } }",
    b"module T ( ) { bool x ; }",
    b"module T ( ) { bv [ 8 ] x , y , z ; }",
    b"module T ( ) { event x ; mem y ; }",
    b"module T ( ) { mem bool x ; event bv [ 1 ] y ; pause ; }",
    b"module T ( ) { { event x ; emit x ; || pause ; } }",
];

/// Statements without expressions, and those with one that is a name.
static STATEMENTS: [&[u8]; 34] = [
    b"module T ( ) { nothing ; }",
    b"module T ( ) { pause ; }",
    b"module T ( ) { l : pause ; }",
    b"module T ( ) { halt ; }",
    b"module T ( ) { l : halt ; }",
    b"module T ( ) { await ( a ) ; }",
    b"module T ( ) { immediate await ( a ) ; }",
    b"module T ( ) { l : await ( a ) ; }",
    b"module T ( ) { l : immediate await ( a ) ; }",
    b"module T ( ) { x = a ; }",
    b"module T ( ) { next ( x ) = a ; }",
    b"module T ( ) { emit x ; }",
    b"module T ( ) { emit next ( x ) ; }",
    b"module T ( ) { emit ( x ) ; }",
    b"module T ( ) { emit ( next ( x ) ) ; }",
    b"module T ( ) { if ( a ) pause ; }",
    b"module T ( ) { if ( a ) pause ; else nothing ; }",
    b"module T ( ) { if ( a ) if ( b ) pause ; else nothing ; else halt ; }",
    b"module T ( ) { do pause ; while ( a ) ; }",
    b"module T ( ) { while ( a ) pause ; }",
    b"module T ( ) { loop pause ; }",
    b"module T ( ) { every ( a ) pause ; }",
    b"module T ( ) { abort pause ; when ( a ) ; }",
    b"module T ( ) { weak abort pause ; when ( a ) ; }",
    b"module T ( ) { immediate abort pause ; when ( a ) ; }",
    b"module T ( ) { weak immediate abort pause ; when ( a ) ; }",
    b"module T ( ) { suspend pause ; when ( a ) ; }",
    b"module T ( ) { weak suspend pause ; when ( a ) ; }",
    b"module T ( ) { immediate suspend pause ; when ( a ) ; }",
    b"module T ( ) { weak immediate suspend pause ; when ( a ) ; }",
    b"module T ( ) { B ( ) ; }",
    b"module T ( ) { B ( a ) ; }",
    b"module T ( ) { B ( a , b , c ) ; }",
    b"module T ( ) { loop { abort { l : pause ; } when ( a ) ; } }",
];

/// Expressions.
static EXPRESSIONS: [&[u8]; 22] = [
    b"module T ( ) { x = true ; }",
    b"module T ( ) { x = false ; }",
    b"module T ( ) { x = 8'd200 ; }",
    b"module T ( ) { x = ( a ) ; }",
    b"module T ( ) { x = ! a ; }",
    b"module T ( ) { x = ~ ! ~ a ; }",
    b"module T ( ) { x = a { 1 } ; }",
    b"module T ( ) { x = a { 7 : 0 } { 1 } ; }",
    b"module T ( ) { x = a @ b @ c ; }",
    b"module T ( ) { x = a + b - c ; }",
    b"module T ( ) { x = a == b ; }",
    b"module T ( ) { x = a != b ; }",
    b"module T ( ) { x = a < b ; }",
    b"module T ( ) { x = a <= b ; }",
    b"module T ( ) { x = a > b ; }",
    b"module T ( ) { x = a >= b ; }",
    b"module T ( ) { x = a & b & c ; }",
    b"module T ( ) { x = a ^ b ^ c ; }",
    b"module T ( ) { x = a | b | c ; }",
    b"module T ( ) { x = a -> b -> c ; }",
    b"module T ( ) { x = a ? b : c ; }",
    b"module T ( ) { x = a ? b ? c : d : e ? f : g ; }",
];

/// How many bytes a text has, of the texts above.
fn length(bytes: &[u8]) -> Option<u32> {
    u32::try_from(bytes.len()).ok()
}

/// The text up to a space ends too early.
fn is_cut(alloc: Global, front: &[u8]) -> bool {
    let Some(offset) = length(front) else {
        return false;
    };
    fault_of(alloc, front) == Some(SourceFault::Parse { offset })
}

/// A text that goes on with `module` after a space is at fault there.
fn is_misled(alloc: Global, front: &[u8]) -> Result<bool, AllocError> {
    let mut text = Vec::from_slice(alloc, front)?;
    text.extend_from_slice(b" module")?;
    let Some(end) = length(front) else {
        return Ok(false);
    };
    let Some(offset) = end.checked_add(1) else {
        return Ok(false);
    };
    Ok(fault_of(alloc, text.as_slice()) == Some(SourceFault::Parse { offset }))
}

/// A text that is a file, and none where it is cut at a space.
fn is_cut_everywhere(alloc: Global, text: &[u8]) -> bool {
    for (place, byte) in text.iter().enumerate() {
        if *byte == b' ' && !is_cut(alloc, &text[..place]) {
            return false;
        }
    }
    fault_of(alloc, text).is_none()
}

/// A text at fault wherever `module` comes in place of what follows a space.
fn is_misled_everywhere(alloc: Global, text: &[u8]) -> Result<bool, AllocError> {
    for (place, byte) in text.iter().enumerate() {
        if *byte == b' ' && !is_misled(alloc, &text[..place])? {
            return Ok(false);
        }
    }
    Ok(true)
}

/// What holds of each of these texts, in which `module` stands only at the beginning.
fn are_productions(alloc: Global, texts: &[&[u8]]) -> Result<bool, AllocError> {
    for text in texts {
        if !is_cut_everywhere(alloc, text) || !is_misled_everywhere(alloc, text)? {
            return Ok(false);
        }
    }
    Ok(true)
}

#[test]
fn prototypes(rt: HostRuntime) {
    for text in &PROTOTYPES {
        assert!(rt; is_cut_everywhere(rt.alloc(), text));
    }
}

#[test]
fn blocks(rt: HostRuntime) -> Result<(), Fail> {
    assert!(rt; are_productions(rt.alloc(), &BLOCKS)?);
    Ok(())
}

#[test]
fn statements(rt: HostRuntime) -> Result<(), Fail> {
    assert!(rt; are_productions(rt.alloc(), &STATEMENTS)?);
    Ok(())
}

#[test]
fn expressions(rt: HostRuntime) -> Result<(), Fail> {
    assert!(rt; are_productions(rt.alloc(), &EXPRESSIONS)?);
    Ok(())
}
