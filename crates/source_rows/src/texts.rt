//! Texts with their first fault, or none where they are files.

use qz_source::{SourceFault, read_module};
use std::alloc::{AllocError, Global};
use std::process::Abort;
use std::test::Fail;

/// Texts that are files.
static FILES: [&[u8]; 14] = [
    b"module T(){}",
    b"// c\nmodule T(event !o) { emit o; /* c */ }",
    b"module B(bool ?a); module T() { }",
    b"module T(event bool ?a, ?b, bv[8] !o, mem !p) {}",
    b"module T(bv[ 8 ] !o) { o = 8'd200; }",
    b"module T() { bool x, y; event z; || nothing; || }",
    b"module T() { l: pause; k: immediate await(true); halt; weak immediate suspend pause; when (true); }",
    b"module T(event ?a, !o) { if (a) if (a) emit o; else emit next(o); loop pause; next(o) = a; }",
    b"module T() { do pause; while (true); while (false) pause; every (true) pause; B(a, b); C(); }",
    b"module T() { x = a ? b : c ? d : e -> f -> g | h ^ i & j == k + l @ !m{1}{7:0}; }",
    b"module T() { x = 00000000000000000001'd99999999999999999999; }",
    b"module T() { bv[99999999999999999999] x; x = a{00000000000000000007}; }",
    b"module T() { emit next(x); next(x) = y; emit (next(x)); }",
    b"module \xc3\xa9() { \xe6\x97\xa5\xe6\x9c\xac = (true); }",
];

/// Texts that are none, each with its first fault.
static FAULTS: [(&[u8], SourceFault); 31] = [
    (b"", SourceFault::Parse { offset: 0 }),
    (b"  ", SourceFault::Parse { offset: 2 }),
    (b"m\xff", SourceFault::NotUtf8 { offset: 1 }),
    (b"# m\xff", SourceFault::NotUtf8 { offset: 3 }),
    (b"#", SourceFault::Lex { offset: 0 }),
    (b"emit #", SourceFault::Lex { offset: 5 }),
    (
        b"module T() { x = 1 'd2; }",
        SourceFault::Lex { offset: 19 },
    ),
    (
        b"module T() { bv[999999999999999999999] x; }",
        SourceFault::Lex { offset: 16 },
    ),
    (
        b"module T() { x = 1'd000000000000000000001; }",
        SourceFault::Lex { offset: 18 },
    ),
    (b"module T() { /* }", SourceFault::Lex { offset: 13 }),
    (
        b"module T() { assert = true; }",
        SourceFault::Parse { offset: 13 },
    ),
    (
        b"module T() { weak await(true); }",
        SourceFault::Parse { offset: 18 },
    ),
    (
        b"module T(event !o){ emit o;",
        SourceFault::Parse { offset: 27 },
    ),
    (
        b"module T(event !o){ emit; }",
        SourceFault::Parse { offset: 24 },
    ),
    (b"module T(){} ;", SourceFault::Parse { offset: 13 }),
    (b"module T();", SourceFault::Parse { offset: 11 }),
    (b"module final(){}", SourceFault::Parse { offset: 7 }),
    (b"module event(){}", SourceFault::Parse { offset: 7 }),
    (b"module T(?a){}", SourceFault::Parse { offset: 9 }),
    (
        b"module T(event bool a){}",
        SourceFault::Parse { offset: 20 },
    ),
    (b"module T(bv[x] !a){}", SourceFault::Parse { offset: 12 }),
    (
        b"module T() { nothing; bool x; }",
        SourceFault::Parse { offset: 22 },
    ),
    (
        b"module T() { x = a < b < c; }",
        SourceFault::Parse { offset: 23 },
    ),
    (b"module T() { x = 1; }", SourceFault::Parse { offset: 17 }),
    (
        b"module T() { x = a{b}; }",
        SourceFault::Parse { offset: 19 },
    ),
    (
        b"module T() { l: emit x; }",
        SourceFault::Parse { offset: 16 },
    ),
    (
        b"module T() { l: k: pause; }",
        SourceFault::Parse { offset: 16 },
    ),
    (
        b"module T() { immediate pause; }",
        SourceFault::Parse { offset: 23 },
    ),
    (
        b"module T() { nothing; else nothing; }",
        SourceFault::Parse { offset: 22 },
    ),
    (
        b"module T() { pause; } }",
        SourceFault::Parse { offset: 22 },
    ),
    (
        b"module T() { emit next(x) = y; }",
        SourceFault::Parse { offset: 26 },
    ),
];

/// What is told against these bytes.
pub fn fault_of(alloc: Global, bytes: &[u8]) -> Option<SourceFault> {
    if bytes.len() > 1_048_576 {
        return None;
    }
    match read_module(alloc, bytes) {
        Ok(_) => None,
        Err(fault) => Some(fault),
    }
}

#[test]
fn files(rt: HostRuntime) {
    for text in &FILES {
        assert!(rt; fault_of(rt.alloc(), text).is_none());
    }
}

#[test]
fn faults(rt: HostRuntime) {
    for (text, fault) in &FAULTS {
        assert_eq!(rt; fault_of(rt.alloc(), text), Some(*fault));
    }
}

/// A module with these bytes so many times in its block, which has 12 bytes before them.
fn repeated(alloc: Global, bytes: &[u8], count: usize, end: &[u8]) -> Result<Vec<u8>, AllocError> {
    let mut text = Vec::from_slice(alloc, b"module T() {")?;
    for _ in 0..count {
        text.extend_from_slice(bytes)?;
    }
    text.extend_from_slice(end)?;
    Ok(text)
}

/// A block in a module's block has level 2: 127 in one another reach level 128, and the last of 128 is too deep.
#[test]
fn nested_blocks(rt: HostRuntime) -> Result<(), Fail> {
    let text = repeated(rt.alloc(), b"{", 127, b"")?;
    assert_eq!(rt;
        fault_of(rt.alloc(), text.as_slice()),
        Some(SourceFault::Parse { offset: 139 })
    );
    let text = repeated(rt.alloc(), b"{", 128, b"")?;
    assert_eq!(rt;
        fault_of(rt.alloc(), text.as_slice()),
        Some(SourceFault::Deep { offset: 139 })
    );
    // Nothing stands in the innermost block of 127, which has level 128.
    let text = repeated(rt.alloc(), b"{", 127, b"pause;")?;
    assert_eq!(rt;
        fault_of(rt.alloc(), text.as_slice()),
        Some(SourceFault::Deep { offset: 139 })
    );
    let text = repeated(rt.alloc(), b"{", 127, b"bool")?;
    assert_eq!(rt;
        fault_of(rt.alloc(), text.as_slice()),
        Some(SourceFault::Parse { offset: 143 })
    );
    let text = repeated(rt.alloc(), b"{", 127, b")")?;
    assert_eq!(rt;
        fault_of(rt.alloc(), text.as_slice()),
        Some(SourceFault::Parse { offset: 139 })
    );
    Ok(())
}

/// An assignment has level 2 and its value 3: 125 parentheses round a name reach level 128.
#[test]
fn nested_parentheses(rt: HostRuntime) -> Result<(), Fail> {
    let alloc = rt.alloc();
    let mut text = repeated(alloc, b"x=", 1, b"")?;
    for _ in 0..125 {
        text.extend_from_slice(b"(")?;
    }
    text.extend_from_slice(b"a")?;
    assert_eq!(rt;
        fault_of(alloc, text.as_slice()),
        Some(SourceFault::Parse { offset: 140 })
    );
    for _ in 0..125 {
        text.extend_from_slice(b")")?;
    }
    text.extend_from_slice(b";}")?;
    assert!(rt; fault_of(alloc, text.as_slice()).is_none());
    Ok(())
}

#[test]
fn one_parenthesis_too_deep(rt: HostRuntime) -> Result<(), Fail> {
    let mut text = repeated(rt.alloc(), b"x=", 1, b"")?;
    for _ in 0..126 {
        text.extend_from_slice(b"(")?;
    }
    text.extend_from_slice(b"a")?;
    assert_eq!(rt;
        fault_of(rt.alloc(), text.as_slice()),
        Some(SourceFault::Deep { offset: 139 })
    );
    Ok(())
}

/// A module with this many formals.
fn with_formals(alloc: Global, count: usize) -> Result<Vec<u8>, AllocError> {
    let mut text = Vec::from_slice(alloc, b"module T(event ?a")?;
    for _ in 1..count {
        text.extend_from_slice(b", ?a")?;
    }
    text.extend_from_slice(b") {}")?;
    Ok(text)
}

/// How many formals there may be is no matter of the grammar.
#[test]
fn many_formals(rt: HostRuntime) -> Result<(), Fail> {
    let text = with_formals(rt.alloc(), 257)?;
    assert!(rt; fault_of(rt.alloc(), text.as_slice()).is_none());
    Ok(())
}

/// A statement as deep as it may be, with the words before it and after it so many times.
fn nested(alloc: Global, before: &[u8], after: &[u8], count: usize) -> Result<Vec<u8>, AllocError> {
    let mut text = repeated(alloc, before, count, b"pause;")?;
    for _ in 0..count {
        text.extend_from_slice(after)?;
    }
    text.extend_from_slice(b"}")?;
    Ok(text)
}

/// A module's block has level 1, so 126 statements in one another round a `pause` reach level 128, and of 127 the
/// `pause` is too deep.
#[test]
fn nested_statements(rt: HostRuntime) -> Result<(), Fail> {
    let alloc = rt.alloc();
    let text = nested(alloc, b"loop ", b"", 126)?;
    assert!(rt; fault_of(alloc, text.as_slice()).is_none());
    let text = nested(alloc, b"loop ", b"", 127)?;
    assert_eq!(rt;
        fault_of(alloc, text.as_slice()),
        Some(SourceFault::Deep { offset: 642 })
    );
    let text = nested(alloc, b"do ", b" while(a);", 126)?;
    assert!(rt; fault_of(alloc, text.as_slice()).is_none());
    Ok(())
}

/// The condition of an `if` has one level more than the `if`, as its sides have.
#[test]
fn nested_conditions(rt: HostRuntime) -> Result<(), Fail> {
    let alloc = rt.alloc();
    let text = nested(alloc, b"if(a)", b"", 126)?;
    assert!(rt; fault_of(alloc, text.as_slice()).is_none());
    let text = nested(alloc, b"if(a)", b"", 127)?;
    assert_eq!(rt;
        fault_of(alloc, text.as_slice()),
        Some(SourceFault::Deep { offset: 642 })
    );
    Ok(())
}
