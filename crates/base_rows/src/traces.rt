//! Texts that are traces, and texts that aren't, with the line and the kind worked out by hand.

use qz_trace::{BadTrace, TRACE_LIMIT, Trace, TraceKind, are_types, print_trace, read_trace};
use qz_values::Ty;
use std::alloc::Global;
use std::process::Abort;
use std::test::Fail;

/// A text, the types of its values, and the line and the kind of its first fault.
type Bad = (&'static [u8], &'static [Ty], u32, TraceKind);

const PAIR: &[Ty] = &[Ty::Bool, Ty::Bv(8)];

const WORD: &[Ty] = &[Ty::Bv(64)];

static BAD: [Bad; 20] = [
    (b" 1 2\n", PAIR, 1, TraceKind::Count),
    (b"1  2\n", PAIR, 1, TraceKind::Count),
    (b"1\n", PAIR, 1, TraceKind::Count),
    (b"\n", PAIR, 1, TraceKind::Count),
    (b"1 2 \n", PAIR, 1, TraceKind::Count),
    (b"x 300\n", PAIR, 1, TraceKind::Form),
    (b"01 2\n", PAIR, 1, TraceKind::Form),
    (b"-1 2\n", PAIR, 1, TraceKind::Form),
    (b"+1 2\n", PAIR, 1, TraceKind::Form),
    (b"1 2\r\n", PAIR, 1, TraceKind::Form),
    (b"1 \xff\n", PAIR, 1, TraceKind::Form),
    (b"2 x\n", PAIR, 1, TraceKind::Range),
    (b"1 256\n", PAIR, 1, TraceKind::Range),
    (b"1 2\n1 2", PAIR, 2, TraceKind::End),
    (b"1 2\n0 3\n\n", PAIR, 3, TraceKind::Count),
    (b"18446744073709551616\n", WORD, 1, TraceKind::Range),
    (
        b"99999999999999999999999999999999999999999\n",
        WORD,
        1,
        TraceKind::Range,
    ),
    (b"\n", WORD, 1, TraceKind::Form),
    (b"0\n", &[], 1, TraceKind::Count),
    (b"\n\n ", &[], 3, TraceKind::End),
];

/// A text, the types of its values, its rows' number and its values.
type Good = (&'static [u8], &'static [Ty], usize, &'static [u64]);

static GOOD: [Good; 5] = [
    (b"", PAIR, 0, &[]),
    (b"1 255\n0 0\n", PAIR, 2, &[1, 255, 0, 0]),
    (b"18446744073709551615\n0\n", WORD, 2, &[u64::MAX, 0]),
    (b"", &[], 0, &[]),
    (b"\n\n\n", &[], 3, &[]),
];

/// What is read of a text, where it may be read.
fn outcome(alloc: Global, text: &[u8], types: &[Ty]) -> Option<Result<Trace, BadTrace>> {
    if text.len() > TRACE_LIMIT || !are_types(types) {
        return None;
    }
    Some(read_trace(alloc, text, types))
}

#[test]
fn the_first_fault_is_named(rt: HostRuntime) {
    for (text, types, line, kind) in &BAD {
        let told = outcome(rt.alloc(), text, types).and_then(Result::err);
        assert_eq!(rt;
            told,
            Some(BadTrace::At {
                line: *line,
                kind: *kind
            })
        );
    }
}

#[test]
fn traces_are_read_and_printed(rt: HostRuntime) -> Result<(), Fail> {
    for (text, types, steps, values) in &GOOD {
        let Some(Ok(read)) = outcome(rt.alloc(), text, types) else {
            return Err(Fail::from("a trace is refused"));
        };
        assert_eq!(rt; read.steps, *steps);
        assert!(rt; read.values.as_slice() == *values);
        assert!(rt; read.is_whole());
        let printed = print_trace(rt.alloc(), &read)?;
        assert!(rt; printed.as_slice() == *text);
    }
    Ok(())
}
