//! What small programs give, step by step.

use crate::calls::{Row, assert_row, runs};
use std::test::Fail;

/// Waits for `a` and for `b`, then emits, until `r` comes.
const ABRO: &str =
    "module T(event ?a, ?b, ?r, !o) { loop abort { { wa: await(a); || wb: await(b); } emit(o); wr: await(r); } when(r); }";

/// An abort of each kind, taken in the first step or in the second.
const STRONG: &str =
    "module T(event ?a, !s, !d, !t){ abort { emit s; pause; emit d; pause; emit d; } when(a); emit t; }";

const WEAK: &str =
    "module T(event ?a, !s, !d, !t){ weak abort { emit s; pause; emit d; pause; emit d; } when(a); emit t; }";

const IMMEDIATE: &str =
    "module T(event ?a, !s, !d, !t){ immediate abort { emit s; pause; emit d; pause; emit d; } when(a); emit t; }";

const WEAK_IMMEDIATE: &str =
    "module T(event ?a, !s, !d, !t){ weak immediate abort { emit s; pause; emit d; pause; emit d; } when(a); emit t; }";

/// A byte that a suspend holds back.
const WEAK_SUSPEND: &str =
    "module T(event ?c, mem bv[8] !n){ weak suspend { n = 8'd1; pause; n = 8'd2; pause; n = 8'd3; } when(c); }";

const SUSPEND: &str =
    "module T(event ?c, mem bv[8] !n){ suspend { n = 8'd1; pause; n = 8'd2; pause; n = 8'd3; } when(c); }";

/// Gives the byte that it is given.
pub const COPY: &str = "module T(mem bv[8] ?n, !m){ loop { m = n; pause; } }";

fn rows() -> [Row; 22] {
    [
        runs("module T(event !o){ nothing; }", "\n\n", "0\n0\n"),
        runs(
            ABRO,
            "1 0 0\n1 0 0\n0 1 0\n1 1 0\n0 0 1\n1 1 0\n1 1 1\n1 1 1\n",
            "0\n0\n1\n0\n0\n1\n0\n0\n",
        ),
        runs(
            "module T(event !o){ loop { event bool x; if(x) emit o; pause; emit x; } }",
            "\n\n\n\n",
            "0\n0\n0\n0\n",
        ),
        runs(
            "module T(event ?a, !o, !p){ loop weak abort { loop { event bool x; if(x) emit o; pause; emit x; if(x) emit p; } } when(a); }",
            "0\n0\n1\n0\n",
            "0 0\n0 1\n0 1\n0 1\n",
        ),
        runs(
            "module T(event ?i, ?a, !x, !y){ { if(i) x = y; else x = a; } || { if(i) y = a; else y = x; } }",
            "1 1\n1 1\n",
            "1 1\n0 0\n",
        ),
        runs(
            "module T(mem bv[8] !x){ x = 8'd3; || x = 8'd3; }",
            "\n\n",
            "3\n3\n",
        ),
        runs(STRONG, "1\n0\n0\n0\n", "1 0 0\n0 1 0\n0 1 1\n0 0 0\n"),
        runs(STRONG, "0\n1\n0\n0\n", "1 0 0\n0 0 1\n0 0 0\n0 0 0\n"),
        runs(WEAK, "1\n0\n0\n0\n", "1 0 0\n0 1 0\n0 1 1\n0 0 0\n"),
        runs(WEAK, "0\n1\n0\n0\n", "1 0 0\n0 1 1\n0 0 0\n0 0 0\n"),
        runs(IMMEDIATE, "1\n0\n0\n0\n", "0 0 1\n0 0 0\n0 0 0\n0 0 0\n"),
        runs(IMMEDIATE, "0\n1\n0\n0\n", "1 0 0\n0 0 1\n0 0 0\n0 0 0\n"),
        runs(
            WEAK_IMMEDIATE,
            "1\n0\n0\n0\n",
            "1 0 1\n0 0 0\n0 0 0\n0 0 0\n",
        ),
        runs(
            WEAK_IMMEDIATE,
            "0\n1\n0\n0\n",
            "1 0 0\n0 1 1\n0 0 0\n0 0 0\n",
        ),
        runs(
            "module T(event ?c, !o, !p){ weak immediate suspend { event bool x; if(x) emit p; emit o; pause; emit x; if(x) emit p; } when(c); }",
            "1\n1\n0\n0\n0\n",
            "1 0\n1 0\n1 0\n0 1\n0 0\n",
        ),
        runs(WEAK_SUSPEND, "0\n1\n1\n0\n0\n", "1\n2\n2\n2\n3\n"),
        runs(SUSPEND, "0\n1\n1\n0\n0\n", "1\n1\n1\n2\n3\n"),
        runs(
            "module T(mem bv[64] !x){ x = 64'd18446744073709551615; next(x) = x + 64'd1; pause; }",
            "\n\n\n",
            "18446744073709551615\n0\n0\n",
        ),
        runs(COPY, "", ""),
        runs(COPY, "255\n", "255\n"),
        runs(
            "module T(event !busy, !w, !g){ loop { if(busy) { emit w; pause; } else { emit g; pause; } emit busy; } }",
            "\n\n\n",
            "0 0 1\n1 1 0\n1 1 0\n",
        ),
        // A step past the program's end keeps what a `mem` holds and lets an event fall.
        runs(
            "module T(event !o, mem bv[4] !x){ emit o; x = 4'd9; }",
            "\n\n",
            "1 9\n0 9\n",
        ),
    ]
}

#[test]
fn small_programs(rt: HostRuntime) -> Result<(), Fail> {
    for (number, row) in rows().iter().enumerate() {
        assert_row(&rt, rt.alloc(), number, row)?;
    }
    Ok(())
}
