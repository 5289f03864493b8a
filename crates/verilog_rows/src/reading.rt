//! Texts that are read, and texts with a line at fault, worked out by hand.

use qz_verilog::{VModule, validate};
use qz_vread::{BadVerilog, read_v};
use qz_vtext::write_v;
use std::alloc::Global;
use std::test::Fail;

const TOGGLE: &str = "module q_T(
  input clk,
  input i_a,
  output o_o
);
  reg r_0;
  wire w_0;
  assign w_0 = i_a ^ r_0;
  assign o_o = r_0;
  initial begin
    r_0 = 1'b0;
  end
  always @(posedge clk) begin
    r_0 <= w_0;
  end
endmodule
";

const SWAP: &str = "module q_T(
  input clk,
  output o_a,
  output o_b
);
  reg r_0;
  reg r_1;
  assign o_a = r_0;
  assign o_b = r_1;
  initial begin
    r_0 = 1'b1;
    r_1 = 1'b0;
  end
  always @(posedge clk) begin
    r_0 <= r_1;
    r_1 <= r_0;
  end
endmodule
";

/// Each form of right side, at 1, 8 and 64 bits.
const FORMS: &str = "module q_$e9$t$1d400$_1(
  input clk,
  input i_a,
  input i_c,
  input [0:0] i_d,
  input [7:0] i_y$df$,
  input [63:0] i_w,
  output [7:0] o_o,
  output [0:0] o_a$aa$
);
  reg [63:0] r_0;
  wire w_0;
  assign w_0 = 1'b1;
  wire [0:0] w_1;
  assign w_1 = 1'd1;
  wire [7:0] w_2;
  assign w_2 = 8'd250;
  wire [63:0] w_3;
  assign w_3 = 64'd18446744073709551615;
  wire w_4;
  assign w_4 = ~i_a;
  wire [7:0] w_5;
  assign w_5 = ~i_y$df$;
  wire w_6;
  assign w_6 = i_a & i_c;
  wire [0:0] w_7;
  assign w_7 = i_d | w_1;
  wire [63:0] w_8;
  assign w_8 = i_w ^ r_0;
  wire [7:0] w_9;
  assign w_9 = i_y$df$ + w_2;
  wire [63:0] w_10;
  assign w_10 = w_3 - i_w;
  wire w_11;
  assign w_11 = i_a == w_0;
  wire w_12;
  assign w_12 = w_9 != w_2;
  wire w_13;
  assign w_13 = i_d < w_1;
  wire w_14;
  assign w_14 = i_w <= w_3;
  wire w_15;
  assign w_15 = i_d > w_1;
  wire w_16;
  assign w_16 = w_5 >= w_2;
  wire [7:0] w_17;
  assign w_17 = i_c ? w_5 : w_9;
  wire w_18;
  assign w_18 = i_w[63];
  wire w_19;
  assign w_19 = i_d[0];
  wire [0:0] w_20;
  assign w_20 = i_d[0:0];
  wire [7:0] w_21;
  assign w_21 = i_w[63:56];
  wire [8:0] w_22;
  assign w_22 = {i_d, i_y$df$};
  assign o_o = w_17;
  assign o_a$aa$ = w_20;
  initial begin
    r_0 = 64'd9223372036854775808;
  end
  always @(posedge clk) begin
    r_0 <= w_10;
  end
endmodule
";

/// The line that is at fault, or 0 where a module with just this text was read.
fn line_at_fault(alloc: Global, bytes: &[u8]) -> Result<u32, Fail> {
    if bytes.len() > 67108864 {
        return Err(Fail::from("too long"));
    }
    match read_v(alloc, bytes) {
        Ok(m) => is_written(alloc, &m, bytes),
        Err(BadVerilog::At { line }) => Ok(line),
        Err(BadVerilog::Memory) => Err(Fail::from("no memory")),
    }
}

/// 0, where a valid module has this text.
fn is_written(alloc: Global, m: &VModule, bytes: &[u8]) -> Result<u32, Fail> {
    if !validate(m) {
        return Err(Fail::from("not valid"));
    }
    if write_v(alloc, m)?.as_slice() != bytes {
        return Err(Fail::from("another text"));
    }
    Ok(0)
}

/// The line that takes the place of another, and the line that is then at fault; 0 where none is.
type Row = (usize, &'static str, u32);

/// Changes to `TOGGLE`.
const CHANGES: [Row; 40] = [
    (1, "", 1),
    (1, "module q_T(\r", 1),
    (1, "module q_T (", 1),
    (1, "module q_loop(", 1),
    (1, "module q_1(", 1),
    (1, "module q_(", 1),
    (1, "module q_$61$(", 1),
    (1, "module q_$e9$(", 0),
    (1, "module q_$E9$(", 1),
    (1, "module q_$0e9$(", 1),
    (1, "module q_$e9(", 1),
    (1, "module q_$$(", 1),
    (1, "module q_$d800$(", 1),
    (1, "module q_é(", 1),
    (
        1,
        "module q_aaaaaaaaaaaaaaaaaaaaaaaaaaaaaaaaaaaaaaaaaaaaaaaaaaaaaaaaaaaaaaaa(",
        0,
    ),
    (
        1,
        "module q_aaaaaaaaaaaaaaaaaaaaaaaaaaaaaaaaaaaaaaaaaaaaaaaaaaaaaaaaaaaaaaaaa(",
        1,
    ),
    (2, "  input clk", 3),
    (3, "  input i_a", 4),
    (3, "  output o_a,", 8),
    (4, "  output o_a", 4),
    (4, "  output o_o,", 5),
    (4, "  output [1:0] o_o", 9),
    (6, "  reg r_1;", 6),
    (6, "  reg [0:0] r_0;", 8),
    (6, "  reg [64:0] r_0;", 6),
    (6, "  reg [-1:0] r_0;", 6),
    (7, "  wire [1:0] w_0;", 8),
    (8, "  assign w_0 = i_a + r_0;", 8),
    (8, "  assign w_0 = i_a -> r_0;", 8),
    (8, "  assign w_0 = i_a ^ r_1;", 8),
    (8, "  assign w_0 = i_a ^ w_0;", 8),
    (8, "  assign w_0 = i_a ^ r_00;", 8),
    (8, "  assign w_0 = 0'd0;", 8),
    (8, "  assign w_0 = i_o;", 8),
    (11, "    r_0 = 1'b2;", 11),
    (11, "    r_0 = 1'b00;", 11),
    (11, "    r_0 = 1'b-0;", 11),
    (14, "    r_0 <= w_1;", 14),
    (14, "  end", 14),
    (16, "endmodule ", 16),
];

/// Changes to `FORMS`.
const WIDER: [Row; 13] = [
    (4, "  input i_a,", 4),
    (8, "  output [7:0] o_a,", 8),
    (13, "  assign w_0 = 1'd1;", 13),
    (15, "  assign w_1 = 2'd1;", 15),
    (17, "  assign w_2 = 8'd256;", 17),
    (17, "  assign w_2 = 8'd0250;", 17),
    (19, "  assign w_3 = 64'd18446744073709551616;", 19),
    (19, "  assign w_3 = 65'd0;", 19),
    (49, "  assign w_18 = i_w[64];", 49),
    (49, "  assign w_18 = i_w[063];", 49),
    (55, "  assign w_21 = i_w[64:57];", 55),
    (57, "  assign w_22 = {i_d,i_y$df$};", 57),
    (58, "  reg r_1;", 58),
];

/// The text with another line in the place of the one with this number, from 1 on.
fn changed(alloc: Global, text: &str, number: usize, line: &str) -> Result<String, Fail> {
    let mut all = String::new(alloc);
    for (before, old) in text.lines().enumerate() {
        all.push_str(if before == number.saturating_sub(1) {
            line
        } else {
            old
        })?;
        all.push_str("\n")?;
    }
    Ok(all)
}

/// The number of the first row that doesn't tell the line at fault, from 1 on; 0 where all do.
fn first_wrong(alloc: Global, text: &str, rows: &[Row]) -> Result<usize, Fail> {
    for (before, (number, line, fault)) in rows.iter().enumerate() {
        let all = changed(alloc, text, *number, line)?;
        if line_at_fault(alloc, all.as_bytes())? != *fault {
            return Ok(before.saturating_add(1));
        }
    }
    Ok(0)
}

#[test]
fn the_first_line_at_fault_is_told(rt: HostRuntime) -> Result<(), Fail> {
    assert_eq!(rt; first_wrong(rt.alloc(), TOGGLE, &CHANGES)?, 0);
    assert_eq!(rt; first_wrong(rt.alloc(), FORMS, &WIDER)?, 0);
    Ok(())
}

/// A text, how many bytes of its end are left out, what follows, and the line at fault; 0 where none
/// is.
const ENDS: [(&str, usize, &[u8], u32); 12] = [
    ("", 0, b"", 1),
    ("", 0, b"\n", 1),
    ("", 0, b"module q_T(", 1),
    ("", 0, b"module q_\xff(\n", 1),
    ("", 0, b"module q_T(\r\n  input clk\r\n", 1),
    (TOGGLE, 0, b"", 0),
    (SWAP, 0, b"", 0),
    (FORMS, 0, b"", 0),
    (TOGGLE, 1, b"", 16),
    (TOGGLE, 10, b"", 16),
    (TOGGLE, 0, b"\n", 17),
    (TOGGLE, 0, b"endmodule", 17),
];

#[test]
fn texts_end_with_their_last_line(rt: HostRuntime) -> Result<(), Fail> {
    for (text, out, more, fault) in &ENDS {
        let mut bytes = Vec::from_slice(rt.alloc(), text.as_bytes())?;
        bytes.truncate(text.len().saturating_sub(*out));
        bytes.extend_from_slice(more)?;
        assert_eq!(rt; line_at_fault(rt.alloc(), bytes.as_slice())?, *fault);
    }
    let long = vec![in rt.alloc(); b'a'; 4_194_304]?;
    assert_eq!(rt; line_at_fault(rt.alloc(), long.as_slice())?, 1);
    Ok(())
}
