//! The program over real files: what it ends with, what it writes and what it leaves.

use crate::program::run;
use std::alloc::Global;
use std::env::FillError;
use std::fmt::Display;
use std::fs::OpenOptions;
use std::io::Write;
use std::process::{Abort, ExitCode, Termination};
use std::rt::Env;
use std::test::Fail;
use std::{fs, io};

/// The words of a call, the program's name first.
#[derive(Drop)]
struct Words {
    rt: HostRuntime,
    words: &'static [&'static [u8]],
}

impl Alloc for Words {
    type A = Global;

    fn alloc(&self) -> Global {
        self.rt.alloc()
    }
}

impl Env for Words {
    fn arg(&self, number: usize, piece: &mut [u8]) -> Result<usize, FillError> {
        let Some(word) = self.words.get(number) else {
            return Err(FillError::NotPresent);
        };
        if piece.len() < word.len() {
            return Err(FillError::TooLong);
        }
        piece[..word.len()].copy_from_slice(word);
        Ok(word.len())
    }

    fn var(&self, _name: &str, _piece: &mut [u8]) -> Result<usize, FillError> {
        Err(FillError::NotPresent)
    }

    fn var_at(&self, _number: usize, _piece: &mut [u8]) -> Result<usize, FillError> {
        Err(FillError::NotPresent)
    }
}

/// What the program's output is appended to.
const PRINTED: &str = "printed";

/// An output that a file keeps.
#[derive(Drop)]
struct Kept {
    rt: HostRuntime,
}

impl Print for Kept {
    fn print<D: Display + Drop>(&self, _value: D) -> io::Result<()> {
        Err(io::Error::from(io::ErrorKind::Unsupported))
    }

    fn println<D: Display + Drop>(&self, _value: D) -> io::Result<()> {
        Err(io::Error::from(io::ErrorKind::Unsupported))
    }

    fn write_all(&self, bytes: &[u8]) -> io::Result<()> {
        let mut options = OpenOptions::new();
        let mut file = options.append(true).create(true).open(&self.rt, PRINTED)?;
        file.write_all(bytes)
    }
}

const SOURCE: &[u8] = b"module T(event !o){ loop { pause; } }";

const TEXT: &[u8] = b"module q_T(
  input clk,
  output o_o
);
  reg r_0;
  reg r_1;
  wire w_0;
  assign w_0 = ~r_1;
  wire w_1;
  assign w_1 = 1'b1;
  wire w_2;
  assign w_2 = 1'b0;
  wire w_3;
  assign w_3 = w_0 | r_0;
  assign o_o = w_2;
  initial begin
    r_0 = 1'b0;
    r_1 = 1'b0;
  end
  always @(posedge clk) begin
    r_0 <= w_3;
    r_1 <= w_1;
  end
endmodule
";

/// A call, the code that it ends with and what it prints.
type Row = (&'static [&'static [u8]], u8, &'static [u8]);

const USAGE: &[u8] = b"usage: quartzc MODE NAME FILE...\n";

static ROWS: [Row; 8] = [
    (&[b"quartzc", b"build", b"T", b"t.qz"], 0, b""),
    (&[b"quartzc", b"build", b"T", b"u.qz"], 1, b"u.qz: absent\n"),
    (
        &[b"quartzc", b"build", b"U", b"t.qz"],
        1,
        b"t.qz: not built yet\n",
    ),
    (&[b"quartzc", b"build", b"T"], 2, USAGE),
    (&[b"quartzc", b"build", b"T", b"\xff"], 2, USAGE),
    (&[], 2, USAGE),
    (&[b"quartzc", b"build", b"T", b"."], 3, b""),
    (&[b"quartzc", b"build", b"V", b"v.qz"], 4, b""),
];

#[test]
fn ends_prints_and_puts(rt: HostRuntime) -> Result<(), Fail> {
    let alloc = rt.alloc();
    fs::write(&rt, "t.qz", SOURCE)?;
    fs::write(&rt, "v.qz", b"module V(event !o){ }".as_slice())?;
    fs::create_dir(&rt, "V.v")?;
    for (words, code, line) in &ROWS {
        fs::write(&rt, PRINTED, b"".as_slice())?;
        let ended = run(&Words { rt, words }, rt, Kept { rt });
        assert_eq!(rt; ended.report(&rt), ExitCode::from(*code));
        let printed = fs::read(&rt, PRINTED)?;
        assert!(rt; printed.as_slice() == *line);
    }
    let put = fs::read(&rt, "T.v")?;
    assert!(rt; put.as_slice() == TEXT, "other bytes were put");
    assert!(rt;
        fs::metadata(&rt, "U.v").is_err(),
        "a refused call put a file"
    );
    Ok(())
}
