//! Eleven programs and one of 1,000 pauses: the texts that are put for them, and what they drive in
//! each step, both worked by hand.

ghost use Rattle.std.specs.Prelude.{◌≡◌, ◌≤◌, ◌<◌};

use crate::calls::{held, repeated, texts};
use qz_driver::quartzc;
use qz_io::{MemFiles, MemSink};
use std::alloc::{AllocError, Global};
use std::process::Abort;
use std::test::Fail;

/// The nets of a circuit, as they stand in its text. All its registers begin with 0.
#[derive(Clone, Copy)]
struct Circuit<'t> {
    /// The right side of each wire.
    wires: &'t [&'t str],
    outputs: &'t [Output<'t>],
    /// What each register takes at the clock.
    nexts: &'t [&'t str],
}

#[derive(Clone, Copy)]
struct Output<'t> {
    name: &'t str,
    net: &'t str,
    /// Whether it is driven in each step, from the first one on.
    steps: &'t str,
}

const NEVER: &str = "00000000000000000000";

/// Sources, each with its circuit.
static PROGRAMS: [(&str, Circuit<'static>); 11] = [
    // Nothing happens, in the first step and later.
    (
        "module T(event !o){ }",
        Circuit {
            wires: &["~r_0", "1'b1", "1'b0"],
            outputs: &[Output {
                name: "o",
                net: "w_2",
                steps: NEVER,
            }],
            nexts: &["w_1"],
        },
    ),
    // Before a pause and after it, and then no more.
    (
        "module T(event !o){ emit o; pause; emit o; }",
        Circuit {
            wires: &["~r_1", "1'b1", "1'b0", "w_0 | r_0"],
            outputs: &[Output {
                name: "o",
                net: "w_3",
                steps: "11000000000000000000",
            }],
            nexts: &["w_0", "w_1"],
        },
    ),
    // Pauses one after the other.
    (
        "module T(event !o){ pause; pause; pause; emit o; }",
        Circuit {
            wires: &["~r_3", "1'b1", "1'b0"],
            outputs: &[Output {
                name: "o",
                net: "r_2",
                steps: "00010000000000000000",
            }],
            nexts: &["w_0", "r_0", "r_1", "w_1"],
        },
    ),
    // A block ends in the step in which the last of it does.
    (
        "module T(event !o){ { pause; nothing; } emit o; }",
        Circuit {
            wires: &["~r_1", "1'b1", "1'b0"],
            outputs: &[Output {
                name: "o",
                net: "r_0",
                steps: "01000000000000000000",
            }],
            nexts: &["w_0", "w_1"],
        },
    ),
    // The inner loop is never left, so the outer one begins once.
    (
        "module T(event !a, event !b){ loop { emit a; pause; loop { pause; emit b; } } }",
        Circuit {
            wires: &["~r_2", "1'b1", "1'b0", "r_1 | r_0"],
            outputs: &[
                Output {
                    name: "a",
                    net: "w_0",
                    steps: "10000000000000000000",
                },
                Output {
                    name: "b",
                    net: "r_1",
                    steps: "00111111111111111111",
                },
            ],
            nexts: &["w_0", "w_3", "w_1"],
        },
    ),
    // What stands after an endless loop is never started.
    (
        "module T(event !o){ loop { pause; } emit o; pause; emit o; }",
        Circuit {
            wires: &["~r_2", "1'b1", "1'b0", "w_0 | r_0"],
            outputs: &[Output {
                name: "o",
                net: "r_1",
                steps: NEVER,
            }],
            nexts: &["w_3", "w_2", "w_1"],
        },
    ),
    // Three outputs in a loop of three steps.
    (
        "module T(event !a, event !b, event !c){
            loop { emit a; pause; emit b; emit c; pause; emit c; pause; }
        }",
        Circuit {
            wires: &["~r_3", "1'b1", "1'b0", "r_0 | r_1", "w_0 | r_2"],
            outputs: &[
                Output {
                    name: "a",
                    net: "w_4",
                    steps: "10010010010010010010",
                },
                Output {
                    name: "b",
                    net: "r_0",
                    steps: "01001001001001001001",
                },
                Output {
                    name: "c",
                    net: "w_3",
                    steps: "01101101101101101101",
                },
            ],
            nexts: &["w_4", "r_0", "r_1", "w_1"],
        },
    ),
    // In every step but the first.
    (
        "module T(event !o){ loop { pause; emit o; } }",
        Circuit {
            wires: &["~r_1", "1'b1", "1'b0", "w_0 | r_0"],
            outputs: &[Output {
                name: "o",
                net: "r_0",
                steps: "01111111111111111111",
            }],
            nexts: &["w_3", "w_1"],
        },
    ),
    // A turn's end and the next one's begin are in one step.
    (
        "module T(event !a, event !b){ loop { emit a; pause; pause; emit b; } }",
        Circuit {
            wires: &["~r_2", "1'b1", "1'b0", "w_0 | r_1"],
            outputs: &[
                Output {
                    name: "a",
                    net: "w_3",
                    steps: "10101010101010101010",
                },
                Output {
                    name: "b",
                    net: "r_1",
                    steps: "00101010101010101010",
                },
            ],
            nexts: &["w_3", "r_0", "w_1"],
        },
    ),
    // A loop that is a loop's body, and blocks in a block.
    (
        "module T(event !o){ loop loop { nothing; { emit o; pause; } pause; { } pause; } }",
        Circuit {
            wires: &["~r_3", "1'b1", "1'b0", "w_0 | r_2"],
            outputs: &[Output {
                name: "o",
                net: "w_3",
                steps: "10010010010010010010",
            }],
            nexts: &["w_3", "r_0", "r_1", "w_1"],
        },
    ),
    // Twice in one step, beside an output that is never driven.
    (
        "module T(event !n, event !o){ emit o; emit o; pause; emit o; emit o; }",
        Circuit {
            wires: &["~r_1", "1'b1", "1'b0", "w_0 | r_0", "w_3 | r_0"],
            outputs: &[
                Output {
                    name: "n",
                    net: "w_2",
                    steps: NEVER,
                },
                Output {
                    name: "o",
                    net: "w_4",
                    steps: "11000000000000000000",
                },
            ],
            nexts: &["w_0", "w_1"],
        },
    ),
];

impl Circuit<'_> {
    /// The text of the module `T` with these nets.
    fn text(&self, alloc: Global) -> Result<String, AllocError> {
        let mut text = String::from_str(alloc, "module q_T(\n  input clk")?;
        for output in self.outputs {
            write!(text, ",\n  output o_{}", output.name)?;
        }
        text.push_str("\n);\n")?;
        self.push_declarations(&mut text)?;
        self.push_clock(&mut text)?;
        Ok(text)
    }

    fn push_declarations(&self, text: &mut String) -> Result<(), AllocError> {
        for number in 0..self.nexts.len() {
            write!(text, "  reg r_{number};\n")?;
        }
        for (number, right) in self.wires.iter().enumerate() {
            write!(text, "  wire w_{number};\n  assign w_{number} = {right};\n")?;
        }
        for output in self.outputs {
            write!(text, "  assign o_{} = {};\n", output.name, output.net)?;
        }
        Ok(())
    }

    fn push_clock(&self, text: &mut String) -> Result<(), AllocError> {
        text.push_str("  initial begin\n")?;
        for number in 0..self.nexts.len() {
            write!(text, "    r_{number} = 1'b0;\n")?;
        }
        text.push_str("  end\n  always @(posedge clk) begin\n")?;
        for (number, next) in self.nexts.iter().enumerate() {
            write!(text, "    r_{number} <= {next};\n")?;
        }
        text.push_str("  end\nendmodule\n")
    }

    /// Runs it for so many clocks, and asserts what each output is before each of them.
    fn assert_steps(
        &self,
        rt: &impl Abort,
        alloc: Global,
        clocks: usize,
    ) -> Result<(), AllocError> {
        let mut registers = vec![in alloc; false; self.nexts.len()]?;
        for step in 0..clocks {
            let nets = Nets::settle(rt, alloc, registers, self.wires)?;
            for output in self.outputs {
                let driven = output.steps.as_bytes().get(step) == Some(&b'1');
                let name = output.name;
                assert!(rt; nets.bit(rt, output.net) == driven, "{name} in step {step}");
            }
            registers = nets.bits(rt, alloc, self.nexts)?;
        }
        Ok(())
    }
}

/// What the registers hold, and what the wires settle to.
#[derive(Drop)]
struct Nets {
    registers: Vec<bool>,
    wires: Vec<bool>,
}

impl Nets {
    /// Each wire from the registers and the wires before it.
    fn settle(
        rt: &impl Abort,
        alloc: Global,
        registers: Vec<bool>,
        rights: &[&str],
    ) -> Result<Nets, AllocError> {
        let mut nets = Nets {
            registers,
            wires: Vec::new(alloc),
        };
        for right in rights {
            let value = nets.value(rt, right);
            nets.wires.push(value)?;
        }
        Ok(nets)
    }

    /// What a right side is.
    fn value(&self, rt: &impl Abort, right: &str) -> bool {
        if let Some((a, b)) = right.split_once(" | ") {
            self.bit(rt, a) | self.bit(rt, b)
        } else if let Some((a, b)) = right.split_once(" & ") {
            self.bit(rt, a) & self.bit(rt, b)
        } else if let Some(net) = right.strip_prefix("~") {
            !self.bit(rt, net)
        } else {
            right == "1'b1"
        }
    }

    /// What a register or a wire is.
    fn bit(&self, rt: &impl Abort, net: &str) -> bool {
        let (bits, number) = match net.strip_prefix("r_") {
            Some(number) => (&self.registers, number),
            None => (&self.wires, net.strip_prefix("w_").unwrap_or("")),
        };
        let number = number.parse::<usize>().ok().expect(rt, "a number");
        *bits.get(number).expect(rt, "a net that is there")
    }

    fn bits(&self, rt: &impl Abort, alloc: Global, nets: &[&str]) -> Result<Vec<bool>, AllocError> {
        let mut bits = Vec::new(alloc);
        for net in nets {
            bits.push(self.bit(rt, net))?;
        }
        Ok(bits)
    }
}

/// Asserts that the circuit's text is put for the source.
fn assert_put(
    rt: &impl Abort,
    alloc: Global,
    source: &str,
    circuit: &Circuit<'_>,
) -> Result<(), AllocError> {
    let mut files = MemFiles::new(alloc);
    let mut sink = MemSink::new(alloc);
    files.held.push((
        String::from_str(alloc, "t.qz")?,
        Vec::from_slice(alloc, source.as_bytes())?,
    ))?;
    let words = texts(alloc, &["build", "T", "t.qz"])?;
    let status = quartzc(alloc, words.as_slice(), &mut files, &mut sink);
    let text = circuit.text(alloc)?;
    assert!(rt;
        held(&files, "T.v") == Some(text.as_bytes()),
        "{status:?} for {source:?}"
    );
    Ok(())
}

#[test]
fn eleven_programs(rt: HostRuntime) -> Result<(), Fail> {
    for (source, circuit) in &PROGRAMS {
        assert_put(&rt, rt.alloc(), source, circuit)?;
        circuit.assert_steps(&rt, rt.alloc(), 20)?;
    }
    Ok(())
}

/// What the registers of `emit o;`, 1,000 pauses and `emit o;` take: each what the one before it held.
fn nexts_of_pauses(alloc: Global) -> Result<Vec<String>, AllocError> {
    let mut nexts = vec![in alloc; String::from_str(alloc, "w_0")?]?;
    for number in 0..999 {
        nexts.push(format!(in alloc; "r_{number}")?)?;
    }
    nexts.push(String::from_str(alloc, "w_1")?)?;
    Ok(nexts)
}

fn borrowed<'t>(alloc: Global, texts: &'t [String]) -> Result<Vec<&'t str>, AllocError> {
    let mut all = Vec::new(alloc);
    for text in texts {
        all.push(text.as_str())?;
    }
    Ok(all)
}

/// Control goes through 1,000 pauses in 1,000 steps.
#[test]
fn thousand_pauses(rt: HostRuntime) -> Result<(), Fail> {
    let alloc = rt.alloc();
    let mut source = repeated(alloc, "module T(event !o){ emit o;", " pause;", 1000)?;
    source.push_str(" emit o; }")?;
    let mut steps = repeated(alloc, "1", "0", 999)?;
    steps.push_str("10")?;
    let nexts = nexts_of_pauses(alloc)?;
    let nexts = borrowed(alloc, nexts.as_slice())?;
    let output = Output {
        name: "o",
        net: "w_3",
        steps: steps.as_str(),
    };
    let circuit = Circuit {
        wires: &["~r_1000", "1'b1", "1'b0", "w_0 | r_999"],
        outputs: &[output],
        nexts: nexts.as_slice(),
    };
    assert_put(&rt, alloc, source.as_str(), &circuit)?;
    circuit.assert_steps(&rt, alloc, 1002)?;
    Ok(())
}
