//! From the bytes of a source to the text of its circuit.

ghost use Rattle.std.specs.Prelude.{◌≡◌, ◌≤◌, length, IfErr, IfOk, OnOk};
ghost use Rattle.qz_first.specs.FirstLanguage.{IsFirst};
ghost use Rattle.qz_first.specs.Texts.{IsTextOfProgram, HasCircuit};
ghost use Rattle.qz_first.specs.Reading.{OnNotBuilt};
ghost use Rattle.qz_first.specs.Built.{IsModuleOf, IsNotBuilt, IsBuilt};
ghost use Rattle.qz_first.specs.Answers.{StandsAgainst};

use crate::circuit::circuit;
use crate::instant_loop::instant_loop;
use crate::reader::{NoSource, read_source};
use crate::typing::typed;
use qz_syntax::{Module, Name};
use qz_vtext::write_v;
use std::alloc::{AllocError, Global};

/// Why there is no text of a circuit.
#[derive(Debug, Drop)]
pub enum NoText {
    /// The bytes are no text of the first language that has the module that was asked for.
    NotBuilt,
    /// The body of this loop, by its number in the module, may end at once. It is the first such.
    InstantLoop { module: Name, number: u32 },
    Memory,
}

impl From<AllocError> for NoText {
    ghost use Rattle.std.specs.Prelude.{◌≡◌};
    ghost use Rattle.qz_first.specs.declared.circuit_text.NoText.TheVariants.{Memory};

    ghost from_gives = { λ _ fault. fault ≡ Memory };

    fn from(_: AllocError) -> Self {
        NoText::Memory
    }
}

/// The Verilog text of a circuit that does the program of the module of this name, from the bytes
/// of its source, at most 1 MiB.
pub fn verilog_of_source(alloc: Global, name: &str, bytes: &[u8]) -> Result<Vec<u8>, NoText>
    requires { length bytes.now ≤ 1048576 }
    ensures built { OnOk result (IsBuilt name.now bytes.now) }
    ensures stands { IfErr result (StandsAgainst name.now bytes.now) }
    ensures does { IfOk result (λ text. HasCircuit name.now bytes.now text.items) }
{
    match asked_module(alloc, name, bytes) {
        Ok(module) => match instant_loop(&module.body) {
            Some(number) => Err(NoText::InstantLoop {
                module: module.name,
                number,
            }),
            None => Ok(text_of_module(alloc, module)?),
        },
        Err(NoSource::NotBuilt) => Err(NoText::NotBuilt),
        Err(NoSource::Memory) => Err(NoText::Memory),
    }
}

/// The module of this name that the bytes describe.
fn asked_module(alloc: Global, name: &str, bytes: &[u8]) -> Result<Module, NoSource>
    requires { length bytes.now ≤ 1048576 }
    ensures found { IfOk result (IsModuleOf name.now bytes.now) }
    ensures first { IfOk result IsFirst }
    ensures none { IfErr result (λ fault. OnNotBuilt fault (IsNotBuilt name.now bytes.now)) }
{
    match read_source(alloc, bytes) {
        Ok(source) => typed(alloc, name, source),
        Err(fault) => Err(fault),
    }
}

/// The text of the circuit that does the module's program.
fn text_of_module(alloc: Global, program: Module) -> Result<Vec<u8>, AllocError>
    requires { IsFirst program }
    ensures { IfOk result (λ text. IsTextOfProgram program text.items) }
{
    let circuit = circuit(alloc, program)?;
    write_v(alloc, &circuit)
}
