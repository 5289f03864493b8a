//! The program that a source makes, from what was found under its file's name.

ghost use Rattle.std.specs.Prelude.{◌≡◌, ◌≤◌, length, MatchResult};
ghost use Rattle.qz_io.specs.Answers.{IfBytes};
ghost use Rattle.qz_diag.specs.Causes.{Missing};
ghost use Rattle.qz_diag.specs.declared.refusal.Refusal.TheVariants.{AtByte};
ghost use Rattle.qz_driver.specs.declared.work.Stop.TheVariants.{Refused};
ghost use Rattle.qz_driver.specs.RunRow.{IsOfSource, IsOfSourceFile};
ghost use Rattle.qz_driver.specs.Running.{IsToldFor, IsOnlyProgramIn};
ghost use Rattle.qz_driver.specs.Work.{content_of, StopsOver};
ghost use Rattle.qz_driver.specs.Rows.{Bytes};

use crate::words::Named;
use crate::work::Stop;
use qz_diag::{ByteFault, Refusal};
use qz_io::Got;
use qz_program::{NoProgram, program_of_bytes};
use qz_syntax::Whole;
use std::alloc::{AllocError, Global};

/// The program that was asked for.
pub fn program_in(alloc: Global, asked: Named<'_>, got: &Got) -> Result<Whole, Stop>
    requires { IfBytes got.now (λ bytes. length bytes ≤ 1048576) }
    ensures { MatchResult result (IsOnlyProgramIn asked.entry.name.now asked.entry.file.now (content_of got.now))
        (StopsOver (IsOfSourceFile asked.entry.name.now asked.entry.file.now (content_of got.now))) }
{
    match got {
        Got::Absent => Err(Stop::Refused(Refusal::Absent {
            file: String::from_str(alloc, asked.file)?,
        })),
        Got::TooLong => Err(Stop::Refused(Refusal::TooLong {
            file: String::from_str(alloc, asked.file)?,
        })),
        Got::Bytes(bytes) => program_in_bytes(alloc, asked, bytes.as_slice()),
    }
}

/// The same from the file's bytes.
fn program_in_bytes(alloc: Global, asked: Named<'_>, bytes: &[u8]) -> Result<Whole, Stop>
    requires { length bytes.now ≤ 1048576 }
    ensures { MatchResult result (IsOnlyProgramIn asked.entry.name.now asked.entry.file.now (Bytes bytes.now))
        (StopsOver (IsOfSource asked.entry.name.now asked.entry.file.now bytes.now)) }
{
    match program_of_bytes(alloc, asked.name, bytes) {
        Ok(program) => Ok(program),
        Err(why) => Err(stop_for(alloc, asked, why)),
    }
}

/// How it is told that a source makes no program.
fn stop_for(alloc: Global, asked: Named<'_>, why: NoProgram) -> Stop
    ensures { StopsOver (IsToldFor asked.entry.name.now asked.entry.file.now why) result }
{
    let file = match String::from_str(alloc, asked.file) {
        Ok(file) => file,
        Err(AllocError) => return Stop::Memory,
    };
    match why {
        NoProgram::NotUtf8 { offset } => at_byte(file, ByteFault::NotUtf8, offset),
        NoProgram::Lex { offset } => at_byte(file, ByteFault::Lex, offset),
        NoProgram::Parse { offset } => at_byte(file, ByteFault::Parse, offset),
        NoProgram::Deep { offset } => at_byte(file, ByteFault::Deep, offset),
        NoProgram::Types { offset, kind } => at_byte(file, ByteFault::Types(kind), offset),
        NoProgram::Prototypes => Stop::Refused(Refusal::NotBuilt { file }),
        NoProgram::FileSize { units } => Stop::Refused(Refusal::FileSize { file, units }),
        NoProgram::Missing => missing(alloc, asked.name),
        NoProgram::InstantLoop { module, number } => {
            Stop::Refused(Refusal::InstantLoop { module, number })
        }
        NoProgram::Size { units } => Stop::Refused(Refusal::Size { units }),
        NoProgram::Memory => Stop::Memory,
    }
}

/// That the file is at fault at this byte.
fn at_byte(file: String, fault: ByteFault, offset: u32) -> Stop
    ensures { result ≡ Refused (AtByte file fault offset) }
{
    Stop::Refused(Refusal::AtByte {
        file,
        fault,
        offset,
    })
}

/// That no module has this name.
fn missing(alloc: Global, name: &str) -> Stop
    ensures { StopsOver (λ cause. cause ≡ Missing name.now) result }
{
    match String::from_str(alloc, name) {
        Ok(name) => Stop::Refused(Refusal::Missing { name }),
        Err(AllocError) => Stop::Memory,
    }
}
