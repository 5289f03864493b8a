//! Writes a file.

ghost use Rattle.std.specs.Prelude.{◌≡◌, string_bytes, IfOk, OnOk};
ghost use Rattle.std.specs.List.{flat_map};
ghost use Rattle.qz_printer.specs.Files.{head_words, proto_words, canonical_text};
ghost use Rattle.qz_printer.specs.Writing.{written};

use crate::declarations::formals;
use crate::statements::block;
use crate::words::{name, word};
use qz_syntax::{File, FileProto};
use std::alloc::{AllocError, Global};

/// The canonical text of a file.
///
/// # Errors
///
/// `AllocError` where no memory was left.
pub fn print_module(alloc: Global, f: &File) -> Result<Vec<u8>, AllocError>
    ensures { IfOk result (λ bytes. bytes.items ≡ canonical_text f.now) }
{
    let text = text(alloc, f)?;
    Ok(text.into_bytes())
}

fn text(alloc: Global, f: &File) -> Result<String, AllocError>
    ensures { IfOk result (λ text. string_bytes text ≡ canonical_text f.now) }
{
    let mut text = String::new(alloc);
    prototypes(&mut text, f.protos.as_slice())?;
    head(&mut text, &f.module)?;
    block(&mut text, &f.body)?;
    text.push_str("\n")?;
    Ok(text)
}

/// Prototypes one after the other.
#[tactic(auto, using(crate::proofs::Written::written_append))]
fn prototypes(text: &mut String, protos: &[FileProto]) -> Result<(), AllocError>
    ensures { OnOk result (string_bytes text.new ≡ written (string_bytes text.old) (flat_map proto_words protos.now)) }
{
    for proto in protos {
        head(text, proto)?;
        word(text, ";")?;
    }
    Ok(())
}

/// What a module or a prototype says before its body.
#[tactic(auto, using(crate::proofs::Written::written_append))]
fn head(text: &mut String, proto: &FileProto) -> Result<(), AllocError>
    ensures { OnOk result (string_bytes text.new ≡ written (string_bytes text.old) (head_words proto.now)) }
{
    word(text, "module")?;
    name(text, &proto.name.name)?;
    word(text, "(")?;
    formals(text, proto.formals.as_slice())?;
    word(text, ")")
}
