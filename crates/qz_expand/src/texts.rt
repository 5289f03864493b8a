//! The texts by which places, locals and loops are named.

ghost use Rattle.std.specs.Prelude.{◌≡◌, [], ◌∷◌, ◌++◌, map, codes, string_bytes, encode_utf8_all, IfOk};
ghost use Rattle.std.specs.Fmt.{decimal};
ghost use Rattle.std.specs.List.{range_with_len};
ghost use Rattle.qz_expand.specs.Texts.{numbered, is_taken, label_or_number, place_text, local_text, texts_from, names_of};

use qz_syntax::{Decl, Module, Name, Names, Text};
use sqlite_items::Items;
use std::alloc::{AllocError, Global};

/// The texts of a module that stands alone.
pub(crate) fn names_of(alloc: Global, m: &Module) -> Result<Names, AllocError>
    ensures { IfOk result (λ names. names ≡ names_of m.now) }
{
    let places = place_texts(alloc, m.labels.as_slice())?;
    let locals = local_texts(alloc, m.decls.as_slice())?;
    let loops = loop_texts(alloc, m.loops)?;
    Ok(Names {
        places,
        locals,
        loops,
    })
}

fn place_texts(alloc: Global, labels: &[Option<Name>]) -> Result<Items<Text>, AllocError>
    ensures { IfOk result (λ texts. texts ≡ texts_from place_text 0 labels.now) }
{
    let mut texts = Vec::new(alloc);
    for (number, label) in labels.iter().enumerate() {
        texts.push(place_text(alloc, number, label)?)?;
    }
    Ok(Items::from_vec(texts))
}

/// A place's label, or its number where it has none or one that reads as no place.
fn place_text(alloc: Global, number: usize, label: &Option<Name>) -> Result<Text, AllocError>
    ensures { IfOk result (λ text. text ≡ place_text number label.now) }
{
    match label {
        Some(name) => label_text(alloc, number, spelled(name)),
        None => numbered(alloc, number),
    }
}

fn label_text(alloc: Global, number: usize, label: &str) -> Result<Text, AllocError>
    ensures { IfOk result (λ text. text ≡ label_or_number label.now number) }
{
    if label == "start" || label == "end" {
        return numbered(alloc, number);
    }
    let text = String::from_str(alloc, label)?;
    Ok(Text::from_string(text))
}

fn numbered(alloc: Global, number: usize) -> Result<Text, AllocError>
    ensures { IfOk result (λ text. text ≡ numbered number) }
{
    let text = format!(in alloc; "#{number}")?;
    Ok(Text::from_string(text))
}

fn local_texts(alloc: Global, decls: &[Decl]) -> Result<Items<Text>, AllocError>
    ensures { IfOk result (λ texts. texts ≡ texts_from local_text 0 decls.now) }
{
    let mut texts = Vec::new(alloc);
    for (number, decl) in decls.iter().enumerate() {
        texts.push(local_text(alloc, number, spelled(&decl.name))?)?;
    }
    Ok(Items::from_vec(texts))
}

fn local_text(alloc: Global, number: usize, name: &str) -> Result<Text, AllocError>
    ensures { IfOk result (λ text. text ≡ name.now ++ numbered number) }
{
    let text = format!(in alloc; "{name}#{number}")?;
    Ok(Text::from_string(text))
}

/// Loops have their numbers alone.
fn loop_texts(alloc: Global, loops: u32) -> Result<Items<Text>, AllocError>
    ensures { IfOk result (λ texts. texts ≡ map decimal (range_with_len 0 loops)) }
{
    let mut texts = Vec::new(alloc);
    for number in 0..loops {
        let text = format!(in alloc; "{number}")?;
        texts.push(Text::from_string(text))?;
    }
    Ok(Items::from_vec(texts))
}

/// A name's text, which a contract sees as bytes.
pub fn spelled(name: &Name) -> &str
    ensures { result.now ≡ encode_utf8_all name.now }
{
    name.as_str()
}
