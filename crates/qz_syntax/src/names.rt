//! Names of modules, variables and labels, and texts made of them.

ghost use Rattle.std.specs.Prelude.{◌≡◌, IfOk, MatchOption, false, length, string_bytes, encode_utf8_all};
ghost use Rattle.std.specs.Str.{bytes_eq, chars};
ghost use Rattle.std.specs.List.{list_all, list_any};
ghost use Rattle.std.specs.Hash as fed;
ghost use Rattle.std.specs.Cmp.Rules.{comparing, hashing};
ghost use Rattle.std.proofs.Common.{rules};
ghost use Rattle.unicode_ident.specs.Ident.{is_xid_continue};
ghost use Rattle.qz_syntax.specs.Spelling.{is_reserved, is_spelled, is_name, IsName};

use std::alloc::{AllocError, Global};
use std::hash::{Hash, Hasher};
use std::marker::Model;
use unicode_ident::{is_xid_continue, is_xid_start};

/// The words that are no names, of which the last seven have no use.
const RESERVED: [&str; 31] = [
    "module",
    "event",
    "mem",
    "bool",
    "bv",
    "true",
    "false",
    "nothing",
    "pause",
    "halt",
    "await",
    "immediate",
    "next",
    "emit",
    "if",
    "else",
    "do",
    "while",
    "loop",
    "every",
    "weak",
    "abort",
    "suspend",
    "when",
    "assert",
    "assume",
    "always",
    "choose",
    "during",
    "final",
    "sustain",
];

/// How many characters a name has at most.
const LONGEST: usize = 64;

/// A name of the language: 1 to 64 characters, the first with `XID_Start` and each later one with
/// `XID_Continue` (Unicode Standard Annex 31), and no reserved word.
#[derive(Clone, Debug, Drop)]
pub struct Name {
    text: String,
}

impl Model for Name {
    ghost use Rattle.std.specs.Prelude.{List, ℕ, string_bytes};
    ghost use Rattle.std.specs.Str.{chars};
    ghost use Rattle.qz_syntax.specs.Spelling.{IsName};

    ghost Value = { List ℕ };

    ghost view = { λ n. chars (string_bytes n.text) };

    ghost invariant = { λ n. IsName (chars (string_bytes n.text)) };
}

impl Name {
    /// The name with this text, or `None` where the text is no name.
    pub fn new(alloc: Global, text: &str) -> Result<Option<Name>, AllocError>
        ensures { IfOk result (λ name. MatchOption name (is_name (chars text.now) ≡ false) (λ n. (n ≡ chars text.now) × IsName n)) }
    {
        if !is_name(text) {
            return Ok(None);
        }
        Ok(Some(Name {
            text: String::from_str(alloc, text)?,
        }))
    }

    /// The name's text.
    pub fn as_str(&self) -> &str
        ensures text { chars result.now ≡ self.now }
        ensures name { IsName self.now }
    {
        self.text.as_str()
    }
}

/// Names are compared character by character, without normalising.
impl PartialEq for Name {
    ghost eq = { bytes_eq };

    ghost laws = { Prim.search (comparing, rules) };

    fn eq(&self, other: &Name) -> bool {
        self.text.as_str() == other.text.as_str()
    }
}

impl Eq for Name {
    ghost laws = { Prim.search (comparing, rules) };
}

impl Hash for Name {
    ghost hash_input = { λ n. fed.str (encode_utf8_all n) };

    ghost respects_eq = { Prim.search (hashing, rules) };

    fn hash<H: Hasher>(&self, state: &mut H) {
        self.text.as_str().hash(state);
    }
}

/// Whether a text is a name.
fn is_name(text: &str) -> bool
    ensures { result ≡ is_name (chars text.now) }
{
    if !is_spelled(text) || character_count(text) > LONGEST {
        return false;
    }
    !is_reserved(text)
}

/// Whether a text has a character that starts a name, and then only characters that continue one.
fn is_spelled(text: &str) -> bool
    ensures { result ≡ is_spelled (chars text.now) }
{
    let mut characters = text.chars();
    match characters.next() {
        Some(first) => is_xid_start(first) && all_continue(characters.as_str()),
        None => false,
    }
}

/// Whether each character of a text continues a name.
fn all_continue(text: &str) -> bool
    ensures { result ≡ list_all (λ c. is_xid_continue c) (chars text.now) }
{
    text.chars().all(|c| is_xid_continue(c))
}

fn character_count(text: &str) -> usize
    ensures { result ≡ length (chars text.now) }
{
    text.chars().count()
}

/// Whether a text is a reserved word.
fn is_reserved(text: &str) -> bool
    ensures { result ≡ is_reserved (chars text.now) }
{
    is_among(&RESERVED, text)
}

/// Whether a text is one of some words.
fn is_among(words: &[&str], text: &str) -> bool
    ensures { result ≡ list_any (λ word. bytes_eq word.now text.now) words.now }
{
    words.iter().any(|word| *word == text)
}

/// A text, seen as the list of its bytes.
#[derive(Clone, Debug, Drop)]
pub struct Text {
    text: String,
}

impl Model for Text {
    ghost use Rattle.std.specs.Prelude.{List, ℕ, string_bytes};

    ghost Value = { List ℕ };

    ghost view = { λ t. string_bytes t.text };
}

impl Text {
    /// The text that a string holds.
    pub fn from_string(text: String) -> Text
        ensures { result ≡ string_bytes text }
    {
        Text { text }
    }

    /// The text as Rust's.
    pub fn as_str(&self) -> &str
        ensures { result.now ≡ self.now }
    {
        self.text.as_str()
    }
}
