//! Laws of source texts and their faults.
//!
//! `read_module` tells a fault of grammar by words, and the words that complete those before it may be such as no
//! text spells. Here it is said of texts alone (`specs/Beginnings.antt`): some text begins with the tokens before
//! the fault and spells a file, and none begins with the token at fault too, of however many levels (`Parse`) or
//! within the bound (`Deep`). That the grammar asks nothing of words but their sorts is what makes it so.
#![tactic(auto)]

ghost use Rattle.std.specs.Prelude.{ℕ, List};
ghost use Rattle.qz_source.specs.declared.faults.SourceFault.TheVariants as fault;
ghost use Rattle.qz_source.specs.Sources.{IsSourceFault};
ghost use Rattle.source_laws.specs.Beginnings.{IsParseText, IsDeepText};

/// `Parse` is told at the first token with which no text begins that spells a file, or at the text's length.
pub fn parse_is_of_texts()
    ensures { (bytes : List ℕ) (offset : ℕ) → IsSourceFault bytes (fault.Parse offset) → IsParseText bytes offset }
{}

/// `Deep` is told at the first token with which no text within 128 levels begins, where one with more does.
pub fn deep_is_of_texts()
    ensures { (bytes : List ℕ) (offset : ℕ) → IsSourceFault bytes (fault.Deep offset) → IsDeepText bytes offset }
{}
