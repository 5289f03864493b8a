//! From a text to its tokens.

ghost use Rattle.std.specs.Prelude.{◌≡◌, ℕ, ◌≤◌, List, ◌++◌, map, length, Result, All, IfSome, IfOk, IfErr, OnOk};
ghost use Rattle.std.specs.Str.{chars};
ghost use Rattle.qz_lexer.specs.Lexemes.{Lexeme, lexeme, lexeme_at, Lexes, HasOneOutcome, IsSliceOf, outcome_of};

use crate::faults::LexFault;
use crate::pieces::first_piece;
use crate::runs::text_before;
use crate::tokens::{Token, TokenKind};
use std::alloc::Global;

/// The tokens of the text, in order. The text has at most 1 MiB (1048576 bytes).
///
/// Answers `At` with the offset in bytes of the first place where no token, white space or comment begins after
/// those before it, and `Memory` where memory ran out.
///
/// It takes time linear in the text's length. It goes over the text once and copies nothing of it: no run and no
/// comment is read twice. A literal goes on from the end of its first number. A word is sought among the reserved
/// ones after its end was found, in a bounded number of steps. Only where what follows `'d` is no number has the
/// lexer looked past the end of a token, and then it stops at that `'`.
pub fn lex<'t>(alloc: Global, text: &'t str) -> Result<Vec<Token<'t>>, LexFault>
    requires { length text.now ≤ 1048576 }
    // What is returned, but for want of memory, is the text's outcome.
    ensures found { IfSome (outcome_of (λ tokens. tokens.items) result) (λ outcome. Lexes (chars text.now) outcome) }
    // What is the text's outcome is returned, but for want of memory.
    ensures only { (outcome : Result (List Lexeme) ℕ) → Lexes (chars text.now) outcome →
        IfSome (outcome_of (λ tokens. tokens.items) result) (λ told. told ≡ outcome) }
    ensures slices { IfOk result (λ tokens. All (IsSliceOf text.now) (map lexeme tokens.items)) }
{
    let mut tokens = Vec::new(alloc);
    let mut rest = text;
    while !rest.is_empty() {
        let offset = text_before(text, rest).len() as u32;
        let Some(front) = first_piece(rest) else {
            return Err(LexFault::At { offset });
        };
        let piece = text_before(rest, front.after);
        keep(&mut tokens, front.kind, piece, offset)?;
        rest = front.after;
    }
    Ok(tokens)
}

/// Adds the token that the piece is, if it is of a kind.
fn keep<'t>(
    tokens: &mut Vec<Token<'t>>,
    kind: Option<TokenKind>,
    text: &'t str,
    offset: u32,
) -> Result<(), LexFault>
    ensures ok { OnOk result (map lexeme tokens.new.items ≡ map lexeme tokens.old.items ++ lexeme_at offset kind text.now) }
    ensures err { IfErr result (λ fault. fault ≡ LexFault.Memory) }
{
    match kind {
        Some(kind) => {
            tokens.push(Token { kind, text, offset })?;
            Ok(())
        }
        None => Ok(()),
    }
}

/// A text has exactly one outcome: its list of tokens, or the offset where no piece begins.
pub fn one_outcome()
    ensures { (text : List ℕ) → HasOneOutcome text }
{}
