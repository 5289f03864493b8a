//! The words that tokens say.

ghost use Rattle.std.specs.Prelude.{◌≡◌, map, All, IfOk};
ghost use Rattle.std.specs.Str.{chars};
ghost use Rattle.std.specs.Str.Parse.{digits_value};
ghost use Rattle.qz_syntax.specs.Spelling.{IsName};
ghost use Rattle.qz_phrases.specs.declared.words.Word.TheVariants as word;
ghost use Rattle.qz_lexer.specs.Lexemes.{lexeme};
ghost use Rattle.qz_source.specs.Spots.{IsNumberText, IsLiteralText, IsTokenText, literal_width, literal_value, word_of, spot_of};

use crate::marks::{keyword, sign};
use qz_lexer::{Token, TokenKind};
use qz_phrases::{Spot, Word};
use qz_syntax::Name;
use std::alloc::{AllocError, Global};

/// The words that these tokens say, at their offsets.
pub(crate) fn spots(alloc: Global, tokens: &[Token<'_>]) -> Result<Vec<Spot>, AllocError>
    requires { All (λ token. IsTokenText (lexeme token)) tokens.now }
    ensures { IfOk result (λ spots. spots.items ≡ map spot_of (map lexeme tokens.now)) }
{
    let mut spots = Vec::with_capacity(alloc, tokens.len())?;
    for token in tokens {
        let word = word(alloc, token)?;
        spots.push(Spot {
            word,
            at: token.offset,
        })?;
    }
    Ok(spots)
}

/// The word that the token says.
fn word(alloc: Global, token: &Token<'_>) -> Result<Word, AllocError>
    requires { IsTokenText (lexeme token.now) }
    ensures { IfOk result (λ word. word ≡ word_of (lexeme token.now)) }
{
    match token.kind {
        TokenKind::Name => name(alloc, token.text),
        TokenKind::Keyword => Ok(Word::Mark(keyword(token.text))),
        TokenKind::Number => Ok(Word::Number(number(token.text))),
        TokenKind::Literal => Ok(literal(token.text)),
        TokenKind::Sign => Ok(Word::Mark(sign(token.text))),
    }
}

fn name(alloc: Global, text: &str) -> Result<Word, AllocError>
    requires { IsName (chars text.now) }
    ensures { IfOk result (λ said. said ≡ word.Name (chars text.now)) }
{
    match Name::new(alloc, text)? {
        Some(name) => Ok(Word::Name(name)),
        None => unreachable!(),
    }
}

/// The literal with this text: its width and its value.
fn literal(text: &str) -> Word
    requires { IsLiteralText text.now }
    ensures { result ≡ word.Literal (digits_value 10 (literal_width text.now)) (digits_value 10 (literal_value text.now)) }
{
    let Some((width, rest)) = text.split_once('\'') else {
        unreachable!()
    };
    let Some(value) = rest.strip_prefix('d') else {
        unreachable!()
    };
    Word::Literal(number(width), number(value))
}

/// The value of 1 to 20 decimal digits.
fn number(digits: &str) -> u128
    requires { IsNumberText digits.now }
    ensures { result ≡ digits_value 10 digits.now }
{
    match digits.parse() {
        Ok(value) => value,
        Err(_) => unreachable!(),
    }
}
