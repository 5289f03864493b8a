//! The tokens of a source text.
//!
//! `lex` cuts a text into pieces: tokens, white space and comments. At each place the longest piece that begins
//! there counts. It answers the tokens in order, each with its kind, its slice of the text and its offset in
//! bytes, or the offset of the first place where no piece begins.
//!
//! - White space is space, tab, line feed and carriage return, and no other character.
//! - A comment goes from `//` up to the next line feed or the end of the text, or from `/*` to the next `*/`,
//!   which begins after the `/*`: `/*/` is not closed. Comments don't nest. A `/*` without `*/` begins nothing.
//! - A name is a character with XID_Start and then characters with XID_Continue, at most 64 in all, and is no
//!   reserved word. It can't begin with `_`. Characters are compared as they are, without normalising.
//! - A keyword is a reserved word: `module event mem bool bv true false nothing pause halt await immediate next
//!   emit if else do while loop every weak abort suspend when`, and without use so far `assert assume always
//!   choose during final sustain`.
//! - A number is a run of 1 to 20 decimal digits (0 to 9). Leading zeros are allowed.
//! - A literal is a number, `'d` and a number, without space, as `8'd200`. It is one token.
//! - A sign is one of `( ) { } [ ] , ; : ? ! ~ @ + - & | ^ = == != < <= > >= -> ||`.
//!
//! A run counts only as a whole: where 65 characters go on as a name does, or 21 digits stand together, no part
//! of them is a token. So `8'd` with 21 digits behind it is no literal. The number `8` is the longest token
//! there, and no token begins at the `'`, just as for `8'd` with no digit behind it.
//!
//! What tokens, white space and comments are is said in `specs/Words.antt` and `specs/Blanks.antt`, how a text
//! is cut in `specs/Pieces.antt`, and what `lex` answers in `specs/Lexemes.antt`.
#![tactic(auto)]

mod comments;
mod faults;
mod lexer;
mod pieces;
mod runs;
mod starts;
mod tokens;
mod values;
mod words;

pub use faults::LexFault;
pub use lexer::{lex, one_outcome};
pub use tokens::{Token, TokenKind};
