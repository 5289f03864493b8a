//! Tests of reserved words and signs.

ghost use Rattle.std.specs.Prelude.{◌≡◌};
ghost use Rattle.std.specs.Str.{chars};
ghost use Rattle.qz_lexer.specs.Words.{is_reserved, is_single_sign, is_double_sign};

/// Words that are no names.
const RESERVED_WORDS: [&str; 31] = [
    "module",
    "event",
    "mem",
    "bool",
    "bv",
    "true",
    "false",
    "nothing",
    "pause",
    "halt",
    "await",
    "immediate",
    "next",
    "emit",
    "if",
    "else",
    "do",
    "while",
    "loop",
    "every",
    "weak",
    "abort",
    "suspend",
    "when",
    "assert",
    "assume",
    "always",
    "choose",
    "during",
    "final",
    "sustain",
];

/// Whether the word is reserved.
pub(crate) fn is_reserved(word: &str) -> bool
    ensures { result ≡ is_reserved (chars word.now) }
{
    RESERVED_WORDS.contains(&word)
}

/// Whether the character is a sign.
#[tactic(auto, unfolding(crate::specs::Words::is_single_sign))]
pub(crate) fn is_single_sign(c: char) -> bool
    ensures { result ≡ is_single_sign c }
{
    matches!(
        c,
        '(' | ')'
            | '{'
            | '}'
            | '['
            | ']'
            | ','
            | ';'
            | ':'
            | '?'
            | '!'
            | '~'
            | '@'
            | '+'
            | '-'
            | '&'
            | '|'
            | '^'
            | '='
            | '<'
            | '>'
    )
}

/// Whether the two characters are a sign together.
#[tactic(auto, unfolding(crate::specs::Words::is_double_sign))]
pub(crate) fn is_double_sign(c: char, d: char) -> bool
    ensures { result ≡ is_double_sign c d }
{
    match c {
        '=' | '!' | '<' | '>' => d == '=',
        '-' => d == '>',
        '|' => d == '|',
        _ => false,
    }
}
