//! The texts of signs and reserved words.

ghost use Rattle.std.specs.Prelude.{◌≡◌, map};
ghost use Rattle.qz_source.specs.Marks.{mark_in, row_of, keywords, signs};

use qz_phrases::Mark;

/// The reserved words that have a use.
const KEYWORDS: [(&str, Mark); 24] = [
    ("module", Mark::Module),
    ("event", Mark::Event),
    ("mem", Mark::Mem),
    ("bool", Mark::Bool),
    ("bv", Mark::Bv),
    ("true", Mark::True),
    ("false", Mark::False),
    ("nothing", Mark::Nothing),
    ("pause", Mark::Pause),
    ("halt", Mark::Halt),
    ("await", Mark::Await),
    ("immediate", Mark::Immediate),
    ("next", Mark::Next),
    ("emit", Mark::Emit),
    ("if", Mark::If),
    ("else", Mark::Else),
    ("do", Mark::Do),
    ("while", Mark::While),
    ("loop", Mark::Loop),
    ("every", Mark::Every),
    ("weak", Mark::Weak),
    ("abort", Mark::Abort),
    ("suspend", Mark::Suspend),
    ("when", Mark::When),
];

const SIGNS: [(&str, Mark); 27] = [
    ("(", Mark::OpenParen),
    (")", Mark::CloseParen),
    ("{", Mark::OpenBrace),
    ("}", Mark::CloseBrace),
    ("[", Mark::OpenBracket),
    ("]", Mark::CloseBracket),
    (",", Mark::Comma),
    (";", Mark::Semicolon),
    (":", Mark::Colon),
    ("?", Mark::Question),
    ("!", Mark::Exclamation),
    ("~", Mark::Tilde),
    ("@", Mark::At),
    ("+", Mark::Plus),
    ("-", Mark::Minus),
    ("&", Mark::Ampersand),
    ("|", Mark::Bar),
    ("^", Mark::Caret),
    ("=", Mark::Equals),
    ("==", Mark::EqualEqual),
    ("!=", Mark::NotEqual),
    ("<", Mark::Less),
    ("<=", Mark::LessEqual),
    (">", Mark::Greater),
    (">=", Mark::GreaterEqual),
    ("->", Mark::Arrow),
    ("||", Mark::BarBar),
];

/// The mark that a reserved word is.
pub(crate) fn keyword(text: &str) -> Mark
    ensures { result ≡ mark_in keywords text.now }
{
    mark_in(&KEYWORDS, text)
}

/// The mark that a sign is.
pub(crate) fn sign(text: &str) -> Mark
    ensures { result ≡ mark_in signs text.now }
{
    mark_in(&SIGNS, text)
}

/// The mark beside this text, and `Reserved` where there is none.
fn mark_in(rows: &[(&str, Mark)], text: &str) -> Mark
    ensures { result ≡ mark_in (map row_of rows.now) text.now }
{
    for (spelling, mark) in rows {
        if *spelling == text {
            return *mark;
        }
    }
    Mark::Reserved
}
