//! Texts with their tokens or the offset of their fault, by hand from the rules.

use qz_lexer::{LexFault, lex};
use std::alloc::Global;
use std::fmt::Write;
use std::process::Abort;
use std::test::Fail;

/// A text, and a line for each token: its kind, its offset and its text; or the offset where none begins.
static TEXTS: [(&str, &str); 100] = [
    ("", ""),
    (" \t\r\n", ""),
    ("a\r\nb", "Name 0 a\nName 3 b\n"),
    ("\u{b}", "fault 0"),
    ("\u{c}", "fault 0"),
    ("\u{a0}a", "fault 0"),
    ("a\u{2028}", "fault 1"),
    ("\u{feff}a", "fault 0"),
    ("a\u{feff}", "fault 1"),
    ("\0", "fault 0"),
    ("a \0", "fault 2"),
    ("ab cd", "Name 0 ab\nName 3 cd\n"),
    ("if iffy", "Keyword 0 if\nName 3 iffy\n"),
    ("modules Module", "Name 0 modules\nName 8 Module\n"),
    ("a_b1", "Name 0 a_b1\n"),
    ("_a", "fault 0"),
    ("a _", "fault 2"),
    (
        "aaaaaaaaaaaaaaaaaaaaaaaaaaaaaaaaaaaaaaaaaaaaaaaaaaaaaaaaaaaaaaaa",
        "Name 0 aaaaaaaaaaaaaaaaaaaaaaaaaaaaaaaaaaaaaaaaaaaaaaaaaaaaaaaaaaaaaaaa\n",
    ),
    (
        "aaaaaaaaaaaaaaaaaaaaaaaaaaaaaaaaaaaaaaaaaaaaaaaaaaaaaaaaaaaaaaaaa",
        "fault 0",
    ),
    (
        "x aaaaaaaaaaaaaaaaaaaaaaaaaaaaaaaaaaaaaaaaaaaaaaaaaaaaaaaaaaaaaaaaa",
        "fault 2",
    ),
    (
        "ifaaaaaaaaaaaaaaaaaaaaaaaaaaaaaaaaaaaaaaaaaaaaaaaaaaaaaaaaaaaaaaaa",
        "fault 0",
    ),
    (
        "éééééééééééééééééééééééééééééééééééééééééééééééééééééééééééééééé",
        "Name 0 éééééééééééééééééééééééééééééééééééééééééééééééééééééééééééééééé\n",
    ),
    (
        "ééééééééééééééééééééééééééééééééééééééééééééééééééééééééééééééééé",
        "fault 0",
    ),
    ("é b", "Name 0 é\nName 3 b\n"),
    ("日本 x", "Name 0 日本\nName 7 x\n"),
    ("𐐀+", "Name 0 𐐀\nSign 4 +\n"),
    ("e\u{301}x", "Name 0 e\u{301}x\n"),
    ("\u{301}x", "fault 0"),
    ("+\u{301}", "fault 1"),
    ("ifé", "Name 0 ifé\n"),
    ("٣", "fault 0"),
    ("a٣", "Name 0 a٣\n"),
    ("007", "Number 0 007\n"),
    ("12345678901234567890", "Number 0 12345678901234567890\n"),
    ("123456789012345678901", "fault 0"),
    ("1 00000000000000000000 000000000000000000000", "fault 23"),
    ("8a", "Number 0 8\nName 1 a\n"),
    ("8'd3", "Literal 0 8'd3\n"),
    ("8'd", "fault 1"),
    ("8 'd3", "fault 2"),
    ("8'd 3", "fault 1"),
    ("8'b1", "fault 1"),
    ("8'D1", "fault 1"),
    (
        "8'd12345678901234567890",
        "Literal 0 8'd12345678901234567890\n",
    ),
    ("8'd123456789012345678901", "fault 1"),
    (
        "12345678901234567890'd1",
        "Literal 0 12345678901234567890'd1\n",
    ),
    ("123456789012345678901'd1", "fault 0"),
    ("8'd3x", "Literal 0 8'd3\nName 4 x\n"),
    ("8'd3'd4", "fault 4"),
    ("'d3", "fault 0"),
    ("a8'd3", "fault 2"),
    ("8'd٣", "fault 1"),
    ("//", ""),
    ("// x\r", ""),
    ("// x\na", "Name 5 a\n"),
    ("//é\nb", "Name 5 b\n"),
    ("a//b", "Name 0 a\n"),
    ("// /*\na", "Name 6 a\n"),
    ("///* x\n/", "fault 7"),
    ("/**/a", "Name 4 a\n"),
    ("/***/a", "Name 5 a\n"),
    ("/*x*/a", "Name 5 a\n"),
    ("/*é*/b", "Name 6 b\n"),
    ("/* // */a", "Name 8 a\n"),
    ("/*\n*/a", "Name 5 a\n"),
    ("/* /* */ */", "fault 9"),
    ("/*/", "fault 0"),
    ("/*/*/a", "Name 5 a\n"),
    ("/*", "fault 0"),
    ("a /* b", "fault 2"),
    ("a /* *", "fault 2"),
    ("/* */ /* * /", "fault 6"),
    ("/", "fault 0"),
    ("a/b", "fault 1"),
    ("*/", "fault 0"),
    ("|||", "Sign 0 ||\nSign 2 |\n"),
    ("||||", "Sign 0 ||\nSign 2 ||\n"),
    ("<==", "Sign 0 <=\nSign 2 =\n"),
    ("!==", "Sign 0 !=\nSign 2 =\n"),
    (">==", "Sign 0 >=\nSign 2 =\n"),
    ("===", "Sign 0 ==\nSign 2 =\n"),
    ("-->", "Sign 0 -\nSign 1 ->\n"),
    ("->>", "Sign 0 ->\nSign 2 >\n"),
    ("=>", "Sign 0 =\nSign 1 >\n"),
    ("<>", "Sign 0 <\nSign 1 >\n"),
    ("&&", "Sign 0 &\nSign 1 &\n"),
    ("<-", "Sign 0 <\nSign 1 -\n"),
    ("< =", "Sign 0 <\nSign 2 =\n"),
    ("= =", "Sign 0 =\nSign 2 =\n"),
    ("=é", "Sign 0 =\nName 1 é\n"),
    ("a .", "fault 2"),
    ("a #", "fault 2"),
    ("a $", "fault 2"),
    ("a %", "fault 2"),
    ("a '", "fault 2"),
    ("a \"", "fault 2"),
    ("a `", "fault 2"),
    ("a \\", "fault 2"),
    ("a *", "fault 2"),
    (
        "x=next(y)+8'd1;",
        "Name 0 x\nSign 1 =\nKeyword 2 next\nSign 6 (\nName 7 y\nSign 8 )\nSign 9 +\nLiteral 10 8'd1\nSign 14 ;\n",
    ),
];

static RESERVED: [&str; 31] = [
    "module",
    "event",
    "mem",
    "bool",
    "bv",
    "true",
    "false",
    "nothing",
    "pause",
    "halt",
    "await",
    "immediate",
    "next",
    "emit",
    "if",
    "else",
    "do",
    "while",
    "loop",
    "every",
    "weak",
    "abort",
    "suspend",
    "when",
    "assert",
    "assume",
    "always",
    "choose",
    "during",
    "final",
    "sustain",
];

static SIGNS: [&str; 27] = [
    "(", ")", "{", "}", "[", "]", ",", ";", ":", "?", "!", "~", "@", "+", "-", "&", "|", "^", "=",
    "==", "!=", "<", "<=", ">", ">=", "->", "||",
];

/// What `lex` gives, as the table writes it.
fn shown(rt: &impl Abort, alloc: Global, text: &str) -> Result<String, Fail> {
    assert!(rt; text.len() <= 1_048_576);
    let mut out = String::new(alloc);
    match lex(alloc, text) {
        Ok(tokens) => {
            for token in &tokens {
                let (kind, offset, text) = (token.kind, token.offset, token.text);
                writeln!(out, "{kind:?} {offset} {text}")?;
            }
        }
        Err(LexFault::At { offset }) => write!(out, "fault {offset}")?,
        Err(LexFault::Memory) => out.push_str("memory")?,
    }
    Ok(out)
}

#[test]
fn texts_have_their_tokens(rt: HostRuntime) -> Result<(), Fail> {
    for (text, want) in &TEXTS {
        let found = shown(&rt, rt.alloc(), text)?;
        assert_eq!(rt; found.as_str(), *want, "in {text:?}");
    }
    Ok(())
}

#[test]
fn reserved_words_are_keywords(rt: HostRuntime) -> Result<(), Fail> {
    for word in &RESERVED {
        let found = shown(&rt, rt.alloc(), word)?;
        let want = format!(in rt.alloc(); "Keyword 0 {word}\n")?;
        assert_eq!(rt; found.as_str(), want.as_str());
    }
    Ok(())
}

#[test]
fn signs_are_signs(rt: HostRuntime) -> Result<(), Fail> {
    for sign in &SIGNS {
        let found = shown(&rt, rt.alloc(), sign)?;
        let want = format!(in rt.alloc(); "Sign 0 {sign}\n")?;
        assert_eq!(rt; found.as_str(), want.as_str());
    }
    Ok(())
}
