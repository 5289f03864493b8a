//! A token, and its kinds.

/// What a token is.
#[derive(Debug, Drop, Clone, Copy, PartialEq, Eq)]
pub enum TokenKind {
    /// A character with XID_Start and all those with XID_Continue after it, at most 64, and no reserved word.
    Name,
    /// A reserved word, of the language or kept for later.
    Keyword,
    /// A run of 1 to 20 decimal digits.
    Number,
    /// A number, `'d` and a number, without space, as `8'd200`.
    Literal,
    /// A sign of one or two characters, as `(` and `<=`.
    Sign,
}

/// A token of a text.
#[derive(Debug, Drop, Clone, Copy)]
pub struct Token<'t> {
    pub kind: TokenKind,
    /// The slice of the text that the token is.
    pub text: &'t str,
    /// How many bytes of the text stand before the token, from 0 to 1048575.
    pub offset: u32,
}
