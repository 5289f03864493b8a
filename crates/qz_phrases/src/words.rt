//! The words of a text, as the grammar sees them.

ghost use Rattle.std.specs.Prelude.{◌≡◌};
ghost use Rattle.qz_phrases.specs.Words.{sort_of, head_start, tail_start, index_start, emit_start, target_start, type_start, typing_start, bool_mark, unary_mark, binary_mark, tail_strength, tail_left, binary_right, head_strength};

use qz_syntax::{Class, Name};
use qz_values::{Op1, Op2};

/// The signs and the reserved words.
#[derive(Clone, Copy, Debug, PartialEq, Eq)]
pub enum Mark {
    Module,
    Event,
    Mem,
    Bool,
    Bv,
    True,
    False,
    Nothing,
    Pause,
    Halt,
    Await,
    Immediate,
    Next,
    Emit,
    If,
    Else,
    Do,
    While,
    Loop,
    Every,
    Weak,
    Abort,
    Suspend,
    When,
    /// A word that is reserved and has no use.
    Reserved,
    /// `(`
    OpenParen,
    /// `)`
    CloseParen,
    /// `{`
    OpenBrace,
    /// `}`
    CloseBrace,
    /// `[`
    OpenBracket,
    /// `]`
    CloseBracket,
    /// `,`
    Comma,
    /// `;`
    Semicolon,
    /// `:`
    Colon,
    /// `?`
    Question,
    /// `!`
    Exclamation,
    /// `~`
    Tilde,
    /// `@`
    At,
    /// `+`
    Plus,
    /// `-`
    Minus,
    /// `&`
    Ampersand,
    /// `|`
    Bar,
    /// `^`
    Caret,
    /// `=`
    Equals,
    /// `==`
    EqualEqual,
    /// `!=`
    NotEqual,
    /// `<`
    Less,
    /// `<=`
    LessEqual,
    /// `>`
    Greater,
    /// `>=`
    GreaterEqual,
    /// `->`
    Arrow,
    /// `||`
    BarBar,
}

/// A word with what it says.
#[derive(Debug, Drop)]
pub enum Word {
    Name(Name),
    /// A number of at most 20 digits.
    Number(u128),
    /// `8'd200`: its width and its value.
    Literal(u128, u128),
    Mark(Mark),
}

/// What the grammar asks of a word.
#[derive(Clone, Copy, Debug)]
pub enum Sort {
    Name,
    Number,
    Literal,
    Mark(Mark),
    /// After the last word.
    End,
}

/// A word, and how many bytes of the text stand before it.
#[derive(Debug, Drop)]
pub struct Spot {
    pub word: Word,
    pub at: u32,
}

impl Word {
    /// What the grammar asks of the word.
    pub fn sort(&self) -> Sort
        ensures { result ≡ sort_of self.now }
    {
        match self {
            Word::Name(_) => Sort::Name,
            Word::Number(_) => Sort::Number,
            Word::Literal(_, _) => Sort::Literal,
            Word::Mark(mark) => Sort::Mark(*mark),
        }
    }
}

/// What a word begins, where an operand is wanted.
#[derive(Clone, Copy, Debug)]
pub enum HeadStart {
    Bool(bool),
    Literal,
    Name,
    Paren,
    Unary(Op1),
    /// No operand.
    None,
}

/// What a word begins, after an expression that it goes on.
#[derive(Clone, Copy, Debug)]
pub enum TailStart {
    Binary(Op2),
    Concat,
    Choose,
    Select,
    /// It goes on none.
    None,
}

/// What a word begins, after the first index of a selection.
#[derive(Clone, Copy, Debug)]
pub enum IndexStart {
    /// `}`
    Close,
    /// `:` and another index.
    Colon,
    /// Nothing.
    None,
}

/// What a word begins, where a target is wanted.
#[derive(Clone, Copy, Debug)]
pub enum TargetStart {
    Name,
    Next,
    /// No target.
    None,
}

/// What a word begins, after `emit`.
#[derive(Clone, Copy, Debug)]
pub enum EmitStart {
    /// `(` and a target.
    Paren,
    /// A target, if anything.
    Target,
}

/// What a word begins, where a type is wanted.
#[derive(Clone, Copy, Debug)]
pub enum TypeStart {
    Bool,
    Bv,
    /// No type.
    None,
}

/// What a word begins, where a class or a type is wanted.
#[derive(Clone, Copy, Debug)]
pub enum TypingStart {
    Class(Class),
    Type,
    /// Neither.
    None,
}

impl Sort {
    /// What the word begins, where a target is wanted.
    pub fn target(self) -> TargetStart
        ensures { result ≡ target_start self }
    {
        match self {
            Sort::Mark(mark) => match mark {
                Mark::Next => TargetStart::Next,
                _ => TargetStart::None,
            },
            Sort::Name => TargetStart::Name,
            Sort::Number | Sort::Literal | Sort::End => TargetStart::None,
        }
    }

    /// What the word begins, after `emit`.
    pub fn emit(self) -> EmitStart
        ensures { result ≡ emit_start self }
    {
        match self {
            Sort::Mark(mark) => match mark {
                Mark::OpenParen => EmitStart::Paren,
                _ => EmitStart::Target,
            },
            Sort::Name | Sort::Number | Sort::Literal | Sort::End => EmitStart::Target,
        }
    }

    /// What the word begins, where a type is wanted.
    pub fn ty(self) -> TypeStart
        ensures { result ≡ type_start self }
    {
        match self {
            Sort::Mark(mark) => match mark {
                Mark::Bool => TypeStart::Bool,
                Mark::Bv => TypeStart::Bv,
                _ => TypeStart::None,
            },
            Sort::Name | Sort::Number | Sort::Literal | Sort::End => TypeStart::None,
        }
    }

    /// What the word begins, where a class or a type is wanted.
    pub fn typing(self) -> TypingStart
        ensures { result ≡ typing_start self }
    {
        match self {
            Sort::Mark(mark) => match mark {
                Mark::Event => TypingStart::Class(Class::Event),
                Mark::Mem => TypingStart::Class(Class::Mem),
                Mark::Bool | Mark::Bv => TypingStart::Type,
                _ => TypingStart::None,
            },
            Sort::Name | Sort::Number | Sort::Literal | Sort::End => TypingStart::None,
        }
    }

    /// What the word begins, after the first index of a selection.
    pub fn index(self) -> IndexStart
        ensures { result ≡ index_start self }
    {
        match self {
            Sort::Mark(mark) => match mark {
                Mark::CloseBrace => IndexStart::Close,
                Mark::Colon => IndexStart::Colon,
                _ => IndexStart::None,
            },
            Sort::Name | Sort::Number | Sort::Literal | Sort::End => IndexStart::None,
        }
    }

    /// What the word begins, where an operand is wanted.
    pub fn head(self) -> HeadStart
        ensures { result ≡ head_start self }
    {
        match self {
            Sort::Mark(mark) => match mark {
                Mark::True => HeadStart::Bool(true),
                Mark::False => HeadStart::Bool(false),
                Mark::OpenParen => HeadStart::Paren,
                Mark::Exclamation => HeadStart::Unary(Op1::Not),
                Mark::Tilde => HeadStart::Unary(Op1::Invert),
                _ => HeadStart::None,
            },
            Sort::Literal => HeadStart::Literal,
            Sort::Name => HeadStart::Name,
            Sort::Number | Sort::End => HeadStart::None,
        }
    }

    /// What the word begins, after an expression that it goes on.
    pub fn tail(self) -> TailStart
        ensures { result ≡ tail_start self }
    {
        match self {
            Sort::Mark(mark) => match mark {
                Mark::Arrow => TailStart::Binary(Op2::Imp),
                Mark::Bar => TailStart::Binary(Op2::Or),
                Mark::Caret => TailStart::Binary(Op2::Xor),
                Mark::Ampersand => TailStart::Binary(Op2::And),
                Mark::EqualEqual => TailStart::Binary(Op2::Eq),
                Mark::NotEqual => TailStart::Binary(Op2::Ne),
                Mark::Less => TailStart::Binary(Op2::Lt),
                Mark::LessEqual => TailStart::Binary(Op2::Le),
                Mark::Greater => TailStart::Binary(Op2::Gt),
                Mark::GreaterEqual => TailStart::Binary(Op2::Ge),
                Mark::Plus => TailStart::Binary(Op2::Add),
                Mark::Minus => TailStart::Binary(Op2::Sub),
                Mark::At => TailStart::Concat,
                Mark::Question => TailStart::Choose,
                Mark::OpenBrace => TailStart::Select,
                _ => TailStart::None,
            },
            Sort::Name | Sort::Number | Sort::Literal | Sort::End => TailStart::None,
        }
    }
}

/// The mark that a truth value is written with.
pub fn bool_mark(value: bool) -> Mark
    ensures { result ≡ bool_mark value }
{
    if value { Mark::True } else { Mark::False }
}

/// The mark of an operator with one operand.
pub fn unary_mark(op: Op1) -> Mark
    ensures { result ≡ unary_mark op }
{
    match op {
        Op1::Not => Mark::Exclamation,
        Op1::Invert => Mark::Tilde,
    }
}

/// The mark of an operator with two operands.
pub fn binary_mark(op: Op2) -> Mark
    ensures { result ≡ binary_mark op }
{
    match op {
        Op2::Imp => Mark::Arrow,
        Op2::Or => Mark::Bar,
        Op2::Xor => Mark::Caret,
        Op2::And => Mark::Ampersand,
        Op2::Eq => Mark::EqualEqual,
        Op2::Ne => Mark::NotEqual,
        Op2::Lt => Mark::Less,
        Op2::Le => Mark::LessEqual,
        Op2::Gt => Mark::Greater,
        Op2::Ge => Mark::GreaterEqual,
        Op2::Add => Mark::Plus,
        Op2::Sub => Mark::Minus,
    }
}

/// The least strength of an operator's right operand.
pub fn binary_right(op: Op2) -> u32
    ensures { result ≡ binary_right op }
{
    match op {
        Op2::Imp => 2,
        Op2::Or => 4,
        Op2::Xor => 5,
        Op2::And => 6,
        Op2::Add | Op2::Sub => 8,
        Op2::Eq | Op2::Ne | Op2::Lt | Op2::Le | Op2::Gt | Op2::Ge => 7,
    }
}

impl HeadStart {
    /// How strongly the operand binds.
    pub fn strength(self) -> u32
        ensures { result ≡ head_strength self }
    {
        match self {
            HeadStart::Unary(_) => 9,
            _ => 10,
        }
    }
}

impl TailStart {
    /// How strongly what it makes of the expression before it binds, or 0 where it goes on none.
    pub fn strength(self) -> u32
        ensures { result ≡ tail_strength self }
    {
        match self {
            TailStart::Binary(op) => match op {
                Op2::Imp => 2,
                Op2::Or => 3,
                Op2::Xor => 4,
                Op2::And => 5,
                Op2::Add | Op2::Sub => 7,
                Op2::Eq | Op2::Ne | Op2::Lt | Op2::Le | Op2::Gt | Op2::Ge => 6,
            },
            TailStart::Concat => 8,
            TailStart::Choose => 1,
            TailStart::Select => 10,
            TailStart::None => 0,
        }
    }

    /// The least strength of the expression before it.
    pub fn left(self) -> u32
        ensures { result ≡ tail_left self }
    {
        match self {
            TailStart::Binary(op) => match op {
                Op2::Imp | Op2::Or => 3,
                Op2::Xor => 4,
                Op2::And => 5,
                Op2::Add | Op2::Sub => 7,
                Op2::Eq | Op2::Ne | Op2::Lt | Op2::Le | Op2::Gt | Op2::Ge => 7,
            },
            TailStart::Concat => 8,
            TailStart::Choose => 2,
            TailStart::Select => 10,
            TailStart::None => 11,
        }
    }
}
