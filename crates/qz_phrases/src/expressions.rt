//! Reads expressions.

ghost use Rattle.std.specs.Prelude.{ℕ, ◌≡◌, ◌≤◌, IfOk, IfErr};
ghost use Rattle.qz_phrases.specs.declared.cursor.Fault.TheVariants as fault;
ghost use Rattle.qz_phrases.specs.Expressions.{an_expr, applied, after_index, indices};
ghost use Rattle.qz_phrases.specs.declared.words.HeadStart.TheVariants as the_head;
ghost use Rattle.qz_phrases.specs.Words.{first, head_start};
ghost use Rattle.qz_phrases.specs.Reading.{upcoming, Reads};
ghost use Rattle.qz_phrases.specs.Parts.{head_need, ReadsPart, ReadsOperand, ReadsTail};

use crate::cursor::{Cursor, Fault};
use crate::words::{
    HeadStart, IndexStart, Mark, TailStart, binary_mark, binary_right, bool_mark, unary_mark,
};
use qz_syntax::FileExpr;
use qz_values::{Op1, Op2};
use sqlite_items::Boxed;
use std::alloc::Global;

/// An expression with how strongly it binds and how many levels it has.
#[derive(Drop)]
pub struct Part {
    pub expr: FileExpr,
    pub strength: u32,
    pub height: u32,
}

/// What may follow an expression and make a larger one of it. Each `at` is an operator's offset.
#[derive(Debug, Drop)]
pub enum Tail {
    Binary {
        op: Op2,
        at: u32,
        right: FileExpr,
    },
    Concat {
        at: u32,
        right: FileExpr,
    },
    Choose {
        at: u32,
        yes: FileExpr,
        no: FileExpr,
    },
    Select {
        at: u32,
        high: u128,
        low: Option<u128>,
    },
}

/// What goes on an expression, with how many levels that has.
#[derive(Drop)]
pub struct TailPart {
    pub tail: Tail,
    pub height: u32,
}

impl HeadStart {
    /// How many levels an operand has at least that begins so.
    fn need(self) -> u32
        ensures { result ≡ head_need self }
    {
        match self {
            HeadStart::Paren | HeadStart::Unary(_) => 2,
            HeadStart::Bool(_) | HeadStart::Literal | HeadStart::Name => 1,
            HeadStart::None => 0,
        }
    }
}

/// An operand of at most this many levels.
#[cycle(expression)]
fn operand(alloc: Global, cursor: &mut Cursor<'_>, room: u32) -> Result<Part, Fault>
    ensures reads { ReadsOperand room cursor.old cursor.new result }
{
    let start = cursor.peek().head();
    if room < start.need() {
        return Err(Fault::Deep);
    }
    match start {
        HeadStart::Bool(value) => {
            let at = cursor.pass(bool_mark(value))?;
            Ok(Part {
                expr: FileExpr::Bool { value, at },
                strength: 10,
                height: 1,
            })
        }
        HeadStart::Literal => {
            let (width, value, at) = cursor.literal()?;
            Ok(Part {
                expr: FileExpr::Lit { width, value, at },
                strength: 10,
                height: 1,
            })
        }
        HeadStart::Name => {
            let name = cursor.name()?;
            Ok(Part {
                expr: FileExpr::Name(name),
                strength: 10,
                height: 1,
            })
        }
        HeadStart::Paren => parenthesised(alloc, cursor, room),
        HeadStart::Unary(op) => prefixed(alloc, cursor, op, room),
        HeadStart::None => Err(Fault::Parse),
    }
}

/// `( e )`, where the parenthesis is next.
#[cycle(expression)]
fn parenthesised(alloc: Global, cursor: &mut Cursor<'_>, room: u32) -> Result<Part, Fault>
    ensures reads { the_head.Paren ≡ head_start (first (upcoming cursor.old)) → ReadsOperand room cursor.old cursor.new result }
{
    if room < 2 {
        return Err(Fault::Deep);
    }
    let at = cursor.pass(Mark::OpenParen)?;
    let inner = climb(alloc, cursor, 1, room - 1)?;
    cursor.pass(Mark::CloseParen)?;
    let height = inner.height + 1;
    let boxed = Boxed::new(alloc, inner.expr)?;
    Ok(Part {
        expr: FileExpr::Paren { at, inner: boxed },
        strength: 10,
        height,
    })
}

/// An operator with one operand, which is next, and the operand.
#[cycle(expression)]
fn prefixed(alloc: Global, cursor: &mut Cursor<'_>, op: Op1, room: u32) -> Result<Part, Fault>
    ensures reads { the_head.Unary op ≡ head_start (first (upcoming cursor.old)) → ReadsOperand room cursor.old cursor.new result }
{
    if room < 2 {
        return Err(Fault::Deep);
    }
    let at = cursor.pass(unary_mark(op))?;
    let inner = climb(alloc, cursor, 9, room - 1)?;
    let height = inner.height + 1;
    let arg = Boxed::new(alloc, inner.expr)?;
    Ok(Part {
        expr: FileExpr::Un { op, at, arg },
        strength: 9,
        height,
    })
}

/// `i}` or `h:l}`, after the brace that opens a selection.
fn selection(cursor: &mut Cursor<'_>) -> Result<(u128, Option<u128>), Fault>
    ensures { (room : ℕ) → Reads (λ _. indices) room cursor.old cursor.new result }
{
    let (high, _) = cursor.number()?;
    let low = index_end(cursor)?;
    Ok((high, low))
}

/// `}` or `:l}`.
fn index_end(cursor: &mut Cursor<'_>) -> Result<Option<u128>, Fault>
    ensures { (room : ℕ) → Reads (λ _. after_index) room cursor.old cursor.new result }
{
    match cursor.peek().index() {
        IndexStart::Close => {
            cursor.pass(Mark::CloseBrace)?;
            Ok(None)
        }
        IndexStart::Colon => {
            cursor.pass(Mark::Colon)?;
            let (low, _) = cursor.number()?;
            cursor.pass(Mark::CloseBrace)?;
            Ok(Some(low))
        }
        IndexStart::None => Err(Fault::Parse),
    }
}

/// What goes on the expression before it.
#[cycle(expression)]
fn continuation(alloc: Global, cursor: &mut Cursor<'_>, room: u32) -> Result<TailPart, Fault>
    ensures reads { ReadsTail room cursor.old cursor.new result }
{
    match cursor.peek().tail() {
        TailStart::Binary(op) => {
            let at = cursor.pass(binary_mark(op))?;
            let right = climb(alloc, cursor, binary_right(op), room)?;
            Ok(TailPart {
                tail: Tail::Binary {
                    op,
                    at,
                    right: right.expr,
                },
                height: right.height,
            })
        }
        TailStart::Concat => {
            let at = cursor.pass(Mark::At)?;
            let right = climb(alloc, cursor, 9, room)?;
            Ok(TailPart {
                tail: Tail::Concat {
                    at,
                    right: right.expr,
                },
                height: right.height,
            })
        }
        TailStart::Choose => {
            let at = cursor.pass(Mark::Question)?;
            let yes = climb(alloc, cursor, 1, room)?;
            cursor.pass(Mark::Colon)?;
            let no = climb(alloc, cursor, 1, room)?;
            Ok(TailPart {
                tail: Tail::Choose {
                    at,
                    yes: yes.expr,
                    no: no.expr,
                },
                height: yes.height.max(no.height),
            })
        }
        TailStart::Select => {
            let at = cursor.pass(Mark::OpenBrace)?;
            let (high, low) = selection(cursor)?;
            Ok(TailPart {
                tail: Tail::Select { at, high, low },
                height: 0,
            })
        }
        TailStart::None => Err(Fault::Parse),
    }
}

/// The expression that a tail makes of the one before it.
fn applied(alloc: Global, left: FileExpr, tail: Tail) -> Result<FileExpr, Fault>
    ensures made { IfOk result (λ e. e ≡ applied left tail) }
    ensures memory { IfErr result (λ why. why ≡ fault.Memory) }
{
    let left = Boxed::new(alloc, left)?;
    match tail {
        Tail::Binary { op, at, right } => Ok(FileExpr::Bin {
            op,
            at,
            left,
            right: Boxed::new(alloc, right)?,
        }),
        Tail::Concat { at, right } => Ok(FileExpr::Concat {
            at,
            left,
            right: Boxed::new(alloc, right)?,
        }),
        Tail::Choose { at, yes, no } => Ok(FileExpr::Choose {
            at,
            cond: left,
            yes: Boxed::new(alloc, yes)?,
            no: Boxed::new(alloc, no)?,
        }),
        Tail::Select { at, high, low } => Ok(FileExpr::Select {
            at,
            arg: left,
            high,
            low,
        }),
    }
}

/// An expression that binds at least so strongly and has at most this many levels.
#[cycle(expression)]
fn climb(alloc: Global, cursor: &mut Cursor<'_>, least: u32, room: u32) -> Result<Part, Fault>
    ensures reads { 1 ≤ least → least ≤ 9 → ReadsPart least room cursor.old cursor.new result }
{
    let mut left = operand(alloc, cursor, room)?;
    loop {
        let start = cursor.peek().tail();
        if start.strength() < least {
            return Ok(left);
        }
        if left.strength < start.left() {
            return Err(Fault::Parse);
        }
        if left.height >= room {
            return Err(Fault::Deep);
        }
        let next = continuation(alloc, cursor, room - 1)?;
        left = Part {
            expr: applied(alloc, left.expr, next.tail)?,
            strength: start.strength(),
            height: left.height.max(next.height) + 1,
        };
    }
}

/// An expression of at most this many levels.
pub fn expression(alloc: Global, cursor: &mut Cursor<'_>, room: u32) -> Result<FileExpr, Fault>
    ensures { Reads (an_expr 1) room cursor.old cursor.new result }
{
    let part = climb(alloc, cursor, 1, room)?;
    Ok(part.expr)
}
