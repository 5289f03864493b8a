//! What a word begins, where some part of a statement is wanted.

ghost use Rattle.std.specs.Prelude.{◌≡◌};
ghost use Rattle.qz_reader.specs.Starts.{rest_start, args_start, named_start, preempt_start, weak_start, immediate_start, else_start, end_start, ends_list, stmt_start, stmt_need, preemption_mark, round_mark};
ghost use Rattle.qz_phrases.specs.Declarations.{declares};

use qz_phrases::{Mark, Sort};

/// What a word begins, where `pause`, `halt` or `await` is wanted.
#[derive(Clone, Copy, Debug)]
pub enum RestStart {
    Pause,
    Halt,
    Await,
    /// `immediate await`, if anything.
    Immediate,
    /// None of these.
    None,
}

/// What a word begins, after the parenthesis of a call.
#[derive(Clone, Copy, Debug)]
pub enum ArgsStart {
    /// `)`
    Close,
    /// An argument, if anything.
    Argument,
}

/// What a word begins, after a name that begins a statement.
#[derive(Clone, Copy, Debug)]
pub enum NamedStart {
    /// The value of an assignment.
    Equals,
    /// The arguments of a call.
    Paren,
    /// What the name is the label of.
    Colon,
    /// Nothing.
    None,
}

/// The two ways in which a condition stops a statement.
#[derive(Clone, Copy, Debug, PartialEq, Eq)]
pub enum Preemption {
    Abort,
    Suspend,
}

/// What a word begins, where `abort` or `suspend` is wanted.
#[derive(Clone, Copy, Debug)]
pub enum PreemptStart {
    Form(Preemption),
    /// Neither.
    None,
}

/// What a word begins, after `weak`.
#[derive(Clone, Copy, Debug)]
pub enum WeakStart {
    Immediate,
    /// `abort` or `suspend`, if anything.
    Plain,
}

/// What a word begins, after `immediate` at the front of a statement.
#[derive(Clone, Copy, Debug)]
pub enum ImmediateStart {
    Await,
    /// `abort` or `suspend`, if anything.
    Preempt,
}

/// What a word begins, after the first side of an `if`.
#[derive(Clone, Copy, Debug)]
pub enum ElseStart {
    Else,
    /// No second side.
    None,
}

/// What ends a list of statements.
#[derive(Clone, Copy, Debug)]
pub enum EndStart {
    /// `||`, after which another list comes.
    Bars,
    /// `}`
    Brace,
    /// Nothing that does.
    None,
}

/// The two statements that begin with a condition and then hold one statement.
#[derive(Clone, Copy, Debug, PartialEq, Eq)]
pub enum Round {
    While,
    Every,
}

/// What a word begins, where a statement is wanted.
#[derive(Clone, Copy, Debug)]
pub enum StmtStart {
    Nothing,
    Pause,
    Halt,
    Await,
    Immediate,
    Weak,
    Preempt(Preemption),
    /// An assignment, a call or a label.
    Name,
    Next,
    Emit,
    Block,
    If,
    Do,
    Round(Round),
    Loop,
    /// No statement.
    None,
}

impl RestStart {
    pub(crate) fn of(word: Sort) -> RestStart
        ensures { result ≡ rest_start word }
    {
        match word {
            Sort::Mark(mark) => match mark {
                Mark::Pause => RestStart::Pause,
                Mark::Halt => RestStart::Halt,
                Mark::Await => RestStart::Await,
                Mark::Immediate => RestStart::Immediate,
                _ => RestStart::None,
            },
            Sort::Name | Sort::Number | Sort::Literal | Sort::End => RestStart::None,
        }
    }
}

impl ArgsStart {
    pub(crate) fn of(word: Sort) -> ArgsStart
        ensures { result ≡ args_start word }
    {
        match word {
            Sort::Mark(mark) => match mark {
                Mark::CloseParen => ArgsStart::Close,
                _ => ArgsStart::Argument,
            },
            Sort::Name | Sort::Number | Sort::Literal | Sort::End => ArgsStart::Argument,
        }
    }
}

impl NamedStart {
    pub(crate) fn of(word: Sort) -> NamedStart
        ensures { result ≡ named_start word }
    {
        match word {
            Sort::Mark(mark) => match mark {
                Mark::Equals => NamedStart::Equals,
                Mark::OpenParen => NamedStart::Paren,
                Mark::Colon => NamedStart::Colon,
                _ => NamedStart::None,
            },
            Sort::Name | Sort::Number | Sort::Literal | Sort::End => NamedStart::None,
        }
    }
}

impl PreemptStart {
    pub(crate) fn of(word: Sort) -> PreemptStart
        ensures { result ≡ preempt_start word }
    {
        match word {
            Sort::Mark(mark) => match mark {
                Mark::Abort => PreemptStart::Form(Preemption::Abort),
                Mark::Suspend => PreemptStart::Form(Preemption::Suspend),
                _ => PreemptStart::None,
            },
            Sort::Name | Sort::Number | Sort::Literal | Sort::End => PreemptStart::None,
        }
    }
}

impl WeakStart {
    pub(crate) fn of(word: Sort) -> WeakStart
        ensures { result ≡ weak_start word }
    {
        match word {
            Sort::Mark(mark) => match mark {
                Mark::Immediate => WeakStart::Immediate,
                _ => WeakStart::Plain,
            },
            Sort::Name | Sort::Number | Sort::Literal | Sort::End => WeakStart::Plain,
        }
    }
}

impl ImmediateStart {
    pub(crate) fn of(word: Sort) -> ImmediateStart
        ensures { result ≡ immediate_start word }
    {
        match word {
            Sort::Mark(mark) => match mark {
                Mark::Await => ImmediateStart::Await,
                _ => ImmediateStart::Preempt,
            },
            Sort::Name | Sort::Number | Sort::Literal | Sort::End => ImmediateStart::Preempt,
        }
    }
}

impl ElseStart {
    pub(crate) fn of(word: Sort) -> ElseStart
        ensures { result ≡ else_start word }
    {
        match word {
            Sort::Mark(mark) => match mark {
                Mark::Else => ElseStart::Else,
                _ => ElseStart::None,
            },
            Sort::Name | Sort::Number | Sort::Literal | Sort::End => ElseStart::None,
        }
    }
}

impl EndStart {
    pub(crate) fn of(word: Sort) -> EndStart
        ensures { result ≡ end_start word }
    {
        match word {
            Sort::Mark(mark) => match mark {
                Mark::BarBar => EndStart::Bars,
                Mark::CloseBrace => EndStart::Brace,
                _ => EndStart::None,
            },
            Sort::Name | Sort::Number | Sort::Literal | Sort::End => EndStart::None,
        }
    }
}

/// Whether a word ends a list of statements.
pub(crate) fn ends_list(word: Sort) -> bool
    ensures { result ≡ ends_list word }
{
    match word {
        Sort::Mark(mark) => matches!(mark, Mark::BarBar | Mark::CloseBrace),
        Sort::Name | Sort::Number | Sort::Literal | Sort::End => false,
    }
}

/// Whether a word begins a declaration.
pub(crate) fn declares(word: Sort) -> bool
    ensures { result ≡ declares word }
{
    match word {
        Sort::Mark(mark) => matches!(mark, Mark::Event | Mark::Mem | Mark::Bool | Mark::Bv),
        Sort::Name | Sort::Number | Sort::Literal | Sort::End => false,
    }
}

impl Preemption {
    /// The word that it is written with.
    pub(crate) fn mark(self) -> Mark
        ensures { result ≡ preemption_mark self }
    {
        match self {
            Preemption::Abort => Mark::Abort,
            Preemption::Suspend => Mark::Suspend,
        }
    }
}

impl Round {
    /// The word that it is written with.
    pub(crate) fn mark(self) -> Mark
        ensures { result ≡ round_mark self }
    {
        match self {
            Round::While => Mark::While,
            Round::Every => Mark::Every,
        }
    }
}

impl StmtStart {
    pub(crate) fn of(word: Sort) -> StmtStart
        ensures { result ≡ stmt_start word }
    {
        match word {
            Sort::Mark(mark) => match mark {
                Mark::Nothing => StmtStart::Nothing,
                Mark::Pause => StmtStart::Pause,
                Mark::Halt => StmtStart::Halt,
                Mark::Await => StmtStart::Await,
                Mark::Immediate => StmtStart::Immediate,
                Mark::Weak => StmtStart::Weak,
                Mark::Abort => StmtStart::Preempt(Preemption::Abort),
                Mark::Suspend => StmtStart::Preempt(Preemption::Suspend),
                Mark::Next => StmtStart::Next,
                Mark::Emit => StmtStart::Emit,
                Mark::OpenBrace => StmtStart::Block,
                Mark::If => StmtStart::If,
                Mark::Do => StmtStart::Do,
                Mark::While => StmtStart::Round(Round::While),
                Mark::Every => StmtStart::Round(Round::Every),
                Mark::Loop => StmtStart::Loop,
                _ => StmtStart::None,
            },
            Sort::Name => StmtStart::Name,
            Sort::Number | Sort::Literal | Sort::End => StmtStart::None,
        }
    }

    /// How many levels a statement has at least that begins so.
    pub(crate) fn need(self) -> u32
        ensures { result ≡ stmt_need self }
    {
        match self {
            StmtStart::Nothing
            | StmtStart::Pause
            | StmtStart::Halt
            | StmtStart::Name
            | StmtStart::Emit
            | StmtStart::Block => 1,
            StmtStart::None => 0,
            StmtStart::Await
            | StmtStart::Immediate
            | StmtStart::Weak
            | StmtStart::Preempt(_)
            | StmtStart::Next
            | StmtStart::If
            | StmtStart::Do
            | StmtStart::Round(_)
            | StmtStart::Loop => 2,
        }
    }
}
