//! Reads a source of the first language: bytes to tokens, tokens to the tree.

ghost use Rattle.std.specs.Prelude.{ℕ, List, ◌≡◌, ◌≢◌, ◌≤◌, ◌<◌, ◌+◌, nat_lt, [], ◌∷◌, ◌++◌, length, drop, IsTrue, MatchOption, IfSome, IfNone, OnSome, OnOk, IfOk, IfErr};
ghost use Rattle.std.specs.Bool.{OnTrue, OnFalse};
ghost use Rattle.std.specs.List.{list_all};
ghost use Rattle.std.specs.Str.{chars};
ghost use Rattle.qz_lexer.specs.Words.{is_reserved as lexer_reserves};
ghost use Rattle.qz_syntax.specs.Spelling.{is_name, is_reserved};
ghost use Rattle.qz_first.specs.Reading.{texts, upcoming, OnNotBuilt, NoText, NoName, NoStart, word_of, NoStatement, NoBlock, NoFormal, NoFormals, NoModule, IsNoSource};
ghost use Rattle.qz_first.specs.declared.source.SourceModule.{SourceModule};
ghost use Rattle.qz_first.specs.Grammar.{spelling, block_spelling, Fits, AllFit, IsOutput, AreOutputs, formal_spelling, formals_spelling, FitsModule, module_spelling, IsSource};

use crate::limits::{MAX_LEVEL, MAX_SOURCE};
use crate::source::{SourceModule, SourceStmt};
use qz_lexer::{LexFault, Token, lex};
use qz_syntax::{Class, Dir, Formal, Name};
use qz_values::Ty;
use sqlite_items::{Boxed, Items};
use std::alloc::{AllocError, AllocFailed, Global};

/// Why no source is read.
#[derive(Clone, Copy, Debug, PartialEq, Eq)]
pub enum NoSource {
    /// The bytes are no text of the first language.
    NotBuilt,
    Memory,
}

impl From<AllocError> for NoSource {
    ghost use Rattle.qz_first.specs.declared.reader.NoSource.TheVariants.{Memory};

    ghost from_gives = { λ _ fault. fault ≡ Memory };

    fn from(_: AllocError) -> NoSource {
        NoSource::Memory
    }
}

impl<T: Drop> From<AllocFailed<T>> for NoSource {
    ghost use Rattle.qz_first.specs.declared.reader.NoSource.TheVariants.{Memory};

    ghost from_gives = { λ _ fault. fault ≡ Memory };

    fn from(_: AllocFailed<T>) -> NoSource {
        NoSource::Memory
    }
}

impl From<LexFault> for NoSource {
    ghost use Rattle.qz_first.specs.Reading.{no_source_of};

    ghost from_gives = { λ fault given. given ≡ no_source_of fault };

    fn from(fault: LexFault) -> NoSource {
        match fault {
            LexFault::At { .. } => NoSource::NotBuilt,
            LexFault::Memory => NoSource::Memory,
        }
    }
}

/// The tokens of a text, and how many of them are read.
#[derive(Drop)]
struct Cursor<'a, 't> {
    tokens: &'a [Token<'t>],
    read: usize,
}

impl<'t> Cursor<'_, 't> {
    /// The next token, if there is one.
    #[tactic(auto, using(crate::proofs::ReadingLemmas::drop_past))]
    fn peek(&self) -> Option<&'t str>
        ensures none { IfNone result (upcoming self.now ≡ []) }
        ensures some { IfSome result (λ text. upcoming self.now
            ≡ chars text.now ∷ texts (drop (self.now.read + 1) self.now.tokens.now)) }
        ensures within { OnSome result (self.now.read < length self.now.tokens.now) }
    {
        if self.read >= self.tokens.len() {
            return None;
        }
        Some(self.tokens[self.read].text)
    }

    /// Reads the next token, if there is one.
    fn next(&mut self) -> Option<&'t str>
        ensures { MatchOption result (upcoming self.old ≡ []) (λ text. upcoming self.old
            ≡ chars text.now ∷ upcoming self.new) }
    {
        let text = self.peek()?;
        self.read += 1;
        Some(text)
    }

    /// Reads the next token if it has this text.
    fn accept(&mut self, text: &str) -> bool
        requires { IsTrue (list_all (λ c. nat_lt c 128) text.now) }
        ensures read { OnTrue result (upcoming self.old ≡ text.now ∷ upcoming self.new) }
        ensures none { OnFalse result (NoText text.now (upcoming self.old)) }
        ensures same { OnFalse result (upcoming self.new ≡ upcoming self.old) }
    {
        let Some(next) = self.peek() else {
            return false;
        };
        if next != text {
            return false;
        }
        self.read += 1;
        true
    }

    /// Reads the next token, which has this text.
    fn pass(&mut self, text: &str) -> Result<(), NoSource>
        requires { IsTrue (list_all (λ c. nat_lt c 128) text.now) }
        ensures read { OnOk result (upcoming self.old ≡ text.now ∷ upcoming self.new) }
        ensures none { IfErr result (λ fault. OnNotBuilt fault (NoText text.now (upcoming self.old))) }
    {
        if self.accept(text) {
            Ok(())
        } else {
            Err(NoSource::NotBuilt)
        }
    }

    /// Reads the next token, which is a name.
    fn name(&mut self, alloc: Global) -> Result<Name, NoSource>
        ensures read { IfOk result (λ name. (upcoming self.old ≡ name ∷ upcoming self.new)
            × IsTrue (is_name name)) }
        ensures none { IfErr result (λ fault. OnNotBuilt fault (NoName (upcoming self.old))) }
    {
        let Some(text) = self.next() else {
            return Err(NoSource::NotBuilt);
        };
        match Name::new(alloc, text)? {
            Some(name) => Ok(name),
            None => Err(NoSource::NotBuilt),
        }
    }
}

/// Reads a source of at most 1 MiB.
pub fn read_source(alloc: Global, bytes: &[u8]) -> Result<SourceModule, NoSource>
    requires { length bytes.now ≤ 1048576 }
    ensures read { IfOk result (IsSource bytes.now) }
    ensures none { IfErr result (λ fault. OnNotBuilt fault (IsNoSource bytes.now)) }
{
    let Ok(text) = str::from_utf8(bytes) else {
        return Err(NoSource::NotBuilt);
    };
    // Comments are the only pieces with a slash.
    if !text.is_ascii() || bytes.contains(&b'/') {
        return Err(NoSource::NotBuilt);
    }
    let tokens = lex(alloc, text)?;
    whole_module(alloc, tokens.as_slice())
}

/// A text of the first language describes one module.
pub fn one_source()
    ensures { (bytes : List ℕ) (m n : SourceModule) → IsSource bytes m → IsSource bytes n → m ≡ n }
{}

/// The words that the lexer sets apart are those that are no names.
pub fn reserved_words_agree()
    ensures { (characters : List ℕ) → lexer_reserves characters ≡ is_reserved characters }
{}

/// The module that all the tokens spell.
fn whole_module(alloc: Global, tokens: &[Token<'_>]) -> Result<SourceModule, NoSource>
    ensures read { IfOk result (λ m. texts tokens.now ≡ module_spelling m) }
    ensures fits { IfOk result FitsModule }
    ensures none { IfErr result (λ fault. OnNotBuilt fault ((m : SourceModule) → FitsModule m →
        texts tokens.now ≢ module_spelling m)) }
{
    let mut cursor = Cursor { tokens, read: 0 };
    let module = source_module(alloc, &mut cursor)?;
    match cursor.next() {
        Some(_) => Err(NoSource::NotBuilt),
        None => Ok(module),
    }
}

fn source_module(alloc: Global, cursor: &mut Cursor<'_, '_>) -> Result<SourceModule, NoSource>
    ensures read { IfOk result (λ m. upcoming cursor.old ≡ module_spelling m ++ upcoming cursor.new) }
    ensures fits { IfOk result FitsModule }
    ensures none { IfErr result (λ fault. OnNotBuilt fault (NoModule (upcoming cursor.old))) }
{
    cursor.pass("module")?;
    let name = cursor.name(alloc)?;
    cursor.pass("(")?;
    let formals = formals(alloc, cursor)?;
    cursor.pass("{")?;
    let body = statements(alloc, cursor, 2)?;
    Ok(SourceModule {
        name,
        formals,
        body,
    })
}

/// The formals, and the `)` after them.
fn formals(alloc: Global, cursor: &mut Cursor<'_, '_>) -> Result<Items<Formal>, NoSource>
    ensures read { IfOk result (λ formals. upcoming cursor.old ≡ formals_spelling formals
        ++ upcoming cursor.new) }
    ensures outputs { IfOk result AreOutputs }
    ensures none { IfErr result (λ fault. OnNotBuilt fault (NoFormals (upcoming cursor.old))) }
{
    let mut formals = Items::new(alloc);
    if cursor.accept(")") {
        return Ok(formals);
    }
    formals.push(formal(alloc, cursor)?)?;
    while cursor.accept(",") {
        formals.push(formal(alloc, cursor)?)?;
    }
    cursor.pass(")")?;
    Ok(formals)
}

/// One formal, which is an output event.
fn formal(alloc: Global, cursor: &mut Cursor<'_, '_>) -> Result<Formal, NoSource>
    ensures read { IfOk result (λ formal. upcoming cursor.old ≡ formal_spelling formal ++ upcoming cursor.new) }
    ensures output { IfOk result IsOutput }
    ensures none { IfErr result (λ fault. OnNotBuilt fault (NoFormal (upcoming cursor.old))) }
{
    cursor.pass("event")?;
    cursor.pass("!")?;
    let name = cursor.name(alloc)?;
    Ok(Formal {
        class: Class::Event,
        dir: Dir::Out,
        ty: Ty::Bool,
        name,
    })
}

/// The words with which statements begin.
enum Start {
    Nothing,
    Pause,
    Emit,
    Loop,
    Block,
}

/// Reads the word with which a statement begins.
fn first_word(cursor: &mut Cursor<'_, '_>) -> Option<Start>
    ensures { MatchOption result (NoStart (upcoming cursor.old)) (λ start. upcoming cursor.old
        ≡ word_of start ∷ upcoming cursor.new) }
{
    if cursor.accept("nothing") {
        Some(Start::Nothing)
    } else if cursor.accept("pause") {
        Some(Start::Pause)
    } else if cursor.accept("emit") {
        Some(Start::Emit)
    } else if cursor.accept("loop") {
        Some(Start::Loop)
    } else if cursor.accept("{") {
        Some(Start::Block)
    } else {
        None
    }
}

/// The statements of a block at this level, and the `}` after them.
#[cycle(statement)]
fn statements(
    alloc: Global,
    cursor: &mut Cursor<'_, '_>,
    level: u32,
) -> Result<Items<SourceStmt>, NoSource>
    requires { level ≤ 129 }
    ensures read { IfOk result (λ parts. upcoming cursor.old ≡ block_spelling parts ++ upcoming cursor.new) }
    ensures fits { IfOk result (AllFit level) }
    ensures none { IfErr result (λ fault. OnNotBuilt fault (NoBlock level (upcoming cursor.old))) }
{
    let mut parts = Items::new(alloc);
    while !cursor.accept("}") {
        parts.push(statement(alloc, cursor, level)?)?;
    }
    Ok(parts)
}

/// A statement of this level.
#[cycle(statement)]
fn statement(alloc: Global, cursor: &mut Cursor<'_, '_>, level: u32) -> Result<SourceStmt, NoSource>
    ensures read { IfOk result (λ s. upcoming cursor.old ≡ spelling s ++ upcoming cursor.new) }
    ensures fits { IfOk result (Fits level) }
    ensures none { IfErr result (λ fault. OnNotBuilt fault (NoStatement level (upcoming cursor.old))) }
{
    if level > MAX_LEVEL {
        return Err(NoSource::NotBuilt);
    }
    let Some(start) = first_word(cursor) else {
        return Err(NoSource::NotBuilt);
    };
    match start {
        Start::Nothing => {
            cursor.pass(";")?;
            Ok(SourceStmt::Nothing)
        }
        Start::Pause => {
            cursor.pass(";")?;
            Ok(SourceStmt::Pause)
        }
        Start::Emit => {
            let name = cursor.name(alloc)?;
            cursor.pass(";")?;
            Ok(SourceStmt::Emit(name))
        }
        Start::Loop => {
            let body = statement(alloc, cursor, level + 1)?;
            Ok(SourceStmt::Loop(Boxed::new(alloc, body)?))
        }
        Start::Block => Ok(SourceStmt::Block(statements(alloc, cursor, level + 1)?)),
    }
}
