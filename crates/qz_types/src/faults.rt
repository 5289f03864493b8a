//! What is said against a file, and the first of it.

ghost use Rattle.std.specs.Prelude.{◌≡◌, None};
ghost use Rattle.qz_types.specs.Faults.{rank, comes_before, earlier, fault_at, first_with, unless};

/// The kinds of faults, in their order.
#[derive(Clone, Copy, Debug, PartialEq, Eq, Hash)]
pub enum TypeKind {
    /// A variable that isn't in scope, or a call of a module without prototype.
    UnknownName,
    /// A name that is declared already.
    DoubleName,
    /// Operands, sides, a condition or an argument of a type that isn't right there.
    TypeDiffers,
    /// A width outside 1 to 64.
    WidthRange,
    /// A literal whose value doesn't fit its width.
    LiteralRange,
    /// An assignment or `emit` to an input.
    WriteToInput,
    /// An output argument that can't be written.
    NotWritable,
    /// Another number of arguments than the prototype has formals.
    ArgCount,
    /// An output argument of another class.
    ArgClass,
    /// An index that the operand doesn't have.
    SliceRange,
    /// More than 256 formals.
    TooMany,
}

impl TypeKind {
    /// The kind's place in their order.
    fn rank(self) -> u8
        ensures { result ≡ rank self }
    {
        match self {
            TypeKind::UnknownName => 0,
            TypeKind::DoubleName => 1,
            TypeKind::TypeDiffers => 2,
            TypeKind::WidthRange => 3,
            TypeKind::LiteralRange => 4,
            TypeKind::WriteToInput => 5,
            TypeKind::NotWritable => 6,
            TypeKind::ArgCount => 7,
            TypeKind::ArgClass => 8,
            TypeKind::SliceRange => 9,
            TypeKind::TooMany => 10,
        }
    }
}

/// A fault, at a byte of the text, counted from 0.
#[derive(Clone, Copy, Debug, PartialEq, Eq)]
pub struct Fault {
    pub offset: u32,
    pub kind: TypeKind,
}

impl Fault {
    /// Whether this one is told rather than another.
    fn comes_before(&self, other: &Fault) -> bool
        ensures { result ≡ comes_before self.now other.now }
    {
        self.offset < other.offset
            || (self.offset == other.offset && self.kind.rank() < other.kind.rank())
    }

    /// This one, or the first so far where this one doesn't come before it.
    fn or_earlier(self, first: Option<Fault>) -> Fault
        ensures { Some result ≡ earlier first self }
    {
        match first {
            Some(first) if !self.comes_before(&first) => first,
            _ => self,
        }
    }
}

/// The first of the faults that were noted.
#[derive(Clone, Copy, Debug)]
pub(crate) struct FirstFault {
    pub fault: Option<Fault>,
}

impl FirstFault {
    pub fn new() -> FirstFault
        ensures { result.fault ≡ None }
    {
        FirstFault { fault: None }
    }

    /// Notes a fault where a test fails.
    pub fn check(&mut self, test: bool, kind: TypeKind, offset: u32)
        ensures { self.new.fault ≡ first_with self.old.fault (unless test kind offset) }
    {
        if !test {
            self.note(kind, offset);
        }
    }

    /// Notes a fault.
    pub fn note(&mut self, kind: TypeKind, offset: u32)
        ensures { self.new.fault ≡ earlier self.old.fault (fault_at kind offset) }
    {
        let fault = Fault { offset, kind };
        self.fault = Some(fault.or_earlier(self.fault));
    }
}
