//! What the leaves of a module's nets stand for.

use qz_syntax::Mark;

/// What a leaf stands for.
#[derive(Clone, Copy, Debug, PartialEq, Eq, Hash)]
pub enum LeafKind {
    /// The value of a formal.
    Formal(u32),
    /// The value of a local's instance, by its mark.
    Local(u32, Mark),
    /// Whether control rests at a place.
    At(u32),
    /// The guard with which the module is started.
    Start,
    /// Whether the control of the module's start isn't kept.
    Drop,
    /// The guard with which the module is resumed.
    Act,
    /// Whether control stays where it is.
    Stay,
    /// Whether control leaves the module.
    Leave,
    /// Whether a call's body may end at once.
    CallMayEnd(u32),
    /// Whether control is inside a call.
    CallInside(u32),
    /// Whether a call that is resumed ends.
    CallEnds(u32),
    /// Whether a call that is started with this mark ends at once.
    CallEndsAtOnce(u32, Mark),
}
