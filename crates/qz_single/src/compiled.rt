//! What is compiled of a module: its nets, and what it writes and where control goes by them.

use qz_control::Circuit;
use qz_moves::NetSpot;
use qz_surface::NetWrite;

/// The nets of a module, with its writes and the spots of its control on a start and on a resume.
#[derive(Drop)]
pub struct Compiled {
    pub circuit: Circuit,
    /// The writes of a start.
    pub starting: Vec<NetWrite>,
    /// The writes of a resume.
    pub resuming: Vec<NetWrite>,
    /// Where control rests after a start.
    pub entering: Vec<NetSpot>,
    /// Where control rests after a resume.
    pub moving: Vec<NetSpot>,
}
