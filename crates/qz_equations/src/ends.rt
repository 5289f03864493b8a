//! Rails and tallies after the last round.

use crate::tallies::Tally;
use qz_wires::Rail;

/// What the nets say after the last round: of the instances, of the nets of the system by what is
/// known of the instances, and of each instance's delayed writers.
#[derive(Drop)]
pub struct LastRails {
    pub instances: Vec<Rail>,
    pub nets: Vec<Rail>,
    pub delayed: Vec<Tally>,
}
