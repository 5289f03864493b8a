//! The rails of an instance.

use qz_dd::DdId;
use qz_rails::Rail;

/// What is known of an instance at each valuation.
#[derive(Debug, Drop)]
pub struct InstanceRails {
    /// Its value.
    pub now: Rail,
    /// Its delayed value; where that is absent, the default.
    pub later: Rail,
    /// Where its delayed value is absent.
    pub absent: DdId,
}
