//! Laws of tables of nets. Each call does nothing: its clause holds of the table that it is given.

ghost use Rattle.std.specs.Prelude.{◌≡◌, ℕ, Some};
ghost use Rattle.qz_nets.specs.declared.net.Net.{Net};
ghost use Rattle.qz_nets.specs.Readings.{net_in, AgreeOnAll};

use crate::table::NetTable;

/// Equal nets have one number.
pub fn equal_nets_have_one_number(table: &NetTable)
    ensures { (m n : ℕ) (net : Net) → net_in table.now m ≡ Some net → net_in table.now n ≡ Some net → m ≡ n }
{}

/// What is known of the leaves decides what is known of every net.
pub fn readings_agree(table: &NetTable)
    ensures { AgreeOnAll table.now }
{}
