//! Laws of valid modules. Each call does nothing: its clauses hold of all modules.

ghost use Rattle.std.specs.Prelude.{List};
ghost use Rattle.qz_values.specs.declared.Value.{Value};
ghost use Rattle.qz_verilog.specs.declared.modules.VModule.{VModule};
ghost use Rattle.qz_verilog.specs.Validity.{register_types, IsValid};
ghost use Rattle.qz_verilog.specs.Runs.{AreOf, IsRow};
ghost use Rattle.qz_verilog.specs.Laws.{SettlesOnce, RunsOnce, KeepsTypes};

/// Whatever the registers hold and the inputs are, a valid module's wires settle in exactly one way.
pub fn a_valid_module_settles_once()
    ensures { (m : VModule) → IsValid m → (registers row : List Value) → SettlesOnce m registers row }
{}

/// For each list of rows of inputs a valid module has exactly one run.
pub fn a_valid_module_runs_once()
    ensures { (m : VModule) → IsValid m → (rows : List (List Value)) → RunsOnce m rows }
{}

/// Wires, outputs and registers of a valid module keep their types, and begin with them.
pub fn a_valid_module_keeps_types()
    ensures keeps { (m : VModule) → IsValid m → (registers row : List Value) →
        AreOf (register_types m.regs) registers → IsRow m row → KeepsTypes m registers row }
    ensures begins { (m : VModule) → IsValid m → AreOf (register_types m.regs) m.regs }
{}
