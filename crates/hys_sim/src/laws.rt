//! What holds of runs and tables, as calls that do nothing.

ghost use Rattle.std.specs.Prelude.{◌≡◌, [], ◌∷◌, codes, None, Some};
ghost use Rattle.hys_number.specs.Ops.{whole};
ghost use Rattle.hys_prog.specs.declared.program.Program.{Program};
ghost use Rattle.hys_prog.specs.declared.program.Order.{Order};
ghost use Rattle.hys_prog.specs.Guarded.{guarded};
ghost use Rattle.hys_prog.specs.Programs.{IsProgram};
ghost use Rattle.hys_prog.specs.Orders.{IsOrder};
ghost use Rattle.hys_prog.specs.Steps.{is_input, is_state};
ghost use Rattle.hys_sim.specs.Fields.{stripped};
ghost use Rattle.hys_sim.specs.Tables.{role_values, table_fault};
ghost use Rattle.hys_sim.specs.Uniqueness.{HasOneRun};
ghost use Rattle.hys_sim.specs.Worked.{edge, inputs_table, start_table};
ghost use Rattle.hys_sim.specs.Written.{run_text};
ghost use Rattle.hys_sim.specs.declared.fault.SimFault.TheVariants.{Column, Csv, Rows, Value};
ghost use Rattle.hys_sim.specs.declared.fault.Which.TheVariants.{Inputs, Start};

use hys_prog::laws as program_laws;

/// There is one run from a state through inputs: two of them have the same steps, reach the same
/// state and have the same stop.
pub fn one_run()
    ensures { (p : Program) (o : Order) → IsProgram p → IsOrder p o → HasOneRun p o }
{
    program_laws::one_assignment();
}

/// A worked table: what it stands for, and the text of its run.
pub fn worked_table()
    ensures blanks { stripped (codes " \t4.5\t ") ≡ codes "4.5" }
    ensures passes { table_fault guarded start_table inputs_table ≡ None }
    ensures start { role_values is_state guarded start_table ≡ (whole 5 ∷ []) ∷ [] }
    ensures inputs { role_values is_input guarded inputs_table ≡ [] ∷ [] ∷ [] }
    ensures text { run_text guarded (edge ∷ []) (whole 5 ∷ []) ≡ codes "step,x,d\n0,5,1\n1,5,\n" }
{}

/// Tables that are refused: the start before the inputs, a column before a record, and a record of
/// another length before a column.
pub fn worked_faults()
    ensures column { table_fault guarded (codes "step,y\n0,q\n") inputs_table ≡ Some (Column Start (codes "y")) }
    ensures missing { table_fault guarded (codes "step\n0\n") inputs_table ≡ Some (Column Start (codes "x")) }
    ensures header { table_fault guarded [] [] ≡ Some (Csv Start 0) }
    ensures length { table_fault guarded (codes "step,y\n0\n") inputs_table ≡ Some (Csv Start 1) }
    ensures rows { table_fault guarded (codes "step,x\n") inputs_table ≡ Some (Rows Start 1) }
    ensures value { table_fault guarded start_table (codes "step\n1\n") ≡ Some (Value Inputs 1 1) }
{}
