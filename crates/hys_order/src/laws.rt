//! What holds of orders of definition, as calls that do nothing.

ghost use Rattle.std.specs.Prelude.{◌≡◌, ◌⊎◌, ℕ, List};
ghost use Rattle.hys_prog.specs.Programs.{IsProgram};
ghost use Rattle.hys_prog.specs.Orders.{IsOrder, Circular};
ghost use Rattle.hys_prog.specs.declared.program.Program.{Program};
ghost use Rattle.hys_prog.specs.declared.program.Order.{Order};

/// A program has at most one order of definition.
pub fn one_order()
    ensures { (p : Program) (o q : Order) → IsOrder p o → IsOrder p q → o.names ≡ q.names }
{}

/// Where a program has an order of definition no list of its auxiliaries is circular.
pub fn no_cycle_in_an_order()
    ensures { (p : Program) (o : Order) (ns : List ℕ) → IsOrder p o → ¬ (Circular p ns) }
{}

/// Every program has an order of definition, or a list of its auxiliaries is circular.
pub fn an_order_or_a_cycle()
    ensures { (p : Program) → IsProgram p → ((o : Order) × IsOrder p o) ⊎ ((ns : List ℕ) × Circular p ns) }
{}
