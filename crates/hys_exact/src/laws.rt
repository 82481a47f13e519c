//! What holds of systems that are made of parts that mean the items of a program, as calls that do nothing.

ghost use Rattle.hys_prog.specs.declared.program.Program.{Program};
ghost use Rattle.hys_prog.specs.declared.program.Order.{Order};
ghost use Rattle.hys_prog.specs.Programs.{IsProgram};
ghost use Rattle.hys_prog.specs.Orders.{IsOrder};
ghost use Rattle.hys_prog.specs.Guarded.{d_first, guarded};
ghost use Rattle.hys_sys.specs.declared.system.System.{System as ASystem};
ghost use Rattle.hys_exact.specs.Built.{IsBuiltAlong, IsExactForProgram, IsLawfulWhereSound, IsExactWhereBuilt};
ghost use Rattle.hys_exact.specs.Example.{guard_system};

/// A system that is made of parts that mean the items of a program is exact for it: from each state
/// with each input in their boxes it has a solution exactly where the program has a legal step,
/// there is one of each, and they agree.
pub fn built_is_exact()
    ensures { (p : Program) (o : Order) (S : ASystem) → IsProgram p → IsOrder p o → IsExactWhereBuilt p o S }
{}

/// Where moreover each part is sound and the system has the program's weight, it is lawful: its
/// columns stand in their order, names differ, and there are few enough columns and rows.
pub fn built_is_lawful()
    ensures { (p : Program) (o : Order) (S : ASystem) (b : IsBuiltAlong p o S) → IsLawfulWhereSound p o S b.parts }
{}

/// The two rows of a guard are a system of its program, which is exact for it.
pub fn guard_is_built()
    ensures built { IsBuiltAlong guarded d_first guard_system }
    ensures exact { IsExactForProgram guarded guard_system }
{}
