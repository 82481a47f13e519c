//! Runs of worked sources, each step from the next values of the one before.

ghost use Rattle.std.specs.Prelude.{◌≡◌, length, IfOk};
ghost use Rattle.hys_prog.specs.Programs.{IsProgram};
ghost use Rattle.hys_prog.specs.Steps.{places, is_state, is_input};
ghost use Rattle.hys_prog.specs.Walk.{is_role};
ghost use Rattle.hys_prog.specs.Orders.{IsOrder};

use crate::source::{lost_text, name_at, program_of};
use hys_frac::{Frac, List};
use hys_order::order;
use hys_prog::{Order, Program, Role, StepFault, Stepped, Stop, places_of, step};
use std::alloc::{AllocError, Global};
use std::test::Fail;

// A source, the values of its states, those of its inputs step by step, and the table of the run
// with the line of its stop.
struct Row {
    text: &'static str,
    start: &'static [&'static str],
    inputs: &'static [&'static [&'static str]],
    want: &'static str,
}

// How many values a line has of states, of inputs, and of auxiliaries and outputs.
#[derive(Drop)]
struct Widths {
    states: usize,
    inputs: usize,
    rest: usize,
}

fn numbers(alloc: Global, fields: &[&str]) -> Result<Vec<Frac>, Fail> {
    let mut numbers = Vec::new(alloc);
    for field in fields {
        let number = Frac::read(field.as_bytes())
            .ok()
            .ok_or("a number of a row doesn't fit")?;
        numbers.push(number)?;
    }
    Ok(numbers)
}

fn write_numbers(alloc: Global, table: &mut String, numbers: &[Frac]) -> Result<(), AllocError> {
    for number in numbers {
        table.push_str(",")?;
        table.push_str(&number.text(alloc)?)?;
    }
    Ok(())
}

// Writes the names of the role, and answers their number.
fn write_names(
    alloc: Global,
    table: &mut String,
    program: &Program,
    part: Role,
) -> Result<usize, AllocError>
    ensures { IfOk result (λ n. n ≡ length (places (is_role part) program.now)) }
{
    let names = program.names.items();
    let places = places_of(alloc, names, part)?;
    for place in places.as_slice() {
        if let Some(name) = names.get(*place) {
            table.push_str(",")?;
            table.push_str(name.text.text())?;
        }
    }
    Ok(places.len())
}

fn write_head(alloc: Global, table: &mut String, program: &Program) -> Result<Widths, AllocError>
    ensures states { IfOk result (λ w. w.states ≡ length (places is_state program.now)) }
    ensures inputs { IfOk result (λ w. w.inputs ≡ length (places is_input program.now)) }
{
    table.push_str("step")?;
    let states = write_names(alloc, table, program, Role::State)?;
    let inputs = write_names(alloc, table, program, Role::Input)?;
    let auxiliaries = write_names(alloc, table, program, Role::Aux)?;
    let outputs = write_names(alloc, table, program, Role::Output)?;
    Ok(Widths {
        states,
        inputs,
        rest: auxiliaries.saturating_add(outputs),
    })
}

// Begins the line of a step.
fn write_states(
    alloc: Global,
    table: &mut String,
    at: usize,
    states: &[Frac],
) -> Result<(), AllocError> {
    table.push_str(&format!(in alloc; "\n{at}")?)?;
    write_numbers(alloc, table, states)
}

// The line of a step that isn't made.
fn write_last(
    alloc: Global,
    table: &mut String,
    at: usize,
    states: &[Frac],
    widths: &Widths,
) -> Result<(), AllocError> {
    write_states(alloc, table, at, states)?;
    for _ in 0..widths.inputs.saturating_add(widths.rest) {
        table.push_str(",")?;
    }
    table.push_str("\n")
}

fn stop_line(
    alloc: Global,
    program: &Program,
    at: usize,
    stop: Stop,
) -> Result<String, AllocError> {
    match stop {
        Stop::Bounds(name) => {
            let name = name_at(program, name);
            format!(in alloc; "stopped at step {at}: bounds {name}")
        }
        Stop::Gap(item) => {
            let name = match program.items.items().get(item as usize) {
                Some(item) => match item.name {
                    Some(name) => name_at(program, name),
                    None => "",
                },
                None => "",
            };
            format!(in alloc; "stopped at step {at}: gap {name}")
        }
        Stop::Must(item) => match program.items.items().get(item as usize) {
            Some(item) => {
                let line = item.place.line;
                let col = item.place.col;
                format!(in alloc; "stopped at step {at}: must {line}:{col}")
            }
            None => format!(in alloc; "stopped at step {at}: must"),
        },
        Stop::Range(_, lost) => {
            let lost = lost_text(alloc, lost)?;
            format!(in alloc; "range at step {at}: {lost}")
        }
    }
}

// A step, where the values are as many as there are states and inputs.
fn one_step(
    alloc: Global,
    program: &Program,
    order: &Order,
    widths: &Widths,
    state: &[Frac],
    input: &[Frac],
) -> Result<Result<Stepped, StepFault>, Fail>
    requires program { IsProgram program.now }
    requires order { IsOrder program.now order.now }
    requires states { widths.now.states ≡ length (places is_state program.now) }
    requires inputs { widths.now.inputs ≡ length (places is_input program.now) }
{
    if state.len() != widths.states || input.len() != widths.inputs {
        return Err(Fail::from("a row has another number of values"));
    }
    Ok(step(alloc, program, order, state, input))
}

// The lines of a run.
fn run(
    alloc: Global,
    program: &Program,
    order: &Order,
    start: &[&str],
    inputs: &[&[&str]],
) -> Result<String, Fail>
    requires program { IsProgram program.now }
    requires order { IsOrder program.now order.now }
{
    let mut table = String::new(alloc);
    let widths = write_head(alloc, &mut table, program)?;
    let mut state = List::of(numbers(alloc, start)?);
    for (at, fields) in inputs.iter().enumerate() {
        let input = numbers(alloc, fields)?;
        match one_step(alloc, program, order, &widths, state.items(), &input)? {
            Ok(Stepped { aux, outputs, next }) => {
                write_states(alloc, &mut table, at, state.items())?;
                write_numbers(alloc, &mut table, &input)?;
                write_numbers(alloc, &mut table, aux.items())?;
                write_numbers(alloc, &mut table, outputs.items())?;
                state = next;
            }
            Err(StepFault::Stop(stop)) => {
                write_last(alloc, &mut table, at, state.items(), &widths)?;
                table.push_str(&stop_line(alloc, program, at, stop)?)?;
                return Ok(table);
            }
            Err(StepFault::Memory) => return Err(Fail::from("memory")),
        }
    }
    write_last(alloc, &mut table, inputs.len(), state.items(), &widths)?;
    Ok(table)
}

fn table_of(alloc: Global, row: &Row) -> Result<String, Fail> {
    let program = program_of(alloc, row.text)?;
    let order = order(alloc, &program).ok().ok_or("a source has no order")?;
    run(alloc, &program, &order, row.start, row.inputs)
}

const EDGE: &str =
    "SYSTEM g { INTERFACE { STATE { REAL x [0, 10]; } } IMPLEMENTATION { AUX { BOOL d; } AD { d = x >= 5; } CONTINUOUS { x = x; } } }";

const ALWAYS: &str =
    "SYSTEM g { INTERFACE { STATE { REAL x [0, 10]; } } IMPLEMENTATION { AUX { BOOL d; } AD { d = x <= 20; } CONTINUOUS { x = x; } } }";

const CHOICE: &str =
    "SYSTEM c { INTERFACE { STATE { REAL x [0, 10]; } INPUT { BOOL a, b; } } IMPLEMENTATION { AUX { REAL z; } DA { z = { IF a <-> ~b THEN 2*x }; } CONTINUOUS { x = x; } } }";

const SUM: &str =
    "SYSTEM s { INTERFACE { STATE { REAL x [0, 10]; } INPUT { REAL u [-1, 1]; } } IMPLEMENTATION { CONTINUOUS { x = x + u; } } }";

const DEMAND: &str =
    "SYSTEM m { INTERFACE { STATE { REAL x [0, 10]; } INPUT { REAL u [-1, 1]; } }\nIMPLEMENTATION { CONTINUOUS { x = x + u; } MUST { x <= 5; } } }";

const SHRINKING: &str =
    "SYSTEM q { INTERFACE { STATE { REAL x [0, 1]; } } IMPLEMENTATION { CONTINUOUS { x = 0.123456789*x; } } }";

const THERMOSTAT: &str = "SYSTEM thermostat {
  INTERFACE {
    STATE { REAL T [-10, 60]; BOOL on; }
    INPUT { REAL amb [-10, 30]; }   // outside
    OUTPUT { REAL y; }
    PARAMETER { REAL a = 0.8; REAL b = 1 - a; }
  }
  IMPLEMENTATION {
    AUX { BOOL hot, cold; REAL heat; }
    AD { hot = T >= 22; cold = T <= 18; }
    DA { heat = { IF on THEN 30 ELSE 0 }; }
    AUTOMATA { on = cold | (on & ~hot); }
    CONTINUOUS { T = a*T + b*(amb + heat); }
    OUTPUT { y = T; }
    MUST { T <= 55; }
  }
}
";

const ROWS: [Row; 9] = [
    Row {
        text: EDGE,
        start: &["5"],
        inputs: &[&[]],
        want: "step,x,d\n0,5,1\n1,5,\n",
    },
    Row {
        text: EDGE,
        start: &["4.9995"],
        inputs: &[&[]],
        want: "step,x,d\n0,9999/2000,\nstopped at step 0: gap d",
    },
    Row {
        text: EDGE,
        start: &["4.999"],
        inputs: &[&[]],
        want: "step,x,d\n0,4999/1000,0\n1,4999/1000,\n",
    },
    Row {
        text: ALWAYS,
        start: &["3"],
        inputs: &[&[]],
        want: "step,x,d\n0,3,1\n1,3,\n",
    },
    Row {
        text: CHOICE,
        start: &["3"],
        inputs: &[&["1", "0"], &["1", "1"]],
        want: "step,x,a,b,z\n0,3,1,0,6\n1,3,1,1,0\n2,3,,,\n",
    },
    Row {
        text: SUM,
        start: &["10"],
        inputs: &[&["1"], &["0"]],
        want: "step,x,u\n0,10,1\n1,11,\nstopped at step 1: bounds x",
    },
    Row {
        text: DEMAND,
        start: &["4"],
        inputs: &[&["1"], &["1"], &["1"]],
        want: "step,x,u\n0,4,1\n1,5,1\n2,6,\nstopped at step 2: must 2:51",
    },
    Row {
        text: SHRINKING,
        start: &["1"],
        inputs: &[&[], &[], &[], &[], &[]],
        want: "step,x\n0,1\n1,123456789/1000000000\n2,15241578750190521/1000000000000000000\nrange at step 2: 123456789/1000000000 * 15241578750190521/1000000000000000000",
    },
    Row {
        text: THERMOSTAT,
        start: &["20", "1"],
        inputs: &[&["0"], &["0"], &["0"], &["0"]],
        want: "step,T,on,amb,hot,cold,heat,y\n0,20,1,0,0,0,30,20\n1,22,1,0,1,0,30,22\n2,118/5,0,0,1,0,0,118/5\n3,472/25,0,0,0,0,0,472/25\n4,1888/125,0,,,,,\n",
    },
];

#[test]
fn tables_of_runs(rt: HostRuntime) -> Result<(), Fail> {
    let alloc = rt.alloc();
    for row in &ROWS {
        let table = table_of(alloc, row)?;
        assert_eq!(rt; table.as_str(), row.want);
    }
    Ok(())
}
