ghost use Rattle.std.specs.Prelude.{◌≡◌, ◌++◌, ◌<◌, ◌^◌, length, map, IfOk, OnOk};
ghost use Rattle.hys_bound.specs.Ranges.{unit as unit_interval};
ghost use Rattle.hys_sys.specs.Exact.{fresh_name, fresh_variables};
ghost use Rattle.hys_exact.specs.Automata.{kind_of as kind_by};
ghost use Rattle.hys_exact.specs.Columns.{columns_of, fresh_column};
ghost use Rattle.hys_mld.specs.Columns.{fresh_with, is_of as is_of_sort, sort_column, sort_columns};

use hys_ast::Kind;
use hys_base::Text;
use hys_frac::Frac;
use hys_lin::Interval;
use hys_prog::{Name, Program, Role};
use hys_sys::{Column, ColumnRole, Kind2};
use std::alloc::{AllocError, Global};

/// A sort of names that have columns side by side.
#[derive(Clone, Copy)]
enum Sort {
    State,
    Input,
    Boolean,
    Real,
}

// From 0 to 1.
fn unit() -> Interval
    ensures { result ≡ unit_interval }
{
    Interval {
        low: Frac::whole(0),
        high: Frac::whole(1),
    }
}

pub fn kind_of(kind: Kind) -> Kind2
    ensures { result ≡ kind_by kind }
{
    match kind {
        Kind::Real => Kind2::Real,
        Kind::Bool => Kind2::Bool,
    }
}

// Whether the name is of the sort.
fn is_of(sort: Sort, name: &Name) -> bool
    ensures { result ≡ is_of_sort sort name.now }
{
    match sort {
        Sort::State => name.role == Role::State,
        Sort::Input => name.role == Role::Input,
        Sort::Boolean => name.role == Role::Aux && name.kind == Kind::Bool,
        Sort::Real => name.role == Role::Aux && name.kind == Kind::Real,
    }
}

// The column of a name of the sort, which stands at the place.
fn column_of(
    sort: Sort,
    place: usize,
    name: &Name,
    boxes: &[Interval],
) -> Result<Column, AllocError>
    requires { place < length boxes.now }
    ensures { IfOk result (λ c. c ≡ sort_column sort boxes.now place name.now) }
{
    let text = name.text.clone()?;
    match sort {
        Sort::State => Ok(Column {
            name: text,
            role: ColumnRole::State,
            kind: kind_of(name.kind),
            bounds: name.bounds,
        }),
        Sort::Input => Ok(Column {
            name: text,
            role: ColumnRole::Input,
            kind: kind_of(name.kind),
            bounds: name.bounds,
        }),
        Sort::Boolean => Ok(Column {
            name: text,
            role: ColumnRole::D,
            kind: Kind2::Bool,
            bounds: unit(),
        }),
        Sort::Real => Ok(Column {
            name: text,
            role: ColumnRole::Z,
            kind: Kind2::Real,
            bounds: boxes[place],
        }),
    }
}

// Adds the columns of the names of the sort.
fn add_columns(
    names: &[Name],
    sort: Sort,
    boxes: &[Interval],
    columns: &mut Vec<Column>,
) -> Result<(), AllocError>
    requires { length boxes.now ≡ length names.now }
    ensures { OnOk result (columns.new.items ≡ columns.old.items ++ sort_columns sort boxes.now names.now) }
{
    for (n, name) in names.iter().enumerate() {
        if is_of(sort, name) {
            columns.push(column_of(sort, n, name, boxes)?)?;
        }
    }
    Ok(())
}

// The name of the fresh column with the number.
fn fresh_text(alloc: Global, number: u32) -> Result<Text, AllocError>
    ensures { IfOk result (λ t. t ≡ fresh_name number) }
{
    Ok(Text::of(format!(in alloc; "#{number}")?))
}

// The fresh column with the number.
fn fresh(alloc: Global, number: u32) -> Result<Column, AllocError>
    ensures { IfOk result (λ c. c ≡ fresh_with number) }
{
    Ok(Column {
        name: fresh_text(alloc, number)?,
        role: ColumnRole::D,
        kind: Kind2::Bool,
        bounds: unit(),
    })
}

// Adds so many fresh columns.
fn add_fresh(alloc: Global, count: u32, columns: &mut Vec<Column>) -> Result<(), AllocError>
    ensures { OnOk result (columns.new.items ≡ columns.old.items ++ map fresh_column (fresh_variables 1 count)) }
{
    for k in 0..count {
        columns.push(fresh(alloc, k + 1)?)?;
    }
    Ok(())
}

// The columns of the program's system, where its names have these intervals.
pub fn columns(
    alloc: Global,
    program: &Program,
    boxes: &[Interval],
    fresh: u32,
) -> Result<Vec<Column>, AllocError>
    requires { length boxes.now ≡ length program.now.names }
    ensures { IfOk result (λ cs. cs.items ≡ columns_of program.now boxes.now fresh) }
{
    let names = program.names.items();
    let mut columns = Vec::new(alloc);
    add_columns(names, Sort::State, boxes, &mut columns)?;
    add_columns(names, Sort::Input, boxes, &mut columns)?;
    add_columns(names, Sort::Boolean, boxes, &mut columns)?;
    add_fresh(alloc, fresh, &mut columns)?;
    add_columns(names, Sort::Real, boxes, &mut columns)?;
    Ok(columns)
}
