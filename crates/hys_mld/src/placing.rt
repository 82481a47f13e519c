ghost use Rattle.std.specs.Prelude.{◌≡◌, ◌+◌, ◌<◌, ◌^◌, IfOk};
ghost use Rattle.hys_mld.specs.Placing.{AreNumbers, after_name, after_names, counts, nowhere, placed_from, start_of, taken as taken_by};

use hys_ast::Kind;
use hys_prog::{Name, Role};
use std::alloc::{AllocError, Global};

/// The next free column of states, inputs, Boolean auxiliaries and real auxiliaries.
#[derive(Clone, Copy)]
pub struct Free {
    pub state: u32,
    pub input: u32,
    pub boolean: u32,
    pub real: u32,
}

impl Free {
    fn nowhere() -> Free
        ensures { result ≡ nowhere }
    {
        Free {
            state: 0,
            input: 0,
            boolean: 0,
            real: 0,
        }
    }

    // Where the columns begin, for so many names of each sort and so many fresh columns.
    pub fn start(self, fresh: u32) -> Free
        requires { self.state + self.input + self.boolean + fresh < 2 ^ 32 }
        ensures { result ≡ start_of self fresh }
    {
        Free {
            state: 0,
            input: self.state,
            boolean: self.state + self.input,
            real: self.state + self.input + self.boolean + fresh,
        }
    }

    // The column of the name; 0 where it has none.
    fn taken(self, name: &Name) -> u32
        ensures { result ≡ taken_by name.now.role name.now.kind self }
    {
        match (name.role, name.kind) {
            (Role::State, _) => self.state,
            (Role::Input, _) => self.input,
            (Role::Output, _) => 0,
            (Role::Parameter, _) => 0,
            (Role::Aux, Kind::Real) => self.real,
            (Role::Aux, Kind::Bool) => self.boolean,
        }
    }

    // The free columns behind the name's.
    fn after(self, name: &Name) -> Free
        requires { AreNumbers (after_name name.now self) }
        ensures { result ≡ after_name name.now self }
    {
        let mut free = self;
        match (name.role, name.kind) {
            (Role::State, _) => free.state += 1,
            (Role::Input, _) => free.input += 1,
            (Role::Output, _) => {}
            (Role::Parameter, _) => {}
            (Role::Aux, Kind::Real) => free.real += 1,
            (Role::Aux, Kind::Bool) => free.boolean += 1,
        }
        free
    }
}

// How many names of each sort there are.
pub fn count(names: &[Name]) -> Free
    requires { AreNumbers (counts names.now) }
    ensures { result ≡ counts names.now }
{
    let mut free = Free::nowhere();
    for name in names {
        free = free.after(name);
    }
    free
}

// The columns of the names, from the free ones on.
pub fn place(alloc: Global, names: &[Name], start: Free) -> Result<Vec<u32>, AllocError>
    requires { AreNumbers (after_names start names.now) }
    ensures { IfOk result (λ columns. columns.items ≡ placed_from start names.now) }
{
    let mut columns = Vec::new(alloc);
    let mut free = start;
    for name in names {
        columns.push(free.taken(name))?;
        free = free.after(name);
    }
    Ok(columns)
}
