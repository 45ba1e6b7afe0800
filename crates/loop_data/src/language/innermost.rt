//! A loop.

ghost use Rattle.std.specs.Prelude.{◌≡◌};
ghost use Rattle.loop_data.specs.Loops.{LoopData, IsLoop};
ghost use Rattle.loop_data.specs.NamedParts.{value_name};
ghost use Rattle.loop_data.specs.Run.{initial_of};

use crate::language::lists::{Array, Initial, Param};
use crate::language::statement::Statement;
use machine_data::Name;
use std::marker::Model;

/// An innermost loop: what each iteration does, in order. Contracts see it as data.
pub struct Loop {
    name: Name,
    arrays: Vec<Array>,
    params: Vec<Param>,
    statements: Vec<Statement>,
    inits: Vec<Initial>,
    outs: Vec<u8>,
}

// Written out, so that a crate above calls it. What is derived would be proved once more there, for each part.
impl Drop for Loop {
    fn drop(self) {
        let Loop {
            name: _,
            arrays: _,
            params: _,
            statements: _,
            inits: _,
            outs: _,
        } = self;
    }
}

impl Model for Loop {
    ghost use Rattle.loop_data.specs.Loops.{LoopData, IsLoop};

    ghost Value = { LoopData };

    ghost view = { λ l. record { name = l.name; arrays = l.arrays.items; params = l.params.items; statements = l.statements.items; inits = l.inits.items; outs = l.outs.items } };

    ghost invariant = { λ l. IsLoop (record { name = l.name; arrays = l.arrays.items; params = l.params.items; statements = l.statements.items; inits = l.inits.items; outs = l.outs.items }) };
}

impl Loop {
    /// The loop of these parts, for callers that have shown that the language allows it. A loop text is
    /// read by `read_loops` of the crate `loops`.
    pub fn new(
        name: Name,
        arrays: Vec<Array>,
        params: Vec<Param>,
        statements: Vec<Statement>,
        inits: Vec<Initial>,
        outs: Vec<u8>,
    ) -> Loop
        requires { IsLoop (record { name = name; arrays = arrays.items; params = params.items; statements = statements.items; inits = inits.items; outs = outs.items }) }
        ensures { result ≡ record { name = name; arrays = arrays.items; params = params.items; statements = statements.items; inits = inits.items; outs = outs.items } }
    {
        Loop {
            name,
            arrays,
            params,
            statements,
            inits,
            outs,
        }
    }

    /// The loop's name, of 1 to 16 bytes.
    pub fn name(&self) -> &Name
        ensures value { result.now ≡ self.now.name }
        ensures well_formed { IsLoop self.now }
    {
        &self.name
    }

    /// The arrays, by their numbers.
    pub fn arrays(&self) -> &[Array]
        ensures value { result.now ≡ self.now.arrays }
        ensures well_formed { IsLoop self.now }
    {
        self.arrays.as_slice()
    }

    /// The parameters, by their numbers.
    pub fn params(&self) -> &[Param]
        ensures value { result.now ≡ self.now.params }
        ensures well_formed { IsLoop self.now }
    {
        self.params.as_slice()
    }

    /// The statements, by their numbers.
    pub fn statements(&self) -> &[Statement]
        ensures value { result.now ≡ self.now.statements }
        ensures well_formed { IsLoop self.now }
    {
        self.statements.as_slice()
    }

    /// The initial values, by statement and then by number.
    pub fn inits(&self) -> &[Initial]
        ensures value { result.now ≡ self.now.inits }
        ensures well_formed { IsLoop self.now }
    {
        self.inits.as_slice()
    }

    /// The initial value of this number of a statement's value, and 0 where the loop has none. It is
    /// searched for by halves.
    pub fn initial(&self, statement: u8, number: u8) -> i64
        ensures { result ≡ initial_of self.now statement number }
    {
        let inits = self.inits();
        match inits.binary_search_by_key(
            &(statement, number),
            |init| (init.statement, init.number),
        ) {
            Ok(place) => inits[place].value,
            Err(_) => 0,
        }
    }

    /// The name of the value that a statement gives, by the statement's number. It is empty for a store and
    /// for a number that no statement has.
    pub fn value_name(&self, statement: u8) -> &str
        ensures name { result.now ≡ value_name self.now statement }
    {
        let Some(statement) = self.statements.get(usize::from(statement)) else {
            return "";
        };
        match &statement.name {
            Some(name) => name.as_str(),
            None => "",
        }
    }

    /// The numbers of the statements whose values are live at the end, in text order.
    pub fn outs(&self) -> &[u8]
        ensures value { result.now ≡ self.now.outs }
        ensures well_formed { IsLoop self.now }
    {
        self.outs.as_slice()
    }
}
