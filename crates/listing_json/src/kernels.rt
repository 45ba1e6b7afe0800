//! Kernels as JSON values.

ghost use Rattle.std.specs.Prelude.{◌≡◌, IfOk};
ghost use Rattle.serde_json.specs.View.{view};
ghost use Rattle.kernel.specs.declared.kernels.operation.Address.{Address};
ghost use Rattle.listing_json.specs.Documents.{address_value, count_value, kernel_value, option_value};

use crate::told::{Told, told_all, told_digits, told_one, told_two};
use json_objects::{object_of, with, with_value};
use kernel::{Address, Operation, Out, Parts, Preload, Source};
use loop_data::Param;
use machine_data::OutOfMemory;
use serde_json::{Map, ToValue, Value};
use std::alloc::Global;

impl Told for Source {
    ghost use Rattle.listing_json.specs.Documents.{source_value};

    ghost value = { source_value };

    fn told(&self, alloc: Global) -> Result<Value, OutOfMemory> {
        match *self {
            Source::Register(name) => told_one(alloc, "register", Ok(Value::from(name))),
            Source::Parameter(index) => told_one(alloc, "parameter", Ok(Value::from(index))),
            Source::Constant(value) => told_one(alloc, "constant", told_digits(alloc, value)),
        }
    }
}

/// The value of a cell's address, and `null` where there is none.
fn told_address(alloc: Global, address: Option<Address>) -> Result<Value, OutOfMemory>
    ensures { IfOk result (λ v. view v ≡ option_value address_value address) }
{
    match address {
        Some(cell) => {
            let array = Ok(Value::from(cell.array));
            told_two(
                alloc,
                "array",
                array,
                "offset",
                Ok(Value::from(cell.offset)),
            )
        }
        None => Ok(Value::Null),
    }
}

/// The value of a register's name, and `null` where there is none.
fn told_register(register: Option<u16>) -> Value
    ensures { view result ≡ option_value count_value register }
{
    match register {
        Some(name) => Value::from(name),
        None => Value::Null,
    }
}

impl Told for Operation {
    ghost use Rattle.listing_json.specs.Documents.{operation_value};

    ghost value = { operation_value };

    fn told(&self, alloc: Global) -> Result<Value, OutOfMemory> {
        let destination = told_register(self.destination);
        let alternative = Value::from(self.alternative);
        let opcode = self.opcode.word().to_value(alloc);
        let sources = told_all(alloc, self.sources.as_slice());
        let address = told_address(alloc, self.address);
        let members = Ok(Map::new(alloc));
        let members = with_value(alloc, members, "row", Value::from(self.row));
        let members = with_value(alloc, members, "stage", Value::from(self.stage));
        let members = with(alloc, members, "opcode", opcode);
        let members = with_value(alloc, members, "latency", Value::from(self.latency));
        let members = with_value(alloc, members, "alternative", alternative);
        let members = with_value(alloc, members, "destination", destination);
        let members = with(alloc, members, "sources", sources);
        object_of(with(alloc, members, "address", address))
    }
}

impl Told for Param {
    ghost use Rattle.listing_json.specs.Documents.{param_value};

    ghost value = { param_value };

    fn told(&self, alloc: Global) -> Result<Value, OutOfMemory> {
        let name = self.name.as_str().to_value(alloc);
        told_two(alloc, "name", name, "value", told_digits(alloc, self.value))
    }
}

impl Told for Preload {
    ghost use Rattle.listing_json.specs.Documents.{preload_value};

    ghost value = { preload_value };

    fn told(&self, alloc: Global) -> Result<Value, OutOfMemory> {
        let register = Ok(Value::from(self.register));
        told_two(
            alloc,
            "register",
            register,
            "value",
            told_digits(alloc, self.value),
        )
    }
}

impl Told for Out {
    ghost use Rattle.listing_json.specs.Documents.{out_value};

    ghost value = { out_value };

    fn told(&self, alloc: Global) -> Result<Value, OutOfMemory> {
        let name = self.name.as_str().to_value(alloc);
        told_two(
            alloc,
            "name",
            name,
            "register",
            Ok(Value::from(self.register)),
        )
    }
}

/// The value of a kernel.
pub(crate) fn told_kernel(alloc: Global, parts: &Parts) -> Result<Value, OutOfMemory>
    ensures { IfOk result (λ v. view v ≡ kernel_value parts.now) }
{
    let members = Ok(Map::new(alloc));
    let members = with_value(alloc, members, "ii", Value::from(parts.ii));
    let members = with_value(alloc, members, "stages", Value::from(parts.stages));
    let members = with_value(alloc, members, "registers", Value::from(parts.registers));
    let params = told_all(alloc, parts.params.as_slice());
    let members = with(alloc, members, "params", params);
    let arrays = told_all(alloc, parts.arrays.as_slice());
    let members = with(alloc, members, "arrays", arrays);
    let operations = told_all(alloc, parts.operations.as_slice());
    let members = with(alloc, members, "operations", operations);
    let preloads = told_all(alloc, parts.preloads.as_slice());
    let members = with(alloc, members, "preloads", preloads);
    let outs = told_all(alloc, parts.outs.as_slice());
    object_of(with(alloc, members, "outs", outs))
}
