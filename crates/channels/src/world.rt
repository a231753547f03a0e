ghost use Rattle.channels.specs.World.{input_names};
ghost use Rattle.channels.specs.WorldText.{IsWorldRefusal, IsWorldText, lines_of, world_of};
ghost use Rattle.common.specs.Answers.{IfRefused};
ghost use Rattle.std.specs.Prelude.{◌≡◌, IfErr, IfOk, OnOk};
ghost use Rattle.std.specs.String.{string_bytes};

use crate::kind::WorldFault;
use crate::world_read::{inputs_of, names_of, read_lines};
use modules::Module;
use std::alloc::Global;
use std::marker::Model;

/// An input of a module, with the numbers that a world has for it.
#[derive(Debug, Drop)]
pub struct InputList {
    name: String,
    numbers: Vec<i32>,
}

impl Model for InputList {
    ghost use Rattle.channels.specs.World.{InputNumbers};
    ghost use Rattle.std.specs.String.{string_bytes};

    ghost Value = { InputNumbers };

    ghost view = { λ input. record {
      name = string_bytes input.name;
      numbers = input.numbers.items;
    } };
}

impl InputList {
    /// The input of this name, with these numbers.
    pub fn new(name: String, numbers: Vec<i32>) -> InputList
        ensures { result ≡ record { name = string_bytes name; numbers = numbers.items } }
    {
        InputList { name, numbers }
    }

    /// The name of the input.
    pub fn name(&self) -> &str
        ensures { result.now ≡ self.now.name }
    {
        self.name.as_str()
    }

    /// The numbers, the first to be received first.
    pub fn numbers(&self) -> &[i32]
        ensures { result.now ≡ self.now.numbers }
    {
        &self.numbers
    }

    /// The numbers by themselves.
    pub fn into_numbers(self) -> Vec<i32>
        ensures { result.items ≡ self.numbers }
    {
        let InputList { name, numbers } = self;
        numbers
    }
}

/// A world: a list of numbers for each input of a module, in the order of the inputs.
#[derive(Debug, Drop)]
pub struct World {
    inputs: Vec<InputList>,
}

impl Model for World {
    ghost use Rattle.channels.specs.World.{InputNumbers};
    ghost use Rattle.std.specs.Prelude.{List};

    ghost Value = { List InputNumbers };

    ghost view = { λ world. world.inputs.items };
}

impl World {
    /// The world that a text writes for the inputs of a module: for each input the numbers of the line that names
    /// it, and none where no line does.
    ///
    /// The first wrong line is reported, by its number from 1 and by what is wrong with it: another form, no input of
    /// the module, an input that an earlier line names, or a number outside 32 bits, the first of these that it has.
    pub fn read(alloc: Global, program: &Module, text: &str) -> Result<World, WorldFault>
        ensures accepted { OnOk result (IsWorldText (input_names program.now) (lines_of text.now)) }
        ensures exact { IfOk result (λ world. world
            ≡ world_of (input_names program.now) (lines_of text.now)) }
        ensures first_fault { IfErr result (IfRefused (IsWorldRefusal (input_names program.now)
            (lines_of text.now))) }
    {
        let names = names_of(alloc, program.channels())?;
        let table = read_lines(alloc, &names, text)?;
        let inputs = inputs_of(alloc, &names, &table)?;
        Ok(World { inputs })
    }

    /// The world of these inputs, in this order. It fits a module whose inputs have these names in this order.
    pub fn of(inputs: Vec<InputList>) -> World
        ensures { result ≡ inputs.items }
    {
        World { inputs }
    }

    /// The inputs with their numbers, in order.
    pub fn inputs(&self) -> &[InputList]
        ensures { result.now ≡ self.now }
    {
        &self.inputs
    }

    /// The inputs by themselves.
    pub fn into_inputs(self) -> Vec<InputList>
        ensures { result.items ≡ self }
    {
        let World { inputs } = self;
        inputs
    }
}
