ghost use Rattle.modules.specs.Contents.{ProcedureContents};
ghost use Rattle.std.specs.Prelude.{◌≡◌};

use crate::declaration::{Handler, Slot};
use crate::instruction::Instruction;
use common::BaseType;
use std::marker::Model;

/// A procedure of a module.
#[derive(Debug, Drop)]
pub struct Procedure {
    returned: Option<BaseType>,
    parameters: u32,
    slots: Vec<Slot>,
    code: Vec<Instruction>,
    handlers: Vec<Handler>,
}

impl Model for Procedure {
    ghost use Rattle.modules.specs.Contents.{ProcedureContents};

    ghost Value = { ProcedureContents };

    ghost view = { λ p. record {
      returned = p.returned;
      parameters = p.parameters;
      slots = p.slots.items;
      code = p.code.items;
      handlers = p.handlers.items;
    } };
}

impl Procedure {
    /// The procedure of the given fields: the kind of value that it returns, how many of its first slots are parameters,
    /// the slots of a frame, the code, and the handlers in the order in which they are looked at.
    pub fn new(
        returned: Option<BaseType>,
        parameters: u32,
        slots: Vec<Slot>,
        code: Vec<Instruction>,
        handlers: Vec<Handler>,
    ) -> Procedure
        ensures { result ≡ record {
          returned = returned;
          parameters = parameters;
          slots = slots.items;
          code = code.items;
          handlers = handlers.items;
        } }
    {
        Procedure {
            returned,
            parameters,
            slots,
            code,
            handlers,
        }
    }

    /// The kind of value that the procedure returns, or none.
    pub fn returned(&self) -> Option<BaseType>
        ensures { result ≡ self.now.returned }
    {
        self.returned
    }

    /// How many of the first slots are parameters.
    pub fn parameters(&self) -> u32
        ensures { result ≡ self.now.parameters }
    {
        self.parameters
    }

    /// The slots of a frame.
    pub fn slots(&self) -> &[Slot]
        ensures { result.now ≡ self.now.slots }
    {
        &self.slots
    }

    /// The code.
    pub fn code(&self) -> &[Instruction]
        ensures { result.now ≡ self.now.code }
    {
        &self.code
    }

    /// The handlers, the first that fits being the one that is taken.
    pub fn handlers(&self) -> &[Handler]
        ensures { result.now ≡ self.now.handlers }
    {
        &self.handlers
    }
}
