//! Statements that hold no others. Each kind is resolved by a call of its own, as those that hold others are.

ghost use Rattle.types.specs.Labels.{optional_label_finding};
ghost use Rattle.types.specs.Statements as spec;
ghost use Rattle.types.specs.Statements.{arguments_finding, assigned_finding, call_finding, declare_array_finding, declare_finding, label_scope, size_finding, statement_finding};
ghost use Rattle.types.specs.VariableEntries.{optional_label_with};
ghost use Rattle.types.specs.Views.{Resolves, IsLater, at_point, call_use, expressions_of, itself, names_of, point_of, setting_of, signatures_of, taken};
ghost use Rattle.resolved.specs.TreeOf.{statement_of};
ghost use Rattle.std.specs.Prelude.{OnOk, map, ◌+◌, ◌<◌, ◌≡◌, ◌≤◌};
ghost use Rattle.syntax.specs.Limits.{most_nodes};
ghost use Rattle.syntax.specs.Tree.{AssignElementTree, AssignTree, CallTree', CalledTree, ReceiveTree, ReceivedTree, ReturnTree, SendTree, ThrowTree, call_tree, expression_tree, name_tree, optional_expression_tree, optional_label_tree, right_tree, size_tree};

use crate::body::BodyScope;
use crate::fault::{TypeFault, TypeRefusal, TypeRefusalKind};
use crate::operator::is_same;
use crate::scope::ItemKind;
use crate::variables::{LabelParts, NewSlot};
use common::limits::MAX_ELEMENTS;
use common::{BaseType, Direction, OrNoMemory};
use resolved::expression::{Expression, Variable};
use resolved::statement::{Exit, Statement};
use syntax::{Call, Name, RightSide, Size, WrittenLabel};

/// A call: its procedure, its arguments, and the type of its value, if it gives one.
#[derive(Drop)]
pub struct UsedCall {
    pub procedure: u32,
    pub arguments: Vec<Expression>,
    pub result: Option<BaseType>,
}

/// Requires that the length of an array is 1 to 65,536, and gives it.
///
/// # Errors
///
/// 703 where it is another one.
#[tactic(auto, unfolding(crate::specs::Statements::size_finding))]
pub fn resolve_size(size: Size) -> Result<u32, TypeFault>
    ensures { Resolves itself result (size_finding (size_tree size)) }
{
    if 0 < size.size && size.size <= MAX_ELEMENTS {
        Ok(size.size)
    } else {
        Err(OrNoMemory::Refused(TypeRefusal {
            kind: TypeRefusalKind::ArraySize,
            at: size.at,
        }))
    }
}

impl<'a, 'n> BodyScope<'a, 'n> {
    /// The arguments of a call, at places that want the types of the parameters.
    fn resolve_arguments(
        &self,
        parameters: &[BaseType],
        written: &[syntax::Expression<'_>],
    ) -> Result<Vec<Expression>, TypeFault>
        ensures { Resolves expressions_of result
            (arguments_finding (names_of self.now) parameters.now
            (map expression_tree written.now)) }
    {
        let mut arguments = Vec::with_capacity(self.alloc, written.len())?;
        for argument in written {
            let base = match parameters.get(arguments.len()) {
                Some(base) => *base,
                None => BaseType::Int,
            };
            arguments.push(self.type_expression(base, argument)?)?;
        }
        Ok(arguments)
    }

    /// A call.
    #[tactic(auto, unfolding(crate::specs::Statements::call_finding))]
    fn resolve_call(&self, written: &Call<'_>) -> Result<UsedCall, TypeFault>
        ensures { Resolves call_use result
            (call_finding (signatures_of self.now) (names_of self.now) (call_tree written.now)) }
    {
        let name = &written.procedure;
        let number = self.find_item(ItemKind::Procedure, name)?;
        let (parameters, value) = self.top.signature(number);
        if parameters.len() != written.arguments.len() {
            return Err(OrNoMemory::Refused(TypeRefusal {
                kind: TypeRefusalKind::WrongArgumentCount,
                at: name.at,
            }));
        }
        let arguments = self.resolve_arguments(parameters, written.arguments)?;
        Ok(UsedCall {
            procedure: number,
            arguments,
            result: value,
        })
    }

    /// The assignment of what is received to a variable of a type, by a statement that begins at a byte.
    #[inline(never)]
    #[tactic(auto, unfolding(crate::specs::Statements::assigned_finding))]
    fn resolve_received(
        &self,
        at: usize,
        target: Variable,
        base: BaseType,
        receive_at: usize,
        channel: &Name<'_>,
    ) -> Result<Statement, TypeFault>
        ensures { Resolves statement_of result
            (assigned_finding (signatures_of self.now) (names_of self.now) at target base
            (ReceivedTree receive_at (name_tree channel.now))) }
    {
        if !is_same(BaseType::Int, base) {
            return Err(OrNoMemory::Refused(TypeRefusal {
                kind: TypeRefusalKind::WrongType,
                at: receive_at,
            }));
        }
        let number = self.find_item(ItemKind::Channel(Direction::Input), channel)?;
        Ok(Statement::Receive(at, number, Some(target)))
    }

    /// The assignment of the value of a call to a variable of a type, by a statement that begins at a byte.
    #[inline(never)]
    #[tactic(auto, unfolding(crate::specs::Statements::assigned_finding))]
    fn resolve_called(
        &self,
        at: usize,
        target: Variable,
        base: BaseType,
        call: &Call<'_>,
    ) -> Result<Statement, TypeFault>
        ensures { Resolves statement_of result
            (assigned_finding (signatures_of self.now) (names_of self.now) at target base
            (CalledTree (call_tree call.now))) }
    {
        let made = self.resolve_call(call)?;
        if !gives(base, made.result) {
            return Err(OrNoMemory::Refused(TypeRefusal {
                kind: TypeRefusalKind::WrongType,
                at: call.procedure.at,
            }));
        }
        Ok(Statement::Call(at, made.procedure, made.arguments, Some(target)))
    }

    /// The assignment of a right side to a variable of a type, by a statement that begins at a byte.
    #[inline(always)]
    #[tactic(auto, unfolding(crate::specs::Statements::assigned_finding))]
    fn resolve_right_side(
        &self,
        at: usize,
        target: Variable,
        base: BaseType,
        value: &RightSide<'_>,
    ) -> Result<Statement, TypeFault>
        ensures { Resolves statement_of result
            (assigned_finding (signatures_of self.now) (names_of self.now) at target base
            (right_tree value.now)) }
    {
        match value {
            RightSide::Receive {
                at: receive_at,
                channel,
            } => self.resolve_received(at, target, base, *receive_at, channel),
            RightSide::Call(call) => self.resolve_called(at, target, base, call),
            RightSide::Value(value) => Ok(Statement::Assign(
                at,
                target,
                self.type_expression(base, value)?,
            )),
        }
    }

    /// Resolves the label of a local, which may be left out.
    ///
    /// # Errors
    ///
    /// Those of a label.
    #[inline(always)]
    #[tactic(auto, unfolding(crate::specs::Finding::of_option))]
    fn resolve_local_label(
        &self,
        written: &Option<WrittenLabel<'_>>,
    ) -> Result<Option<LabelParts>, TypeFault>
        ensures { Resolves (λ parts. optional_label_with self.now.variables.labels parts) result
            (optional_label_finding (label_scope (setting_of self.now) (point_of self.now))
            (optional_label_tree written.now)) }
    {
        match written {
            None => Ok(None),
            Some(_) => self.label_context().resolve_optional(written),
        }
    }

    /// Resolves the declaration of a local with its first value. The local takes the next slot, and is not yet in scope in that
    /// value. Precondition: there are fewer labels, slots and loops than a program may have nodes.
    ///
    /// # Errors
    ///
    /// 301, 303, 305 and 403 in its label, 302 where its name is in scope already, then 301 and 401 to 403 in its first value; or
    /// out of memory.
    #[inline(never)]
    #[tactic(auto, unfolding(crate::specs::Statements::statement_finding, crate::specs::Statements::declared_finding))]
    pub fn declare_scalar(
        &mut self,
        at: usize,
        base: BaseType,
        label: &Option<WrittenLabel<'_>>,
        name: &Name<'n>,
        value: &RightSide<'_>,
    ) -> Result<Statement, TypeFault>
        requires room { taken self.old < most_nodes }
        ensures made { Resolves (at_point self.new statement_of) result
            (declare_finding (setting_of self.old) (point_of self.old) at base
            (optional_label_tree label.now) (name_tree name.now) (right_tree value.now)) }
        ensures later { OnOk result (IsLater self.old self.new) }
        ensures grows { OnOk result (taken self.new ≤ taken self.old + 2) }
    {
        let written = self.resolve_local_label(label)?;
        self.require_unused(name)?;
        let variable = Variable::Local(self.variables.slots().len() as u32);
        let statement = self.resolve_right_side(at, variable, base, value)?;
        let slot = NewSlot {
            base,
            size: None,
            label: written,
            at,
            name: name.text,
        };
        self.declare(slot)?;
        Ok(statement)
    }

    /// Resolves the declaration of a local that is an array. The local takes the next slot.
    /// Precondition: there are fewer labels, slots and loops than a program may have nodes.
    ///
    /// # Errors
    ///
    /// 301, 303, 305 and 403 in its label, 302 where its name is in scope already, then 703 where its length is not 1 to 65,536; or
    /// out of memory.
    #[inline(never)]
    #[tactic(auto, unfolding(crate::specs::Statements::statement_finding, crate::specs::Statements::declared_finding))]
    pub fn declare_array(
        &mut self,
        at: usize,
        base: BaseType,
        written: &Option<WrittenLabel<'_>>,
        name: &Name<'n>,
        size: Size,
    ) -> Result<Statement, TypeFault>
        requires room { taken self.old < most_nodes }
        ensures made { Resolves (at_point self.new statement_of) result
            (declare_array_finding (setting_of self.old) (point_of self.old) at base
            (optional_label_tree written.now) (name_tree name.now) (size_tree size)) }
        ensures later { OnOk result (IsLater self.old self.new) }
        ensures grows { OnOk result (taken self.new ≤ taken self.old + 2) }
    {
        let label = self.resolve_local_label(written)?;
        self.require_unused(name)?;
        let length = resolve_size(size)?;
        let number = self.variables.slots().len() as u32;
        self.declare(NewSlot {
            base,
            size: Some(length),
            label,
            at,
            name: name.text,
        })?;
        Ok(Statement::Clear(at, number))
    }

    /// Resolves an assignment of a value, a call or a `receive` to a scalar.
    ///
    /// # Errors
    ///
    /// 301 and 403 where a name stands for nothing or for something of another sort, 401 where a type is wrong, 402 where a call
    /// has another number of arguments than its procedure has parameters; or out of memory.
    #[inline(never)]
    #[tactic(auto, unfolding(crate::specs::Statements::statement_finding))]
    pub fn resolve_assign(
        &self,
        target: &Name<'_>,
        value: &RightSide<'_>,
    ) -> Result<Statement, TypeFault>
        ensures { Resolves (at_point self.now statement_of) result
            (statement_finding (setting_of self.now) (point_of self.now)
            (AssignTree (name_tree target.now) (right_tree value.now))) }
    {
        let found = self.find_scalar(target)?;
        self.resolve_right_side(target.at, found.variable, found.base, value)
    }

    /// Resolves an assignment to an element of an array.
    ///
    /// # Errors
    ///
    /// 301 and 403 where a name stands for nothing or for something of another sort, 401 where the index is no int, where the
    /// value has another type than the elements, or where a type within them is wrong; or out of memory.
    #[inline(never)]
    #[tactic(auto, unfolding(crate::specs::Statements::statement_finding))]
    pub fn resolve_store(
        &self,
        name: &Name<'_>,
        index: &syntax::Expression<'_>,
        value: &syntax::Expression<'_>,
    ) -> Result<Statement, TypeFault>
        ensures { Resolves (at_point self.now statement_of) result
            (statement_finding (setting_of self.now) (point_of self.now)
            (AssignElementTree (name_tree name.now) (expression_tree index.now)
            (expression_tree value.now))) }
    {
        let found = self.find_array(name)?;
        let index = self.type_expression(BaseType::Int, index)?;
        let value = self.type_expression(found.base, value)?;
        Ok(Statement::Store(name.at, found.variable, found.size, index, value))
    }

    /// Resolves a call whose value, if there is one, is dropped.
    ///
    /// # Errors
    ///
    /// 301 and 403 where a name stands for nothing or for something of another sort, 402 where there are more or fewer arguments
    /// than parameters, 401 where the type of an argument is wrong; or out of memory.
    #[inline(never)]
    #[tactic(auto, unfolding(crate::specs::Statements::statement_finding))]
    pub fn resolve_call_statement(&self, call: &Call<'_>) -> Result<Statement, TypeFault>
        ensures { Resolves (at_point self.now statement_of) result
            (statement_finding (setting_of self.now) (point_of self.now)
            (CallTree' (call_tree call.now))) }
    {
        let made = self.resolve_call(call)?;
        Ok(Statement::Call(call.procedure.at, made.procedure, made.arguments, None))
    }

    /// Resolves a `receive` whose number is dropped.
    ///
    /// # Errors
    ///
    /// 301 where the name of the channel stands for nothing, 403 where it stands for something else than an input.
    #[inline(never)]
    #[tactic(auto, unfolding(crate::specs::Statements::statement_finding))]
    pub fn resolve_receive(&self, at: usize, channel: &Name<'_>) -> Result<Statement, TypeFault>
        ensures { Resolves (at_point self.now statement_of) result
            (statement_finding (setting_of self.now) (point_of self.now)
            (ReceiveTree at (name_tree channel.now))) }
    {
        let number = self.find_item(ItemKind::Channel(Direction::Input), channel)?;
        Ok(Statement::Receive(at, number, None))
    }

    /// Resolves a `send` of an int to an output.
    ///
    /// # Errors
    ///
    /// 301 and 403 where a name stands for nothing or for something of another sort, 401 where the value is no int or a type
    /// within it is wrong; or out of memory.
    #[inline(never)]
    #[tactic(auto, unfolding(crate::specs::Statements::statement_finding))]
    pub fn resolve_send(
        &self,
        at: usize,
        channel: &Name<'_>,
        value: &syntax::Expression<'_>,
    ) -> Result<Statement, TypeFault>
        ensures { Resolves (at_point self.now statement_of) result
            (statement_finding (setting_of self.now) (point_of self.now)
            (SendTree at (name_tree channel.now) (expression_tree value.now))) }
    {
        let number = self.find_item(ItemKind::Channel(Direction::Output), channel)?;
        Ok(Statement::Send(at, number, self.type_expression(BaseType::Int, value)?))
    }

    /// Resolves a `throw` of an exception.
    ///
    /// # Errors
    ///
    /// 301 where its name stands for nothing, 403 where it stands for something else than an exception.
    #[inline(never)]
    #[tactic(auto, unfolding(crate::specs::Statements::statement_finding))]
    pub fn resolve_throw(&self, at: usize, name: &Name<'_>) -> Result<Statement, TypeFault>
        ensures { Resolves (at_point self.now statement_of) result
            (statement_finding (setting_of self.now) (point_of self.now)
            (ThrowTree at (name_tree name.now))) }
    {
        let number = self.find_item(ItemKind::Exception, name)?;
        Ok(Statement::Leave(at, Exit::Throw(number)))
    }

    /// Resolves a `return`, which has a value exactly where the procedure gives one.
    ///
    /// # Errors
    ///
    /// 301, 401 and 403 in the value; then 401 where a value is missing, is not to be given, or has another type than the
    /// procedure gives; or out of memory.
    #[inline(never)]
    #[tactic(auto, unfolding(crate::specs::Statements::statement_finding))]
    pub fn resolve_return(
        &self,
        at: usize,
        value: &Option<syntax::Expression<'_>>,
    ) -> Result<Statement, TypeFault>
        ensures { Resolves (at_point self.now statement_of) result
            (statement_finding (setting_of self.now) (point_of self.now)
            (ReturnTree at (optional_expression_tree value.now))) }
    {
        match value {
            None => match self.result {
                None => Ok(Statement::Return(at, None)),
                Some(_) => Err(OrNoMemory::Refused(TypeRefusal {
                    kind: TypeRefusalKind::WrongType,
                    at,
                })),
            },
            Some(value) => {
                let found = self.resolve_expression(value)?;
                if gives(found.base, self.result) {
                    Ok(Statement::Return(at, Some(found.expression)))
                } else {
                    Err(OrNoMemory::Refused(TypeRefusal {
                        kind: TypeRefusalKind::WrongType,
                        at: value.at(),
                    }))
                }
            }
        }
    }
}

/// Whether a procedure gives a value, and one of a type.
fn gives(base: BaseType, given: Option<BaseType>) -> bool
    ensures { result ≡ spec.gives_base base given }
{
    match given {
        None => false,
        Some(given) => is_same(base, given),
    }
}
