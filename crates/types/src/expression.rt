//! Expressions and the types of their values.

ghost use Rattle.types.specs.Expressions.{expression_finding, of_base, typed_finding};
ghost use Rattle.types.specs.Finding.{give};
ghost use Rattle.types.specs.Views.{Resolves, names_of, typed_view};
ghost use Rattle.resolved.specs.TreeOf.{expression_of};
ghost use Rattle.std.specs.Prelude.{ℕ, ◌≡◌};
ghost use Rattle.syntax.specs.Tree.{BinaryTree, ElementTree, UnaryTree, VariableTree, expression_tree, name_tree};

use crate::body::BodyScope;
use crate::fault::{TypeFault, TypeRefusal, TypeRefusalKind};
use crate::operator::{base_of_prefix, combine, is_same, operands_base, value_base};
use common::{BaseType, OrNoMemory, Prefix};
use resolved::expression::Expression;
use syntax::{BinaryOperator, Name};

/// An expression with the type of its values.
#[derive(Drop)]
pub struct TypedExpression {
    pub expression: Expression,
    pub base: BaseType,
}

impl TypedExpression {
    fn new(expression: Expression, base: BaseType) -> TypedExpression
        ensures { typed_view result ≡ (expression_of expression, base) }
    {
        TypedExpression { expression, base }
    }

    /// Requires that the values of the expression have a type, and gives the expression.
    ///
    /// # Errors
    ///
    /// 401 where they have another one.
    #[inline(always)]
    #[tactic(auto, unfolding(crate::specs::Expressions::of_base))]
    pub fn require_base(self, base: BaseType, at: usize) -> Result<Expression, TypeFault>
        ensures { Resolves expression_of result (of_base base at (typed_view self)) }
    {
        if is_same(self.base, base) {
            Ok(self.expression)
        } else {
            Err(OrNoMemory::Refused(TypeRefusal {
                kind: TypeRefusalKind::WrongType,
                at,
            }))
        }
    }
}

/// A constant is what it says.
#[inline(never)]
fn found_constant(expression: Expression, base: BaseType) -> Result<TypedExpression, TypeFault>
    ensures { Resolves typed_view result (give (expression_of expression, base)) }
{
    Ok(TypedExpression::new(expression, base))
}

impl<'a, 'n> BodyScope<'a, 'n> {
    /// Resolves an expression, and finds the type of its values. Operands are resolved from the left. Each kind of expression is
    /// resolved by a call of its own, since what is put together in one place is taken apart there.
    ///
    /// # Errors
    ///
    /// The first fault in it: 301 where a name stands for nothing, 403 where it stands for something else than its place wants,
    /// 401 where an operand or an index has another type than its operator or place wants; or out of memory.
    #[cycle(expression)]
    #[inline(always)]
    #[tactic(auto, unfolding(crate::specs::Expressions::expression_finding))]
    pub fn resolve_expression(
        &self,
        written: &syntax::Expression<'_>,
    ) -> Result<TypedExpression, TypeFault>
        ensures { Resolves typed_view result
            (expression_finding (names_of self.now) (expression_tree written.now)) }
    {
        match written {
            syntax::Expression::Integer { value, .. } => {
                found_constant(Expression::Integer(*value), BaseType::Int)
            }
            syntax::Expression::Truth { value, .. } => {
                found_constant(Expression::Logical(*value), BaseType::Boolean)
            }
            syntax::Expression::Variable(name) => self.resolve_variable(name),
            syntax::Expression::Element(element) => {
                self.resolve_element(&element.array, &element.index)
            }
            syntax::Expression::Unary {
                operator,
                operand,
                ..
            } => self.resolve_unary(*operator, operand),
            syntax::Expression::Binary {
                operator,
                operands,
                ..
            } => self.resolve_binary(*operator, &operands.0, &operands.1),
        }
    }

    /// The value of a scalar.
    #[inline(never)]
    #[tactic(auto, unfolding(crate::specs::Expressions::expression_finding))]
    fn resolve_variable(&self, name: &Name<'_>) -> Result<TypedExpression, TypeFault>
        ensures { Resolves typed_view result
            (expression_finding (names_of self.now) (VariableTree (name_tree name.now))) }
    {
        let found = self.find_scalar(name)?;
        Ok(TypedExpression::new(Expression::Read(found.variable), found.base))
    }

    /// An element of an array.
    #[cycle(expression)]
    #[inline(never)]
    #[tactic(auto, unfolding(crate::specs::Expressions::expression_finding))]
    fn resolve_element(
        &self,
        name: &Name<'_>,
        index: &syntax::Expression<'_>,
    ) -> Result<TypedExpression, TypeFault>
        ensures { Resolves typed_view result (expression_finding (names_of self.now)
            (ElementTree (name_tree name.now) (expression_tree index.now))) }
    {
        let found = self.find_array(name)?;
        let index = self
            .resolve_expression(index)?
            .require_base(BaseType::Int, index.at())?;
        let index = Box::new(self.alloc, index)?;
        let element = Expression::Element(found.variable, found.size, index);
        Ok(TypedExpression::new(element, found.base))
    }

    /// An operator before its operand.
    #[cycle(expression)]
    #[inline(never)]
    #[tactic(auto, unfolding(crate::specs::Expressions::expression_finding))]
    fn resolve_unary(
        &self,
        prefix: Prefix,
        operand: &syntax::Expression<'_>,
    ) -> Result<TypedExpression, TypeFault>
        ensures { (at : ℕ) → Resolves typed_view result (expression_finding (names_of self.now)
            (UnaryTree at prefix (expression_tree operand.now))) }
    {
        let base = base_of_prefix(prefix);
        let operand = self
            .resolve_expression(operand)?
            .require_base(base, operand.at())?;
        let operand = Box::new(self.alloc, operand)?;
        Ok(TypedExpression::new(Expression::Unary(prefix, operand), base))
    }

    /// An operator between its operands.
    #[cycle(expression)]
    #[inline(never)]
    #[tactic(auto, unfolding(crate::specs::Expressions::expression_finding))]
    fn resolve_binary(
        &self,
        operator: BinaryOperator,
        left: &syntax::Expression<'_>,
        right: &syntax::Expression<'_>,
    ) -> Result<TypedExpression, TypeFault>
        ensures { (at : ℕ) → Resolves typed_view result (expression_finding (names_of self.now)
            (BinaryTree at operator (expression_tree left.now) (expression_tree right.now))) }
    {
        let found = self.resolve_expression(left)?;
        let base = operands_base(operator, found.base);
        let given = found.base;
        let left = found.require_base(base, left.at())?;
        let right = self
            .resolve_expression(right)?
            .require_base(base, right.at())?;
        let made = combine(self.alloc, operator, given, left, right)?;
        Ok(TypedExpression::new(made, value_base(operator, given)))
    }

    /// Resolves an expression at a place that wants a type.
    ///
    /// # Errors
    ///
    /// What [`BodyScope::resolve_expression`] reports of it, and then 401 where its values have another type; or out of memory.
    #[inline(never)]
    #[tactic(auto, unfolding(crate::specs::Expressions::typed_finding))]
    pub fn type_expression(
        &self,
        base: BaseType,
        written: &syntax::Expression<'_>,
    ) -> Result<Expression, TypeFault>
        ensures { Resolves expression_of result
            (typed_finding (names_of self.now) base (expression_tree written.now)) }
    {
        self.resolve_expression(written)?
            .require_base(base, written.at())
    }
}
