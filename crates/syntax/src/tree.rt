//! The nodes of a syntax tree. Each node has the byte of the text at which it begins (`at`); a node that begins with another one has
//! that one's. Names are slices of the source, so a tree lives no longer than that.

ghost use Rattle.std.specs.Prelude.{◌≡◌, map, None, Some};
ghost use Rattle.syntax.specs.Tree.{expression_tree, expression_at, statement_tree, statement_at, item_tree, item_at, block_tree, catch_tree, catches_of, if_tree, WhileTree, TryTree, NestedTree};

use common::{Arithmetic, BaseType, Comparison, Connective, Direction, Prefix};

/// A name, which is a slice of the source, and where it stands.
#[derive(Clone, Copy, Debug)]
pub struct Name<'a> {
    pub at: usize,
    pub text: &'a str,
}

/// A component of a label.
#[derive(Clone, Copy, Debug)]
pub enum Component<'a> {
    /// A policy: the owner, and the readers that the owner names.
    Policy {
        owner: Name<'a>,
        readers: &'a [Name<'a>],
    },
    /// A variable, for the policies of its label.
    Variable(Name<'a>),
}

/// A label as it is written: its components, in the order of the text.
#[derive(Clone, Copy, Debug)]
pub struct WrittenLabel<'a> {
    pub at: usize,
    pub components: &'a [Component<'a>],
}

/// An operator between its operands.
#[derive(Clone, Copy, Debug, PartialEq, Eq)]
pub enum BinaryOperator {
    Compute(Arithmetic),
    Compare(Comparison),
    Connect(Connective),
}

/// An expression. Parentheses leave no trace. Its operands lie in the arena of its tree.
#[derive(Clone, Copy, Debug)]
#[cycle(expression)]
pub enum Expression<'a> {
    Integer {
        at: usize,
        value: u32,
    },
    Truth {
        at: usize,
        value: bool,
    },
    Variable(Name<'a>),
    Element(&'a Element<'a>),
    Unary {
        at: usize,
        operator: Prefix,
        operand: &'a Expression<'a>,
    },
    /// It begins where its left operand does.
    Binary {
        at: usize,
        operator: BinaryOperator,
        operands: &'a (Expression<'a>, Expression<'a>),
    },
}

/// An element of an array.
#[derive(Clone, Copy, Debug)]
#[cycle(expression)]
pub struct Element<'a> {
    pub array: Name<'a>,
    pub index: Expression<'a>,
}

impl<'a> Expression<'a> {
    /// The byte at which the expression begins.
    pub fn at(&self) -> usize
        ensures { result ≡ expression_at (expression_tree self.now) }
    {
        match self {
            Expression::Integer { at, .. }
            | Expression::Truth { at, .. }
            | Expression::Unary { at, .. }
            | Expression::Binary { at, .. } => *at,
            Expression::Variable(name) => name.at,
            Expression::Element(element) => element.array.at,
        }
    }
}

/// A call of a procedure with its arguments.
#[derive(Clone, Copy, Debug)]
pub struct Call<'a> {
    pub procedure: Name<'a>,
    pub arguments: &'a [Expression<'a>],
}

/// What is assigned: a number that is received, the value of a call, or that of an expression.
#[derive(Clone, Copy, Debug)]
pub enum RightSide<'a> {
    Receive { at: usize, channel: Name<'a> },
    Call(&'a Call<'a>),
    Value(Expression<'a>),
}

/// The size of an array, and where it stands.
#[derive(Clone, Copy, Debug)]
pub struct Size {
    pub at: usize,
    pub size: u32,
}

/// A statement. What is caught by a `try` stands in the order of the text. Most of a tree's memory are statements, so what is rare or
/// large in one lies elsewhere, and the base of a declaration stands first, beside what tells the kinds apart.
#[derive(Debug, Drop)]
#[cycle(statement)]
pub enum Statement<'a> {
    /// The declaration of a variable with its first value.
    Declare {
        base: BaseType,
        at: usize,
        label: &'a Option<WrittenLabel<'a>>,
        name: Name<'a>,
        value: RightSide<'a>,
    },
    /// The declaration of an array of a size.
    DeclareArray {
        base: BaseType,
        at: usize,
        label: &'a Option<WrittenLabel<'a>>,
        name: Name<'a>,
        size: Size,
    },
    Assign {
        target: Name<'a>,
        value: RightSide<'a>,
    },
    /// The assignment of a value to the element at an index.
    AssignElement {
        element: &'a Element<'a>,
        value: Expression<'a>,
    },
    /// A call whose value, if there is one, is dropped.
    Call(Call<'a>),
    /// The receipt of a number that is dropped.
    Receive {
        at: usize,
        channel: Name<'a>,
    },
    Send {
        at: usize,
        channel: Name<'a>,
        value: Expression<'a>,
    },
    If {
        at: usize,
        condition: Expression<'a>,
        accepted: Block<'a>,
    },
    /// A condition with an `else`.
    IfElse {
        at: usize,
        condition: Expression<'a>,
        accepted: Block<'a>,
        otherwise: Box<Block<'a>>,
    },
    While {
        at: usize,
        condition: Expression<'a>,
        body: Block<'a>,
    },
    Break {
        at: usize,
    },
    Continue {
        at: usize,
    },
    Throw {
        at: usize,
        exception: Name<'a>,
    },
    Return {
        at: usize,
        value: Option<Expression<'a>>,
    },
    Try {
        at: usize,
        body: Block<'a>,
        catches: Vec<Catch<'a>>,
    },
    /// A block among the statements of another one.
    Nested(Block<'a>),
}

/// Statements in braces.
#[derive(Debug, Drop)]
#[cycle(statement)]
pub struct Block<'a> {
    pub at: usize,
    pub statements: Vec<Statement<'a>>,
}

/// The handler of an exception.
#[derive(Debug, Drop)]
#[cycle(statement)]
pub struct Catch<'a> {
    pub at: usize,
    pub exception: Name<'a>,
    pub body: Block<'a>,
}

/// The declaration of a channel.
#[derive(Clone, Copy, Debug)]
pub struct Channel<'a> {
    pub at: usize,
    pub direction: Direction,
    pub label: WrittenLabel<'a>,
    pub name: Name<'a>,
}

/// A constant. An integer may have a minus sign before it, and then begins there.
#[derive(Clone, Copy, Debug)]
pub enum Constant {
    Integer {
        at: usize,
        negative: bool,
        value: u32,
    },
    Truth {
        at: usize,
        value: bool,
    },
}

/// A scalar with its first value, or an array.
#[derive(Clone, Copy, Debug)]
pub enum GlobalValue {
    Scalar(Constant),
    Array(Size),
}

/// The declaration of a global.
#[derive(Clone, Copy, Debug)]
pub struct GlobalVariable<'a> {
    pub at: usize,
    pub base: BaseType,
    pub label: WrittenLabel<'a>,
    pub name: Name<'a>,
    pub value: GlobalValue,
}

/// What a procedure answers: nothing, or a value of a type with a label.
#[derive(Clone, Copy, Debug)]
pub enum WrittenResult<'a> {
    Nothing,
    Value {
        base: BaseType,
        label: WrittenLabel<'a>,
    },
}

/// A parameter of a procedure.
#[derive(Clone, Copy, Debug)]
pub struct Parameter<'a> {
    pub at: usize,
    pub base: BaseType,
    pub label: WrittenLabel<'a>,
    pub name: Name<'a>,
}

/// An exception that a procedure may throw, and the label of that.
#[derive(Clone, Copy, Debug)]
pub struct Thrown<'a> {
    pub name: Name<'a>,
    pub label: WrittenLabel<'a>,
}

/// The declaration of a procedure, with its begin label and its end label where they are written.
#[derive(Debug, Drop)]
pub struct Procedure<'a> {
    pub at: usize,
    pub result: WrittenResult<'a>,
    pub name: Name<'a>,
    pub begin: Option<WrittenLabel<'a>>,
    pub parameters: Vec<Parameter<'a>>,
    pub end: Option<WrittenLabel<'a>>,
    pub throws: Vec<Thrown<'a>>,
    pub body: Block<'a>,
}

/// What stands at the top of a program.
#[derive(Debug, Drop)]
pub enum Item<'a> {
    Channel(Channel<'a>),
    Exception { at: usize, name: Name<'a> },
    Global(GlobalVariable<'a>),
    Procedure(Procedure<'a>),
}

impl<'a> Statement<'a> {
    /// The byte at which the statement begins.
    pub fn at(&self) -> usize
        ensures { result ≡ statement_at (statement_tree self.now) }
    {
        match self {
            Statement::Declare { at, .. }
            | Statement::DeclareArray { at, .. }
            | Statement::Receive { at, .. }
            | Statement::Send { at, .. }
            | Statement::If { at, .. }
            | Statement::IfElse { at, .. }
            | Statement::While { at, .. }
            | Statement::Break { at }
            | Statement::Continue { at }
            | Statement::Throw { at, .. }
            | Statement::Return { at, .. }
            | Statement::Try { at, .. } => *at,
            Statement::Assign { target: name, .. }
            | Statement::Call(
                Call {
                    procedure: name,
                    ..
                },
            ) => name.at,
            Statement::AssignElement { element, .. } => element.array.at,
            Statement::Nested(block) => block.at,
        }
    }

    /// A condition with what is done under it.
    pub fn make_if(at: usize, condition: Expression<'a>, accepted: Block<'a>) -> Statement<'a>
        ensures { statement_tree result
            ≡ if_tree at (expression_tree condition.entry) (block_tree accepted.entry) None }
    {
        Statement::If {
            at,
            condition,
            accepted,
        }
    }

    /// A condition with what is done under it, and what is done otherwise.
    pub fn make_if_else(
        at: usize,
        condition: Expression<'a>,
        accepted: Block<'a>,
        otherwise: Box<Block<'a>>,
    ) -> Statement<'a>
        ensures { statement_tree result ≡ if_tree at (expression_tree condition.entry)
            (block_tree accepted.entry) (Some (block_tree otherwise.entry.value)) }
    {
        Statement::IfElse {
            at,
            condition,
            accepted,
            otherwise,
        }
    }

    /// A loop under a condition.
    pub fn make_while(at: usize, condition: Expression<'a>, body: Block<'a>) -> Statement<'a>
        ensures { statement_tree result
            ≡ WhileTree at (expression_tree condition.entry) (block_tree body.entry) }
    {
        Statement::While {
            at,
            condition,
            body,
        }
    }

    /// A block, and the handlers of its exceptions.
    pub fn make_try(at: usize, body: Block<'a>, catches: Vec<Catch<'a>>) -> Statement<'a>
        ensures { statement_tree result
            ≡ TryTree at (block_tree body.entry)
            (catches_of (map catch_tree catches.entry.items)) }
    {
        Statement::Try { at, body, catches }
    }

    /// A block among the statements of another one.
    pub fn make_nested(body: Block<'a>) -> Statement<'a>
        ensures { statement_tree result ≡ NestedTree (block_tree body.entry) }
    {
        Statement::Nested(body)
    }
}

impl<'a> Item<'a> {
    /// The byte at which the item begins.
    pub fn at(&self) -> usize
        ensures { result ≡ item_at (item_tree self.now) }
    {
        match self {
            Item::Channel(channel) => channel.at,
            Item::Exception { at, .. } => *at,
            Item::Global(global) => global.at,
            Item::Procedure(procedure) => procedure.at,
        }
    }
}
