use common::{OrNoMemory, RefusalAt};

/// What can be wrong with the names, types and sizes of a program.
#[derive(Clone, Copy, Debug, PartialEq, Eq, Drop)]
pub enum TypeRefusalKind {
    /// 301: a name that is not declared, or not in scope.
    UnknownName,
    /// 302: a name that is declared already.
    DeclaredTwice,
    /// 303: a principal that the hierarchy lacks.
    UnknownPrincipal,
    /// 304: no procedure is called `main`, or it has parameters or a value.
    NoProperMain,
    /// 305: a label that names a local which is written without one.
    LabelNotWritten,
    /// 401: a value of another type than its place wants.
    WrongType,
    /// 402: a call with more or fewer arguments than its procedure has parameters.
    WrongArgumentCount,
    /// 403: a name that stands for something else than its place wants.
    WrongUse,
    /// 703: an array without elements, or with more than 65,536.
    ArraySize,
    /// 704: more than 1,048,576 cells of the globals, or of the parameters and locals of a procedure.
    TooManyCells,
}

/// Why a syntax tree has no resolved one: what is wrong, and the byte at which it stands.
pub type TypeRefusal = RefusalAt<TypeRefusalKind>;

/// Why a syntax tree gave no resolved one.
pub type TypeFault = OrNoMemory<TypeRefusal>;
