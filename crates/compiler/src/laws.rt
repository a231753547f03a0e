//! What it means that the code of a module is typed.

ghost use Rattle.compiler.specs.Laws.{TypedIsNotRefused};

/// The code of a module is typed exactly where no rule of the verifier refuses it, so `verify` takes what is compiled.
pub fn typed_modules_are_not_refused()
    ensures { TypedIsNotRefused }
{}
