//! A program, which is made only of a tree that tokens can spell.

ghost use Rattle.common.specs.declared.limits.TheConstants.{MAX_LEVELS};
ghost use Rattle.std.specs.Prelude.{◌≡◌};
ghost use Rattle.syntax.specs.Nesting.{IsNested};
ghost use Rattle.syntax.specs.Tree.{program_tree};

use crate::tree::Item;
use std::marker::Model;

/// A program: its items, in the order of the text, of which its names are slices.
#[derive(Debug, Drop)]
pub struct Program<'a> {
    items: Vec<Item<'a>>,
}

impl<'a> Model for Program<'a> {
    ghost use Rattle.std.specs.Prelude.{List};
    ghost use Rattle.syntax.specs.declared.tree.Item.{Item};
    ghost use Rattle.syntax.specs.contracts.tree.Statement as statements;
    ghost use Rattle.std.specs.Coded.{codes};
    ghost use denote.Signature.{static_lft};

    ghost Value = { List Item };

    ghost coded = { Prim.hlevel (codes, (statements.the_row static_lft).coded) };

    ghost use Rattle.common.specs.declared.limits.TheConstants.{MAX_LEVELS};
    ghost use Rattle.syntax.specs.Nesting.{IsNested};
    ghost use Rattle.syntax.specs.Tree.{program_tree};

    ghost view = { λ program. program.items.items };

    ghost invariant = { λ program. IsNested MAX_LEVELS (program_tree program.items.items) };
}

impl<'a> Program<'a> {
    /// The program of these items. Precondition: they are nested at most 64 levels deep.
    pub fn new(items: Vec<Item<'a>>) -> Program<'a>
        requires nested { IsNested MAX_LEVELS (program_tree items.items) }
        ensures same { result ≡ items.entry.items }
    {
        Program { items }
    }

    /// The items, in the order of the text.
    pub fn items(&self) -> &[Item<'a>]
        ensures same { result.now ≡ self.now }

        // They are nested at most 64 levels deep.
        ensures nested { IsNested MAX_LEVELS (program_tree self.now) }
    {
        self.items.as_slice()
    }
}
