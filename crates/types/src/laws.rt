//! Laws of the definitions, each the contract of a function that does nothing.

ghost use Rattle.types.specs.Laws.{ChannelLabelsAreCanonical, HierarchyIsKept, NamesAreDifferent, NamesAreProper, NamesAreUtf8, NumbersReadAsNames, RunsBeginAtMain, WhatIsFoundIsWellFormed};
ghost use Rattle.types.specs.ReadBack.{ProgramsReadAsWritten};

/// The resolved program that a syntax tree stands for under a hierarchy is well formed: each expression has the type that its place
/// wants, each number is that of an entry of the tables, arguments match parameters, and the limits are kept.
pub fn found_programs_are_well_formed()
    ensures { WhatIsFoundIsWellFormed }
{}

/// The names of exceptions, channels, globals and procedures of the resolved program are names of the language of at most 1 MiB, and
/// they and the built-in exceptions are all different.
pub fn item_names_are_proper_and_different()
    ensures proper { NamesAreProper }
    ensures different { NamesAreDifferent }
{}

/// The names of these items are UTF-8 where those of the tree are.
pub fn item_names_are_utf8()
    ensures { NamesAreUtf8 }
{}

/// The program that a tree stands for keeps the hierarchy under which it is resolved, and the labels of its channels are canonical:
/// policies and readers ascend, each once, and no owner is among the readers of its policy.
pub fn hierarchies_and_channel_labels_are_kept()
    ensures hierarchy { HierarchyIsKept }
    ensures labels { ChannelLabelsAreCanonical }
{}

/// Each name in scope at the top level stands for the entry of that name in its table, under the number by which it is used. The
/// program reads as it is written: each number in a body is that of the innermost declaration in scope of the name that the text
/// uses there. A run begins at the procedure that is called `main`.
pub fn numbers_read_as_names()
    ensures numbers { NumbersReadAsNames }
    ensures written { ProgramsReadAsWritten }
    ensures main { RunsBeginAtMain }
{}
