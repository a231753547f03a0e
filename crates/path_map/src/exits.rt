//! What a path map keeps of the possible exits of a statement or block.
ghost use Rattle.path_map.specs.Exits.{exits_of, for_all, single_exit};
ghost use Rattle.path_map.specs.Joins.{after, join, join_raised, of_loop, only_raised};
ghost use Rattle.path_map.specs.PathMaps.{value_at};
ghost use Rattle.resolved.specs.Exits.{one_exit};
ghost use Rattle.resolved.specs.Labelled.{as_one_exit};
ghost use Rattle.resolved.specs.declared.statement.Exit.{Exit};
ghost use Rattle.std.specs.Prelude.{List, map, true, ℕ, ◌≡◌};

use resolved::statement::Exit;

/// The exceptions among possible exits: none, this one only, or more than one.
#[derive(Clone, Copy, Debug, PartialEq, Eq)]
pub enum Raised {
    Nothing,
    One(u32),
    Several,
}

/// A `T` for each exception, by its number.
pub trait ExceptionMap<T> {
    ghost value_of: { Self → ℕ → T };

    /// What there is for an exception.
    fn get(&self, exception: u32) -> T
        ensures { result ≡ value_of self.now exception };
}

/// A `T` for each exit of a statement or block: a finite map. It has one of its own for each exit that is no exception, and an `E` that
/// has one for each exception, of which there may be a thousand.
#[derive(Clone, Copy, Debug, PartialEq, Eq)]
pub struct PathMap<T, E> {
    pub normal: T,
    pub returns: T,
    pub breaks: T,
    pub continues: T,
    pub raised: E,
}

/// The possible exits of a statement or block: whether each of the four exits that are no exception is among them, and which
/// exceptions are.
pub type Exits = PathMap<bool, Raised>;

impl Raised {
    // The summary of the exceptions of two lists.
    pub(crate) fn join(self, other: Raised) -> Raised
        ensures { result ≡ join_raised self other }
    {
        match (self, other) {
            (Raised::Nothing, _) => other,
            (_, Raised::Nothing) => self,
            (Raised::One(exception), Raised::One(again)) if exception == again => self,
            _ => Raised::Several,
        }
    }
}

impl<T: Copy, E> PathMap<T, E> {
    /// The same for each exit that is no exception.
    pub fn of_all(value: T, raised: E) -> PathMap<T, E>
        ensures { result ≡ for_all value raised }
    {
        PathMap {
            normal: value,
            returns: value,
            breaks: value,
            continues: value,
            raised,
        }
    }

    /// The same for each exit that is no exception, and this for exceptions.
    pub fn with_raised<F>(&self, raised: F) -> PathMap<T, F>
        ensures raised { result.raised ≡ raised }
        ensures others { (of_raised : F → ℕ → T) (exit : Exit) →
            value_at of_raised result exit
            ≡ value_at (λ _. of_raised raised) self.now exit }
    {
        PathMap {
            normal: self.normal,
            returns: self.returns,
            breaks: self.breaks,
            continues: self.continues,
            raised,
        }
    }
}

impl<T: Copy, E: ExceptionMap<T>> PathMap<T, E> {
    /// What there is for an exit.
    pub fn at(&self, exit: Exit) -> T
        ensures { result ≡ value_at E.value_of self.now exit }
    {
        match exit {
            Exit::Normal => self.normal,
            Exit::Return => self.returns,
            Exit::Break => self.breaks,
            Exit::Continue => self.continues,
            Exit::Throw(exception) => self.raised.get(exception),
        }
    }
}

impl Exits {
    // The summary of these exceptions as exits.
    pub(crate) fn raise_only(raised: Raised) -> Exits
        ensures { result ≡ only_raised raised }
    {
        Exits::of_all(false, raised)
    }

    // The summary of a normal exit and these exceptions.
    pub(crate) fn go_on_or_raise(raised: Raised) -> Exits
        ensures { result ≡ record (only_raised raised) { normal = true } }
    {
        Exits {
            normal: true,
            ..Exits::raise_only(raised)
        }
    }

    // The summary of a return and these exceptions.
    pub(crate) fn return_or_raise(raised: Raised) -> Exits
        ensures { result ≡ record (only_raised raised) { returns = true } }
    {
        Exits {
            returns: true,
            ..Exits::raise_only(raised)
        }
    }

    // The summary of the same exits with these exceptions in place of theirs.
    pub(crate) fn with(self, raised: Raised) -> Exits
        ensures { result ≡ record self { raised = raised } }
    {
        Exits { raised, ..self }
    }

    // The summary of the exits of two lists.
    pub(crate) fn join(self, other: Exits) -> Exits
        ensures { result ≡ join self other }
    {
        Exits {
            normal: self.normal || other.normal,
            returns: self.returns || other.returns,
            breaks: self.breaks || other.breaks,
            continues: self.continues || other.continues,
            raised: self.raised.join(other.raised),
        }
    }

    // The summary of the exits of a statement and of what follows it.
    pub(crate) fn then(self, rest: Exits) -> Exits
        ensures { result ≡ after self rest }
    {
        if !self.normal {
            return self;
        }
        let leaving = Exits {
            normal: false,
            ..self
        };
        leaving.join(rest)
    }

    // The summary of the exits of a loop with this body, but for its condition.
    pub(crate) fn of_loop(self) -> Exits
        ensures { result ≡ of_loop self }
    {
        Exits {
            normal: true,
            breaks: false,
            continues: false,
            ..self
        }
    }

    /// The possible exit, where there is one only. Most statements have the normal exit only.
    #[inline(always)]
    pub fn single(self) -> Option<Exit>
        ensures { (ends : List Exit) → self ≡ exits_of ends → result ≡ single_exit ends }
    {
        match (
            self.normal,
            self.returns,
            self.breaks,
            self.continues,
            self.raised,
        ) {
            (true, false, false, false, Raised::Nothing) => Some(Exit::Normal),
            _ => self.single_by_fields(),
        }
    }

    // The possible exit, where there is one only, whichever it is.
    // A call, since the fields are taken out of one word bit by bit where this stands inside another function.
    #[inline(never)]
    fn single_by_fields(self) -> Option<Exit>
        ensures { (ends : List Exit) → self ≡ exits_of ends → result ≡ single_exit ends }
    {
        match (
            self.normal,
            self.returns,
            self.breaks,
            self.continues,
            self.raised,
        ) {
            (true, false, false, false, Raised::Nothing) => Some(Exit::Normal),
            (false, true, false, false, Raised::Nothing) => Some(Exit::Return),
            (false, false, true, false, Raised::Nothing) => Some(Exit::Break),
            (false, false, false, true, Raised::Nothing) => Some(Exit::Continue),
            (false, false, false, false, Raised::One(exception)) => Some(Exit::Throw(exception)),
            _ => None,
        }
    }

    /// Whether there is one possible exit only.
    pub fn is_single(self) -> bool
        ensures { (ends : List Exit) → self ≡ exits_of ends → result ≡ one_exit ends }
    {
        self.single().is_some()
    }

    /// Whether there is one possible exit only, where a normal exit and a return are one exit, as they are for a procedure.
    pub fn is_single_of_procedure(self) -> bool
        ensures { (ends : List Exit) → self ≡ exits_of ends →
            result ≡ one_exit (map as_one_exit ends) }
    {
        let joined = Exits {
            normal: self.normal || self.returns,
            returns: false,
            ..self
        };
        joined.is_single()
    }
}
