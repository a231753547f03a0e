use common::OrNoMemory;
use thiserror::Error;

/// The most steps that `--steps` takes.
pub const MAX_STEPS: u64 = 1_000_000_000_000;

/// The steps that a run takes at most where `--steps` is not given.
pub const DEFAULT_STEPS: u64 = 1_000_000;

/// What a command line asks for. Files are named by their paths.
#[derive(Debug, PartialEq, Eq, Drop)]
pub enum Task {
    /// Check a source under a hierarchy.
    Check {
        hier: String,
        src: String,
    },
    /// Compile a source under a hierarchy, and write the module to the file `out`.
    Build {
        hier: String,
        src: String,
        out: String,
    },
    /// Run a module on a world for at most a number of steps, and show what this principal may read, or all of it where none is
    /// named. The principals are those of the hierarchy `under`, or of the module's own where none is named.
    Run {
        file: String,
        world: String,
        under: Option<String>,
        observer: Option<String>,
        steps: u64,
    },
    /// List the code of a module.
    List {
        file: String,
    },
    /// Explain the labels of a source under a hierarchy, or why a flow is refused.
    Explain {
        hier: String,
        src: String,
    },
}

impl Task {
    ghost use Rattle.command_line.specs.Task.{paths_of};
    ghost use Rattle.std.specs.Prelude.{option_map, slice_get, ◌≡◌};

    /// The path of one of the files that the task reads, which count from 0 in the order in which the task names them.
    pub fn path(&self, index: usize) -> Option<&str>
        ensures { option_map (λ path. path.now) result ≡ slice_get (paths_of self.now) index }
    {
        let (first, second, third) = match self {
            Task::Check { hier, src }
            | Task::Build { hier, src, .. }
            | Task::Explain { hier, src } => (hier, Some(src), None),
            Task::Run {
                file,
                world,
                under,
                ..
            } => (file, Some(world), under.as_ref()),
            Task::List { file } => (file, None, None),
        };
        match index {
            0 => Some(first.as_str()),
            1 => second.map(|path| path.as_str()),
            2 => third.map(|path| path.as_str()),
            _ => None,
        }
    }
}

/// Wrong words, or words that ask for help: the text for standard error.
#[derive(Debug, Drop, Error)]
#[error("{text}")]
pub struct TaskRefusal {
    pub text: String,
}

/// Why a command line is no task.
pub type TaskFault = OrNoMemory<TaskRefusal>;
