//! How a call ends.
ghost use Rattle.std.specs.Prelude.{◌≡◌};
ghost use Rattle.pathfinder_run.specs.Statuses.{code_of};

use xq_base::Code;

/// Why a document is refused.
#[derive(Clone, Copy, Debug, PartialEq, Eq)]
pub enum DocFault {
    /// The bytes are no document of XML 1.0.
    NotWellFormed,
    /// The document names another encoding than UTF-8 or US-ASCII, or has an internal subset.
    Unsupported,
    /// A node's level passes 65,535.
    TooDeep,
}

/// How a call ends. `word` is the place of a word of the command line, counted from 0; None stands for
/// the number of documents.
#[derive(Clone, Copy, Debug, PartialEq, Eq)]
pub enum Status {
    /// The answer is written.
    Done,
    /// The static rules refuse the query.
    Static { code: Code, offset: Option<u64> },
    /// An evaluation fails; this is the first failure.
    Dynamic { code: Code, offset: Option<u64> },
    /// The document in this word's file is refused.
    DocRefused { word: usize, kind: DocFault },
    /// The shelf counted a fault while this word's file was read.
    ReadFault { word: usize },
    /// The sink of the answer counted a fault; it has taken a prefix of the answer.
    WriteFault,
    /// The words aren't in form.
    Usage,
    /// Want of memory.
    NoMemory,
    /// This word's file is longer than its limit.
    TooLarge { word: Option<usize> },
}

impl Status {
    /// The exit status of the program (own rule).
    pub fn code(self) -> u8
        ensures { result ≡ code_of self }
    {
        match self {
            Status::Done => 0,
            Status::Static { .. } => 1,
            Status::Dynamic { .. } => 2,
            Status::DocRefused { .. } => 3,
            Status::ReadFault { .. } => 4,
            Status::WriteFault => 5,
            Status::Usage => 6,
            Status::NoMemory => 7,
            Status::TooLarge { .. } => 9,
        }
    }
}
