//! What a program answers.

use csp_scene::SceneKind;

/// The most bytes of a scenario.
pub const MAX_SCENARIO: usize = 1_048_576;

/// Which limit was reached.
#[derive(Clone, Copy, PartialEq, Eq)]
pub enum LimitKind {
    /// The bytes of a scenario, `MAX_SCENARIO`.
    Bytes,
    /// The entries of all logs together, `MAX_ENTRIES` of csp_world.
    Entries,
}

/// How a call of the program ends. The exit statuses are 0 to 6 in the order of the variants.
#[derive(Clone, Copy, PartialEq, Eq)]
pub enum Status {
    /// The source was read to its end, for `gen` not at all, and the whole report, summary or other text was written.
    Done,
    /// Memory was wanting. Nothing was written.
    NoMemory,
    /// The words ask for nothing, and nothing was read; of csptrace also, they name what the scenario lacks.
    Words,
    /// The source counted a fault, which it can't for `gen`. Nothing was written.
    ReadFault,
    /// The sink counted a fault. A prefix of the report, summary or text was written.
    WriteFault,
    /// The scenario is refused: its first refused line, from 1, and what is wrong with it.
    Scene {
        /// The number of the line.
        line: u32,
        /// What is wrong with it.
        kind: SceneKind,
    },
    /// A limit was reached. Nothing was written.
    Limit {
        /// Which.
        kind: LimitKind,
        /// The limit.
        number: u64,
    },
}

impl Status {
    ghost use Rattle.std.specs.Prelude.{◌≡◌};
    ghost use Rattle.csp_bench.specs.Said.{code_of};

    /// The exit status: 0 to 6, in the order of the variants.
    pub fn code(self) -> u8
        ensures { result ≡ code_of self }
    {
        match self {
            Status::Done => 0,
            Status::NoMemory => 1,
            Status::Words => 2,
            Status::ReadFault => 3,
            Status::WriteFault => 4,
            Status::Scene { .. } => 5,
            Status::Limit { .. } => 6,
        }
    }
}
