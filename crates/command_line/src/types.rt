use crate::text::Text;
use book_words::Name;
use std::fmt;

/// What the program is to do.
#[derive(Clone, Copy, PartialEq, Eq)]
pub enum Command {
    /// Reads a script: `run [--book PATH] [--limit N] [--lanes N] [--cells DIR] [--remote P]`
    Run,
    /// Reads a plan, and has its lanes and the doors of the office at work at once:
    /// `serve [--book PATH] [--limit N] [--lanes N] [--cells DIR] [--remote P] [--doors N]
    /// [--port P] [--connections C]`
    Serve,
    /// Prints the sheets of all batches, or that of one: `report [--book PATH] [--batch NAME]`
    Report,
    /// Prints the register of all packs: `export [--book PATH]`
    Export,
    /// Says whether a book is whole: `check [--book PATH]`
    Check,
    /// Reads the acts of desks from a table: `import [--book PATH] [--limit N]`
    Import,
    /// Makes a script of COUNT packs, and runs it: `trial NUMBER COUNT`
    Trial,
    /// Carries a journal of version 1 into a book: `migrate [--book PATH]`
    Migrate,
    /// Writes the rows of a book behind the first so many: `ship [--book PATH] [--after N]`
    Ship,
    /// Adds the rows of shipments to a book, one after another: `follow [--book PATH]
    /// [--shipments N]`
    Follow,
    /// Writes the paper of a closed batch: `paper --book PATH --batch NAME`
    Paper,
    /// Proves that a paper is true: `prove`
    Prove,
    /// Says what is in force in a book: `list [--book PATH] [--limit N]`
    List,
    /// Tells whether slots and snapshot of a book agree, and the fingerprint of its first rows:
    /// `audit --book PATH [--rows N]`
    Audit,
    /// Writes a book as text, from behind the first so many rows on: `acts [--book PATH] [--after N]`
    Acts,
}

/// What the words of the command line ask for.
#[derive(Drop)]
pub struct Wants {
    pub command: Command,
    /// The path of the book; without one the book is kept in memory.
    pub book: Option<Text>,
    /// The batch whose sheet is reported, without one all are; the batch of a paper.
    pub batch: Option<Name>,
    /// The most rows of the book, 1 to `MAX_ROWS`.
    pub limit: u32,
    /// How many lanes are at work, 0 to `MAX_LANE`; in a run, how many the script may work.
    pub lanes: u8,
    /// How many doors the office has, 0 to `MAX_DOOR`; 0 for other commands than `serve`.
    pub doors: u8,
    /// The folder of the lanes' files; without one it is the folder that the program runs in.
    pub cells: Option<Text>,
    /// The port of door 1 on 127.0.0.1, 1 to `MAX_PORT`; that of door J is J - 1 above it. It is
    /// 8 080 for other commands than `serve`.
    pub port: u16,
    /// How many connections each door serves, 1 to `MAX_DOOR_CONNECTIONS`; 1 for other commands
    /// than `serve`.
    pub connections: u32,
    /// The number that the weights of a trial are made from; 0 for other commands.
    pub number: u64,
    /// How many packs a trial weighs, 1 to `MAX_TRIAL`; 0 for other commands.
    pub count: u32,
    /// The port on 127.0.0.1 at which the cell of lane 1 listens, 1 to `MAX_PORT`; that of lane I is
    /// I - 1 above it. Without one the cells are files.
    pub remote: Option<u16>,
    /// How many rows a shipment or a book's text passes over, 0 to `MAX_ROWS`; 0 for other commands.
    pub after: u32,
    /// How many rows a fingerprint is of, 0 to `MAX_ROWS`, the first ones; `MAX_ROWS` for other
    /// commands.
    pub rows: u32,
    /// How many shipments are followed at most, 1 to `MAX_SHIPMENTS`; 1 for other commands.
    pub shipments: u32,
}

/// Why the words give nothing.
#[derive(Clone, Copy, PartialEq, Eq)]
pub enum WantsError {
    /// They are outside the grammar.
    Usage,
    /// There was no memory for the path.
    NoMemory,
}

impl fmt::Display for WantsError {
    fn fmt<W: fmt::Write>(&self, f: &mut fmt::Formatter<W>) -> fmt::Result {
        match self {
            WantsError::Usage => write!(f, "these words are no command of hall"),
            WantsError::NoMemory => write!(f, "no memory for the words"),
        }
    }
}
