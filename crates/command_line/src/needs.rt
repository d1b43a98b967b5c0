use crate::types::Command;

/// What a command reads on standard input.
#[derive(Clone, Copy, PartialEq, Eq)]
pub enum Input {
    /// The lines of a script.
    Script,
    /// The records of a table, of which the first has the names of its columns.
    Table,
    /// A plan of lanes and doors, in TOML.
    Plan,
    /// A paper, of which it wants to know the least bad line.
    Paper,
    /// Shipments of rows, one after another.
    Shipments,
    /// Nothing, or bytes that have no lines.
    Other,
}

/// How a command has a book.
#[derive(Clone, Copy, PartialEq, Eq)]
pub enum BookUse {
    /// It adds rows, which are meant to be kept.
    Adds,
    /// It makes one for itself, in memory.
    Makes,
    /// It opens it, and adds nothing.
    Reads,
    /// It looks at the bytes of its file, and opens no book.
    Examines,
    /// It has none.
    Leaves,
}

/// What a command needs beside its words.
#[derive(Clone, Copy, PartialEq, Eq)]
pub struct Needs {
    /// What it reads on standard input.
    pub input: Input,
    /// How it has a book.
    pub book: BookUse,
}

/// What a command needs: the one list of this.
pub fn needs_of(command: Command) -> Needs {
    let (input, book) = match command {
        Command::Run => (Input::Script, BookUse::Adds),
        Command::Serve => (Input::Plan, BookUse::Adds),
        Command::Import => (Input::Table, BookUse::Adds),
        Command::Migrate => (Input::Other, BookUse::Adds),
        Command::Follow => (Input::Shipments, BookUse::Adds),
        Command::Trial => (Input::Other, BookUse::Makes),
        Command::Report
        | Command::Export
        | Command::Check
        | Command::Ship
        | Command::Paper
        | Command::List
        | Command::Acts => (Input::Other, BookUse::Reads),
        Command::Audit => (Input::Other, BookUse::Examines),
        Command::Prove => (Input::Paper, BookUse::Leaves),
    };
    Needs { input, book }
}
