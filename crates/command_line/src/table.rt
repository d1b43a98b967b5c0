ghost use Rattle.std.specs.Prelude.{◌≡◌};
ghost use Rattle.command_line.specs.Taken.{form_seen};
ghost use Rattle.command_line.specs.Words.{command_of, form_of};

use crate::types::Command;
use hall_limits::{MAX_DOOR, MAX_LANE, MAX_ROWS, MAX_TRIAL};

/// The command that a word names.
pub fn find_command(word: &str) -> Option<Command>
    ensures { result ≡ command_of word.now }
{
    match word {
        "run" => Some(Command::Run),
        "serve" => Some(Command::Serve),
        "report" => Some(Command::Report),
        "export" => Some(Command::Export),
        "check" => Some(Command::Check),
        "import" => Some(Command::Import),
        "trial" => Some(Command::Trial),
        "migrate" => Some(Command::Migrate),
        "ship" => Some(Command::Ship),
        "follow" => Some(Command::Follow),
        "paper" => Some(Command::Paper),
        "prove" => Some(Command::Prove),
        "list" => Some(Command::List),
        "audit" => Some(Command::Audit),
        "acts" => Some(Command::Acts),
        _ => None,
    }
}

/// What stands behind the word of a command.
#[derive(Clone, Copy)]
pub enum Form {
    /// Options of these names, each at most once, in any order.
    Options(&'static [&'static str]),
    /// Options of these names, each exactly once, in any order.
    Needed(&'static [&'static str]),
    /// A value for each of these names, in this order.
    Places(&'static [&'static str]),
}

/// What stands behind the word of a command.
pub fn form_of(command: Command) -> Form
    ensures { form_seen result ≡ form_of command }
{
    match command {
        Command::Run => Form::Options(&["book", "limit", "lanes", "cells", "remote"]),
        Command::Serve => Form::Options(&[
            "book",
            "limit",
            "lanes",
            "cells",
            "remote",
            "doors",
            "port",
            "connections",
        ]),
        Command::Report => Form::Options(&["book", "batch"]),
        Command::Export => Form::Options(&["book"]),
        Command::Check => Form::Options(&["book"]),
        Command::Import => Form::Options(&["book", "limit"]),
        Command::Trial => Form::Places(&["number", "count"]),
        Command::Migrate => Form::Options(&["book"]),
        Command::Ship => Form::Options(&["book", "after"]),
        Command::Follow => Form::Options(&["book", "shipments"]),
        Command::Paper => Form::Needed(&["book", "batch"]),
        Command::Prove => Form::Options(&[]),
        Command::List => Form::Options(&["book", "limit"]),
        Command::Audit => Form::Options(&["book", "rows"]),
        Command::Acts => Form::Options(&["book", "after"]),
    }
}

/// A value that is a number: its range, and what it is where it isn't given.
#[derive(Clone, Copy)]
pub struct NumberForm {
    pub least: u64,
    pub most: u64,
    pub absent: u64,
}

/// The most rows of the book.
pub const LIMIT: NumberForm = NumberForm {
    least: 1,
    most: MAX_ROWS as u64,
    absent: MAX_ROWS as u64,
};

/// How many lanes there are.
pub const LANES: NumberForm = NumberForm {
    least: 0,
    most: MAX_LANE as u64,
    absent: 0,
};

/// The greatest port of door 1, and of the cell of lane 1: as many ports stand above it as there may
/// be doors besides, and no fewer than there may be lanes.
pub const MAX_PORT: u16 = u16::MAX - (MAX_DOOR as u16 - 1);

/// The most connections of a door: one fewer than a door of the office serves at most, so that it
/// ends by itself.
pub const MAX_DOOR_CONNECTIONS: u32 = 999_999;

/// How many doors the office has.
pub const DOORS: NumberForm = NumberForm {
    least: 0,
    most: MAX_DOOR as u64,
    absent: 0,
};

/// The port of door 1; the range is that of the port of lane 1's cell, too.
pub const PORT: NumberForm = NumberForm {
    least: 1,
    most: MAX_PORT as u64,
    absent: 8_080,
};

/// How many connections each door serves.
pub const CONNECTIONS: NumberForm = NumberForm {
    least: 1,
    most: MAX_DOOR_CONNECTIONS as u64,
    absent: 1,
};

/// The number that the weights of a trial are made from.
pub const NUMBER: NumberForm = NumberForm {
    least: 0,
    most: u64::MAX,
    absent: 0,
};

/// How many packs a trial weighs.
pub const COUNT: NumberForm = NumberForm {
    least: 1,
    most: MAX_TRIAL as u64,
    absent: 0,
};

/// Of how many rows a fingerprint is.
pub const ROWS: NumberForm = NumberForm {
    least: 0,
    most: MAX_ROWS as u64,
    absent: MAX_ROWS as u64,
};

/// The most shipments that are followed, one right after another: a day of eleven a second.
pub const MAX_SHIPMENTS: u32 = 1_000_000;

/// How many shipments are followed at most.
pub const SHIPMENTS: NumberForm = NumberForm {
    least: 1,
    most: MAX_SHIPMENTS as u64,
    absent: 1,
};

/// How many rows a shipment or a book's text passes over.
pub const AFTER: NumberForm = NumberForm {
    least: 0,
    most: MAX_ROWS as u64,
    absent: 0,
};
