ghost use Rattle.std.specs.Prelude.{◌≡◌, ◌≤◌, IfSome};
ghost use Rattle.command_line.specs.Words.{batch_in, given_number, number_in, values_in};
ghost use Rattle.command_line.specs.Taken.{bytes_in};
ghost use Rattle.command_line.specs.declared.table.TheConstants.{PORT};

use crate::table::{
    AFTER, CONNECTIONS, COUNT, DOORS, LANES, LIMIT, NUMBER, NumberForm, PORT, ROWS, SHIPMENTS,
};
use book_words::Name;
use hall_units::read_number;

/// The texts of values that have to be read, each where it is given.
#[derive(Clone, Copy)]
pub struct Texts<'a> {
    pub batch: Option<&'a str>,
    pub limit: Option<&'a str>,
    pub lanes: Option<&'a str>,
    pub doors: Option<&'a str>,
    pub port: Option<&'a str>,
    pub connections: Option<&'a str>,
    pub number: Option<&'a str>,
    pub count: Option<&'a str>,
    pub remote: Option<&'a str>,
    pub after: Option<&'a str>,
    pub rows: Option<&'a str>,
    pub shipments: Option<&'a str>,
}

/// The values that were read.
#[derive(Clone, Copy)]
pub struct Values {
    pub batch: Option<Name>,
    pub limit: u32,
    pub lanes: u8,
    pub doors: u8,
    pub port: u16,
    pub connections: u32,
    pub number: u64,
    pub count: u32,
    pub remote: Option<u16>,
    pub after: u32,
    pub rows: u32,
    pub shipments: u32,
}

/// What the texts of values say, where each is in its range.
pub fn read_values(texts: &Texts) -> Option<Values>
    ensures { result ≡ values_in (bytes_in texts.now.batch) (bytes_in texts.now.limit)
        (bytes_in texts.now.lanes) (bytes_in texts.now.doors) (bytes_in texts.now.port)
        (bytes_in texts.now.connections) (bytes_in texts.now.number) (bytes_in texts.now.count)
        (bytes_in texts.now.remote) (bytes_in texts.now.after) (bytes_in texts.now.rows)
        (bytes_in texts.now.shipments) }
{
    let batch = read_batch(texts.batch)?;
    let limit = read_within(&LIMIT, texts.limit)?;
    let lanes = read_within(&LANES, texts.lanes)?;
    let doors = read_within(&DOORS, texts.doors)?;
    let port = read_within(&PORT, texts.port)?;
    let connections = read_within(&CONNECTIONS, texts.connections)?;
    let number = read_within(&NUMBER, texts.number)?;
    let count = read_within(&COUNT, texts.count)?;
    let remote = read_port(texts.remote)?;
    let after = read_within(&AFTER, texts.after)?;
    let rows = read_within(&ROWS, texts.rows)?;
    let shipments = read_within(&SHIPMENTS, texts.shipments)?;
    Some(Values {
        batch,
        limit: limit as u32,
        lanes: lanes as u8,
        doors: doors as u8,
        port: port as u16,
        connections: connections as u32,
        number,
        count: count as u32,
        remote,
        after: after as u32,
        rows: rows as u32,
        shipments: shipments as u32,
    })
}

// The batch that a text names, if one is given: `None` where it isn't a name.
fn read_batch(given: Option<&str>) -> Option<Option<Name>>
    ensures { result ≡ batch_in (bytes_in given.entry) }
{
    let Some(text) = given else {
        return Some(None);
    };
    Some(Some(Name::new(text.as_bytes())?))
}

// The port that a text gives, if one is given: `None` where it isn't a port.
fn read_port(given: Option<&str>) -> Option<Option<u16>>
    ensures { result ≡ given_number PORT (bytes_in given.entry) }
{
    let Some(text) = given else {
        return Some(None);
    };
    let port = read_within(&PORT, Some(text))?;
    Some(Some(port as u16))
}

// The number that a value is: what its text says, where that is in its range, or what it is where
// no text is given.
fn read_within(form: &NumberForm, given: Option<&str>) -> Option<u64>
    requires { form.now.absent ≤ form.now.most }
    ensures value { result ≡ number_in form.now (bytes_in given.entry) }
    ensures most { IfSome result (λ number. number ≤ form.now.most) }
{
    let Some(text) = given else {
        return Some(form.absent);
    };
    let number = read_number(text.as_bytes())?;
    if number < form.least || number > form.most {
        return None;
    }
    Some(number)
}
