ghost use Rattle.std.specs.Prelude.{◌≡◌};
ghost use Rattle.script_lines.specs.Script.{ended_says, last_says};
ghost use Rattle.script_events.specs.Scripts.{every_command};

use script_lines::{Allowed, Line, MAX_LINE, read_ended_line, read_last_line};

// What a setup may have: every command, and no line that sets a lane to work.
const EVERY_COMMAND: Allowed = Allowed {
    questions: true,
    lanes: 0,
};

/// What a line of any length says that ended in LF; it comes without it.
pub fn ended_line(line: &[u8]) -> Line
    ensures { result ≡ ended_says (every_command 0) line.now }
{
    if line.len() > MAX_LINE {
        return Line::Bad;
    }
    read_ended_line(EVERY_COMMAND, line)
}

/// What a last line of any length says that lacks its LF; an empty one says nothing.
pub fn last_line(line: &[u8]) -> Line
    ensures { result ≡ last_says (every_command 0) line.now }
{
    if line.len() > MAX_LINE {
        return Line::Bad;
    }
    read_last_line(EVERY_COMMAND, line)
}
