ghost use Rattle.std.specs.Prelude.{◌≡◌, [], ◌∷◌};
ghost use Rattle.trial_run.specs.Steps.{Asks};

use book_store::OneCaller;
use disk_core::Disk;
use script_events::ask_command;
use script_lines::Command;
use store_runs::Stop;

/// Asks a command as a script does; whatever the book answers, a trial goes on. Where the disk
/// fails or there is no memory, nothing is entered.
pub fn ask_one<D: Disk>(caller: &mut OneCaller<D>, command: &Command) -> Result<(), Stop>
    requires calm { caller.old.faults ≡ 0 }
    ensures asks { Asks D.Disk result caller.old caller.new (command.now ∷ []) }
{
    let _ = ask_command(caller, command)?;
    Ok(())
}

/// Asks commands, one after another.
pub fn ask_all<D: Disk>(caller: &mut OneCaller<D>, commands: &[Command]) -> Result<(), Stop>
    requires calm { caller.old.faults ≡ 0 }
    ensures asks { Asks D.Disk result caller.old caller.new commands.now }
{
    for command in commands {
        ask_one(caller, command)?;
    }
    Ok(())
}
