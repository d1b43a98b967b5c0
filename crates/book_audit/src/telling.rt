ghost use Rattle.std.specs.Prelude.{◌≡◌, ◌≤◌, [], ◌++◌, OnOk, OnErr};
ghost use Rattle.hall_limits.specs.declared.TheConstants.{MAX_ROWS};
ghost use Rattle.disk_core.specs.Devices.{IsUnmoved};
ghost use Rattle.text_streams.specs.Streams.{output_at, WroteAll, IsCutIn};
ghost use Rattle.book_audit.specs.Audits.{is_whole, first_bad, agrees, beside_text, digest_text, whole_text, apart_text, audit_text, SaysFound, ExplainsAudit, CountsEnd};

use crate::types::{Audit, AuditEnd, Beside};
use crate::whole::audit;
use book_mount::MountError;
use disk_core::{Disk, Partly, Sink};
use hex::encode_to_slice;
use std::alloc::Global;
use text_streams::{write_numbered, write_text};

/// The digits of a digest.
const DIGITS: usize = 64;

// Whether slots and snapshot don't differ.
fn agrees(beside: Beside) -> bool
    ensures { result ≡ agrees beside }
{
    match beside {
        Beside::None | Beside::Same => true,
        Beside::Differs { .. } => false,
    }
}

// Whether no row is damaged and the snapshot doesn't differ.
fn is_whole(found: &Audit) -> bool
    ensures { result ≡ is_whole found.now }
{
    found.whole && agrees(found.beside)
}

// The first row that is damaged or differs.
fn first_bad(found: &Audit) -> u32
    requires { found.now.rows ≤ MAX_ROWS }
    ensures { result ≡ first_bad found.now.rows found.now.beside }
{
    match found.beside {
        Beside::Differs { row, .. } => row,
        Beside::None | Beside::Same => found.rows + 1,
    }
}

// Writes how a snapshot differs.
fn write_difference<K: Sink>(row: u32, rows: u32, output: &mut K) -> Result<(), Partly>
    ensures wrote { OnOk result (WroteAll (output_at K.Sink output.old)
        (output_at K.Sink output.new) (beside_text (Beside.Differs row rows))) }
    ensures cut { OnErr result (IsCutIn (output_at K.Sink output.old)
        (output_at K.Sink output.new) [] (beside_text (Beside.Differs row rows))) }
{
    write_numbered(output, b"snapshot differs at row ", u64::from(row), b"\n")?;
    write_numbered(output, b"snapshot ", u64::from(rows), b"\n")?;
    Ok(())
}

// Writes how a snapshot compares.
fn write_beside<K: Sink>(beside: Beside, output: &mut K) -> Result<(), Partly>
    ensures wrote { OnOk result (WroteAll (output_at K.Sink output.old)
        (output_at K.Sink output.new) (beside_text beside)) }
    ensures cut { OnErr result (IsCutIn (output_at K.Sink output.old)
        (output_at K.Sink output.new) [] (beside_text beside)) }
{
    match beside {
        Beside::None => write_text(output, b"snapshot none\n"),
        Beside::Same => write_text(output, b"snapshot same\n"),
        Beside::Differs { row, rows } => write_difference(row, rows, output),
    }
}

// Writes a digest in hexadecimal.
fn write_digest<K: Sink>(digest: &[u8; 32], output: &mut K) -> Result<(), Partly>
    ensures wrote { OnOk result (WroteAll (output_at K.Sink output.old)
        (output_at K.Sink output.new) (digest_text digest.now)) }
    ensures cut { OnErr result (IsCutIn (output_at K.Sink output.old)
        (output_at K.Sink output.new) [] (digest_text digest.now)) }
{
    let mut digits = [0; DIGITS];
    encode_to_slice(digest, &mut digits).unwrap();
    write_text(output, b"sha256 ")?;
    write_text(output, &digits)?;
    write_text(output, b"\n")?;
    Ok(())
}

// Writes how many rows a book has that is whole, how its snapshot compares, and the fingerprint.
fn write_whole<K: Sink>(found: &Audit, output: &mut K) -> Result<(), Partly>
    ensures wrote { OnOk result (WroteAll (output_at K.Sink output.old)
        (output_at K.Sink output.new) (whole_text found.now)) }
    ensures cut { OnErr result (IsCutIn (output_at K.Sink output.old)
        (output_at K.Sink output.new) [] (whole_text found.now)) }
{
    write_numbered(output, b"rows ", u64::from(found.rows), b" whole\n")?;
    write_beside(found.beside, output)?;
    write_digest(&found.digest, output)?;
    Ok(())
}

// Writes how many rows the slots give, and how the snapshot compares with them.
fn write_apart<K: Sink>(found: &Audit, output: &mut K) -> Result<(), Partly>
    ensures wrote { OnOk result (WroteAll (output_at K.Sink output.old)
        (output_at K.Sink output.new) (apart_text found.now)) }
    ensures cut { OnErr result (IsCutIn (output_at K.Sink output.old)
        (output_at K.Sink output.new) [] (apart_text found.now)) }
{
    write_numbered(output, b"slots ", u64::from(found.rows), b"\n")?;
    write_beside(found.beside, output)?;
    Ok(())
}

// Writes what was found.
fn write_found<K: Sink>(found: &Audit, output: &mut K) -> Result<(), Partly>
    ensures wrote { OnOk result (WroteAll (output_at K.Sink output.old)
        (output_at K.Sink output.new) (audit_text found.now)) }
    ensures cut { OnErr result (IsCutIn (output_at K.Sink output.old)
        (output_at K.Sink output.new) [] (audit_text found.now)) }
{
    if is_whole(found) {
        write_whole(found, output)
    } else {
        write_apart(found, output)
    }
}

// Says what was found.
fn say_found<K: Sink>(found: &Audit, output: &mut K) -> AuditEnd
    requires { found.now.rows ≤ MAX_ROWS }
    ensures { SaysFound found.now (output_at K.Sink output.old) (output_at K.Sink output.new)
        result }
{
    if write_found(found, output).is_err() {
        return AuditEnd::WriteFault;
    }
    if is_whole(found) {
        return AuditEnd::Whole;
    }
    AuditEnd::Refused(MountError::Damaged {
        row: first_bad(found),
    })
}

/// Audits the book on a disk and says what was found: a book that is whole with its fingerprint, or
/// how many rows the slots give and how the snapshot differs. See `audit`.
pub fn audit_run<K: Sink, D: Disk>(
    alloc: Global,
    disk: &mut D,
    most: u32,
    output: &mut K,
) -> AuditEnd
    ensures explained { ExplainsAudit (D.reads disk.old) most (output_at K.Sink output.old)
        (output_at K.Sink output.new) result }
    ensures unmoved { IsUnmoved D.Disk disk.old disk.new }
    ensures cause { CountsEnd (D.faults disk.old) (D.faults disk.new) result }
{
    match audit(alloc, disk, most) {
        Ok(found) => say_found(&found, output),
        Err(why) => AuditEnd::Refused(why),
    }
}
