// The text of a status.
ghost use Rattle.std.specs.Prelude.{◌≡◌, ◌++◌, IfOk, OnOk};
ghost use Rattle.std.specs.List.{flat_map};
ghost use Rattle.std.specs.String.{string_bytes};
ghost use Rattle.sd_text.specs.Lines.{line};
ghost use Rattle.sd_console.specs.Status.{drive_line, loaded_word, session_line, session_word, status_lines, volume_line, volume_word};

use sd_machine::{DriveLine, Loaded, SessionLine, View, VolumeLine};
use sd_session::Status;
use sd_volume::VolumeStatus;
use std::alloc::{AllocError, Global};

/// The status of a daemon: a line for each drive, then one for each volume, then one for each session,
/// then `ok status`. Each line ends with a newline.
pub fn status_text(alloc: Global, view: &View) -> Result<String, AllocError>
    ensures { IfOk result (λ text. string_bytes text ≡ flat_map line (status_lines view.now)) }
{
    let mut text = String::new(alloc);
    put_drives(&mut text, view.drives.as_slice())?;
    put_volumes(&mut text, view.volumes.as_slice())?;
    put_sessions(&mut text, view.sessions.as_slice())?;
    text.push_str("ok status\n")?;
    Ok(text)
}

fn put_drives(text: &mut String, drives: &[DriveLine]) -> Result<(), AllocError>
    ensures { OnOk result (string_bytes text.new
        ≡ string_bytes text.old ++ flat_map (λ drive. line (drive_line drive)) drives.now) }
{
    for drive in drives {
        put_drive(text, drive)?;
    }
    Ok(())
}

fn put_drive(text: &mut String, drive: &DriveLine) -> Result<(), AllocError>
    ensures { OnOk result (string_bytes text.new
        ≡ string_bytes text.old ++ line (drive_line drive.now)) }
{
    let number = drive.drive.get();
    let media = drive.media.as_str();
    let loaded = word_of_loaded(&drive.loaded);
    let sessions = drive.sessions;
    writeln!(text, "drive {number} {media} {loaded} {sessions}")
}

fn word_of_loaded(loaded: &Loaded) -> &str
    ensures { result.now ≡ loaded_word loaded.now }
{
    match loaded {
        Loaded::Offline => "offline",
        Loaded::Nothing => "-",
        Loaded::Volume(name) => name.as_str(),
    }
}

fn put_volumes(text: &mut String, volumes: &[VolumeLine]) -> Result<(), AllocError>
    ensures { OnOk result (string_bytes text.new
        ≡ string_bytes text.old ++ flat_map (λ volume. line (volume_line volume)) volumes.now) }
{
    for volume in volumes {
        put_volume(text, volume)?;
    }
    Ok(())
}

fn put_volume(text: &mut String, volume: &VolumeLine) -> Result<(), AllocError>
    ensures { OnOk result (string_bytes text.new
        ≡ string_bytes text.old ++ line (volume_line volume.now)) }
{
    let name = volume.name.as_str();
    let pool = volume.pool.as_str();
    let media = volume.media.as_str();
    let status = word_of_volume(volume.status);
    let end = volume.end;
    writeln!(text, "volume {name} {pool} {media} {status} {end}")
}

fn word_of_volume(status: VolumeStatus) -> &'static str
    ensures { result.now ≡ volume_word status }
{
    match status {
        VolumeStatus::Append => "append",
        VolumeStatus::Full => "full",
        VolumeStatus::Error => "error",
    }
}

fn put_sessions(text: &mut String, sessions: &[SessionLine]) -> Result<(), AllocError>
    ensures { OnOk result (string_bytes text.new
        ≡ string_bytes text.old ++ flat_map (λ session. line (session_line session)) sessions.now) }
{
    for session in sessions {
        put_session(text, session)?;
    }
    Ok(())
}

fn put_session(text: &mut String, session: &SessionLine) -> Result<(), AllocError>
    ensures { OnOk result (string_bytes text.new
        ≡ string_bytes text.old ++ line (session_line session.now)) }
{
    let ticket = session.ticket.get();
    let status = word_of_session(session.status);
    let records = session.records;
    writeln!(text, "session {ticket} {status} {records}")
}

fn word_of_session(status: Status) -> &'static str
    ensures { result.now ≡ session_word status }
{
    match status {
        Status::Active => "active",
        Status::Ended => "ended",
        Status::Closed => "closed",
        Status::Cancelled => "cancelled",
        Status::Failed => "failed",
        Status::Purged => "purged",
    }
}
