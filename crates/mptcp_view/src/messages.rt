//! Views of runs whose files go as messages, each line as one.

ghost use Rattle.std.specs.Prelude.{◌≡◌, ◌↔◌, true, Err, None, map, string_bytes, IfOk, IfSome};
ghost use Rattle.run_words.specs.Lines.{as_line, replay};
ghost use Rattle.run_outside.specs.declared.status.Status.TheVariants.{Usage};
ghost use Rattle.mptcp_view.specs.Asking.{as_asked, asked_in};
ghost use Rattle.mptcp_view.specs.Views.{IsViewAnswer, over_frames};

use crate::asking::{Asked, asked_by};
use crate::cutting::Extent;
use crate::showing::show;
use message_pipe::FramedOutside;
use outside_kit::Outside;
use run_outside::Status;
use run_trace::Progress;
use run_words::CommandLine;
use std::alloc::{AllocError, Global};

/// The names of both files, copied.
pub fn file_names(alloc: Global, line: &CommandLine<'_>) -> Result<(String, String), AllocError>
    ensures file_a { IfOk result (λ names. string_bytes names.0 ≡ line.now.file_a.now) }
    ensures file_b { IfOk result (λ names. string_bytes names.1 ≡ line.now.file_b.now) }
{
    let file_a = String::from_str(alloc, line.file_a)?;
    let file_b = String::from_str(alloc, line.file_b)?;
    Ok((file_a, file_b))
}

/// Makes the turns of the log again over the frames of both files' lines, whose names are copied, and writes the view of what they send.
fn show_over_frames<O: Outside, P: Progress>(
    alloc: Global,
    outside: O,
    files: (String, String),
    progress: &mut P,
    asked: &Asked<'_>,
) -> (Result<Extent, Status>, O)
    requires named { (as_line asked.now.line).work ≡ replay asked.now.log.now }
    requires file_a { string_bytes files.0 ≡ asked.now.line.file_a.now }
    requires file_b { string_bytes files.1 ≡ asked.now.line.file_b.now }
    ensures { IsViewAnswer (as_asked asked.now)
        (over_frames (as_line asked.now.line) (O.told outside))
        (over_frames (as_line asked.now.line) (O.told result.1)) result.0 }
{
    let mut framed = FramedOutside::new(outside, files.0, files.1);
    let shown = show(alloc, &mut framed, progress, asked);
    (shown, framed.into_inner())
}

/// Writes the view that the words ask for, of a run of messages.
fn show_messages<O: Outside, P: Progress>(
    alloc: Global,
    outside: O,
    progress: &mut P,
    asked: &Asked<'_>,
) -> (Result<Extent, Status>, O)
    requires { (as_line asked.now.line).work ≡ replay asked.now.log.now }
    ensures { IsViewAnswer (as_asked asked.now)
        (over_frames (as_line asked.now.line) (O.told outside))
        (over_frames (as_line asked.now.line) (O.told result.1)) result.0 }
{
    match file_names(alloc, &asked.line) {
        Ok(files) => show_over_frames(alloc, outside, files, progress, asked),
        Err(_) => (Err(Status::Memory), outside),
    }
}

/// Writes the view that the words ask for, of a run of messages: what [`view_words`](crate::showing::view_words) does where both files
/// hold the frames of their lines, each line behind its length in four octets. The limit of a file is that of its frames. The outside is
/// given back as it stands.
///
/// # Errors
///
/// Those of `view_words`; `Usage` also where a file has the name of the script or of the log.
pub fn view_messages<O: Outside, P: Progress>(
    alloc: Global,
    words: &[String],
    outside: O,
    progress: &mut P,
) -> (Result<Extent, Status>, O)
    ensures usage { (result.0 ≡ Err Usage) ↔ (asked_in true (map string_bytes words.now) ≡ None) }
    ensures answer { IfSome (asked_in true (map string_bytes words.now))
        (λ asked. IsViewAnswer asked
        (over_frames asked.line (O.told outside)) (over_frames asked.line (O.told result.1)) result.0) }
    ensures untouched { result.0 ≡ Err Usage → result.1 ≡ outside }
{
    match asked_by(true, words) {
        None => (Err(Status::Usage), outside),
        Some(asked) => show_messages(alloc, outside, progress, &asked),
    }
}
