//! What a control book answers, in the words of a log.

ghost use Rattle.std.specs.Prelude.{◌≡◌, ◌∷◌, ◌++◌, ◌≤◌, OnOk, string_bytes, length, All};
ghost use Rattle.std.specs.List.{flat_map};
ghost use Rattle.link_script.specs.Writing.{spaced};
ghost use Rattle.control_book.specs.declared.call.ControlReply.TheVariants as replies;
ghost use Rattle.run_log.specs.Fitting.{NoticeFits, VerdictFits, RowFits, RowsFit, ControlReplyFits};
ghost use Rattle.run_log.specs.Replies.{row_words, control_reply_words};

use crate::name::{flag, mode_name, put_notice, put_verdict};
use crate::number::put_number;
use control_book::{ControlReply, Notice};
use fallback_state::{Mode, Verdict};
use linked_increase::Row;
use std::alloc::AllocError;

fn put_standing(
    text: &mut String,
    mode: Mode,
    standby: bool,
    sole: bool,
    notice: Notice,
) -> Result<(), AllocError>
    ensures text { OnOk result (string_bytes text.new ≡
        string_bytes text.old ++ spaced
        (control_reply_words (replies.Standing mode standby sole notice))) }
    ensures fits { OnOk result (NoticeFits notice) }
{
    let mode = mode_name(mode);
    write!(text, "standing {mode} {} {} ", flag(standby), flag(sole))?;
    put_notice(text, notice)
}

fn put_answered_verdict(text: &mut String, verdict: Verdict) -> Result<(), AllocError>
    ensures text { OnOk result (string_bytes text.new ≡
        string_bytes text.old ++ spaced (control_reply_words (replies.Verdict verdict))) }
    ensures fits { OnOk result (VerdictFits verdict) }
{
    text.push_str("verdict ")?;
    put_verdict(text, verdict)
}

/// The numbers of a row, behind a space.
fn put_row(text: &mut String, row: Row) -> Result<(), AllocError>
    ensures text { OnOk result (string_bytes text.new ≡
        string_bytes text.old ++ 32 ∷ spaced (row_words row)) }
    ensures fits { OnOk result (RowFits row) }
{
    let Row { path, window, rtt } = row;
    put_number(text, u64::from(path))?;
    put_number(text, u64::from(window))?;
    put_number(text, u64::from(rtt))
}

/// The numbers of each row.
fn put_each_row(text: &mut String, rows: &[Row]) -> Result<(), AllocError>
    ensures text { OnOk result (string_bytes text.new ≡
        string_bytes text.old ++ flat_map (λ row. 32 ∷ spaced (row_words row)) rows.now) }
    ensures fits { OnOk result (All RowFits rows.now) }
{
    for row in rows {
        put_row(text, *row)?;
    }
    Ok(())
}

fn put_rows(text: &mut String, rows: &[Row]) -> Result<(), AllocError>
    requires { length rows.now ≤ 16 }
    ensures text { OnOk result (string_bytes text.new ≡
        string_bytes text.old ++ spaced (control_reply_words (replies.Rows rows.now))) }
    ensures fits { OnOk result (RowsFit rows.now) }
{
    text.push_str("rows")?;
    put_each_row(text, rows)?;
    Ok(())
}

pub fn put_control_reply(text: &mut String, reply: &ControlReply) -> Result<(), AllocError>
    ensures text { OnOk result (string_bytes text.new ≡
        string_bytes text.old ++ spaced (control_reply_words reply.now)) }
    ensures fits { OnOk result (ControlReplyFits reply.now) }
{
    match *reply {
        ControlReply::Standing {
            mode,
            standby,
            sole,
            notice,
        } => put_standing(text, mode, standby, sole, notice),
        ControlReply::Noted => text.push_str("noted"),
        ControlReply::KeysDiffer { own } => write!(text, "keysdiffer {own}"),
        ControlReply::Verdict(verdict) => put_answered_verdict(text, verdict),
        ControlReply::Begin { own, peer } => write!(text, "begin {own} {peer}"),
        ControlReply::NotYet => text.push_str("notyet"),
        ControlReply::Never(mode) => write!(text, "never {}", mode_name(mode)),
        ControlReply::UnknownToken { own } => write!(text, "unknowntoken {own}"),
        ControlReply::NotConfirmed => text.push_str("notconfirmed"),
        ControlReply::Fallen(mode) => write!(text, "fallen {}", mode_name(mode)),
        ControlReply::Rows(ref rows) => put_rows(text, rows.listed()),
        ControlReply::Echo => text.push_str("echo"),
        ControlReply::BadHmac => text.push_str("badhmac"),
        ControlReply::Known => text.push_str("known"),
        ControlReply::Stopped => text.push_str("stopped"),
        ControlReply::OtherKey { own } => write!(text, "otherkey {own}"),
    }
}
