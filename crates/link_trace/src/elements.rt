//! Elements of SVG that a picture is made of.

ghost use Rattle.std.specs.Prelude.{◌≡◌, ◌++◌, OnOk, string_bytes};
ghost use Rattle.link_trace.specs.Elements.{acknowledged_entry, again_entry, bars_head, boxes_head, crosses_head, death_line, death_words_at, heading_at, key_line, line_head, lost_entry, notch, payload_entry, rectangle, stairs_head, words_at, words_by};

use std::alloc::AllocError;

/// Begins words from here on.
#[tactic(auto, unfolding(crate::specs::Elements::words_at))]
pub fn put_words_at(text: &mut String, x: u64, y: u64) -> Result<(), AllocError>
    ensures { OnOk result (string_bytes text.new ≡ string_bytes text.old ++ words_at x y) }
{
    write!(text, "<text x=\"{x}\" y=\"{y}\">")
}

/// Begins words about here (`middle`) or before (`end`).
#[tactic(auto, unfolding(crate::specs::Elements::words_by))]
pub fn put_words_by(text: &mut String, x: u64, y: u64, anchor: &str) -> Result<(), AllocError>
    ensures { OnOk result (string_bytes text.new ≡
        string_bytes text.old ++ words_by x y anchor.now) }
{
    write!(text, "<text x=\"{x}\" y=\"{y}\" text-anchor=\"{anchor}\">")
}

/// Begins a title.
#[tactic(auto, unfolding(crate::specs::Elements::heading_at))]
pub fn put_heading_at(text: &mut String, y: u64, words: &str) -> Result<(), AllocError>
    ensures { OnOk result (string_bytes text.new ≡
        string_bytes text.old ++ heading_at y words.now) }
{
    write!(
        text,
        "<text x=\"900\" y=\"{y}\" font-size=\"200\" font-weight=\"bold\">{words}"
    )
}

/// Begins the words of a death, whose place across follows.
#[tactic(auto, unfolding(crate::specs::Elements::death_words_at))]
pub fn put_death_words_at(text: &mut String, y: u32) -> Result<(), AllocError>
    ensures { OnOk result (string_bytes text.new ≡ string_bytes text.old ++ death_words_at y) }
{
    write!(text, "<text y=\"{y}\" x=\"")
}

/// Puts the frame of a panel.
#[tactic(auto, unfolding(crate::specs::Elements::rectangle))]
pub fn put_rectangle(text: &mut String, top: u32) -> Result<(), AllocError>
    ensures { OnOk result (string_bytes text.new ≡ string_bytes text.old ++ rectangle top) }
{
    write!(
        text,
        "<rect x=\"900\" y=\"{top}\" width=\"8800\" height=\"3400\" fill=\"none\" stroke=\"#000000\" stroke-width=\"8\"/>\n"
    )
}

/// Puts a short line at a number of an axis.
#[tactic(auto, unfolding(crate::specs::Elements::notch))]
pub fn put_notch(text: &mut String, x: u64, y: u64, way: &str) -> Result<(), AllocError>
    ensures { OnOk result (string_bytes text.new ≡ string_bytes text.old ++ notch x y way.now) }
{
    write!(
        text,
        "<path stroke=\"#000000\" stroke-width=\"8\" d=\"M{x} {y}{way}\"/>\n"
    )
}

/// Puts the line of a path, beside what it carries.
#[tactic(auto, unfolding(crate::specs::Elements::key_line))]
pub fn put_key_line(
    text: &mut String,
    colour: &str,
    dashes: &str,
    x: u64,
    y: u64,
) -> Result<(), AllocError>
    ensures { OnOk result (string_bytes text.new ≡
        string_bytes text.old ++ key_line colour.now dashes.now x y) }
{
    write!(
        text,
        "<path stroke-width=\"60\" stroke=\"{colour}\"{dashes} d=\"M{x} {y}h200\"/>\n"
    )
}

/// Puts a dashed line over the height of a panel.
#[tactic(auto, unfolding(crate::specs::Elements::death_line))]
pub fn put_death_line(text: &mut String, colour: &str, x: u64, top: u32) -> Result<(), AllocError>
    ensures { OnOk result (string_bytes text.new ≡
        string_bytes text.old ++ death_line colour.now x top) }
{
    write!(
        text,
        "<path stroke-width=\"16\" stroke-dasharray=\"60 60\" stroke=\"{colour}\" d=\"M{x} {top}v3400\"/>\n"
    )
}

/// Begins the line of bars, whose moves follow.
#[tactic(auto, unfolding(crate::specs::Elements::bars_head))]
pub fn put_bars_head(text: &mut String, colour: &str, dashes: &str) -> Result<(), AllocError>
    ensures { OnOk result (string_bytes text.new ≡
        string_bytes text.old ++ bars_head colour.now dashes.now) }
{
    write!(
        text,
        "<path fill=\"none\" stroke-width=\"24\" stroke-linecap=\"round\" stroke=\"{colour}\"{dashes} d=\""
    )
}

/// Begins that of hollow bars.
#[tactic(auto, unfolding(crate::specs::Elements::boxes_head))]
pub fn put_boxes_head(text: &mut String, colour: &str) -> Result<(), AllocError>
    ensures { OnOk result (string_bytes text.new ≡ string_bytes text.old ++ boxes_head colour.now) }
{
    write!(
        text,
        "<path fill=\"#ffffff\" stroke-width=\"10\" stroke=\"{colour}\" d=\""
    )
}

/// Begins that of crosses.
#[tactic(auto, unfolding(crate::specs::Elements::crosses_head))]
pub fn put_crosses_head(text: &mut String) -> Result<(), AllocError>
    ensures { OnOk result (string_bytes text.new ≡ string_bytes text.old ++ crosses_head) }
{
    write!(
        text,
        "<path fill=\"none\" stroke-width=\"30\" stroke=\"#d62728\" d=\""
    )
}

/// Begins that of windows, at the first one.
#[tactic(auto, unfolding(crate::specs::Elements::line_head))]
pub fn put_line_head(text: &mut String, colour: &str, dashes: &str) -> Result<(), AllocError>
    ensures { OnOk result (string_bytes text.new ≡
        string_bytes text.old ++ line_head colour.now dashes.now) }
{
    write!(
        text,
        "<path fill=\"none\" stroke-width=\"20\" stroke-linejoin=\"round\" stroke=\"{colour}\"{dashes} d=\"M"
    )
}

/// Begins that of stairs, at the floor.
#[tactic(auto, unfolding(crate::specs::Elements::stairs_head))]
pub fn put_stairs_head(text: &mut String, floor: u32) -> Result<(), AllocError>
    ensures { OnOk result (string_bytes text.new ≡ string_bytes text.old ++ stairs_head floor) }
{
    write!(
        text,
        "<path fill=\"none\" stroke-width=\"12\" stroke=\"#808080\" d=\"M900 {floor}"
    )
}

/// Puts the legend of bars.
#[tactic(auto, unfolding(crate::specs::Elements::payload_entry))]
pub fn put_payload_entry(text: &mut String) -> Result<(), AllocError>
    ensures { OnOk result (string_bytes text.new ≡ string_bytes text.old ++ payload_entry) }
{
    write!(
        text,
        "<path fill=\"none\" stroke=\"#000000\" stroke-width=\"24\" stroke-linecap=\"round\" d=\"M920 230V110\"/>\n<text x=\"1000\" y=\"220\">payload</text>\n"
    )
}

/// Puts that of hollow bars.
#[tactic(auto, unfolding(crate::specs::Elements::again_entry))]
pub fn put_again_entry(text: &mut String) -> Result<(), AllocError>
    ensures { OnOk result (string_bytes text.new ≡ string_bytes text.old ++ again_entry) }
{
    write!(
        text,
        "<path fill=\"#ffffff\" stroke=\"#000000\" stroke-width=\"10\" d=\"M2000 230h40V110h-40z\"/>\n<text x=\"2100\" y=\"220\">sent again, or moved</text>\n"
    )
}

/// Puts that of crosses.
#[tactic(auto, unfolding(crate::specs::Elements::lost_entry))]
pub fn put_lost_entry(text: &mut String) -> Result<(), AllocError>
    ensures { OnOk result (string_bytes text.new ≡ string_bytes text.old ++ lost_entry) }
{
    write!(
        text,
        "<path fill=\"none\" stroke=\"#d62728\" stroke-width=\"30\" d=\"M4300 130l80 80m0 -80l-80 80\"/>\n<text x=\"4460\" y=\"220\">lost</text>\n"
    )
}

/// Puts that of stairs.
#[tactic(auto, unfolding(crate::specs::Elements::acknowledged_entry))]
pub fn put_acknowledged_entry(text: &mut String) -> Result<(), AllocError>
    ensures { OnOk result (string_bytes text.new ≡ string_bytes text.old ++ acknowledged_entry) }
{
    write!(
        text,
        "<path fill=\"none\" stroke=\"#808080\" stroke-width=\"12\" d=\"M5400 230h100V170h100V110h100\"/>\n<text x=\"5780\" y=\"220\">acknowledged (Data ACK)</text>\n"
    )
}
