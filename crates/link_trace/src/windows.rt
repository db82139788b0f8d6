//! The congestion windows of a side in a picture (RFC 5681): a title, two axes, and a line for each path.

ghost use Rattle.std.specs.Prelude.{◌≡◌, ◌++◌, ◌≤◌, IfOk, OnOk, string_bytes};
ghost use Rattle.std.specs.List.{flat_map};
ghost use Rattle.link_trace.specs.Windows.{every_row, is_shown, point_of, point_on, row_end, row_of, top_window, window_at, window_if, window_line, window_lines, windows_by, windows_drawn, windows_height, windows_name, windows_of, windows_panel, windows_scale, windows_title};

use crate::elements::{put_heading_at, put_line_head};
use crate::intervals::rate_of;
use crate::marks::{Scale, colour_of, dashes_of};
use crate::panels::put_axes;
use crate::rows::Rates;
use sides::Side;
use std::alloc::{AllocError, Global};

/// A congestion window as 100 ticks end.
#[derive(Clone, Copy)]
pub(crate) struct Window {
    /// The number of the path.
    pub path: usize,
    /// When they end, in ticks of a millisecond.
    pub tick: u64,
    pub octets: u32,
}

/// The row of this index, of so many paths each.
fn row_of(paths: usize, index: usize) -> u64
    ensures { result ≡ row_of paths index }
{
    (index / paths.max(1)) as u64
}

/// The tick at which a row ends.
fn row_end(row: u64) -> u64
    ensures { result ≡ row_end row }
{
    row.saturating_add(1).saturating_mul(100)
}

fn window_at(side: Side, paths: usize, index: usize, rates: Rates) -> Window
    ensures { result ≡ window_at side paths index rates }
{
    Window {
        path: index % paths.max(1),
        tick: row_end(row_of(paths, index)),
        octets: rate_of(side, rates).window,
    }
}

/// Whether a row is one of so many, and ends by the last tick.
fn is_shown(every: u64, ticks: u64, row: u64) -> bool
    ensures { result ≡ is_shown every ticks row }
{
    row % every.max(1) == 0 && row_end(row) <= ticks
}

/// Puts what was measured at this index, where its row is shown.
fn put_window(
    windows: &mut Vec<Window>,
    side: Side,
    paths: usize,
    every: u64,
    ticks: u64,
    index: usize,
    rates: Rates,
) -> Result<(), AllocError>
    ensures { OnOk result (windows.new.items ≡
        windows.old.items ++ window_if side paths every ticks index rates) }
{
    if is_shown(every, ticks, row_of(paths, index)) {
        windows.push(window_at(side, paths, index, rates))?;
    }
    Ok(())
}

/// Those of a side in one row of so many.
fn windows_by(
    alloc: Global,
    side: Side,
    paths: usize,
    every: u64,
    ticks: u64,
    measured: &[Rates],
) -> Result<Vec<Window>, AllocError>
    ensures { IfOk result (λ windows. windows.items ≡
        windows_by side paths every ticks measured.now) }
{
    let mut windows = Vec::new(alloc);
    for (index, rates) in measured.iter().enumerate() {
        put_window(&mut windows, side, paths, every, ticks, index, *rates)?;
    }
    Ok(windows)
}

/// One row of how many is shown: the least number of which 1,000 are more than the rows.
fn every_row(paths: usize, measured: &[Rates]) -> u64
    ensures { result ≡ every_row paths measured.now }
{
    row_of(paths, measured.len()) / 1_000 + 1
}

/// The congestion windows of a side up to this tick, in 1,000 rows at most; none of a run in which no two rows end.
pub(crate) fn windows_of(
    alloc: Global,
    side: Side,
    paths: usize,
    ticks: u64,
    measured: &[Rates],
) -> Result<Vec<Window>, AllocError>
    ensures { IfOk result (λ windows. windows.items ≡
        windows_of side paths ticks measured.now) }
{
    if ticks < 200 {
        return Ok(Vec::new(alloc));
    }
    let every = every_row(paths, measured);
    windows_by(alloc, side, paths, every, ticks, measured)
}

fn windows_name(side: Side) -> &'static str
    ensures { result.now ≡ windows_name side }
{
    match side {
        Side::A => "congestion windows of A",
        Side::B => "congestion windows of B",
    }
}

#[tactic(auto, unfolding(crate::specs::Windows::windows_title))]
fn put_title(text: &mut String, side: Side, top: u16) -> Result<(), AllocError>
    ensures { OnOk result (string_bytes text.new ≡
        string_bytes text.old ++ windows_title side top) }
{
    put_heading_at(text, u64::from(top) + 200, windows_name(side))?;
    writeln!(text, "</text>")
}

fn put_point(text: &mut String, scale: &Scale, window: &Window) -> Result<(), AllocError>
    ensures { OnOk result (string_bytes text.new ≡
        string_bytes text.old ++ point_of scale.now window.now) }
{
    let (x, y) = (scale.x(window.tick), scale.y(u64::from(window.octets)));
    write!(text, " {x} {y}")
}

fn put_point_on(
    text: &mut String,
    scale: &Scale,
    path: usize,
    window: &Window,
) -> Result<(), AllocError>
    ensures { OnOk result (string_bytes text.new ≡
        string_bytes text.old ++ point_on scale.now path window.now) }
{
    if window.path == path {
        return put_point(text, scale, window);
    }
    Ok(())
}

fn put_points_on(
    text: &mut String,
    scale: &Scale,
    windows: &[Window],
    path: usize,
) -> Result<(), AllocError>
    ensures { OnOk result (string_bytes text.new ≡
        string_bytes text.old ++ flat_map (point_on scale.now path) windows.now) }
{
    for window in windows {
        put_point_on(text, scale, path, window)?;
    }
    Ok(())
}

/// Puts the line of a path.
#[tactic(auto, unfolding(crate::specs::Windows::window_line))]
fn put_line(
    text: &mut String,
    scale: &Scale,
    windows: &[Window],
    path: usize,
) -> Result<(), AllocError>
    ensures { OnOk result (string_bytes text.new ≡
        string_bytes text.old ++ window_line scale.now windows.now path) }
{
    put_line_head(text, colour_of(path), dashes_of(path))?;
    put_points_on(text, scale, windows, path)?;
    writeln!(text, "\"/>")
}

fn put_lines(
    text: &mut String,
    scale: &Scale,
    paths: usize,
    windows: &[Window],
) -> Result<(), AllocError>
    ensures { OnOk result (string_bytes text.new ≡
        string_bytes text.old ++ window_lines scale.now paths windows.now) }
{
    for path in 0..paths {
        put_line(text, scale, windows, path)?;
    }
    Ok(())
}

/// The greatest one.
fn top_window(windows: &[Window]) -> u64
    ensures { result ≡ top_window windows.now }
{
    let mut top = 0;
    for window in windows {
        top = top.max(u64::from(window.octets));
    }
    top
}

fn windows_scale(top: u16, ticks: u64, windows: &[Window]) -> Scale
    ensures { result ≡ windows_scale top ticks windows.now }
{
    Scale {
        ticks,
        places: top_window(windows),
        floor: u32::from(top) + 3_910,
    }
}

/// How high the panel is.
pub(crate) fn windows_height(windows: &[Window]) -> u16
    ensures value { result ≡ windows_height windows.now }
    ensures low { result ≤ 4510 }
{
    if windows.is_empty() {
        return 0;
    }
    4_510
}

#[tactic(auto, unfolding(crate::specs::Windows::windows_drawn))]
fn put_drawn(
    text: &mut String,
    side: Side,
    paths: usize,
    top: u16,
    scale: &Scale,
    windows: &[Window],
) -> Result<(), AllocError>
    ensures { OnOk result (string_bytes text.new ≡
        string_bytes text.old ++ windows_drawn side paths top scale.now windows.now) }
{
    put_title(text, side, top)?;
    put_axes(text, scale)?;
    put_lines(text, scale, paths, windows)
}

/// Puts the panel of a side so far below the picture's top, over so many ticks, or nothing where nothing was measured.
#[tactic(auto, unfolding(crate::specs::Windows::windows_panel))]
pub(crate) fn put_windows(
    text: &mut String,
    side: Side,
    paths: usize,
    top: u16,
    ticks: u64,
    windows: &[Window],
) -> Result<(), AllocError>
    ensures { OnOk result (string_bytes text.new ≡
        string_bytes text.old ++ windows_panel side paths top ticks windows.now) }
{
    if windows.is_empty() {
        return Ok(());
    }
    let scale = windows_scale(top, ticks, windows);
    put_drawn(text, side, paths, top, &scale, windows)
}
