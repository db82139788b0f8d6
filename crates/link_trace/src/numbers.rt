//! Numbers as a picture tells them, and how far apart those of an axis stand.

ghost use Rattle.std.specs.Prelude.{◌≡◌, ◌++◌, OnOk, string_bytes};
ghost use Rattle.link_trace.specs.Numbers.{first_from, grouped, millions, step_of, thousands, three_digits};

use std::alloc::AllocError;

/// Puts a comma and the last three digits.
fn put_three_digits(text: &mut String, n: u64) -> Result<(), AllocError>
    ensures { OnOk result (string_bytes text.new ≡ string_bytes text.old ++ three_digits n) }
{
    let (hundreds, tens, ones) = (n / 100 % 10, n / 10 % 10, n % 10);
    write!(text, ",{hundreds}{tens}{ones}")
}

/// Puts a number below 10^6, thousands parted by a comma.
fn put_thousands(text: &mut String, n: u64) -> Result<(), AllocError>
    ensures { OnOk result (string_bytes text.new ≡ string_bytes text.old ++ thousands n) }
{
    if n < 1_000 {
        return write!(text, "{n}");
    }
    write!(text, "{}", n / 1_000)?;
    put_three_digits(text, n)
}

/// Puts a number below 10^9.
fn put_millions(text: &mut String, n: u64) -> Result<(), AllocError>
    ensures { OnOk result (string_bytes text.new ≡ string_bytes text.old ++ millions n) }
{
    if n < 1_000 {
        return write!(text, "{n}");
    }
    put_thousands(text, n / 1_000)?;
    put_three_digits(text, n)
}

/// Puts a number, thousands parted by commas; from 10^12 on those of the first digits aren't parted.
#[tactic(auto, unfolding(crate::specs::Numbers::grouped))]
pub(crate) fn put_grouped(text: &mut String, n: u64) -> Result<(), AllocError>
    ensures { OnOk result (string_bytes text.new ≡ string_bytes text.old ++ grouped n) }
{
    if n < 1_000 {
        return write!(text, "{n}");
    }
    put_millions(text, n / 1_000)?;
    put_three_digits(text, n)
}

/// The first one that isn't below this number.
fn first_from(least: u64, steps: &[u64]) -> u64
    ensures { result ≡ first_from least steps.now }
{
    for step in steps {
        if least <= *step {
            return *step;
        }
    }
    10_000_000_000
}

/// How far apart the numbers of an axis of this range stand: 1, 2 or 5, or ten times that, and so on; a fifth of the range or more.
pub(crate) fn step_of(range: u64) -> u64
    ensures { result ≡ step_of range }
{
    first_from(
        range / 5,
        &[
            1,
            2,
            5,
            10,
            20,
            50,
            100,
            200,
            500,
            1_000,
            2_000,
            5_000,
            10_000,
            20_000,
            50_000,
            100_000,
            200_000,
            500_000,
            1_000_000,
            2_000_000,
            5_000_000,
            10_000_000,
            20_000_000,
            50_000_000,
            100_000_000,
            200_000_000,
            500_000_000,
            1_000_000_000,
        ],
    )
}
