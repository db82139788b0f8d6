//! What the ends of the paths measure, how much they may have under way, and what waits before their links.

ghost use Rattle.std.specs.Prelude.{◌≡◌, ◌++◌, option_map, IfOk, OnOk};
ghost use Rattle.std.specs.Option.{option_to_list};
ghost use Rattle.run_trace.specs.Rates.{rate_at, rates_in, rates_of};

use link_trace::{Rate, Rates};
use path_core::Path;
use sides::Side;
use std::alloc::{AllocError, Global};
use world_core::World;

/// Those of a side's end.
fn rate_at(side: Side, path: &Path) -> Rate
    ensures { result ≡ rate_at side path.now }
{
    Rate {
        window: path.congestion_window(side),
        threshold: path.slow_start_threshold(side),
        rtt: path.smoothed_rtt(side),
        timeout: path.retransmission_timeout(side),
        waiting: path.octets_waiting(side),
    }
}

fn rates_in(path: &Path) -> Rates
    ensures { result ≡ rates_in path.now }
{
    Rates {
        a: rate_at(Side::A, path),
        b: rate_at(Side::B, path),
    }
}

/// Keeps those of a path, if there is one.
fn keep(rates: &mut Vec<Rates>, path: Option<&Path>) -> Result<(), AllocError>
    ensures { OnOk result (rates.new.items ≡
        rates.old.items ++ option_to_list (option_map (λ path. rates_in path.now) path.entry)) }
{
    if let Some(path) = path {
        rates.push(rates_in(path))?;
    }
    Ok(())
}

/// Puts those of both ends of each path, path 0 first.
pub(crate) fn put_rates(rates: &mut Vec<Rates>, world: &World) -> Result<(), AllocError>
    ensures { OnOk result (rates.new.items ≡
        rates.old.items ++ rates_of world.now.state.crew) }
{
    for actor in 0..world.actors() {
        keep(rates, world.path(actor))?;
    }
    Ok(())
}

/// Those of both ends of each path, path 0 first.
pub fn rates_of(alloc: Global, world: &World) -> Result<Vec<Rates>, AllocError>
    ensures { IfOk result (λ rates. rates.items ≡ rates_of world.now.state.crew) }
{
    let mut rates = Vec::new(alloc);
    put_rates(&mut rates, world)?;
    Ok(rates)
}
