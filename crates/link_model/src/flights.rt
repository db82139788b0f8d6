//! The copies under way on a link, in a queue for each side that they go to.

ghost use Rattle.std.specs.Prelude.{◌≡◌, ◌+◌, ◌-◌, ◌^◌, ◌<◌, ◌≤◌, [], ◌∷◌, ◌++◌, IsSome, OnOk, OnErr, IfSome, insert, position, find, option_map, IsTrue};
ghost use Rattle.std.specs.List.{AllByRecursion};
ghost use Rattle.std.specs.VecDeque.{deque_len, deque_capacity};
ghost use Rattle.link_model.specs.Fate.{ticks_of};
ghost use Rattle.link_model.specs.Order.{AreInOrder};
ghost use Rattle.link_model.specs.Queues.{first_due};
ghost use Rattle.link_model.specs.Steps.{rank, comes_before, is_due, due_of, arrivals, with_flight, with_flights, next_due, without};

use crate::fate::Fate;
use crate::flight::{Due, Flight};
use bytes::Bytes;
use sides::Side;
use std::alloc::{AllocError, Global};
use std::collections::VecDeque;
use std::marker::Model;

/// The copies under way. Contracts see them in the order of their arrival: by tick, then to B before to A, then by
/// number.
#[derive(Drop)]
pub struct Flights {
    to_a: VecDeque<Flight<Bytes>>,
    to_b: VecDeque<Flight<Bytes>>,
}

impl Model for Flights {
    ghost use Rattle.std.specs.Prelude.{ℕ, List};
    ghost use Rattle.sides.specs.declared.side.Side.TheVariants.{A, B};
    ghost use Rattle.link_model.specs.declared.flight.Flight.{Flight};
    ghost use Rattle.link_model.specs.Queues.{IsQueue, merged};

    ghost Value = { List (Flight (List ℕ)) };

    ghost view = { λ f. merged f.to_a.items f.to_b.items };

    ghost invariant = { λ f. IsQueue A f.to_a.items × IsQueue B f.to_b.items };
}

/// At one tick, copies to B arrive before copies to A.
fn rank(to: Side) -> u8
    ensures { result ≡ rank to }
{
    match to {
        Side::B => 0,
        Side::A => 1,
    }
}

/// Whether a copy arrives before another one.
fn comes_before<C>(f: &Flight<C>, g: &Flight<C>) -> bool
    ensures { result ≡ comes_before f.now g.now }
{
    let (first, second) = (rank(f.to), rank(g.to));
    f.tick < g.tick
        || f.tick == g.tick && (first < second || first == second && f.number < g.number)
}

/// Whether a copy is the one that arrives there and then.
fn is_due<C>(due: &Due, f: &Flight<C>) -> bool
    ensures { result ≡ is_due due.now f.now }
{
    f.tick == due.tick && f.to == due.to && f.number == due.copy
}

/// Whether this copy arrives after all the others.
fn arrives_last(flights: &VecDeque<Flight<Bytes>>, flight: &Flight<Bytes>) -> bool
    requires { AreInOrder flights.now.items }
    ensures last { IsTrue result → with_flight flight.now flights.now.items ≡
        flights.now.items ++ flight.now ∷ [] }
{
    match flights.back() {
        Some(last) => !comes_before(flight, last),
        None => true,
    }
}

/// The place among copies before which this one arrives.
fn place_before(flights: &VecDeque<Flight<Bytes>>, flight: &Flight<Bytes>) -> usize
    requires { AreInOrder flights.now.items }
    ensures place { with_flight flight.now flights.now.items ≡
        insert flights.now.items result flight.now }
    ensures within { result ≤ deque_len flights.now }
{
    flights.partition_point(|other| !comes_before(flight, other))
}

/// The place of the first copy that arrives there and then.
fn place_of<C>(flights: &VecDeque<Flight<C>>, due: &Due) -> Option<usize>
    ensures { result ≡ position (is_due due.now) flights.now.items }
{
    flights.iter().position(|flight| is_due(due, flight))
}

/// The first copy that arrives there and then.
fn flight_of<'a, C>(flights: &'a VecDeque<Flight<C>>, due: &Due) -> Option<&'a Flight<C>>
    ensures { option_map (λ flight. flight.now) result ≡ find (is_due due.now) flights.now.items }
{
    flights.iter().find(|flight| is_due(due, flight))
}

/// Puts a copy before the one at this place.
fn put_before<C: Drop>(flights: &mut VecDeque<Flight<C>>, place: usize, flight: Flight<C>)
    requires place { place ≤ deque_len flights.old }
    requires room { deque_len flights.old < deque_capacity flights.old }
    ensures items { flights.new.items ≡ insert flights.old.items place flight }
    ensures len { deque_len flights.new ≡ deque_len flights.old + 1 }
    ensures capacity { deque_capacity flights.old ≤ deque_capacity flights.new }
{
    match flights.insert(place, flight) {
        Ok(()) => {}
        Err(_) => unreachable!(),
    }
}

/// Puts a copy behind all others.
fn put_last<C: Drop>(flights: &mut VecDeque<Flight<C>>, flight: Flight<C>)
    requires { deque_len flights.old < deque_capacity flights.old }
    ensures items { flights.new.items ≡ flights.old.items ++ flight ∷ [] }
    ensures len { deque_len flights.new ≡ deque_len flights.old + 1 }
    ensures capacity { deque_capacity flights.old ≤ deque_capacity flights.new }
{
    match flights.push_back(flight) {
        Ok(()) => {}
        Err(_) => unreachable!(),
    }
}

/// Puts a copy where it arrives, for which there is room. Most copies arrive after all others.
fn put_flight(flights: &mut VecDeque<Flight<Bytes>>, flight: Flight<Bytes>)
    requires order { AreInOrder flights.old.items }
    requires room { deque_len flights.old < deque_capacity flights.old }
    ensures items { flights.new.items ≡ with_flight flight flights.old.items }
    ensures order { AreInOrder flights.new.items }
    ensures len { deque_len flights.new ≡ deque_len flights.old + 1 }
    ensures capacity { deque_capacity flights.old ≤ deque_capacity flights.new }
{
    if arrives_last(flights, &flight) {
        put_last(flights, flight);
        return;
    }
    let place = place_before(flights, &flight);
    put_before(flights, place, flight);
}

/// Puts a copy where it arrives, if there is memory for it.
fn launch_one(
    flights: &mut VecDeque<Flight<Bytes>>,
    tick: u64,
    to: Side,
    number: u64,
    carried: Bytes,
) -> Result<(), AllocError>
    requires { AreInOrder flights.old.items }
    ensures ok { OnOk result (flights.new.items ≡
        with_flights to number carried (tick ∷ []) flights.old.items) }
    ensures err { OnErr result (flights.new.items ≡ flights.old.items) }
{
    flights.reserve(1)?;
    let flight = Flight {
        tick,
        to,
        number,
        carried,
    };
    put_flight(flights, flight);
    Ok(())
}

/// Puts two copies that share their octets where they arrive, if there is memory for both.
fn launch_two(
    flights: &mut VecDeque<Flight<Bytes>>,
    ticks: (u64, u64),
    to: Side,
    number: u64,
    carried: Bytes,
) -> Result<(), AllocError>
    requires { AreInOrder flights.old.items }
    ensures ok { OnOk result (flights.new.items ≡
        with_flights to number carried (ticks.0 ∷ ticks.1 ∷ []) flights.old.items) }
    ensures err { OnErr result (flights.new.items ≡ flights.old.items) }
{
    flights.reserve(2)?;
    let first = Flight {
        tick: ticks.0,
        to,
        number,
        carried: carried.clone()?,
    };
    let second = Flight {
        tick: ticks.1,
        to,
        number,
        carried,
    };
    put_flight(flights, first);
    put_flight(flights, second);
    Ok(())
}

/// Puts the copies of a segment where they arrive, the first of which would arrive at the tick `first`.
fn launch(
    flights: &mut VecDeque<Flight<Bytes>>,
    fate: Fate,
    to: Side,
    number: u64,
    first: u64,
    octets: Bytes,
) -> Result<(), AllocError>
    requires order { AreInOrder flights.old.items }
    requires first { first < 2 ^ 64 - 2 ^ 19 }
    requires ticks { ticks_of fate ≤ 100000 }
    ensures ok { OnOk result (flights.new.items ≡
        with_flights to number octets (arrivals fate first) flights.old.items) }
    ensures err { OnErr result (flights.new.items ≡ flights.old.items) }
{
    match fate {
        Fate::Lost | Fate::Full => Ok(()),
        Fate::OnTime => launch_one(flights, first, to, number, octets),
        Fate::Late { ticks } => {
            launch_one(flights, first + u64::from(ticks), to, number, octets)
        }
        Fate::Twice { ticks } => {
            let ticks = (first, first + u64::from(ticks));
            launch_two(flights, ticks, to, number, octets)
        }
    }
}

/// Hands out the octets of the copy that arrives there and then.
fn take(flights: &mut VecDeque<Flight<Bytes>>, due: &Due) -> Bytes
    requires { IsSome (find (is_due due.now) flights.old.items) }
    ensures octets { IfSome (find (is_due due.now) flights.old.items) (λ flight. result ≡
        flight.carried) }
    ensures after { flights.new.items ≡
        without (position (is_due due.now) flights.old.items) flights.old.items }
{
    match place_of(flights, due) {
        Some(place) => match flights.remove(place) {
            Some(flight) => flight.carried,
            None => unreachable!(),
        },
        None => unreachable!(),
    }
}

fn due_of<C>(flight: &Flight<C>) -> Due
    ensures { result ≡ due_of flight.now }
{
    Due {
        tick: flight.tick,
        to: flight.to,
        copy: flight.number,
    }
}

/// The earlier of the first arrivals of both.
fn first_due<C>(flights: &VecDeque<Flight<C>>, others: &VecDeque<Flight<C>>) -> Option<Due>
    ensures { result ≡ first_due flights.now.items others.now.items }
{
    match (flights.front(), others.front()) {
        (Some(flight), Some(other)) if comes_before(flight, other) => Some(due_of(flight)),
        (_, Some(other)) => Some(due_of(other)),
        (Some(flight), None) => Some(due_of(flight)),
        (None, None) => None,
    }
}

impl Flights {
    /// None is under way.
    pub fn new(alloc: Global) -> Self
        ensures { result ≡ [] }
    {
        Flights {
            to_a: VecDeque::new(alloc),
            to_b: VecDeque::new(alloc),
        }
    }

    /// Puts the copies of a segment under way, the first of which would arrive at the tick `first`.
    ///
    /// # Errors
    ///
    /// Only where there is no memory for them; all is then as it was.
    pub fn launch(
        &mut self,
        fate: Fate,
        to: Side,
        number: u64,
        first: u64,
        octets: Bytes,
    ) -> Result<(), AllocError>
        requires first { first < 2 ^ 64 - 2 ^ 19 }
        requires ticks { ticks_of fate ≤ 100000 }
        ensures ok { OnOk result (self.new ≡
            with_flights to number octets (arrivals fate first) self.old) }
        ensures err { OnErr result (self.new ≡ self.old) }
    {
        match to {
            Side::A => launch(&mut self.to_a, fate, to, number, first, octets),
            Side::B => launch(&mut self.to_b, fate, to, number, first, octets),
        }
    }

    /// The earliest arrival.
    pub fn due(&self) -> Option<Due>
        ensures earliest { result ≡ next_due self.now }
        ensures none_before { IfSome result (λ due.
            AllByRecursion (λ f. due.tick ≤ f.tick) self.now) }
        ensures under_way { IfSome result (λ due. IsSome (find (is_due due) self.now)) }
    {
        first_due(&self.to_a, &self.to_b)
    }

    /// The copy that arrives there and then.
    pub fn flight(&self, due: &Due) -> Option<&Flight<Bytes>>
        ensures { option_map (λ flight. flight.now) result ≡ find (is_due due.now) self.now }
    {
        match due.to {
            Side::A => flight_of(&self.to_a, due),
            Side::B => flight_of(&self.to_b, due),
        }
    }

    /// Hands out the octets of the copy that arrives there and then. Takes no memory.
    pub fn take(&mut self, due: &Due) -> Bytes
        requires { IsSome (find (is_due due.now) self.old) }
        ensures octets { IfSome (find (is_due due.now) self.old) (λ flight. result ≡
            flight.carried) }
        ensures after { self.new ≡ without (position (is_due due.now) self.old) self.old }
    {
        match due.to {
            Side::A => take(&mut self.to_a, due),
            Side::B => take(&mut self.to_b, due),
        }
    }

    /// Drops every copy.
    pub fn clear(&mut self)
        ensures { self.new ≡ [] }
    {
        self.to_a.clear();
        self.to_b.clear();
    }
}
