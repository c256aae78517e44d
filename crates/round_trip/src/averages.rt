// What a sample makes of the round trips, of the throttle and of its interval.
ghost use Rattle.std.specs.Prelude.{◌≡◌};
ghost use Rattle.throttle.specs.Throttling.{answer_of, answer_after};
ghost use Rattle.round_trip.specs.Averages.{first_trip, difference, variance_by, trip_by, later_trip, extremes, averaged};
ghost use Rattle.round_trip.specs.Interval.{is_over, last_trips, rolled, throttle_of, throttled, before_averages, measured};

use numbers::clock;
use record::groups::{Throttling, Trips};
use throttle::{Throttle, Turn};

#[derive(Clone, Copy)]
pub struct Measured {
    pub throttling: Throttling,
    pub trips: Trips,
}

#[derive(Clone, Copy)]
pub struct Throttled {
    pub throttling: Throttling,
    pub turn: Turn,
}

fn first_trip(trips: Trips, sample: u32) -> Trips
    ensures { result ≡ first_trip sample trips }
{
    let mut t = trips;
    t.mean = sample;
    t.variance = std::num::wrapping_add_u32(sample, 1) / 2;
    t
}

fn difference(a: u32, b: u32) -> u32
    ensures { result ≡ difference a b }
{
    if b <= a {
        return a - b;
    }
    b - a
}

// Less a quarter of itself, plus a quarter of the difference.
fn variance_by(sample: u32, now: u32, variance: u32) -> u32
    ensures { result ≡ variance_by sample now variance }
{
    let off = difference(sample, now);
    std::num::wrapping_add_u32(variance - variance / 4, off / 4)
}

// By an eighth of the difference, up or down.
fn trip_by(sample: u32, now: u32) -> u32
    ensures { result ≡ trip_by sample now }
{
    let off = difference(sample, now);
    if now <= sample {
        return std::num::wrapping_add_u32(now, off / 8);
    }
    now - off / 8
}

fn later_trip(trips: Trips, sample: u32) -> Trips
    ensures { result ≡ later_trip sample trips }
{
    let mut t = trips;
    t.variance = variance_by(sample, trips.mean, trips.variance);
    t.mean = trip_by(sample, trips.mean);
    t
}

// The lowest round trip and the highest variance, with what they now are.
fn extremes(trips: Trips) -> Trips
    ensures { result ≡ extremes trips }
{
    let mut t = trips;
    if trips.mean < trips.lowest {
        t.lowest = trips.mean;
    }
    if trips.variance > trips.highest_variance {
        t.highest_variance = trips.variance;
    }
    t
}

pub fn averaged(trips: Trips, first: bool, sample: u32) -> Trips
    ensures { result ≡ averaged first sample trips }
{
    if first {
        return extremes(first_trip(trips, sample));
    }
    extremes(later_trip(trips, sample))
}

fn is_over(throttling: Throttling, clock: u32) -> bool
    ensures { result ≡ is_over clock throttling }
{
    if throttling.epoch == 0 {
        return true;
    }
    throttling.interval <= clock::distance(clock, throttling.epoch)
}

fn last_trips(trips: Trips) -> Trips
    ensures { result ≡ last_trips trips }
{
    let mut t = trips;
    t.last = trips.lowest;
    t.last_variance = 1;
    if trips.highest_variance > 1 {
        t.last_variance = trips.highest_variance;
    }
    t.lowest = trips.mean;
    t.highest_variance = trips.variance;
    t
}

// The interval is over: its extremes are the last ones, and the next begins.
pub fn rolled(throttling: Throttling, trips: Trips, clock: u32) -> Measured
    ensures { result ≡ rolled clock throttling trips }
{
    if !is_over(throttling, clock) {
        return Measured { throttling, trips };
    }
    let mut th = throttling;
    th.epoch = clock;
    let trips = last_trips(trips);
    Measured {
        throttling: th,
        trips,
    }
}

// The throttle on the record's own numbers.
pub fn throttle(throttling: Throttling, trips: Trips, sample: u32) -> Throttled
    ensures throttling { result.throttling ≡ throttled sample throttling trips }
    ensures turn { answer_of result.turn ≡ answer_after (throttle_of throttling trips) sample }
{
    let t = Throttle {
        value: throttling.value,
        limit: throttling.limit,
        acceleration: throttling.acceleration,
        deceleration: throttling.deceleration,
        last: trips.last,
        variance: trips.last_variance,
    };
    let rolled = t.roll(sample);
    let turn = rolled.turn;
    let mut th = throttling;
    th.value = rolled.throttle.value;
    Throttled {
        throttling: th,
        turn,
    }
}

// A later sample rolls the throttle first, by the last interval's numbers.
fn before_averages(throttling: Throttling, trips: Trips, first: bool, sample: u32) -> Throttling
    ensures { result ≡ before_averages first sample throttling trips }
{
    if first {
        return throttling;
    }
    let t = throttle(throttling, trips, sample);
    t.throttling
}

pub fn measure(
    throttling: Throttling,
    trips: Trips,
    first: bool,
    sample: u32,
    clock: u32,
) -> Measured
    ensures { result ≡ measured first sample clock throttling trips }
{
    let th = before_averages(throttling, trips, first, sample);
    let t = averaged(trips, first, sample);
    rolled(th, t, clock)
}
