//! What a test takes: one event, a batch, or all events of a file.
ghost use Rattle.std.specs.Prelude.{◌≡◌, false};
ghost use Rattle.dsr_events.specs.meaning.Orderly.{has_ended};

use crate::events::{Seen, are_right, as_seen};
use dsr_relay::Tap;
use std::sync::Wait;

/// Takes one event, and returns its place and what it is, or None if the feed is gone.
fn take_one<R: Wait>(rt: &R, tap: &mut Tap) -> Option<(u64, Seen)>
    requires { has_ended tap.old.taken ≡ false }
    ensures { tap.new.name ≡ tap.old.name }
{
    match tap.take(rt) {
        Ok(event) => {
            let seen = (event.place, as_seen(&event));
            drop(event);
            Some(seen)
        }
        Err(_) => None,
    }
}

/// Takes one event, and returns whether it is the opening.
pub fn takes_opened<R: Wait>(rt: &R, tap: &mut Tap) -> bool
    requires { has_ended tap.old.taken ≡ false }
    ensures { tap.new.name ≡ tap.old.name }
{
    take_one(rt, tap) == Some((0, Seen::Opening))
}

/// Takes one event, and returns whether it is the end, at this place.
pub fn takes_end<R: Wait>(rt: &R, tap: &mut Tap, place: u64) -> bool
    requires { has_ended tap.old.taken ≡ false }
    ensures { tap.new.name ≡ tap.old.name }
{
    take_one(rt, tap) == Some((place, Seen::End))
}

/// Takes one event, and returns its place, or None if the feed is gone.
pub fn takes_place<R: Wait>(rt: &R, tap: &mut Tap) -> Option<u64>
    requires { has_ended tap.old.taken ≡ false }
{
    let (place, _) = take_one(rt, tap)?;
    Some(place)
}

/// Takes a batch and gives it back, and returns the number of its events, or None if the feed is gone.
pub fn takes_batch<R: Wait>(rt: &R, tap: &mut Tap) -> Option<usize>
    requires { has_ended tap.old.taken ≡ false }
    ensures { tap.new.name ≡ tap.old.name }
{
    let Ok(batch) = tap.take_batch(rt) else {
        return None;
    };
    let count = batch.events().len();
    tap.give_back(rt, batch);
    Some(count)
}

/// Takes the batch that is there, if one is, and gives it back. Returns the number of its events, or None after the end.
pub fn takes_ready<R: Wait>(rt: &R, tap: &mut Tap) -> Option<usize> {
    if tap.ended() {
        return None;
    }
    let Some(batch) = tap.take_ready(rt) else {
        return Some(0);
    };
    let count = batch.events().len();
    tap.give_back(rt, batch);
    Some(count)
}

/// Takes the events of a file of blocks, and returns how many were right, up to the first that was not.
pub fn take_file<R: Wait>(rt: &R, tap: &mut Tap) -> u64
    ensures { tap.new.name ≡ tap.old.name }
{
    for place in 0..u64::MAX {
        if tap.ended() {
            return place;
        }
        match take_one(rt, tap) {
            Some((at, what)) if at == place && what != Seen::Other => {}
            _ => return place,
        }
    }
    u64::MAX
}

/// Takes the events of a file of blocks by batches, and returns how many were right, up to the first batch that was not.
pub fn take_batches<R: Wait>(rt: &R, tap: &mut Tap) -> u64
    ensures { tap.new.name ≡ tap.old.name }
{
    let mut taken = 0u64;
    for _ in 0..u64::MAX {
        if tap.ended() {
            return taken;
        }
        let Ok(batch) = tap.take_batch(rt) else {
            return taken;
        };
        if !are_right(batch.events(), taken) {
            drop(batch);
            return taken;
        }
        taken = taken.wrapping_add(batch.events().len() as u64);
        tap.give_back(rt, batch);
    }
    taken
}
