//! What happens to all devices of a conversion, in one order.

use std::alloc::{AllocError, Global};
use std::cell::RefCell;

/// A device that a conversion calls.
#[derive(Clone, Copy, PartialEq, Eq, Debug)]
pub enum Device {
    Reader,
    Writer,
    Log,
}

/// What happens to a device.
#[derive(Clone, Copy, PartialEq, Eq, Debug)]
pub enum Event {
    /// It is called, to read or to write.
    Call(Device),
    /// It takes a byte.
    Byte(Device, u8),
    /// It is flushed.
    Flush(Device),
}

/// What happens to all devices of a conversion, in one order.
#[derive(Drop)]
pub struct Tape {
    events: RefCell<Vec<Event>>,
}

impl Tape {
    /// Returns a tape with nothing noted.
    pub fn new(alloc: Global) -> Tape {
        Tape {
            events: RefCell::new(Vec::new(alloc)),
        }
    }

    /// Notes what happens next.
    pub fn add(&self, event: Event) -> Result<(), AllocError> {
        if let Ok(mut events) = self.events.try_borrow_mut() {
            events.push(event)?;
        }
        Ok(())
    }

    /// Returns what was noted, and empties the tape.
    pub fn take(&self, alloc: Global) -> Vec<Event> {
        match self.events.try_replace(Vec::new(alloc)) {
            Ok(events) => events,
            Err(nothing) => nothing,
        }
    }
}

/// Returns how many of these events are calls of a device.
pub fn calls_of(events: &[Event], device: Device) -> usize {
    let mut calls = 0usize;
    for event in events {
        if *event == Event::Call(device) {
            calls = calls.saturating_add(1);
        }
    }
    calls
}

// Returns the events up to a call of a device, counted from 1, and that call.
pub(crate) fn up_to(events: &[Event], device: Device, call: usize) -> &[Event] {
    let mut calls = 0usize;
    for (place, event) in events.iter().enumerate() {
        if calls == call {
            return events.get(..place).unwrap_or(events);
        }
        if *event == Event::Call(device) {
            calls = calls.saturating_add(1);
        }
    }
    events
}

/// Returns those of these events in which a device takes a byte.
pub fn only_bytes(alloc: Global, events: &[Event]) -> Result<Vec<Event>, AllocError> {
    let mut bytes = Vec::new(alloc);
    for event in events {
        if let Event::Byte(..) = event {
            bytes.push(*event)?;
        }
    }
    Ok(bytes)
}

/// Returns whether a device takes exactly these bytes.
pub fn takes(events: &[Event], device: Device, bytes: &[u8]) -> bool {
    let mut left = bytes;
    for event in events {
        match (event, left.split_first()) {
            (Event::Byte(taker, _), _) if *taker != device => {}
            (Event::Byte(_, byte), Some((first, rest))) if *byte == *first => left = rest,
            (Event::Byte(_, _), _) => return false,
            _ => {}
        }
    }
    left.is_empty()
}
