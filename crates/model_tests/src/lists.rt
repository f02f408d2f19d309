//! Random lists of requests.
use asked::asks::*;
use std::alloc::{AllocError, Global};

/// The next random number.
fn next(x: &mut u64) -> u64 {
    *x = mixed(*x);
    *x
}

/// How many acts a device performs until it goes dark: plenty, or some.
fn some_acts(x: &mut u64, most: u64) -> u64 {
    let r = next(x);
    if r % 2 == 0 || most == 0 {
        PLENTY
    } else {
        (r >> 8) % most
    }
}

/// A restart with these acts.
fn back(x: &mut u64, nvm_acts: u64, disk_acts: u64) -> Ask {
    let r = next(x);
    Ask::Restart(match r % 3 {
        0 => Back::Old(nvm_acts, disk_acts),
        1 => Back::New(nvm_acts, disk_acts),
        _ => Back::Mixed(r, nvm_acts, disk_acts),
    })
}

/// Any request. Record numbers go a little beyond the last record.
fn anything(x: &mut u64) -> Ask {
    let r = next(x);
    let number = (r >> 16) % 33;
    let value = (r >> 32) % 1000 + 1;
    match r % 64 {
        0 => Ask::Format,
        1..=8 => Ask::Mount,
        9..=16 => Ask::Begin,
        17..=32 => Ask::Set(number, value),
        33..=36 => Ask::Clear(number),
        37..=46 => Ask::Read(number),
        47..=53 => Ask::Commit,
        54 => Ask::Abandon,
        55..=57 => Ask::Checkpoint,
        58..=59 => Ask::Close,
        _ => {
            let nvm_acts = some_acts(x, 700);
            let disk_acts = some_acts(x, 14);
            back(x, nvm_acts, disk_acts)
        }
    }
}

/// A commit of a few records whose power fails around the store of the tail, a restart, a mount and reads.
fn aimed(x: &mut u64, asks: &mut Vec<Ask>) -> Result<(), AllocError> {
    let r = next(x);
    let count = r % 4 + 1;
    let acts = 133 + 36 * (count + 1) + (r >> 8) % 5;
    asks.push(back(x, PLENTY, PLENTY))?;
    asks.push(Ask::Mount)?;
    asks.push(back(x, acts, PLENTY))?;
    asks.push(Ask::Mount)?;
    asks.push(Ask::Begin)?;
    for i in 0..count {
        let number = ((r >> 16) % 8).wrapping_add(i.wrapping_mul(7)) % 32;
        asks.push(Ask::Set(number, (r >> 32) % 500 + i + 1))?;
    }
    asks.push(Ask::Commit)?;
    let nvm_acts = some_acts(x, 140);
    asks.push(back(x, nvm_acts, PLENTY))?;
    asks.push(Ask::Mount)?;
    asks.push(Ask::Read(((r >> 16) % 8) % 32))?;
    Ok(())
}

/// A list of requests: a few or many of any kind, an aimed cut, a full transaction, or reads of everything.
pub fn list(heap: Global, x: &mut u64) -> Result<Vec<Ask>, AllocError> {
    let mut asks = Vec::new(heap);
    let r = next(x);
    match r % 8 {
        0 => {
            for number in 0..32u64 {
                asks.push(Ask::Read(number))?;
            }
        }
        1 => aimed(x, &mut asks)?,
        2 => {
            asks.push(Ask::Begin)?;
            for _ in 0..(r >> 8) % 40 {
                asks.push(Ask::Set(next(x) % 32, (r >> 32) % 1000 + 1))?;
            }
            asks.push(Ask::Commit)?;
        }
        _ => {
            for _ in 0..(r >> 8) % 40 {
                asks.push(anything(x))?;
            }
        }
    }
    Ok(asks)
}
