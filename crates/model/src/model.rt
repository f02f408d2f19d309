//! The model: every answer, act by act, on a memory of 33 units and a disk of 2 blocks.
use crate::worlds::*;
use asked::asks::*;
use calls::state::State;
use std::alloc::{AllocError, Global};
use std::test::Fail;

/// What is known of a store.
#[derive(Drop)]
pub struct Model {
    pub worlds: Vec<World>,
    pub open: Vec<(u64, u64)>,
    pub state: State,
    // Kept: power and state are two things, since a store that goes dark keeps its state.
    pub dark: bool,
    pub used: u64,
    /// The acts that the memory and the disk still perform.
    pub nvm_acts: u64,
    pub disk_acts: u64,
    /// How often a commit was cut after its tail was stored and before it was settled.
    pub doubts: u64,
}

/// A model of a store that was never formatted.
pub fn untouched(heap: Global) -> Result<Model, AllocError> {
    Ok(Model {
        worlds: vec![in heap; World::Unmarked]?,
        open: Vec::new(heap),
        state: State::Unmounted,
        dark: false,
        used: 0,
        nvm_acts: PLENTY,
        disk_acts: PLENTY,
        doubts: 0,
    })
}

/// Takes acts off, as many as there are, and answers how many those were.
fn spend(left: &mut u64, acts: u64) -> u64 {
    let done = (*left).min(acts);
    *left = left.saturating_sub(done);
    done
}

/// Settles both devices, as format and mount begin: whether power lasts.
fn settles(model: &mut Model) -> bool {
    spend(&mut model.nvm_acts, 133) == 133 && spend(&mut model.disk_acts, 1) == 1
}

/// A word is stored, flushed and fenced. Where power lasts every possibility is a changed one; where it fails after the store both are
/// there. Answers whether power lasts.
fn change(heap: Global, model: &mut Model, news: &Vec<World>) -> Result<bool, AllocError> {
    let done = spend(&mut model.nvm_acts, 3);
    if done == 0 {
        return Ok(false);
    }
    let mut worlds = Vec::new(heap);
    for world in news.iter() {
        add(&mut worlds, *world)?;
    }
    if done < 3 {
        for world in model.worlds.iter() {
            add(&mut worlds, *world)?;
        }
    }
    model.worlds = worlds;
    Ok(done == 3)
}

/// Whether a format is done.
fn formats(heap: Global, model: &mut Model) -> Result<bool, AllocError> {
    if !settles(model) || !change(heap, model, &vec![in heap; World::Unmarked]?)? {
        return Ok(false);
    }
    if spend(&mut model.disk_acts, 3) < 3 || spend(&mut model.nvm_acts, 36) < 36 {
        return Ok(false);
    }
    change(heap, model, &vec![in heap; BLANK]?)
}

/// The numbers that have to be refused, by the state of a store alone.
fn by_state(model: &Model, ask: Ask) -> Option<u32> {
    match (ask, model.state) {
        (Ask::Format | Ask::Mount, State::Idle | State::Open) => Some(20),
        (Ask::Format | Ask::Mount, State::Unmounted) => None,
        (_, State::Unmounted) => Some(21),
        (Ask::Begin | Ask::Close, State::Open) => Some(22),
        (Ask::Set(_, _) | Ask::Clear(_) | Ask::Commit | Ask::Abandon, State::Idle) => Some(23),
        (Ask::Set(number, _) | Ask::Clear(number) | Ask::Read(number), _) => {
            (number >= 32).then_some(31)
        }
        _ => None,
    }
}

/// The value that a record is set to in the open transaction, if it is set there.
fn own(model: &Model, number: u64) -> Option<u64> {
    model
        .open
        .iter()
        .find(|setting| setting.0 == number)
        .map(|setting| setting.1)
}

/// Sets a record.
fn sets(model: &mut Model, number: u64, value: u64) -> Result<Reply, Fail> {
    if let Some(setting) = model.open.iter_mut().find(|setting| setting.0 == number) {
        setting.1 = value;
        return Ok(Reply::Done);
    }
    if model.open.len() >= 30 {
        return Ok(Reply::No(32));
    }
    model.open.push((number, value))?;
    Ok(Reply::Done)
}

/// Commits.
fn commits(heap: Global, model: &mut Model) -> Result<Reply, Fail> {
    let count = model.open.len() as u64 % 32;
    if count > 0 {
        if model.used.saturating_add(count) > 30 {
            return Ok(Reply::No(33));
        }
        let acts = 36 * (count + 1) + 1;
        if spend(&mut model.nvm_acts, acts) < acts {
            return Ok(Reply::No(5));
        }
        let news = model
            .worlds
            .iter()
            .map(|world| world.laid(model.open.as_slice()))
            .collect(heap)?;
        if !change(heap, model, &news)? {
            model.doubts = model.doubts.saturating_add(1);
            return Ok(Reply::No(5));
        }
        model.used = model.used.saturating_add(count).saturating_add(1);
    }
    model.open.clear();
    model.state = State::Idle;
    Ok(Reply::Used((model.used % 64) as usize))
}

/// Empties the ring of each world, if it has a ground mark: the worlds in which that would have been answered are left.
fn empties(heap: Global, model: &mut Model, reply: Reply) -> Result<(), Fail> {
    let mut left = Vec::new(heap);
    let mut acts = 0;
    for world in model.worlds.iter() {
        let blocks = world.blocks();
        let writes = u64::from(blocks) + 1;
        if *world == World::Unmarked {
            if reply == Reply::No(11) {
                add(&mut left, *world)?;
            }
        } else if blocks == 0 {
            if reply == Reply::Blocks(0) {
                add(&mut left, *world)?;
            }
        } else if model.disk_acts < writes || model.nvm_acts < 3 {
            if reply == Reply::No(5) {
                add(&mut left, *world)?;
                if model.disk_acts >= writes && model.nvm_acts > 0 {
                    add(&mut left, world.emptied())?;
                }
            }
        } else if reply == Reply::Blocks(usize::from(blocks)) {
            add(&mut left, world.emptied())?;
            acts = writes;
        }
    }
    if left.is_empty() {
        return Err(Fail::new("no world allows the answer of a mount or a checkpoint"));
    }
    model.worlds = left;
    if acts > 0 {
        let _ = spend(&mut model.disk_acts, acts);
        let _ = spend(&mut model.nvm_acts, 3);
    }
    if let Reply::Blocks(_) = reply {
        model.used = 0;
    }
    Ok(())
}

/// A read of the table leaves the worlds that have what it answered.
fn reads(model: &mut Model, number: u64, reply: Reply) -> Result<(), Fail> {
    model.worlds.retain(|world| world.reading(number) == reply);
    if model.worlds.is_empty() {
        return Err(Fail::new("no world allows the answer of a read"));
    }
    Ok(())
}

/// A restart.
fn returns(model: &mut Model, nvm_acts: u64, disk_acts: u64) {
    model.nvm_acts = nvm_acts;
    model.disk_acts = disk_acts;
    model.dark = false;
    model.state = State::Unmounted;
    model.open.clear();
}

/// A call that the state lets through was answered so.
fn performed(heap: Global, model: &mut Model, ask: Ask, reply: Reply) -> Result<(), Fail> {
    match ask {
        Ask::Format => {
            let done = formats(heap, model)?;
            same(reply, if done { Reply::Done } else { Reply::No(5) })?;
        }
        Ask::Mount => {
            if !settles(model) {
                same(reply, Reply::No(5))?;
                return Ok(());
            }
            empties(heap, model, reply)?;
            if let Reply::Blocks(_) = reply {
                model.state = State::Idle;
            }
        }
        Ask::Begin => {
            same(reply, Reply::Done)?;
            model.state = State::Open;
        }
        Ask::Set(number, value) => same(reply, sets(model, number, value)?)?,
        Ask::Clear(number) => same(reply, sets(model, number, 0)?)?,
        Ask::Read(number) => match own(model, number) {
            Some(value) => same(reply, shown(value))?,
            None => reads(model, number, reply)?,
        },
        Ask::Commit => same(reply, commits(heap, model)?)?,
        Ask::Abandon => {
            same(reply, Reply::Done)?;
            model.open.clear();
            model.state = State::Idle;
        }
        Ask::Checkpoint => empties(heap, model, reply)?,
        Ask::Close => {
            // A close answers no number of blocks: it is the one of its world.
            let blocks = model.worlds.get(0).copied().unwrap_or(BLANK).blocks();
            if reply == Reply::Done {
                empties(heap, model, Reply::Blocks(usize::from(blocks)))?;
                model.state = State::Unmounted;
            } else {
                empties(heap, model, reply)?;
            }
        }
        Ask::Restart(_) => {}
    }
    Ok(())
}

/// This was asked and answered so: the answer has to be allowed, and the model goes on from there.
pub fn heard(heap: Global, model: &mut Model, ask: Ask, reply: Reply) -> Result<(), Fail> {
    if let Ask::Restart(back) = ask {
        match back {
            Back::Old(nvm_acts, disk_acts)
            | Back::New(nvm_acts, disk_acts)
            | Back::Mixed(_, nvm_acts, disk_acts) => returns(model, nvm_acts, disk_acts),
        }
        same(reply, Reply::Done)?;
        return Ok(());
    }
    if model.dark {
        same(reply, Reply::No(5))?;
        return Ok(());
    }
    if let Some(number) = by_state(model, ask) {
        same(reply, Reply::No(number))?;
        return Ok(());
    }
    performed(heap, model, ask, reply)?;
    if reply == Reply::No(5) {
        model.dark = true;
    }
    Ok(())
}
