//! What is asked of a store and what it answers, as plain values for tables.
use calls::answer::Answer;
use calls::call::Call;
use device::comeback::Comeback;
use device::disk::Disk;
use device::nvm::Nvm;
use joined::kind::JoinedKind;
use joined::record::Joined;
use mast::record::Mast;
use promise::request::{Request, Return};
use refusal::reason::Refusal;
use std::alloc::{AllocError, Global};
use std::fmt::Debug;
use std::test::Fail;
use store::store::Store;
use tile::record::Tile;

/// How the devices come back, and after how many acts the memory and the disk go dark.
#[derive(Clone, Copy)]
pub enum Back {
    Old(u64, u64),
    New(u64, u64),
    /// Mixed, by a pattern of bits that this number makes.
    Mixed(u64, u64, u64),
}

/// What is asked. A record goes by a value, of which `record_of` makes it.
#[derive(Clone, Copy)]
pub enum Ask {
    Format,
    Mount,
    Begin,
    Set(u64, u64),
    Clear(u64),
    Read(u64),
    Commit,
    Abandon,
    Checkpoint,
    Close,
    Restart(Back),
}

/// What is answered. A refusal is its number, an unsound ring the place.
#[derive(Clone, Copy, PartialEq, Eq, Debug)]
pub enum Reply {
    // Kept: by its number, which the rules name, so that a table can be read beside them.
    No(u32),
    Unsound(usize),
    Done,
    Used(usize),
    Blocks(usize),
    Absent,
    Found(u64),
    /// A record that no value makes.
    Strange,
}

/// Plenty of acts.
pub const PLENTY: u64 = 1_000_000_000;

/// The record of a value: a mast where the value is odd, else a tile.
pub fn record_of(value: u64) -> Result<Joined, Refusal> {
    if value % 2 == 1 {
        Ok(Joined::Mast(Mast::new(value, b"Ridge")?))
    } else {
        Ok(Joined::Tile(Tile::flat(value % 65536, 3, value, -800)?))
    }
}

/// The value of a record, if it is the record of a value.
pub fn value_of(found: &Joined) -> Option<u64> {
    let value = match found {
        Joined::Mast(mast) => mast.number(),
        Joined::Tile(tile) => tile.plan(),
    };
    record_of(value)
        .is_ok_and(|made| made == *found)
        .then_some(value)
}

/// Whether a mixed pattern has the piece with this number come back new.
pub fn bit(seed: u64, piece: u64) -> bool {
    mixed(seed ^ piece) % 2 == 1
}

/// A pattern of bits for 1,056 words or sectors.
pub fn pattern(heap: Global, seed: u64) -> Result<Vec<bool>, AllocError> {
    (0..1056u64).map(|piece| bit(seed, piece)).collect(heap)
}

/// Pseudo-random numbers: the one after this.
pub fn mixed(seed: u64) -> u64 {
    let x = seed.wrapping_add(0x9E37_79B9_7F4A_7C15);
    let y = (x ^ (x >> 30)).wrapping_mul(0xBF58_476D_1CE4_E5B9);
    let z = (y ^ (y >> 27)).wrapping_mul(0x94D0_49BB_1331_11EB);
    z ^ (z >> 31)
}

/// A restart.
fn restart_of(heap: Global, back: Back) -> Result<Return, AllocError> {
    Ok(match back {
        Back::Old(nvm_acts, disk_acts) => Return {
            nvm: Comeback::Old,
            disk: Comeback::Old,
            nvm_acts,
            disk_acts,
        },
        Back::New(nvm_acts, disk_acts) => Return {
            nvm: Comeback::New,
            disk: Comeback::New,
            nvm_acts,
            disk_acts,
        },
        Back::Mixed(seed, nvm_acts, disk_acts) => Return {
            nvm: Comeback::Chosen(pattern(heap, seed)?),
            disk: Comeback::Chosen(pattern(heap, mixed(seed))?),
            nvm_acts,
            disk_acts,
        },
    })
}

/// The request that is asked.
pub fn request_of(heap: Global, ask: Ask) -> Result<Request<Joined>, Fail> {
    Ok(match ask {
        Ask::Format => Request::Call(Call::Format),
        Ask::Mount => Request::Call(Call::Mount),
        Ask::Begin => Request::Call(Call::Begin),
        Ask::Set(number, value) => Request::Call(Call::Set(number, record_of(value)?)),
        Ask::Clear(number) => Request::Call(Call::Clear(number)),
        Ask::Read(number) => Request::Call(Call::Read(number)),
        Ask::Commit => Request::Call(Call::Commit),
        Ask::Abandon => Request::Call(Call::Abandon),
        Ask::Checkpoint => Request::Call(Call::Checkpoint),
        Ask::Close => Request::Call(Call::Close),
        Ask::Restart(back) => Request::Restart(restart_of(heap, back)?),
    })
}

/// A refusal as a reply.
impl From<Refusal> for Reply {
    fn from(refusal: Refusal) -> Reply {
        match refusal {
            Refusal::UnsoundRing(place) => Reply::Unsound(place),
            other => Reply::No(other.number()),
        }
    }
}

/// An answer as a reply.
impl From<&Answer<Joined>> for Reply {
    fn from(answer: &Answer<Joined>) -> Reply {
        match answer {
            Answer::Refused(refusal) => Reply::from(*refusal),
            Answer::Done => Reply::Done,
            Answer::Used(places) => Reply::Used(*places),
            Answer::Blocks(count) => Reply::Blocks(*count),
            Answer::Absent => Reply::Absent,
            Answer::Found(found) => value_of(found).map_or(Reply::Strange, Reply::Found),
        }
    }
}

/// Asks a store for a list of things, and gives its replies.
pub fn replies<N: Nvm, D: Disk>(
    heap: Global,
    store: &mut Store<N, D, JoinedKind>,
    asks: &[Ask],
) -> Result<Vec<Reply>, Fail> {
    let mut requests = Vec::new(heap);
    for ask in asks {
        requests.push(request_of(heap, *ask)?)?;
    }
    let answers = store.run(heap, requests.as_slice())?;
    Ok(
        answers
            .iter()
            .map(|answer| Reply::from(answer))
            .collect(heap)?,
    )
}

/// Asks for one thing.
pub fn reply_to<N: Nvm, D: Disk>(
    heap: Global,
    store: &mut Store<N, D, JoinedKind>,
    asked: Ask,
) -> Result<Reply, Fail> {
    let seen = replies(heap, store, &[asked])?;
    Ok(seen.get(0).copied().unwrap_or(Reply::Strange))
}

/// Fails where something is seen that is not wanted.
pub fn same<T: PartialEq + Debug + Copy>(seen: T, wanted: T) -> Result<(), Fail> {
    if seen == wanted {
        Ok(())
    } else {
        Err(Fail::new(format_args!("seen is {seen:?}, and wanted {wanted:?}")))
    }
}

/// What is asked, and what must be answered.
#[derive(Clone, Copy)]
pub struct Row(pub Ask, pub Reply);

/// Asks for everything in a table as one list, and fails where a reply is not the one in the table.
pub fn follow<N: Nvm, D: Disk>(
    heap: Global,
    store: &mut Store<N, D, JoinedKind>,
    rows: &[Row],
) -> Result<(), Fail> {
    let asks: Vec<Ask> = rows.iter().map(|row| row.0).collect(heap)?;
    let seen = replies(heap, store, asks.as_slice())?;
    same(seen.len(), rows.len())?;
    for (row, reply) in rows.iter().zip(seen.iter()) {
        same(*reply, row.1)?;
    }
    Ok(())
}

/// The values of records 0 to 31, 0 where there is none.
pub type Table = [u64; 32];

/// Reads records 0 to 31.
pub fn read_all<N: Nvm, D: Disk>(
    heap: Global,
    store: &mut Store<N, D, JoinedKind>,
) -> Result<Table, Fail> {
    let asks: Vec<Ask> = (0..32u64).map(|number| Ask::Read(number)).collect(heap)?;
    let seen = replies(heap, store, asks.as_slice())?;
    let mut table = [0; 32];
    for (place, reply) in table.iter_mut().zip(seen.iter()) {
        match reply {
            Reply::Absent => {}
            Reply::Found(value) => *place = *value,
            _ => return Err(Fail::new("a read is refused")),
        }
    }
    Ok(table)
}

/// An unmounted store of two devices.
pub fn store_of<N: Nvm + Drop, D: Disk + Drop>(
    heap: Global,
    nvm: N,
    disk: D,
) -> Result<Store<N, D, JoinedKind>, Fail> {
    Store::new(heap, nvm, disk).map_err(|_| Fail::new("no memory for a store"))
}

/// Begins a transaction and sets the records 0 to `count` - 1, each to its number and 101 more.
pub fn set_many<N: Nvm, D: Disk>(
    heap: Global,
    store: &mut Store<N, D, JoinedKind>,
    count: u64,
) -> Result<(), Fail> {
    let mut rows = Vec::new(heap);
    rows.push(Row(Ask::Begin, Reply::Done))?;
    for number in 0..count {
        rows.push(Row(Ask::Set(number, number.wrapping_add(101)), Reply::Done))?;
    }
    follow(heap, store, rows.as_slice())
}
