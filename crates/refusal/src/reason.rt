//! The reasons themselves.

/// Why a call is refused. A refused call leaves every buffer and the present contents of both devices as they were.
#[derive(Clone, Copy, PartialEq, Eq, Debug)]
pub enum Refusal {
    /// A word, a line or a block beyond the size of the device.
    Beyond,
    /// A store to an unsettled word, or a write to a block with a waiting sector.
    Unsettled,
    /// Power is gone.
    Dark,
    /// There is no memory to make a device, a store or a list of answers.
    NoMemory,
    /// A size outside the limits: 33 to 256 units, 1 to 4,096 blocks.
    BadSize,
    /// There is no ground mark: no format was finished on this memory.
    NoGroundMark,
    /// Unit 0 names other sizes than the devices have, or a head or tail that is no place.
    BadHeader,
    /// The ring is unsound; the place of the first bad TxnInfo that stepping back from the tail meets.
    UnsoundRing(usize),
    /// The store is mounted, and the call is for an unmounted one.
    Mounted,
    /// The store is not mounted.
    NotMounted,
    /// A transaction is open already.
    AlreadyOpen,
    /// No transaction is open.
    NotOpen,
    /// A record number of 16 × B or more, on a disk of B blocks.
    NoSuchRecord,
    /// 30 other records are set in this transaction already.
    TooManyRecords,
    /// The ring has no room for this transaction.
    RingFull,
    /// The record's unit is neither zero nor one that the store's kind reads.
    ForeignUnit,
    /// A tile's column or row above 65,535.
    ColumnOrRow,
    /// A tile's level below -2,000 or above 500 tenths of a dBm.
    Level,
    /// A mast's name of no bytes or of more than 232.
    NameLength,
    /// A byte of a mast's name that is no printed ASCII, 0x20 to 0x7E.
    NameByte,
}
