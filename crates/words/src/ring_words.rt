//! A ring in words.
use desk::places::Role;
use joined::kind::JoinedKind;
use joined::record::Joined;
use kinds::kind::RecordKind;
use ringlaws::setting::Setting;
use std::fmt;

/// A tile or a mast in few words.
fn show_record<W: fmt::Write>(value: &Joined, f: &mut fmt::Formatter<W>) -> fmt::Result {
    match value {
        Joined::Tile(tile) => {
            let column = tile.column();
            let row = tile.row();
            let plan = tile.plan();
            write!(f, "tile at {column}, {row} of plan {plan}")
        }
        Joined::Mast(mast) => {
            let number = mast.number();
            let name = mast.text();
            write!(f, "mast {number} \"{name}\"")
        }
    }
}

/// The tile or mast in a unit.
fn show_unit<W: fmt::Write>(unit: &[u64; 32], f: &mut fmt::Formatter<W>) -> fmt::Result {
    match JoinedKind::decode(unit) {
        Some(value) => show_record(&value, f),
        None => f.write_str("neither a tile nor a mast"),
    }
}

/// The first `count` numbers of a TxnInfo.
fn show_numbers<W: fmt::Write>(
    words: &[u64; 32],
    count: usize,
    f: &mut fmt::Formatter<W>,
) -> fmt::Result {
    for number in words.iter().take(count) {
        write!(f, " {number}")?;
    }
    Ok(())
}

/// A place of a ring: what it is, and its words.
// Kept: the sentence is about both parts, so no type but this one can show it.
#[derive(Clone, Copy)]
pub struct Place<'a> {
    pub role: Role,
    pub unit: &'a [u64; 32],
}

impl fmt::Display for Place<'_> {
    fn fmt<W: fmt::Write>(&self, f: &mut fmt::Formatter<W>) -> fmt::Result {
        match self.role {
            Role::Free => f.write_str("free"),
            Role::NotReached => f.write_str("not reached from the tail"),
            Role::Record(number) => {
                write!(f, "record {number}, ")?;
                show_unit(self.unit, f)
            }
            Role::TxnInfo { count, words } => {
                write!(f, "TxnInfo of {count}, records")?;
                show_numbers(&words, count, f)
            }
        }
    }
}

/// A transaction, to be printed.
// Kept: a transaction is a slice, which has no Display of its own.
#[derive(Clone, Copy)]
pub struct Spelled<'a> {
    pub settings: &'a [Setting],
}

impl fmt::Display for Spelled<'_> {
    fn fmt<W: fmt::Write>(&self, f: &mut fmt::Formatter<W>) -> fmt::Result {
        let mut mark = "";
        for setting in self.settings {
            let number = setting.number;
            write!(f, "{mark}record {number} = ")?;
            show_unit(&setting.unit, f)?;
            mark = ", ";
        }
        Ok(())
    }
}
