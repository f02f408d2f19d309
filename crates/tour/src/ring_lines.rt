//! Lines about the ring.
use desk::ring_desk::RingDesk;
use desk::rings::PLACES;
use desk::verbs::RingVerb;
use refusal::reason::Refusal;
use words::InShort;
use words::ring_words::{Place, Spelled};

/// A refusal.
fn refuse(rt: &HostRuntime, why: Refusal) -> anyhow::Result<()> {
    let words = InShort { why };
    Ok(println!(rt; "{words}")?)
}

/// Commits what waits.
fn commit(rt: &HostRuntime, desk: &mut RingDesk) -> anyhow::Result<()> {
    let count = desk.waiting().len();
    if count == 0 {
        return refuse(rt, Refusal::NotOpen);
    }
    match desk.commit() {
        Some(used) => Ok(println!(rt;
            "a transaction of {count} records, {used} of {PLACES} places used"
        )?),
        None => refuse(rt, Refusal::RingFull),
    }
}

/// Shows the ring place by place.
fn show_places(rt: &HostRuntime, desk: &RingDesk) -> anyhow::Result<()> {
    let head = desk.head();
    let tail = desk.tail();
    println!(rt; "the ring, head {head}, tail {tail}")?;
    for place in 0..PLACES {
        let unit = desk.unit(place);
        let words = Place {
            role: desk.role(place),
            unit: &unit,
        };
        println!(rt; "  place {place}: {words}")?;
    }
    Ok(())
}

/// Walks the ring back, and shows what it spells.
fn walk(rt: &HostRuntime, desk: &RingDesk) -> anyhow::Result<()> {
    match desk.transactions(rt.alloc()) {
        Err(why) => refuse(rt, why),
        Ok(list) => {
            let count = list.len();
            println!(rt; "{count} transactions, the oldest first")?;
            for settings in list.iter() {
                let words = Spelled {
                    settings: settings.as_slice(),
                };
                println!(rt; "  {words}")?;
            }
            Ok(())
        }
    }
}

/// Looks a record up.
fn find(rt: &HostRuntime, desk: &RingDesk, number: u64) -> anyhow::Result<()> {
    match desk.find(number) {
        Err(why) => refuse(rt, why),
        Ok(None) => Ok(println!(rt; "no transaction names record {number}")?),
        Ok(Some(place)) => {
            let unit = desk.unit(place);
            let words = Place {
                role: desk.role(place),
                unit: &unit,
            };
            Ok(println!(rt; "newest at place {place}: {words}")?)
        }
    }
}

/// Runs a line about the ring.
pub fn run_ring(rt: &HostRuntime, desk: &mut RingDesk, verb: RingVerb) -> anyhow::Result<()> {
    match verb {
        RingVerb::Commit => commit(rt, desk),
        RingVerb::Show => show_places(rt, desk),
        RingVerb::Walk => walk(rt, desk),
        RingVerb::Find(number) => find(rt, desk, number),
        RingVerb::Damage { word, value } => match desk.damage(word as usize, value) {
            Ok(()) => Ok(println!(rt; "word {word} of the image is {value} now")?),
            Err(why) => refuse(rt, why),
        },
    }
}
