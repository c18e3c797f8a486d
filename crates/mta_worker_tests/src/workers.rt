//! Two workers over one spool: one waits for its peer until the other has served its own; and something fails.
ghost use Rattle.std.specs.Prelude.{◌≡◌, ◌<◌, ◌^◌, IfOk, vec_len};
ghost use Rattle.mta_edge.specs.Moments.{memory_clock};
ghost use Rattle.mta_links.specs.Links.{untold_link, untold_station};
ghost use Rattle.mta_spool.specs.Bases.{base_of, Keeps};

use mta_ber::Word;
use mta_edge::{Disk, Failed, MemClock, MemDisk, Octets, SafeDisk};
use mta_links::{Link, MemLink, MemStation, Role, Station};
use mta_session::Limits;
use mta_spool::{Spool, Tables};
use mta_worker::{Halt, Worked, WorkerEnd, work_side_by_side};
use std::alloc::{AllocError, Global};
use std::sync::Wait;
use std::sync::atomic::{AtomicU64, Ordering};
use std::test::Fail;
use std::thread::Threads;
use std::time::Duration;

const TABLES: &[u8] = b"domain C=GB;A=GOLD\nname gold\n\
    peer silver theirs ours monologue 4 3\npeer copper theirs ours monologue 4 3\n\
    mailbox watt C=GB;A=GOLD;S=WATT\n";

// A message of one piece for the mailbox.
const MESSAGE: &[u8] =
    b"\xA0\x63\x31\x5D\x60\x18\x30\x16\x61\x04\x13\x02GB\x62\x06\x13\x04GOLD\xA5\x06\x80\x04BELL\
    \x64\x17\x63\x0E\x61\x04\x13\x02GB\x62\x06\x13\x04GOLD\x16\x05M0001\x46\x01\x16\x69\x00\
    \xA2\x23\x31\x21\x60\x18\x30\x16\x61\x04\x13\x02GB\x62\x06\x13\x04GOLD\xA5\x06\x80\x04WATT\
    \x80\x01\x01\x81\x02\x00\xA8\x04\x02Hi";

// Accept, EndAck 1 and CloseAck.
const ANSWERS: &[u8] =
    b"\x00\x00\x00\x1B\x02\xB1\x19\x80\x01\x04\xA2\x14\xA0\x12\xA1\x10\x80\x04gold\
    \xA1\x08\x16\x06theirs\x00\x00\x00\x04\x09\x00\x00\x00\x01\x00\x00\x00\x00\x13";

// How often a link looks whether the other session is over, and for how many milliseconds it sleeps in between.
const LOOKS: u32 = 10_000;

const PAUSE: u64 = 2;

// A link in memory. It gives nothing before the flag is up, for which it waits.
#[derive(Drop)]
struct Line<'a, R> {
    link: MemLink,
    runtime: &'a R,
    flag: &'a AtomicU64,
    waits: bool,
}

impl<R: Wait> Line<'_, R> {
    // Whether the flag is up, at last.
    fn is_flagged(&self) -> bool {
        for _ in 0..LOOKS {
            if self.flag.load(Ordering::SeqCst) > 0 {
                return true;
            }
            self.flag
                .park_timeout(self.runtime, 0, Duration::from_millis(PAUSE));
        }
        false
    }
}

impl<R: Wait> Link for Line<'_, R> {
    ghost model = { untold_link (λ l. l.link.faults) };

    fn get(&mut self, into: &mut [u8]) -> Result<usize, Failed> {
        if self.waits && !self.is_flagged() {
            return Ok(0);
        }
        self.link.get(into)
    }

    fn put(&mut self, bytes: &[u8]) -> Result<usize, Failed> {
        self.link.put(bytes)
    }
}

// A station with one link. The flag goes up once the link has come back.
#[derive(Drop)]
struct Stop<'a, R> {
    role: Role,
    line: Option<Line<'a, R>>,
    ended: Option<Line<'a, R>>,
    flag: &'a AtomicU64,
    out: u64,
}

impl<'a, R: Wait> Station for Stop<'a, R> {
    type Link = Line<'a, R>;

    ghost model = { untold_station (λ s. s.role) (λ s. s.out) (λ _. 0) };

    fn role(&self) -> &Role {
        &self.role
    }

    fn next(&mut self) -> Result<Option<Line<'a, R>>, Failed> {
        if self.out > 0 {
            return Ok(None);
        }
        match self.line.take() {
            Some(line) => {
                self.out = 1;
                Ok(Some(line))
            }
            None => Ok(None),
        }
    }

    fn back(&mut self, link: Line<'a, R>) {
        self.out -= 1;
        self.ended = Some(link);
        self.flag.store(1, Ordering::SeqCst);
        self.flag.wake_all();
    }
}

// What a peer of this name gives, of six letters: Open, Start 1, the message, End 1 and Close.
fn given(alloc: Global, name: &[u8]) -> Result<Vec<u8>, AllocError> {
    let mut octets = Vec::new(alloc);
    for piece in [
        b"\x00\x00\x00\x3C\x01\x16\x06".as_slice(),
        name,
        b"\x30\x17\x04\x06",
        name,
        b"\x17\x0D500101000000Z\xB0\x19\x80\x01\x04\xA3\x14\xA0\x12\xA1\x10\x80\x06",
        name,
        b"\xA1\x06\x16\x04ours",
        b"\x00\x00\x00\x04\x04\x00\x00\x00\x01\x00\x00\x00\x67\x05\x04\x65",
        MESSAGE,
        b"\x00\x00\x00\x04\x08\x00\x00\x00\x01\x00\x00\x00\x00\x12",
    ] {
        octets.extend_from_slice(piece)?;
    }
    Ok(octets)
}

fn stop_of<'a, R: Wait>(
    alloc: Global,
    runtime: &'a R,
    flag: &'a AtomicU64,
    name: &[u8],
    waits: bool,
) -> Result<Stop<'a, R>, AllocError> {
    let input = Octets::from_vec(given(alloc, name)?);
    let line = Line {
        link: MemLink::new(alloc, input, Vec::new(alloc)),
        runtime,
        flag,
        waits,
    };
    Ok(Stop {
        role: Role::In,
        line: Some(line),
        ended: None,
        flag,
        out: 0,
    })
}

fn was_put<'a, R>(stop: &'a Stop<'_, R>) -> &'a [u8] {
    match &stop.ended {
        Some(line) => line.link.octets(),
        None => &[],
    }
}

// How many records the first of a journal's two areas has, which begins at octet 23.
fn records(octets: &[u8]) -> u32 {
    let mut count: u32 = 0;
    let mut rest = octets.get(23..).unwrap_or(&[]);
    for _ in 0..100 {
        let [1, a, b, c, d, after @ ..] = rest else {
            return count;
        };
        let length = u32::from_be_bytes([*a, *b, *c, *d]) as usize;
        rest = after.get(length..).unwrap_or(&[]);
        count = count.saturating_add(1);
    }
    count
}

// A spool on the disk.
fn opened<D: Disk + Drop>(alloc: Global, disk: D) -> Result<Spool<D, MemClock>, Fail>
    ensures { IfOk result (λ s. Keeps D.model memory_clock s (base_of D.model memory_clock s)) }
{
    match Spool::open(alloc, disk, MemClock::new(Vec::new(alloc))) {
        Ok(spool) => Ok(spool),
        Err(_) => Err(Fail::new("not opened")),
    }
}

// The spool with these tables recorded. Where they are not, it is ended: to drop it here takes a proof of each part.
fn recorded<D: Disk + Drop>(
    mut spool: Spool<D, MemClock>,
    tables: &Tables,
) -> Result<Spool<D, MemClock>, Fail>
    requires { Keeps D.model memory_clock spool (base_of D.model memory_clock spool) }
    ensures { IfOk result (λ s. Keeps D.model memory_clock s (base_of D.model memory_clock s)) }
{
    match spool.set_tables(tables) {
        Ok(()) => Ok(spool),
        Err(_) => {
            spool.end();
            Err(Fail::new("not recorded"))
        }
    }
}

// A spool on the disk, in which the tables are recorded.
fn begun<D: Disk + Drop>(alloc: Global, disk: D) -> Result<Spool<D, MemClock>, Fail>
    ensures { IfOk result (λ s. Keeps D.model memory_clock s (base_of D.model memory_clock s)) }
{
    let Ok(tables) = Tables::read(alloc, TABLES) else {
        return Err(Fail::new("no tables"));
    };
    let spool = opened(alloc, disk)?;
    recorded(spool, &tables)
}

const SERVED: WorkerEnd = WorkerEnd {
    sessions: 1,
    closed: 1,
    halt: Halt::StationEnded,
};

const LIMITS: Limits = Limits {
    sessions: 10,
    units: 100,
};

// The run alone, since nothing behind it asks for its clauses.
fn worked<R: Threads + Wait + Sync, D: Disk + Drop + Send, S: Station + Drop + Send>(
    rt: &R,
    alloc: Global,
    spool: Spool<D, MemClock>,
    stations: Vec<S>,
) -> Worked<D, MemClock, S>
where
    S::Link: Send,
    requires few { vec_len stations < 2 ^ 32 }
    requires keeps { Keeps D.model memory_clock spool (base_of D.model memory_clock spool) }
{
    work_side_by_side(rt, alloc, spool, stations, &LIMITS)
}

// Two stations, of which the first waits for the flag.
fn stops_of<'a, R: Wait>(
    alloc: Global,
    rt: &'a R,
    flag: &'a AtomicU64,
) -> Result<Vec<Stop<'a, R>>, AllocError>
    ensures { IfOk result (λ s. vec_len s ≡ 2) }
{
    let mut stations = Vec::new(alloc);
    stations.push(stop_of(alloc, rt, flag, b"silver", true)?)?;
    stations.push(stop_of(alloc, rt, flag, b"copper", false)?)?;
    Ok(stations)
}

// What both workers come to, whether each peer got its answers, and how many records the journal has then.
fn served<R>(worked: Worked<SafeDisk, MemClock, Stop<'_, R>>) -> (Vec<WorkerEnd>, bool, u32) {
    let Worked {
        spool,
        stations,
        ends,
        refused: _,
    } = worked;
    let answered = stations.iter().all(|stop| was_put(stop) == ANSWERS);
    (ends, answered, records(spool.end().octets()))
}

// What the workers of two stations come to, of which the first waits for the flag.
fn both_served<'a, R: Threads + Wait + Sync>(
    rt: &'a R,
    alloc: Global,
    flag: &'a AtomicU64,
) -> Result<(Vec<WorkerEnd>, bool, u32), Fail> {
    let stations = stops_of(alloc, rt, flag)?;
    let spool = begun(alloc, SafeDisk::new(alloc, Octets::new(alloc)))?;
    Ok(served(worked(rt, alloc, spool, stations)))
}

// The steps: the format; the tables; of each session LaneOpen, Complete and CloseLane; and a Deliver of each message.
#[test]
fn one_waits_while_the_other_is_served(rt: HostRuntime) -> Result<(), Fail> {
    let flag = AtomicU64::new(0);
    let (ends, answered, records) = both_served(&rt, rt.alloc(), &flag)?;
    assert_eq!(rt; ends.as_slice(), [SERVED, SERVED].as_slice());
    assert!(rt; answered);
    assert_eq!(rt; records, 10);
    Ok(())
}

// Accept and CloseAck of silver, to whom nothing is to be sent.
const ACCEPTS: &[u8] =
    b"\x00\x00\x00\x1B\x02\xB1\x19\x80\x01\x04\xA2\x14\xA0\x12\xA1\x10\x80\x06silver\xA1\x06\x16\x04ours\
    \x00\x00\x00\x00\x13";

// The first call that fails of a station's link and of the station, or 0.
#[derive(Clone, Copy)]
struct Fails {
    link: u64,
    station: u64,
}

const NONE: Fails = Fails {
    link: 0,
    station: 0,
};

// A responder's station that copper calls.
fn called(alloc: Global, fails: Fails) -> Result<MemStation, Fail> {
    station_of(alloc, Role::In, given(alloc, b"copper")?, fails)
}

// An initiator's station that calls silver.
fn calling(alloc: Global, fails: Fails) -> Result<MemStation, Fail> {
    let Some(peer) = Word::from_octets(alloc, Octets::from_vec(b"silver".to_vec(alloc)?))? else {
        return Err(Fail::new("no name"));
    };
    station_of(alloc, Role::Out(peer), ACCEPTS.to_vec(alloc)?, fails)
}

// A station with one link, whose peer gives these octets.
fn station_of(
    alloc: Global,
    role: Role,
    octets: Vec<u8>,
    fails: Fails,
) -> Result<MemStation, Fail> {
    let input = Octets::from_vec(octets);
    let mut links = Vec::new(alloc);
    links.push(MemLink::new(alloc, input, [fails.link].to_vec(alloc)?))?;
    match MemStation::new(alloc, role, links, [fails.station].to_vec(alloc)?) {
        Ok(station) => Ok(station),
        Err(_) => Err(Fail::new("no memory")),
    }
}

// How many calls of the disk are made until the tables are recorded.
fn calls_before(alloc: Global) -> Result<u64, Fail> {
    let disk = MemDisk::new(alloc, Octets::new(alloc), Vec::new(alloc));
    Ok(begun(alloc, disk)?.end().calls())
}

// The disk whose call of this number fails, counted from 1 behind the tables, or 0.
fn failing_disk(alloc: Global, call: u64) -> Result<MemDisk, Fail> {
    let failing = if call == 0 {
        0
    } else {
        calls_before(alloc)?.saturating_add(call)
    };
    Ok(MemDisk::new(alloc, Octets::new(alloc), [failing].to_vec(alloc)?))
}

// A responder's station and an initiator's.
fn both_of(alloc: Global, fails: [Fails; 2]) -> Result<Vec<MemStation>, Fail>
    ensures { IfOk result (λ s. vec_len s ≡ 2) }
{
    let mut stations = Vec::new(alloc);
    stations.push(called(alloc, fails[0])?)?;
    stations.push(calling(alloc, fails[1])?)?;
    Ok(stations)
}

// What the workers come to, and how many messages are delivered then.
fn delivered(worked: Worked<MemDisk, MemClock, MemStation>) -> (Vec<WorkerEnd>, usize) {
    let Worked {
        spool,
        stations: _,
        ends,
        refused: _,
    } = worked;
    let count = spool.mailboxes().len();
    spool.end();
    (ends, count)
}

// What the workers of both stations come to, and how many messages are delivered then.
fn ends_of<R: Threads + Wait + Sync>(
    rt: &R,
    alloc: Global,
    fails: [Fails; 2],
    call: u64,
) -> Result<(Vec<WorkerEnd>, usize), Fail> {
    let stations = both_of(alloc, fails)?;
    let spool = begun(alloc, failing_disk(alloc, call)?)?;
    Ok(delivered(worked(rt, alloc, spool, stations)))
}

fn end(sessions: u32, halt: Halt) -> WorkerEnd {
    WorkerEnd {
        sessions,
        closed: 0,
        halt,
    }
}

// A responder and an initiator: whatever fails of one station, the other one's worker does all.
#[test]
fn each_worker_has_its_own_end(rt: HostRuntime) -> Result<(), Fail> {
    let alloc: Global = rt.alloc();
    let link = Fails {
        link: 1,
        station: 0,
    };
    let station = Fails {
        link: 0,
        station: 1,
    };
    let broken = end(1, Halt::StationEnded);
    let failed = end(0, Halt::StationFailed);
    let disk = end(1, Halt::Disk);
    for (fails, call, ends, delivered) in [
        ([NONE, NONE], 0, [SERVED, SERVED], 1),
        ([link, NONE], 0, [broken, SERVED], 0),
        ([NONE, link], 0, [SERVED, broken], 1),
        ([station, NONE], 0, [failed, SERVED], 0),
        ([NONE, station], 0, [SERVED, failed], 1),
        ([NONE, NONE], 1, [disk, disk], 0),
    ] {
        let (came, count) = ends_of(&rt, alloc, fails, call)?;
        assert_eq!(rt; came.as_slice(), ends.as_slice());
        assert_eq!(rt; count, delivered);
    }
    Ok(())
}
