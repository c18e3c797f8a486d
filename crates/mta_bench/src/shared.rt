//! Takes turns with a lock in many threads. The words are the number of threads, 1 to 16, and the turns of each. A
//! script times it (checks/speed.sh lock).

ghost use Rattle.std.specs.Prelude.{◌≡◌, ◌+◌, ◌<◌, ◌≤◌, ℕ, [], All, length, slice_index_or};
ghost use Rattle.std.specs.Prelude.{vec_capacity, vec_len};
ghost use Rattle.mta_shared.specs.Passes.{lock_of, IsReady, Worked};
ghost use Rattle.mta_shared.specs.Rule.{Grows};
ghost use Rattle.mta_bench.specs.Parts.{IsPart};

use anyhow::Result;
use mta_shared::{Historied, Pass, Shared};
use std::alloc::{AllocError, Global};
use std::env::Args;
use std::sync::Wait;
use std::thread;
use std::thread::Threads;

/// The most threads at a time.
const THREADS: usize = 16;

/// Numbers in two lists, of which the second are the entries.
#[derive(Drop)]
struct Numbers {
    numbers: Vec<u64>,
    entries: Vec<u64>,
}

impl Historied for Numbers {
    type Entry = u64;

    ghost use Rattle.mta_shared.specs.Rule.{no_base};

    ghost first = { λ _. 0 };

    ghost entries = { λ n. n.entries.items };

    ghost base = { λ _. no_base };

    ghost meets = { λ _ _. Unit {0} };
}

impl Numbers {
    /// Adds a number to both lists, where there is memory for it.
    fn add(&mut self, number: u64)
        ensures { Grows self.old.entries.items self.new.entries.items }
    {
        if self.numbers.try_reserve(1).is_ok() && self.entries.try_reserve(1).is_ok() {
            self.numbers.push_reserved(number);
            self.entries.push_reserved(number);
        }
    }
}

/// Adds one number in one turn.
fn take_turn<R: Wait>(rt: &R, shared: &Shared<Numbers>, pass: &mut Pass<u64>, number: u64)
    requires { IsReady (lock_of shared.now) pass.old }
    ensures { Worked pass.old pass.new }
{
    let mut turn = shared.take(rt, pass);
    turn.value.add(number);
    shared.give(pass, turn);
}

/// Adds the numbers from 0 on, so many, each in a turn of its own.
fn take_turns<R: Wait>(rt: &R, shared: &Shared<Numbers>, pass: &mut Pass<u64>, turns: u32)
    requires { IsPart (lock_of shared.now) pass.old }
    ensures { IsPart (lock_of shared.now) pass.new }
{
    for number in 0..turns {
        take_turn(rt, shared, pass, u64::from(number));
    }
}

/// The turns of each pass in a thread of its own.
fn take_all<R: Threads + Wait + Sync>(
    rt: &R,
    shared: &Shared<Numbers>,
    passes: &mut [Pass<u64>],
    turns: u32,
)
    requires { All (IsPart (lock_of shared.now)) passes.old }
    ensures { (i : ℕ) (d : _) → i < length passes.old
        → IsPart (lock_of shared.now) (slice_index_or passes.new i d) }
{
    thread::for_each_mut(
        rt,
        passes,
        THREADS,
        &|_, pass: &mut Pass<u64>|
            requires { IsPart (lock_of shared.now) pass.old }
            ensures { IsPart (lock_of shared.entry.now) pass.new }
        {
            take_turns(rt, shared, pass, turns);
        },
    );
}

/// So many passes more, split off the first.
fn deal(shared: &Shared<Numbers>, main: &mut Pass<u64>, passes: &mut Vec<Pass<u64>>, threads: u8)
    requires ready { IsReady (lock_of shared.now) main.old × (threads < main.old.parts) }
    requires room { (passes.old.items ≡ []) × (threads ≤ vec_capacity passes.old) }
    ensures main { IsReady (lock_of shared.now) main.new × (main.new.parts + vec_len passes.new ≡ main.old.parts) }
    ensures dealt { All (IsPart (lock_of shared.now)) passes.new.items }
{
    for _ in 0..threads {
        let pass = shared.split(main);
        passes.push_reserved(pass);
    }
}

/// Joins the passes to the first.
fn gather(shared: &Shared<Numbers>, main: &mut Pass<u64>, mut passes: Vec<Pass<u64>>)
    requires { IsReady (lock_of shared.now) main.old × All (IsPart (lock_of shared.now)) passes.items }
    ensures { IsReady (lock_of shared.now) main.new × (main.new.parts ≡ main.old.parts + vec_len passes) }
{
    while let Some(pass) = passes.pop() {
        shared.join(main, pass);
    }
    passes.destroy_empty();
}

/// How many entries there are once each thread has had its turns.
fn run<R: Threads + Wait + Sync>(
    rt: &R,
    alloc: Global,
    threads: u8,
    turns: u32,
) -> Result<usize, AllocError> {
    let mut passes = Vec::with_capacity(alloc, usize::from(threads))?;
    let numbers = Numbers {
        numbers: Vec::new(alloc),
        entries: Vec::new(alloc),
    };
    match Shared::open(alloc, numbers) {
        Ok((shared, mut main)) => {
            deal(&shared, &mut main, &mut passes, threads);
            take_all(rt, &shared, passes.as_mut_slice(), turns);
            gather(&shared, &mut main, passes);
            Ok(shared.close(main).entries.len())
        }
        Err(_) => {
            passes.destroy_empty();
            Err(AllocError)
        }
    }
}

/// The two words, where they are numbers.
fn asked(mut words: Args<Global>) -> Option<(u8, u32)> {
    let threads = words.next()?.parse::<u8>().ok()?;
    let turns = words.next()?.parse::<u32>().ok()?;
    Some((threads, turns))
}

pub fn timed<R: Threads + Wait + Sync + Print + AllocGlobal>(
    rt: &R,
    words: Args<Global>,
) -> Result<()> {
    let Some((threads, turns)) = asked(words) else {
        println!(rt; "usage: mta_bench shared THREADS TURNS")?;
        return Ok(());
    };
    let entries = run(rt, rt.alloc(), threads, turns)?;
    println!(rt; "{entries} turns")?;
    Ok(())
}
