//! What crosses threads, and one round through each call.
ghost use Rattle.std.specs.Prelude.{◌≡◌, ℕ, [], ◌∷◌, ◌++◌};
ghost use Rattle.mta_shared.specs.Rule.{Grows};
ghost use Rattle.mta_shared.specs.Passes.{lock_of, IsReady};

use mta_shared::{Historied, Pass, Shared, Turn};
use std::alloc::Global;
use std::sync::Wait;
use std::test::Fail;

fn may_be_shared<T: Send + Sync>(_value: &T) {}

fn may_move<T: Send>(_value: &T) {}

// A lock may be shared where its value may move. The value need not be one that may be shared.
fn lock_crosses<V: Historied + Send>(lock: &Shared<V>) {
    may_be_shared(lock);
}

fn pass_crosses<E>(pass: &Pass<E>) {
    may_move(pass);
}

fn turn_crosses<V: Historied + Send>(turn: &Turn<V>) {
    may_move(turn);
}

// Numbers that were added one at a time.
#[derive(Drop)]
struct Numbers {
    numbers: Vec<u64>,
}

impl Historied for Numbers {
    type Entry = u64;

    ghost use Rattle.std.specs.Prelude.{[]};

    ghost first = { λ _. 7 };

    ghost entries = { λ n. n.numbers.items };

    ghost base = { λ _. record { numbers = []; lists = []; octets = [] } };

    ghost meets = { λ _ _. Unit {0} };
}

impl Numbers {
    // Adds the number where there is memory for it.
    fn add(&mut self, number: u64)
        ensures { Grows self.old.numbers.items self.new.numbers.items }
    {
        if self.numbers.try_reserve(1).is_ok() {
            self.numbers.push_reserved(number);
        }
    }
}

// One turn, with the number added, and the count of numbers after it.
fn add_once<R: Wait>(rt: &R, lock: &Shared<Numbers>, pass: &mut Pass<u64>, number: u64) -> usize
    requires { IsReady (lock_of lock.now) pass.old }
    ensures { IsReady (lock_of lock.now) pass.new × (pass.new.parts ≡ pass.old.parts) }
{
    let mut turn = lock.take(rt, pass);
    turn_crosses(&turn);
    turn.value.add(number);
    let count = turn.value.numbers.len();
    lock.give(pass, turn);
    count
}

// Adds 4 by one pass, 5 by another and 6 by the first.
fn add_three<R: Wait>(
    rt: &R,
    alloc: Global,
    numbers: Numbers,
) -> Result<(Numbers, [usize; 3]), Numbers> {
    let (lock, mut pass) = Shared::open(alloc, numbers)?;
    lock_crosses(&lock);
    pass_crosses(&pass);
    let mut other = lock.split(&mut pass);
    let first = add_once(rt, &lock, &mut pass, 4);
    let second = add_once(rt, &lock, &mut other, 5);
    let third = add_once(rt, &lock, &mut pass, 6);
    lock.join(&mut pass, other);
    Ok((lock.close(pass), [first, second, third]))
}

#[test]
fn two_passes_add_to_one_history(rt: HostRuntime) -> Result<(), Fail> {
    let alloc: Global = rt.alloc();
    let mut numbers = Vec::new(alloc);
    for number in 1..4u64 {
        numbers.push(number)?;
    }
    let added = add_three(&rt, alloc, Numbers { numbers });
    let (all, counts) = added.ok().expect(&rt, "memory");
    assert!(rt; counts == [4, 5, 6]);
    assert!(rt; all.numbers.as_slice() == [1, 2, 3, 4, 5, 6].as_slice());
    Ok(())
}
