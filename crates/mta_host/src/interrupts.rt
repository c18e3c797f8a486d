//! Calls of the system that are made again where a signal interrupts them.

use std::io::{self, ErrorKind};

/// What the call answers, made again for as long as a signal interrupts it.
pub fn again<T: Drop, F: Fn() -> io::Result<T>>(call: F) -> io::Result<T>
    requires { F.IsAlwaysCallable call }
    ensures { F.post call result }
{
    for _ in 0..u64::MAX {
        match call() {
            Err(error) if error.kind() == ErrorKind::Interrupted => {}
            answer => return answer,
        }
    }
    call()
}
