//! Units that are written.

ghost use Rattle.std.specs.Prelude.{IfOk, IfSome};
ghost use Rattle.mta_ber.specs.declared.text.TextClass.TheVariants.{Ia5};
ghost use Rattle.mta_ber.specs.Strings.{IsText};
ghost use Rattle.mta_units.specs.Canon.{IsWritable};

use mta_ber::{Memory, Octets, Word};
use mta_rows::{Fields, pairs};
use mta_units::{Answer, OpenUnit, Reference, Request, Unit, write_unit};
use std::alloc::Global;

/// The longest piece, in octets.
const LONGEST: usize = 2_097_152;

fn number(text: &str) -> u32 {
    text.parse::<u32>().unwrap_or(0)
}

fn word_of(alloc: Global, name: Octets) -> Result<Word, Memory>
    requires { IsText Ia5 1 32 name }
    ensures { IfOk result (IsText Ia5 1 32) }
{
    match Word::from_octets(alloc, name)? {
        Some(word) => Ok(word),
        None => Err(Memory),
    }
}

fn accept_of(alloc: Global, name: Octets, password: Octets) -> Result<Unit, Memory>
    requires name { IsText Ia5 1 32 name }
    requires password { IsText Ia5 0 62 password }
    ensures { IfOk result IsWritable }
{
    let answer = Answer::Bind {
        name: word_of(alloc, name)?,
        password,
    };
    Ok(Unit::Accept {
        checkpoint: 4,
        window: 3,
        answer,
    })
}

/// The agent GOLD-1 answers with its password, `pw`. The checkpoint size is 4 and the window 3.
fn accept(alloc: Global) -> Result<Unit, Memory>
    ensures { IfOk result IsWritable }
{
    let name = Octets::from_slice(alloc, b"GOLD-1")?;
    accept_of(alloc, name, Octets::from_slice(alloc, b"pw")?)
}

fn open_of(alloc: Global, name: Octets, reference: Reference) -> Result<Unit, Memory>
    requires { IsText Ia5 1 32 name }
    ensures { IfOk result IsWritable }
{
    Ok(Unit::Open(OpenUnit {
        name: word_of(alloc, name)?,
        reference,
        checkpoint: 4,
        window: 3,
        twa: true,
        request: Request::Null,
    }))
}

/// The agent EAST asks for nothing, in two-way alternate dialogue, with its seventh reference at moment 0.
fn open(alloc: Global) -> Result<Unit, Memory>
    ensures { IfOk result IsWritable }
{
    let name = Octets::from_slice(alloc, b"EAST")?;
    let calling = Octets::from_slice(alloc, b"EAST")?;
    let additional = Octets::from_slice(alloc, b"0000000007")?;
    open_of(alloc, name, Reference::new(calling, 0, Some(additional)))
}

fn piece(alloc: Global, text: &str) -> Result<Option<Unit>, Memory>
    ensures { IfOk result (λ o. IfSome o IsWritable) }
{
    if text.len() > LONGEST {
        return Ok(None);
    }
    Ok(Some(Unit::Piece(Octets::from_slice(alloc, text.as_bytes())?)))
}

fn exception(kind: u32, at: u32) -> Option<Unit>
    ensures { IfSome result IsWritable }
{
    match u8::try_from(kind) {
        Ok(kind) if kind >= 1 && kind <= 12 => Some(Unit::Exception { kind, at }),
        _ => None,
    }
}

/// A unit of numbers alone.
fn counted(name: &str, first: u32, second: u32) -> Option<Unit>
    ensures { IfSome result IsWritable }
{
    match name {
        "sync" => Some(Unit::Sync { number: first }),
        "resume" => Some(Unit::Resume {
            activity: first,
            number: second,
        }),
        "please" => Some(Unit::Please { priority: first }),
        "reject" => Some(Unit::Reject { reason: first }),
        "abort" => Some(Unit::Abort { reason: first }),
        "give" => Some(Unit::Give),
        "exception" => exception(first, second),
        _ => None,
    }
}

fn unit(alloc: Global, name: &str, first: &str, second: &str) -> Result<Option<Unit>, Memory>
    ensures { IfOk result (λ o. IfSome o IsWritable) }
{
    match name {
        "accept" => Ok(Some(accept(alloc)?)),
        "open" => Ok(Some(open(alloc)?)),
        "piece" => piece(alloc, first),
        _ => Ok(counted(name, number(first), number(second))),
    }
}

/// The octets that are written of the unit that the fields name.
pub fn written(alloc: Global, mut fields: Fields<'_>) -> Result<String, Memory> {
    let (name, first, second) = (fields.take(), fields.take(), fields.take());
    match unit(alloc, name, first, second)? {
        None => Ok(format!(in alloc; "no unit")?),
        Some(unit) => {
            let octets = write_unit(alloc, &unit)?;
            Ok(pairs(alloc, octets.as_slice())?)
        }
    }
}
