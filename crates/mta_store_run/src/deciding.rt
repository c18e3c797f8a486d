//! What is answered to what is asked, from the spool and the marks as they stand: a text, and the mark that is to be
//! appended, or why there is none. Nothing is changed.

ghost use Rattle.std.specs.Prelude.{◌≡◌, ◌≤◌, IfOk, Some};
ghost use Rattle.std.specs.Option.{option_copied};
ghost use Rattle.mta_machine.specs.Items.{numbered};
ghost use Rattle.mta_show.specs.Mailbox.{item_if};
ghost use Rattle.mta_marks.specs.Standings.{look_in};
ghost use Rattle.mta_store_run.specs.Asked.{IsAsked, mailbox_asked};
ghost use Rattle.mta_store_run.specs.Decided.{IsAnswered, IsMarkToFetch, IsNoMailbox};
ghost use Rattle.mta_store_run.specs.Store.{answer_in, answer_of, deleted, deliveries, fetched, mark_of};
ghost use Rattle.mta_store_run.specs.declared.asked.Asked.TheVariants as Ask;

use crate::asked::Asked;
use crate::listing::list_of;
use crate::stop::Stop;
use mta_ber::{Memory, Octets, Word};
use mta_commands::Stop as AgentStop;
use mta_commands::mailbox::is_named;
use mta_edge::{Clock, Disk};
use mta_machine::{Item, MailboxLine};
use mta_marks::{Mark, MarkKind, Marks, Standing};
use mta_show::put_apdu_of;
use mta_spool::Spool;
use std::alloc::Global;

/// A text, and the mark that is to be appended before it is printed, if one is.
#[derive(Drop)]
pub(crate) struct Decision {
    pub text: Octets,
    pub mark: Option<Mark>,
}

// The delivery to a mailbox with this number.
fn delivery_of<'a>(mailbox: &[u8], number: u32, lines: &'a [MailboxLine]) -> Option<&'a MailboxLine>
    requires { 1 ≤ number }
    ensures { option_copied result ≡ numbered (deliveries mailbox.now lines.entry.now) number }
{
    let mut left = number;
    for line in lines {
        if line.mailbox.as_slice() == mailbox {
            if left == 1 {
                return Some(line);
            }
            left -= 1;
        }
    }
    None
}

// The text of the APDU of an item.
fn item_text(alloc: Global, item: Option<&Item>) -> Result<Octets, Memory>
    ensures { IfOk result (λ text. text ≡ item_if (option_copied item.entry)) }
{
    let mut text = Octets::new(alloc);
    put_apdu_of(alloc, &mut text, item)?;
    Ok(text)
}

// A mark of this entry.
fn mark_of(kind: MarkKind, mailbox: &Word, number: u32) -> Result<Mark, Memory>
    ensures { IfOk result (λ m. m ≡ mark_of kind mailbox.now number) }
{
    let mailbox = mailbox.share()?;
    Ok(Mark {
        kind,
        mailbox,
        number,
    })
}

// The mark that is made when an entry is fetched, if one is.
fn mark_to_fetch(mailbox: &Word, number: u32, standing: Standing) -> Result<Option<Mark>, Stop>
    ensures { IsMarkToFetch mailbox.now number standing result }
{
    match standing {
        Standing::New => {
            let mark = mark_of(MarkKind::Fetched, mailbox, number)?;
            Ok(Some(mark))
        }
        Standing::Fetched => Ok(None),
        Standing::Deleted => Err(Stop::NoEntry { number }),
    }
}

// The answer to `fetch` of an entry.
fn fetch_of<D: Disk + Drop, C: Clock + Drop>(
    alloc: Global,
    spool: &Spool<D, C>,
    mailbox: &Word,
    number: u32,
    line: &MailboxLine,
    standing: Standing,
) -> Result<Decision, Stop>
    ensures { IsAnswered (Ask.Fetch mailbox.now number)
        (fetched spool.now.current.machine.items mailbox.now number (Some line.now) standing) result }
{
    let mark = match mark_to_fetch(mailbox, number, standing) {
        Ok(mark) => mark,
        Err(stop) => return Err(stop),
    };
    let text = item_text(alloc, spool.item(line.item))?;
    Ok(Decision { text, mark })
}

// The answer to `delete` of an entry.
fn delete_of(
    alloc: Global,
    mailbox: &Word,
    number: u32,
    line: &MailboxLine,
    standing: Standing,
) -> Result<Decision, Stop>
    ensures { IsAnswered (Ask.Delete mailbox.now number)
        (deleted mailbox.now number (Some line.now) standing) result }
{
    match standing {
        Standing::New => Err(Stop::NotFetched { number }),
        Standing::Fetched => {
            let mark = mark_of(MarkKind::Deleted, mailbox, number)?;
            Ok(Decision {
                text: Octets::new(alloc),
                mark: Some(mark),
            })
        }
        Standing::Deleted => Err(Stop::NoEntry { number }),
    }
}

// The answer to `list`.
fn list<D: Disk + Drop, C: Clock + Drop, E: Disk + Drop>(
    alloc: Global,
    spool: &Spool<D, C>,
    marks: &Marks<E>,
    mailbox: &Word,
) -> Result<Decision, Stop>
    ensures { IsAnswered (Ask.List mailbox.now)
        (answer_in (Ask.List mailbox.now) spool.now.current (look_in marks.now.entries)) result }
{
    let text = list_of(alloc, marks, mailbox.as_slice(), spool.mailboxes())?;
    Ok(Decision { text, mark: None })
}

// The answer to `fetch`.
fn fetch<D: Disk + Drop, C: Clock + Drop, E: Disk + Drop>(
    alloc: Global,
    spool: &Spool<D, C>,
    marks: &Marks<E>,
    mailbox: &Word,
    number: u32,
) -> Result<Decision, Stop>
    requires { 1 ≤ number }
    ensures { IsAnswered (Ask.Fetch mailbox.now number)
        (answer_in (Ask.Fetch mailbox.now number) spool.now.current (look_in marks.now.entries)) result }
{
    match delivery_of(mailbox.as_slice(), number, spool.mailboxes()) {
        Some(line) => {
            let standing = marks.standing(mailbox.as_slice(), number)?;
            fetch_of(alloc, spool, mailbox, number, line, standing)
        }
        None => Err(Stop::NoEntry { number }),
    }
}

// The answer to `delete`.
fn delete<D: Disk + Drop, C: Clock + Drop, E: Disk + Drop>(
    alloc: Global,
    spool: &Spool<D, C>,
    marks: &Marks<E>,
    mailbox: &Word,
    number: u32,
) -> Result<Decision, Stop>
    requires { 1 ≤ number }
    ensures { IsAnswered (Ask.Delete mailbox.now number)
        (answer_in (Ask.Delete mailbox.now number) spool.now.current (look_in marks.now.entries)) result }
{
    match delivery_of(mailbox.as_slice(), number, spool.mailboxes()) {
        Some(line) => {
            let standing = marks.standing(mailbox.as_slice(), number)?;
            delete_of(alloc, mailbox, number, line, standing)
        }
        None => Err(Stop::NoEntry { number }),
    }
}

// The answer where the mailbox is named.
fn answer_in<D: Disk + Drop, C: Clock + Drop, E: Disk + Drop>(
    alloc: Global,
    asked: &Asked,
    spool: &Spool<D, C>,
    marks: &Marks<E>,
) -> Result<Decision, Stop>
    requires { IsAsked asked.now }
    ensures { IsAnswered asked.now (answer_in asked.now spool.now.current (look_in marks.now.entries)) result }
{
    match asked {
        Asked::List { mailbox } => list(alloc, spool, marks, mailbox),
        Asked::Fetch { mailbox, number } => fetch(alloc, spool, marks, mailbox, *number),
        Asked::Delete { mailbox, number } => delete(alloc, spool, marks, mailbox, *number),
    }
}

// The mailbox that is asked.
fn mailbox_asked(asked: &Asked) -> &Word
    ensures { result.now ≡ mailbox_asked asked.now }
{
    match asked {
        Asked::List { mailbox } => mailbox,
        Asked::Fetch { mailbox, .. } => mailbox,
        Asked::Delete { mailbox, .. } => mailbox,
    }
}

// That no mailbox is named so.
fn no_mailbox(mailbox: &Word) -> Stop
    ensures { IsNoMailbox mailbox.now result }
{
    match mailbox.share() {
        Ok(mailbox) => Stop::Agent(AgentStop::NoMailbox(mailbox)),
        Err(_) => Stop::Agent(AgentStop::Memory),
    }
}

/// What is answered to what is asked.
pub(crate) fn decide<D: Disk + Drop, C: Clock + Drop, E: Disk + Drop>(
    alloc: Global,
    asked: &Asked,
    spool: &Spool<D, C>,
    marks: &Marks<E>,
) -> Result<Decision, Stop>
    requires { IsAsked asked.now }
    ensures { IsAnswered asked.now (answer_of asked.now spool.now.current (look_in marks.now.entries)) result }
{
    let mailbox = mailbox_asked(asked);
    if !is_named(spool, mailbox.as_slice()) {
        return Err(no_mailbox(mailbox));
    }
    answer_in(alloc, asked, spool, marks)
}
