//! UTCTime (X.690, 8.25).

ghost use Rattle.std.specs.Prelude.{◌≡◌, ℕ, ◌-◌, ◌+◌, ◌++◌, ◌∷◌, ◌<◌, ◌≤◌, [], false, true, take, Ok, Some, None};
ghost use Rattle.std.specs.Prelude.{IsTrue, IfSome, IfOk, pos, neg_ℤ, ◌+ℤ◌, ◌-ℤ◌, ◌*ℤ◌, if◌then◌else◌};
ghost use Rattle.mta_ber.specs.Moments.{SpellsMoment};
ghost use Rattle.mta_ber.specs.Parts.{Leaves};
ghost use Rattle.mta_ber.specs.Seen.{GivesSome, view};
ghost use Rattle.mta_ber.specs.Strings.{gather};
ghost use Rattle.mta_ber.specs.Times.{is_digit, two, seconds, offset, zone, stamp, is_good, stamp_seconds};
ghost use Rattle.mta_ber.specs.Times.{moment_of_stamp, moment_of, utc_in, line_piece, line_in, kept, whole_year};
ghost use Rattle.mta_ber.specs.Times.{is_date, is_clock, clock_seconds, day_number, last_moment};
ghost use Rattle.jiff_core.specs.Calendar.{IsBetween};

use crate::fault::{Fault, Kind, ReadFault};
use crate::gather::{Gathers, gather_of};
use crate::stamp::Stamp;
use crate::view::View;
use jiff_core::civil::{Date, days_in_month};
use std::marker::Model;

/// The last second of 2049, in seconds from 1950-01-01 00:00:00 UTC.
pub const LAST_MOMENT: u64 = 3_155_759_999;

/// The front of a text: no more than shows that it is too long for a time.
#[derive(Drop)]
struct Line {
    octets: [u8; 18],
    count: usize,
}

impl Model for Line {
    ghost use Rattle.std.specs.Prelude.{List, ℕ, take, ◌≤◌};

    ghost Value = { List ℕ };

    ghost view = { λ l. take l.count l.octets };

    ghost invariant = { λ l. l.count ≤ 18 };
}

impl Line {
    fn push(&mut self, octet: u8)
        ensures { self.new ≡ kept (self.old ++ octet ∷ []) }
    {
        if self.count < 18 {
            self.octets[self.count] = octet;
            self.count += 1;
        }
    }

    fn as_slice(&self) -> &[u8]
        ensures { result.now ≡ self.now }
    {
        &self.octets[..self.count]
    }
}

impl Gathers for Line {
    ghost piece = { line_piece };

    ghost takes_memory = { false };

    fn take(&mut self, _last: bool, part: &View) -> Result<(), ReadFault> {
        if self.count == 18 {
            return Ok(());
        }
        for octet in part.content {
            self.push(*octet);
        }
        Ok(())
    }
}

fn is_digit_of(c: u8) -> bool
    ensures { result ≡ is_digit c }
{
    matches!(c, 48..=57)
}

fn two_of(text: &[u8]) -> Option<(u8, &[u8])>
    ensures exact { GivesSome (λ x. (x.0, x.1.now)) result (two text.now) }
    ensures small { IfSome result (λ x. x.0 < 100) }
{
    match text {
        [a, b, rest @ ..] if is_digit_of(*a) && is_digit_of(*b) => {
            Some(((*a - 48) * 10 + (*b - 48), rest))
        }
        _ => None,
    }
}

fn seconds_of(text: &[u8]) -> Option<(u8, &[u8])>
    ensures exact { GivesSome (λ x. (x.0, x.1.now)) result (seconds text.now) }
    ensures small { IfSome result (λ x. x.0 < 100) }
{
    match text {
        [] => None,
        [a, ..] => {
            if is_digit_of(*a) {
                two_of(text)
            } else {
                Some((0, text))
            }
        }
    }
}

#[tactic(auto, unfolding(crate::specs::Times::offset))]
fn offset_of(ahead: bool, text: &[u8]) -> Option<(bool, u8, u8)>
    ensures exact { result ≡ offset ahead text.now }
{
    let (hour, after) = two_of(text)?;
    let (minute, end) = two_of(after)?;
    if end.is_empty() {
        Some((ahead, hour, minute))
    } else {
        None
    }
}

fn zone_of(text: &[u8]) -> Option<(bool, u8, u8)>
    ensures { result ≡ zone text.now }
{
    match text {
        [90] => Some((true, 0, 0)),
        [43, rest @ ..] => offset_of(true, rest),
        [45, rest @ ..] => offset_of(false, rest),
        _ => None,
    }
}

#[tactic(auto, unfolding(crate::specs::Times::stamp))]
fn stamp_of(text: &[u8]) -> Option<Stamp>
    ensures { result ≡ stamp text.now }
{
    let (year, text) = two_of(text)?;
    let (month, text) = two_of(text)?;
    let (day, text) = two_of(text)?;
    let (hour, text) = two_of(text)?;
    let (minute, text) = two_of(text)?;
    let (second, text) = seconds_of(text)?;
    let (ahead, offset_hour, offset_minute) = zone_of(text)?;
    Some(Stamp {
        year,
        month,
        day,
        hour,
        minute,
        second,
        ahead,
        offset_hour,
        offset_minute,
    })
}

/// The year, where 50 to 99 are 1950 to 1999, and 00 to 49 are 2000 to 2049.
fn whole_year_of(year: u8) -> u16
    ensures exact { result ≡ whole_year year }
    ensures small { result ≤ 2155 }
{
    if year < 50 {
        2000 + year as u16
    } else {
        1900 + year as u16
    }
}

fn is_date_of(year: u16, month: u8, day: u8) -> bool
    requires { year ≤ 9999 }
    ensures { result ≡ is_date year month day }
{
    1 <= month && month <= 12 && 1 <= day && day <= days_in_month(year as i16, month)
}

fn is_clock_of(hour: u8, minute: u8, second: u8) -> bool
    ensures { result ≡ is_clock hour minute second }
{
    hour < 24 && minute < 60 && second < 60
}

fn is_good_stamp(stamp: Stamp) -> bool
    ensures { result ≡ is_good stamp }
{
    is_date_of(whole_year_of(stamp.year), stamp.month, stamp.day)
        && is_clock_of(stamp.hour, stamp.minute, stamp.second)
        && is_clock_of(stamp.offset_hour, stamp.offset_minute, 0)
}

/// Days from 1950-01-01.
fn day_number_of(year: u16, month: u8, day: u8) -> i64
    requires small { year ≤ 9999 }
    requires date { IsTrue (is_date year month day) }
    ensures exact { result ≡ day_number year month day }
    ensures bound { IsBetween (neg_ℤ (pos 5000000)) (pos 3000000) result }
{
    let date = Date {
        year: year as i16,
        month,
        day,
    };
    date.to_unix_epoch_day() as i64 + 7305
}

fn clock_seconds_of(hour: u8, minute: u8, second: u8) -> i64
    ensures exact { result ≡ pos (clock_seconds hour minute second) }
    ensures bound { IsBetween (pos 0) (pos 1000000) result }
{
    hour as i64 * 3600 + minute as i64 * 60 + second as i64
}

/// Seconds of local time from 1950-01-01 00:00:00.
fn local_seconds_of(day: i64, clock: i64) -> i64
    requires day { IsBetween (neg_ℤ (pos 5000000)) (pos 3000000) day }
    requires clock { IsBetween (pos 0) (pos 1000000) clock }
    ensures exact { result ≡ day *ℤ pos 86400 +ℤ clock }
    ensures bound { IsBetween (neg_ℤ (pos 500000000000)) (pos 500000000000) result }
{
    day * 86400 + clock
}

/// Local time less how far it is ahead.
fn less_offset(local: i64, ahead: bool, away: i64) -> i64
    requires local { IsBetween (neg_ℤ (pos 500000000000)) (pos 500000000000) local }
    requires away { IsBetween (pos 0) (pos 1000000) away }
    ensures { result ≡ (if ahead then local -ℤ away else local +ℤ away) }
{
    if ahead { local - away } else { local + away }
}

#[tactic(auto, unfolding(crate::specs::Times::stamp_seconds))]
fn stamp_seconds_of(stamp: Stamp) -> i64
    requires { IsTrue (is_good stamp) }
    ensures { result ≡ stamp_seconds stamp }
{
    let day = day_number_of(whole_year_of(stamp.year), stamp.month, stamp.day);
    let clock = clock_seconds_of(stamp.hour, stamp.minute, stamp.second);
    let away = clock_seconds_of(stamp.offset_hour, stamp.offset_minute, 0);
    less_offset(local_seconds_of(day, clock), stamp.ahead, away)
}

#[tactic(auto, unfolding(crate::specs::Times::moment_of_stamp))]
fn moment_of_good(stamp: Stamp) -> Option<u64>
    ensures exact { result ≡ moment_of_stamp stamp }
    ensures within { IfSome result (λ m. m ≤ last_moment) }
{
    if !is_good_stamp(stamp) {
        return None;
    }
    let seconds = stamp_seconds_of(stamp);
    if seconds < 0 || seconds > 3_155_759_999 {
        return None;
    }
    Some(seconds as u64)
}

#[tactic(auto, unfolding(crate::specs::Times::moment_of))]
fn moment_of_text(text: &[u8]) -> Option<u64>
    ensures exact { result ≡ moment_of text.now }
    ensures within { IfSome result (λ m. m ≤ last_moment) }
{
    if text.len() > 17 {
        return None;
    }
    let stamp = stamp_of(text)?;
    moment_of_good(stamp)
}

impl View<'_> {
    /// The front of a string whose segments have the tag of OCTET STRING or of UTCTime.
    fn line(&self) -> Result<Line, Fault>
        ensures { result ≡ line_in (view self.now) }
    {
        let mut line = Line {
            octets: [0; 18],
            count: 0,
        };
        match gather_of(&mut line, self, 4, 23, true) {
            Err(ReadFault::Bad(fault)) => Err(fault),
            Err(ReadFault::Memory) => unreachable!(),
            Ok(()) => Ok(line),
        }
    }

    /// The moment of a UTCTime (X.690, 8.25), in seconds from 1950-01-01 00:00:00 UTC. A segment has the tag of OCTET
    /// STRING or of UTCTime. BadTime where the text is none, or the moment is before 1950 or after 2049.
    pub fn utc(&self) -> Result<u64, Fault>
        ensures exact { result ≡ utc_in (view self.now) }
        ensures within { IfOk result (λ m. m ≤ last_moment) }

        // What is answered is spelled by the content, and what the content spells is answered.
        ensures found { IfOk result (SpellsMoment self.now.depth self.now.tag.constructed self.now.content.now) }
        ensures only { (m : ℕ) → SpellsMoment self.now.depth self.now.tag.constructed self.now.content.now m
            → result ≡ Ok m }
    {
        self.utc_of()
    }

    fn utc_of(&self) -> Result<u64, Fault>
        ensures exact { result ≡ utc_in (view self.now) }
        ensures within { IfOk result (λ m. m ≤ last_moment) }
    {
        let line = self.line()?;
        match moment_of_text(line.as_slice()) {
            None => Err(Fault {
                at: self.at,
                kind: Kind::BadTime,
            }),
            Some(moment) => Ok(moment),
        }
    }
}
