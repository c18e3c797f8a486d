//! The words of the command line.

ghost use Rattle.std.specs.Prelude.{◌≡◌, IfSome, IsNone, IsSome};
ghost use Rattle.std.specs.Prelude.{◌≡◌, ◌++◌, [], ◌∷◌, IsTrue, ◌↔◌, map, string_bytes, codes};
ghost use Rattle.mta_follow_run.specs.Words.{IsFound, IsFoundPort, IsFoundPull, IsFoundPush, IsHost};

use itoa::Buffer;

/// What the words ask for.
#[derive(Clone, Copy)]
pub enum Command<'a> {
    /// The spool's records go to the standby that listens at this port of the host.
    Push { host: &'a str, port: u16 },
    /// They come from the one that calls at this port.
    Pull { port: u16 },
}

// Whether a text names a host: it is not empty, does not begin with a dash, and has no colon.
fn is_host(text: &str) -> bool
    ensures { IsTrue result ↔ IsHost text.now }
{
    let octets = text.as_bytes();
    !octets.is_empty() && octets[0] != b'-' && !octets.contains(&b':')
}

// The port of TCP that a text names, in decimal without a sign or a leading zero.
fn port_of(text: &str) -> Option<u16>
    ensures { IsFoundPort text.now result }
{
    let Ok(port) = text.parse::<u16>() else {
        return None;
    };
    let mut buffer = Buffer::new();
    if port == 0 || buffer.format(port) != text {
        return None;
    }
    Some(port)
}

fn push_of<'a>(host: &'a str, port: &str) -> Option<Command<'a>>
    ensures { IsFoundPush host.now port.now result }
{
    if !is_host(host) {
        return None;
    }
    let port = port_of(port)?;
    Some(Command::Push { host, port })
}

fn pull_of<'a>(port: &str) -> Option<Command<'a>>
    ensures { IsFoundPull port.now result }
{
    let port = port_of(port)?;
    Some(Command::Pull { port })
}

/// What the words ask for: `push HOST PORT` or `pull PORT`, a port from 1 to 65,535. None where they are other words.
pub fn command_of(words: &[String]) -> Option<Command<'_>>
    ensures { IsFound (map string_bytes words.now) result }
{
    match words {
        [verb, port] => {
            if verb.as_str() == "pull" {
                pull_of(port.as_str())
            } else {
                None
            }
        }
        [verb, host, port] => {
            if verb.as_str() == "push" {
                push_of(host.as_str(), port.as_str())
            } else {
                None
            }
        }
        _ => None,
    }
}
