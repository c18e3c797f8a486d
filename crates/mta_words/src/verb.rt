//! The first word of the command line.

ghost use Rattle.std.specs.Prelude.{◌≡◌};
ghost use Rattle.mta_words.specs.Words.{verb_of};

/// The commands.
#[derive(Clone, Copy)]
pub enum Verb {
    Submit,
    Serve,
    Spool,
    Read,
    Decode,
    Drill,
}

/// The command of this word.
pub fn verb_of(word: &str) -> Option<Verb>
    ensures { result ≡ verb_of word.now }
{
    if word == "submit" {
        Some(Verb::Submit)
    } else if word == "serve" {
        Some(Verb::Serve)
    } else if word == "spool" {
        Some(Verb::Spool)
    } else if word == "read" {
        Some(Verb::Read)
    } else if word == "decode" {
        Some(Verb::Decode)
    } else if word == "drill" {
        Some(Verb::Drill)
    } else {
        None
    }
}
