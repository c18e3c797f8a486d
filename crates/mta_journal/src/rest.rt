//! Bodies that are taken one after the other, from the first on.
//!
//! They stand in reverse, so that the list that holds them is cut down as they go: a caller that keeps what each one
//! says never has both all of that and the list. No memory is taken.

ghost use Rattle.std.specs.Prelude.{◌≡◌, ◌∷◌, [], IfNone, IfSome};

use mta_edge::Octets;
use std::marker::Model;

/// The bodies of a journal that are not taken yet.
#[derive(Drop)]
pub struct Rest {
    // The last one first.
    reversed: Vec<Octets>,
}

impl Model for Rest {
    ghost use Rattle.std.specs.Prelude.{List, ℕ, reverse};

    ghost Value = { List (List ℕ) };

    ghost view = { λ r. reverse r.reversed.items };
}

impl Rest {
    /// All of these.
    pub fn new(mut bodies: Vec<Octets>) -> Rest
        ensures { result ≡ bodies.items }
    {
        bodies.reverse();
        Rest { reversed: bodies }
    }

    // Places that are free go, where they are as many as those that are taken.
    fn cut_down(&mut self)
        ensures { self.new ≡ self.old }
    {
        if self.reversed.len() <= self.reversed.capacity() / 2 {
            self.reversed.shrink_to_fit();
        }
    }

    /// Takes the next one; none where all are taken.
    pub fn next(&mut self) -> Option<Octets>
        ensures some { IfSome result (λ body. self.old ≡ body ∷ self.new) }
        ensures none { IfNone result ((self.old ≡ []) × (self.new ≡ [])) }
    {
        let body = self.reversed.pop()?;
        self.cut_down();
        Some(body)
    }
}
