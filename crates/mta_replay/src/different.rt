//! Numbers of which none stands twice.

ghost use Rattle.std.specs.Prelude.{◌≡◌, ◌↔◌, IsTrue};
ghost use Rattle.mta_machine.specs.Items.{names, AreDifferent};

fn stands_among(numbers: &[u32], number: u32) -> bool
    ensures { result ≡ names numbers.now number }
{
    numbers.iter().any(|other| number == *other)
}

/// Whether none of the numbers stands twice. Where they ascend, each is looked at once.
#[tactic(auto, using(crate::proofs::Distinct::different_laws))]
pub(crate) fn are_different(numbers: &[u32]) -> bool
    ensures { IsTrue result ↔ AreDifferent numbers.now }
{
    let count = numbers.len();
    let mut most: u32 = 0;
    let mut place: usize = 0;
    while place < count {
        let number = numbers[place];
        if number <= most && stands_among(&numbers[..place], number) {
            return false;
        }
        most = most.max(number);
        place += 1;
    }
    true
}
