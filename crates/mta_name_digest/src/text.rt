//! The digest of a text.

ghost use Rattle.std.specs.Prelude.{◌≡◌};
ghost use Rattle.mta_names.specs.Normal.{folded, normal_text};
ghost use Rattle.mta_name_digest.specs.Digests.{digest_step, text_digest};

/// The digest with one octet more.
pub fn digest_step(digest: u64, octet: u8) -> u64
    ensures { result ≡ digest_step digest octet }
{
    digest
        .wrapping_mul(1_099_511_628_211)
        .wrapping_add(octet as u64)
}

fn folded_of(c: u8) -> u8
    ensures { result ≡ folded c }
{
    if matches!(c, 65..=90) { c + 32 } else { c }
}

/// The digest with the normal text of a text more, without making it.
#[tactic(auto, unfolding(mta_names::specs::Normal::normal_text))]
pub fn text_digest(digest: u64, text: &[u8]) -> u64
    ensures { result ≡ text_digest digest (normal_text text.now) }
{
    let mut digest = digest;
    let mut started = false;
    let mut waits = false;
    for c in text {
        if *c == b' ' {
            waits = started;
        } else {
            if waits {
                digest = digest_step(digest, b' ');
            }
            digest = digest_step(digest, folded_of(*c));
            started = true;
            waits = false;
        }
    }
    digest_step(digest, 0)
}

/// The digest with octets more, as they are.
pub fn octets_digest(digest: u64, octets: &[u8]) -> u64
    ensures { result ≡ text_digest digest octets.now }
{
    let mut digest = digest;
    for c in octets {
        digest = digest_step(digest, *c);
    }
    digest_step(digest, 0)
}
