//! Passwords.

ghost use Rattle.std.specs.Prelude.{◌≡◌};
ghost use Rattle.std.specs.Str.{bytes_eq};

/// Whether two passwords are equal. Of two that are as long every octet is looked at, so the time tells of no octet.
pub fn is_same_password(one: &[u8], other: &[u8]) -> bool
    ensures { result ≡ bytes_eq one.now other.now }
{
    if one.len() != other.len() {
        return false;
    }
    let mut equal = true;
    for i in 0..one.len() {
        equal &= one[i] == other[i];
    }
    equal
}
