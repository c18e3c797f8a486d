//! The fields of a row.

ghost use Rattle.std.specs.Prelude.{◌≡◌, ◌==◌};
ghost use Rattle.std.specs.List.{before_first, after_first, list_any};
ghost use Rattle.std.specs.Str.{bytes_eq};
ghost use Rattle.mta_rows.specs.Texts.{IsNumber, number_of, fields_of, is_wanted};

/// The fields of a row, which are taken from the front.
#[derive(Clone, Copy)]
pub struct Fields<'a> {
    /// What stands behind the fields that were taken.
    pub rest: &'a str,
}

impl<'a> Fields<'a> {
    /// The next field, up to a tab. Behind the last come empty ones.
    pub fn take(&mut self) -> &'a str
        ensures field { result.now ≡ before_first (λ c. c == 9) self.old.rest.now }
        ensures rest { self.new.rest.now ≡ after_first (λ c. c == 9) self.old.rest.now }
    {
        let (field, rest) = match self.rest.split_once('\t') {
            None => (self.rest, ""),
            Some(parts) => parts,
        };
        self.rest = rest;
        field
    }
}

/// The number that a field is, in decimal; 0 where it is none that 64 bits hold.
pub fn number(field: &str) -> u64
    ensures number { IsNumber field.now → result ≡ number_of field.now }
    ensures none { (IsNumber field.now → ⊥) → result ≡ 0 }
{
    field.parse::<u64>().unwrap_or(0)
}

// Whether one of the fields says this.
fn is_said(said: &str, fields: &str) -> bool
    ensures { result ≡ list_any (bytes_eq said.now) (fields_of fields.now) }
{
    fields.split('\t').any(|field| said == field)
}

/// Whether an answer is what the first of the fields says or, where calls are left, what another one says.
pub fn is_wanted(said: &str, is_last: bool, fields: Fields<'_>) -> bool
    ensures { result ≡ is_wanted said.now is_last (fields_of fields.entry.rest.now) }
{
    match fields.rest.split_once('\t') {
        None => said == fields.rest,
        Some((last, others)) => said == last || !is_last && is_said(said, others),
    }
}
