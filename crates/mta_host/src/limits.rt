//! The limits that the system sets a process, as a text of it tells them.

/// The limit of this name that holds now, of the lines of `/proc/PID/limits`; none where no line has it. A limit that is
/// `unlimited` is the greatest number.
pub(crate) fn limit(text: &str, name: &str) -> Option<u64> {
    let rest = text.lines().find_map(|line| line.strip_prefix(name))?;
    match rest.split_whitespace().next()? {
        "unlimited" => Some(u64::MAX),
        number => number.parse().ok(),
    }
}
