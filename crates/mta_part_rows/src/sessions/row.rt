//! A line of the input.

/// Its first word, and the two words behind it with the numbers that they are; a word that is none stands for 0.
#[derive(Clone, Copy, Debug)]
pub struct Row<'a> {
    pub word: &'a str,
    pub first: &'a str,
    pub second: &'a str,
    pub a: u32,
    pub b: u32,
}

fn number(word: &str) -> u32 {
    match word.parse::<u32>() {
        Ok(number) => number,
        Err(_) => 0,
    }
}

fn or_none(word: Option<&str>) -> &str {
    match word {
        Some(word) => word,
        None => "",
    }
}

impl<'a> Row<'a> {
    pub fn of(line: &'a str) -> Row<'a> {
        let mut words = line.split_whitespace();
        let word = or_none(words.next());
        let first = or_none(words.next());
        let second = or_none(words.next());
        Row {
            word,
            first,
            second,
            a: number(first),
            b: number(second),
        }
    }
}
