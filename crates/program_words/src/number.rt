//! Numbers among the words of the command line.
ghost use Rattle.std.specs.Prelude.{◌≡◌, ◌≤◌, IfSome};
ghost use Rattle.std.specs.Char.{is_ascii_digit};
ghost use Rattle.std.specs.List.{list_all};
ghost use Rattle.program_words.specs.Number.{are_digits, number_within};

fn all_digits(text: &str) -> bool
    ensures { result ≡ list_all is_ascii_digit text.now }
{
    text.as_bytes().iter().all(|byte| byte.is_ascii_digit())
}

fn are_digits(text: &str) -> bool
    ensures { result ≡ are_digits text.now }
{
    !text.is_empty() && all_digits(text)
}

/// The number that decimal digits write, where it is in the range. Zeros may stand in front.
pub(crate) fn number_within(least: u64, most: u64, text: &str) -> Option<u64>
    ensures value { result ≡ number_within least most text.now }
    ensures least { IfSome result (λ value. least ≤ value) }
    ensures most { IfSome result (λ value. value ≤ most) }
{
    if !are_digits(text) {
        return None;
    }
    let value = text.parse::<u64>().ok()?;
    if least <= value && value <= most {
        Some(value)
    } else {
        None
    }
}
