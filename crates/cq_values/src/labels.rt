//! Labels of nulls.
ghost use Rattle.std.specs.Prelude.{◌≡◌, ◌≤◌, length, option_map};
ghost use Rattle.std.specs.List.{list_all, prefix_len};
ghost use Rattle.std.specs.Char.{is_ascii_digit};
ghost use Rattle.cq_values.specs.Built.{label_in};
ghost use Rattle.cq_values.specs.Reading as reading;

use cq_theory::Value;

fn digit_count(bytes: &[u8]) -> usize
    ensures len { result ≡ prefix_len is_ascii_digit bytes.now }
    ensures within { result ≤ length bytes.now }
{
    bytes
        .iter()
        .take_while(|byte| byte.is_ascii_digit())
        .count()
}

/// Whether these are at most nine digits, of which the first is 0 only alone.
fn has_label_form(digits: &[u8]) -> bool
    ensures { result ≡ reading.has_label_form digits.now }
{
    let Some((first, others)) = digits.split_first() else {
        return false;
    };
    if others.is_empty() {
        true
    } else if others.len() >= 9 {
        false
    } else {
        *first != b'0'
    }
}

fn are_digits(bytes: &[u8]) -> bool
    ensures { result ≡ list_all is_ascii_digit bytes.now }
{
    bytes.iter().all(|byte| byte.is_ascii_digit())
}

/// The number that digits without a leading zero write.
fn label_of(digits: &[u8]) -> Option<u64>
    ensures { result ≡ reading.label_of digits.now }
{
    if !are_digits(digits) || !has_label_form(digits) {
        return None;
    }
    let Ok(text) = str::from_utf8(digits) else {
        return None;
    };
    match text.parse::<u64>() {
        Ok(label) => Some(label),
        Err(_) => None,
    }
}

/// The null whose label stands at the front, and the bytes behind it.
pub(crate) fn null(bytes: &[u8]) -> Option<(Value, &[u8])>
    ensures { option_map (λ found. (found.0, found.1.now)) result ≡ reading.null_front bytes.now }
{
    let (digits, rest) = bytes.split_at(digit_count(bytes));
    match label_of(digits) {
        Some(label) => Some((Value::Null(label), rest)),
        None => None,
    }
}

/// The label of the null whose text this is: `?` and one to nine digits, of which the first is 0 only alone.
pub fn read_label(text: &[u8]) -> Option<u64>
    ensures { result ≡ label_in text.now }
{
    match text {
        [b'?', digits @ ..] => label_of(digits),
        _ => None,
    }
}
