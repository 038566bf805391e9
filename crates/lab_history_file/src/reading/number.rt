//! The whole numbers of JSON. A number of more than ten digits isn't read: no number of a history file is as large.

ghost use Rattle.std.specs.Prelude.{◌≡◌, ◌≤◌, [], Some, IfSome, option_and_then};
ghost use Rattle.serde_json.specs.Data.{unsigned};
ghost use Rattle.serde_json.specs.Find.{as_i64};
ghost use Rattle.serde_json.specs.Read.{number_of};
ghost use Rattle.lab_history_file.specs.Numbers.{digits_on};

/// The number that digits spell, if it is at most 10,000,000,009. No digits spell 0.
#[inline(always)]
fn number_in(digits: &[u8]) -> Option<u64>
    ensures value { IfSome result (λ n. digits_on 0 digits.now ≡ (n, [])) }
    ensures small { IfSome result (λ n. n ≤ 10000000009) }
{
    let mut number = 0;
    for (i, byte) in digits.iter().enumerate() {
        if !byte.is_ascii_digit() || number > 1_000_000_000 {
            return None;
        }
        number = number * 10 + u64::from(*byte - b'0');
    }
    Some(number)
}

/// The number that a token of JSON spells, if it is a whole number without a sign.
#[inline(always)]
pub fn whole_of(text: &str) -> Option<u64>
    ensures value { IfSome result (λ n. number_of text.now ≡ Some (unsigned n)) }
    ensures small { IfSome result (λ n. n ≤ 10000000009) }
{
    let digits = text.as_bytes();
    if digits.is_empty() {
        return None;
    }
    number_in(digits)
}

/// The number that a token of JSON spells, if it is a whole number. JSON's readers take `-0` for a float.
#[inline(always)]
#[tactic(auto, using(crate::proofs::WholeNumbers::whole_signed))]
pub fn integer_of(text: &str) -> Option<i64>
    ensures { IfSome result (λ z. option_and_then as_i64 (number_of text.now) ≡ Some z) }
{
    let Some((first, digits)) = text.as_bytes().split_first() else {
        return None;
    };
    if *first == b'-' {
        let number = number_in(digits)?;
        if number == 0 {
            return None;
        }
        Some(-(number as i64))
    } else {
        Some(whole_of(text)? as i64)
    }
}
