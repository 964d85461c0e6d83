// Decimal digits, read as a number.
ghost use Rattle.std.specs.Prelude.{◌≡◌, ◌≤◌, IfSome};
ghost use Rattle.qm_model.specs.Script.{act_number};
ghost use Rattle.qm_time.specs.Digits.{number_up_to};

/// The number that digits say, where it isn't above the most. Zeros may stand in front, and no digits say 0.
pub fn number_up_to(most: u64, text: &[u8]) -> Option<u64>
    ensures value { result ≡ number_up_to most text.now }
    ensures within { IfSome result (λ number. number ≤ most) }
{
    let most = u128::from(most);
    let mut value = 0;
    for byte in text {
        if !byte.is_ascii_digit() {
            return None;
        }
        value = (value * 10 + u128::from(*byte - b'0')).min(most + 1);
    }
    if value > most {
        None
    } else {
        Some(value as u64)
    }
}

/// The number that digits say, one at least and without a 0 in front of others, where it isn't above the most.
pub fn plain_number_up_to(most: u64, text: &[u8]) -> Option<u64>
    ensures value { result ≡ act_number most text.now }
    ensures within { IfSome result (λ number. number ≤ most) }
{
    if text.is_empty() || text.len() > 1 && text[0] == b'0' {
        return None;
    }
    number_up_to(most, text)
}
