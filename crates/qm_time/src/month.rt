// Words as they stand in a text.
ghost use Rattle.std.specs.Prelude.{◌≡◌, ◌≤◌, ◌+◌, length, IfOk, IfErr};
ghost use Rattle.qm_time.specs.Months.{shared, month_at, found_month};
ghost use Rattle.qm_time.specs.Numbers.{IsWithin};

use crate::fault::TimeFault;
use crate::number::Number;
use crate::text::month_letters;

/// How many bytes in front a text shares with a word.
#[tactic(auto, unfolding(crate::specs::Months::shared))]
pub(crate) fn shared(word: &[u8], text: &[u8]) -> usize
    ensures value { result ≡ shared word.now text.now }
    ensures in_word { result ≤ length word.now }
    ensures in_text { result ≤ length text.now }
{
    for (i, byte) in word.iter().enumerate() {
        if i == text.len() || text[i] != *byte {
            return i;
        }
    }
    word.len()
}

/// The month whose letters stand at a place, with its number from 1.
#[tactic(auto, unfolding(crate::specs::Months::month_at))]
pub(crate) fn month_at(text: &[u8], place: usize) -> Result<Number, TimeFault>
    requires { place ≤ length text.now }
    ensures value { result ≡ month_at text.now place }
    ensures from { IfOk result (λ n. 1 ≤ n.value) }
    ensures within { IfOk result (IsWithin 12 text.now) }
{
    match month_in_front(&text[place..]) {
        Ok(month) => Ok(Number {
            value: month as u64,
            end: place + 3,
        }),
        Err(most) => Err(TimeFault::Form {
            place: place + most,
        }),
    }
}

// The month whose letters stand in front of a text, or else how many of its bytes a month begins with.
#[tactic(auto, unfolding(crate::specs::Months::found_month, crate::specs::Months::month_in_front, crate::specs::Months::most_shared))]
fn month_in_front(text: &[u8]) -> Result<u32, usize>
    ensures value { result ≡ found_month text.now }
    ensures from { IfOk result (λ month. 1 ≤ month) }
    ensures to { IfOk result (λ month. month ≤ 12) }
    ensures inside { IfOk result (λ _. 3 ≤ length text.now) }
    ensures few { IfErr result (λ most. most ≤ length text.now) }
{
    let mut most = 0;
    for month in 1..13 {
        let same = shared(&month_letters(month), text);
        if same == 3 {
            return Ok(month);
        }
        most = most.max(same);
    }
    Err(most)
}
