// Truth values, moments and sets of characteristics.
ghost use Rattle.std.specs.Prelude.{◌≡◌, ◌+◌, ◌<◌, ◌≤◌, ◌++◌, ◌^◌, length, OnOk, IfOk, IsErrOf};
ghost use Rattle.qm_bytes.specs.Spelling.{byte, truth, moment, set, optional, IsMoment, IsSet, AllOf};
ghost use Rattle.qm_bytes.specs.Reading.{Gives, truth_at, moment_at, set_at, optional_at, number_up_to};

use crate::fault::BadField;
use crate::number::{put_number, read_byte, read_number, read_number_up_to};
use crate::width::Width;
use qm_kinds::{CharacteristicSet, LAST_MOMENT, Moment};
use std::alloc::AllocError;

/// Appends 1 for true, 0 for false.
pub fn put_truth(out: &mut Vec<u8>, value: bool) -> Result<(), AllocError>
    ensures { OnOk result (out.new.items ≡ out.old.items ++ truth value) }
{
    out.push(if value { 1 } else { 0 })?;
    Ok(())
}

/// Reads a truth value.
#[tactic(auto, unfolding(crate::specs::Reading::truth_at))]
pub fn read_truth(bytes: &mut &[u8]) -> Result<bool, BadField>
    ensures { Gives result bytes.new.now (truth_at bytes.old.now) }
{
    let byte = read_byte(bytes, 0, 1)?;
    Ok(byte == 1)
}

/// Appends a moment, as a number of 64 bits.
pub fn put_moment(out: &mut Vec<u8>, value: Moment) -> Result<(), AllocError>
    ensures ok { OnOk result (out.new.items ≡ out.old.items ++ moment value) }
    ensures lawful { IsMoment value }
{
    put_number(out, Width::Eight, value.hundredths())
}

/// Reads a moment.
#[tactic(auto, unfolding(crate::specs::Reading::moment_at))]
pub fn read_moment(bytes: &mut &[u8]) -> Result<Moment, BadField>
    ensures { Gives result bytes.new.now (moment_at bytes.old.now) }
{
    let hundredths = read_number_up_to(bytes, Width::Eight, LAST_MOMENT)?;
    match Moment::new(hundredths) {
        Some(moment) => Ok(moment),
        None => unreachable!(),
    }
}

/// Appends a moment where there is one.
pub fn put_optional_moment(out: &mut Vec<u8>, value: Option<Moment>) -> Result<(), AllocError>
    ensures ok { OnOk result (out.new.items ≡ out.old.items ++ optional moment value) }
    ensures lawful { OnOk result (AllOf IsMoment value) }
{
    match value {
        None => out.push(0)?,
        Some(moment) => {
            out.push(1)?;
            put_moment(out, moment)?;
        }
    }
    Ok(())
}

/// Reads a moment, or none.
#[tactic(auto, unfolding(crate::specs::Reading::optional_at))]
pub fn read_optional_moment(bytes: &mut &[u8]) -> Result<Option<Moment>, BadField>
    ensures { Gives result bytes.new.now (optional_at moment_at bytes.old.now) }
{
    if read_byte(bytes, 0, 1)? == 0 {
        return Ok(None);
    }
    let moment = read_moment(bytes)?;
    Ok(Some(moment))
}

/// Appends a set of characteristics, as two numbers of 64 bits.
pub fn put_set(out: &mut Vec<u8>, value: CharacteristicSet) -> Result<(), AllocError>
    ensures ok { OnOk result (out.new.items ≡ out.old.items ++ set value) }
    ensures lawful { IsSet value }
{
    put_number(out, Width::Eight, (value.0 % (1 << 64)) as u64)?;
    put_number(out, Width::Eight, (value.0 / (1 << 64)) as u64)
}

/// Reads a set of characteristics.
#[tactic(auto, unfolding(crate::specs::Reading::set_at))]
pub fn read_set(bytes: &mut &[u8]) -> Result<CharacteristicSet, BadField>
    ensures { Gives result bytes.new.now (set_at bytes.old.now) }
{
    let low = read_number(bytes, Width::Eight)?;
    let high = read_number(bytes, Width::Eight)?;
    Ok(CharacteristicSet(u128::from(low) + (1 << 64) * u128::from(high)))
}
