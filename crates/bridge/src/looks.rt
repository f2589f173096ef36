// The look as C calls, each number of its answer by a call of its own.
ghost use Rattle.std.specs.Prelude.{◌≡◌, cond};
ghost use Rattle.days.specs.Refusals.{result_number, part_or_zero};
ghost use Rattle.bridge.specs.Answers.{bridge_examined};

use days::refusal::{Refusal, result_number};
use search::Examined;

fn look_at(query: &[u8], day: u32) -> Result<Examined, Refusal>
    ensures { result ≡ bridge_examined query.now day }
{
    let asked = super::read(query)?;
    search::examine(asked, day)
}

// The refusal, or 0.
#[unsafe(no_mangle)]
pub extern "C" fn bridge_examine_result(query: &[u8], day: u32) -> u32
    ensures { result ≡ result_number (bridge_examined query.now day) }
{
    result_number(look_at(query, day))
}

// 1 where the day matches, else 0.
#[unsafe(no_mangle)]
pub extern "C" fn bridge_examine_matches(query: &[u8], day: u32) -> u32
    ensures { result ≡ part_or_zero (λ seen. cond seen.matches 1 0) (bridge_examined query.now day) }
{
    look_at(query, day).map_or(0, |seen| seen.matches as u32)
}

// The day that the scan visits next.
#[unsafe(no_mangle)]
pub extern "C" fn bridge_examine_next(query: &[u8], day: u32) -> u32
    ensures { result ≡ part_or_zero (λ seen. seen.next) (bridge_examined query.now day) }
{
    look_at(query, day).map_or(0, |seen| seen.next)
}
