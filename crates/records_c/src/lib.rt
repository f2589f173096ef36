// The C call of an archive of its own: records of days, filled together (include/grahalaghava_records.h).
#![tactic(auto)]

ghost use Rattle.std.specs.Prelude.{◌≡◌};
ghost use Rattle.records.specs.Records.{fill_refusal, filled_after};

use records::DayRecord;

// Fills each record by its day; or refuses, and touches none.
#[unsafe(no_mangle)]
pub extern "C" fn fill_records(edition: u32, records: &mut [DayRecord]) -> u32
    ensures { (result ≡ fill_refusal edition records.old) × (records.new ≡ filled_after edition records.old) }
{
    records::fill_records(edition, records)
}
