// Records filled together.
ghost use Rattle.std.specs.Prelude.{◌≡◌};
ghost use Rattle.records.specs.Records.{fill_refusal, filled_after};

use records::DayRecord;

// The caller's records, 17 numbers each: the day, the weekday, the nine mean longitudes, the true Sun and Moon, tithi,
// nakshatra, yoga, karana.
#[unsafe(no_mangle)]
pub extern "C" fn bridge_fill_records(edition: u32, rows: &mut [DayRecord]) -> u32
    ensures { (result ≡ fill_refusal edition rows.old) × (rows.new ≡ filled_after edition rows.old) }
{
    records::fill_records(edition, rows)
}
