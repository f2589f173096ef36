// The host's calls for the days on which the Sun enters a sign, the mean Sun or the true one.
ghost use Rattle.std.specs.Prelude.{◌≡◌};
ghost use Rattle.std.specs.Result.{result_unwrap_or};
ghost use Rattle.entries.specs.Entries.{capacity};
ghost use Rattle.zodiac.specs.Zodiac.{length_needed, entries_result, entries_after};

use entries::put_number;
use zodiac::Sun;

// The refusal, or 0 with the entries of the span written to the list: four bytes a day, low byte first.
#[unsafe(no_mangle)]
pub extern "C" fn graha_sign_entries(first: u32, last: u32, list: &mut [u8]) -> u32
    ensures value { result ≡ entries_result Sun.Mean first last (capacity list.old) }
    ensures list_after { list.new ≡ entries_after Sun.Mean first last list.old }
{
    put_number(zodiac::sign_entries(first, last, list))
}

// How many entries a span has, whether or not they fit in a list.
#[unsafe(no_mangle)]
pub extern "C" fn graha_sign_entries_length(first: u32, last: u32) -> u32
    ensures { result ≡ result_unwrap_or (length_needed Sun.Mean first last) 0 }
{
    zodiac::sign_entries_length(first, last).unwrap_or(0)
}

// The same by the true Sun.
#[unsafe(no_mangle)]
pub extern "C" fn graha_true_sign_entries(first: u32, last: u32, list: &mut [u8]) -> u32
    ensures value { result ≡ entries_result Sun.True first last (capacity list.old) }
    ensures list_after { list.new ≡ entries_after Sun.True first last list.old }
{
    put_number(zodiac::entries_by(Sun::True, first, last, list))
}

#[unsafe(no_mangle)]
pub extern "C" fn graha_true_sign_entries_length(first: u32, last: u32) -> u32
    ensures { result ≡ result_unwrap_or (length_needed Sun.True first last) 0 }
{
    zodiac::entries_length_by(Sun::True, first, last).unwrap_or(0)
}
