// The test of a write list's length, which a line call and the reading of a tape share.
ghost use Rattle.std.specs.Prelude.{◌≡◌};
ghost use Rattle.laws.specs.Numbers.{bad_length};

// The bytes of a record: clock, address, value.
const RECORD: usize = 3;

// The longest list: 228 records.
const LONGEST: usize = 228 * RECORD;

// Whether no write list has so many bytes.
pub fn is_bad_length(bytes: usize) -> bool
    ensures { result ≡ bad_length bytes }
{
    bytes % RECORD != 0 || bytes > LONGEST
}
