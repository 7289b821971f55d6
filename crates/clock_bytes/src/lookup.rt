// The write that a line's list has on a clock.
ghost use Rattle.std.specs.Prelude.{◌≡◌};
ghost use Rattle.tia.specs.WriteList.{records_of, write_at};

use tia::Write;

// The write of the first record with this clock; nothing where none has it. Bytes after the last whole record are no record. (A slice pattern
// names a record's bytes; `find` over `chunks_exact` would take them by their indices.)
#[tactic(auto, using(crate::proofs::ShowLaws::search_finds, crate::proofs::ShowLaws::search_goes_on, crate::proofs::ShowLaws::search_ends))]
pub(crate) fn write_at(writes: &[u8], clock: u8) -> Write
    ensures { result ≡ write_at (records_of writes.now) clock }
{
    let mut rest = writes;
    while let [at, address, value, later @ ..] = rest {
        if *at == clock {
            return Write::Register {
                address: *address,
                value: *value,
            };
        }
        rest = later;
    }
    Write::Nothing
}
