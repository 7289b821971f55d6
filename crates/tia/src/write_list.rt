// A line's write list: three bytes a record, clock, address, value; and its check.
ghost use Rattle.std.specs.Prelude.{◌≡◌, ◌≤◌, length};
ghost use Rattle.tia.specs.WriteList.{record_number, fault_numbers, record_fault, first_fault, list_fault, records_of};

use crate::timing::LAST_CLOCK;
use crate::write::is_known;
use refusal::{Fault, Refusal, is_bad_length};

// Refuses a record whose clock is over 227 (5) or below the least (6), or whose register is unknown (7).
#[tactic(auto, using(std::proofs::lemmas::Bool::Decides::nat_tests), unfolding(crate::specs::WriteList::record_fault))]
fn check_record(least: u8, clock: u8, address: u8) -> Result<(), Refusal>
    ensures { record_number result ≡ record_fault least clock address }
{
    if clock > LAST_CLOCK {
        return Err(Refusal::ClockOver);
    }
    if clock < least {
        return Err(Refusal::ClockOrder);
    }
    if !is_known(address) {
        return Err(Refusal::UnknownRegister);
    }
    Ok(())
}

// Refuses the first bad record (5, 6, 7).
#[tactic(auto, using(crate::proofs::CursorLaws::check_by_cases))]
fn check_records(writes: &[u8]) -> Result<(), Fault>
    requires { length writes.now ≤ 684 }
    ensures { fault_numbers result ≡ first_fault 0 0 (records_of writes.now) }
{
    // The index is counted beside a slice pattern: with `enumerate` over `chunks_exact` a record would be taken apart by indices.
    let mut rest = writes;
    let mut index = 0;
    let mut least = 0;
    while let [clock, address, _, later @ ..] = rest {
        if let Err(refusal) = check_record(least, *clock, *address) {
            return Err(Fault { refusal, index });
        }
        least = *clock + 1;
        index += 1;
        rest = later;
    }
    Ok(())
}

// Refuses a list for its length (4), then for the first bad record (5, 6, 7).
#[tactic(auto, using(std::proofs::lemmas::Bool::Decides::nat_tests), unfolding(crate::specs::WriteList::list_fault))]
pub(crate) fn check_list(writes: &[u8]) -> Result<(), Fault>
    ensures { fault_numbers result ≡ list_fault writes.now }
{
    if is_bad_length(writes.len()) {
        return Err(Fault::from(Refusal::ListLength));
    }
    check_records(writes)
}
