// The bytes of a clock's record.
ghost use Rattle.std.specs.Prelude.{◌≡◌, ◌≤◌, ◌+◌, ◌++◌};
ghost use Rattle.arrayvec.specs.ArrayVec.{array_vec_len};
ghost use Rattle.tia.specs.Answers.{clock_numbers};
ghost use Rattle.clock_bytes.specs.ClockBytes.{rose, counter_value, object_bytes, player_bytes, shared_bytes, record_bytes_of};

use arrayvec::ArrayVec;
use tia::{Object, Output, Player, State};

// The columns of a line, after which a position is 0 again.
const COLUMNS: u32 = 160;

// The bytes of a record.
const RECORD_BYTES: usize = 38;

pub(crate) type Record = ArrayVec<u8, RECORD_BYTES>;

// Whether a position is one above the one before, 159 going to 0.
fn is_risen(before: u8, after: u8) -> bool
    ensures { result ≡ rose before after }
{
    (u32::from(before) + 1) % COLUMNS == u32::from(after)
}

// The value of the position counter at a position.
fn counter_value(position: u8) -> u8
    ensures { result ≡ counter_value position }
{
    counter::value_of_count(position / 4).unwrap_or(0)
}

// Adds the bytes of an object before and after a clock. (This and the next two ask for their room, which their one caller has: one word
// for it, and one for the two states, would be no plainer.)
#[tactic(auto, unfolding(crate::specs::ClockBytes::object_bytes))]
fn add_object(made: &mut Record, before: Object, after: Object)
    requires { array_vec_len made.old + 6 ≤ RECORD_BYTES }
    ensures bytes { made.new.items ≡ made.old.items ++ object_bytes before after }
    ensures len { array_vec_len made.new ≡ array_vec_len made.old + 6 }
{
    let position = after.position;
    let risen = is_risen(before.position, position);
    let bytes = [
        position,
        u8::from(risen),
        counter_value(position),
        after.age,
        after.motion,
        u8::from(after.live),
    ];
    made.try_extend_from_slice(&bytes).unwrap();
}

// Adds the bytes of a player before and after a clock: those of an object, its pixel and the clocks that it has been shown.
#[tactic(auto, using(std::proofs::Common::append_assoc), unfolding(crate::specs::ClockBytes::player_bytes))]
fn add_player(made: &mut Record, before: Player, after: Player)
    requires { array_vec_len made.old + 8 ≤ RECORD_BYTES }
    ensures bytes { made.new.items ≡ made.old.items ++ player_bytes before after }
    ensures len { array_vec_len made.new ≡ array_vec_len made.old + 8 }
{
    add_object(made, before.body, after.body);
    let drawing = after.drawing;
    made.push(drawing.pixel);
    made.push(drawing.shown);
}

// Adds the bytes that all objects share: the clock, its answer byte, the slot and the late flag after it.
#[tactic(auto, unfolding(crate::specs::ClockBytes::shared_bytes))]
fn add_shared(made: &mut Record, before: State, output: Output, after: State)
    requires { array_vec_len made.old + 4 ≤ RECORD_BYTES }
    ensures bytes { made.new.items ≡ made.old.items ++ shared_bytes before (clock_numbers (Ok output) after) }
    ensures len { array_vec_len made.new ≡ array_vec_len made.old + 4 }
{
    let began = before.timing;
    let timing = after.timing;
    let bytes = [began.h, output.byte, timing.slot, u8::from(timing.late)];
    made.try_extend_from_slice(&bytes).unwrap();
}

// The record of a clock, by the state before it, what it puts out, and the state after it.
#[tactic(auto, using(std::proofs::Common::append_assoc), unfolding(crate::specs::ClockBytes::record_bytes_of))]
pub(crate) fn record_of(before: State, output: Output, after: State) -> Record
    ensures { result.items ≡ record_bytes_of before (clock_numbers (Ok output) after) }
{
    let began = before.objects;
    let ended = after.objects;
    let mut made = Record::new();
    add_shared(&mut made, before, output, after);
    add_player(&mut made, began.p0, ended.p0);
    add_player(&mut made, began.p1, ended.p1);
    add_object(&mut made, began.m0, ended.m0);
    add_object(&mut made, began.m1, ended.m1);
    add_object(&mut made, began.bl, ended.bl);
    made
}
