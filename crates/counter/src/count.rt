// Counts and values of the six-bit counter, by the classroom card.
ghost use Rattle.std.specs.Prelude.{◌≡◌, ◌<◌};
ghost use Rattle.counter.specs.Answers.{found_answer, value_answer, count_answer};

use refusal::Refusal;

// How many values the card prints.
const COUNTS: u8 = 63;

// The classroom card: the value of each count, 0 to 62.
const CARD: [u8; 63] = [
    0b000000, 0b100000, 0b110000, 0b111000, 0b111100, 0b111110, 0b011111, 0b101111, 0b110111,
    0b111011, 0b111101, 0b011110, 0b001111, 0b100111, 0b110011, 0b111001, 0b011100, 0b101110,
    0b010111, 0b101011, 0b110101, 0b011010, 0b001101, 0b000110, 0b000011, 0b100001, 0b010000,
    0b101000, 0b110100, 0b111010, 0b011101, 0b001110, 0b000111, 0b100011, 0b110001, 0b011000,
    0b101100, 0b110110, 0b011011, 0b101101, 0b010110, 0b001011, 0b100101, 0b010010, 0b001001,
    0b000100, 0b100010, 0b010001, 0b001000, 0b100100, 0b110010, 0b011001, 0b001100, 0b100110,
    0b010011, 0b101001, 0b010100, 0b101010, 0b010101, 0b001010, 0b000101, 0b000010, 0b000001,
];

// The value of a count; refusal 10 over 62.
#[tactic(auto, using(crate::proofs::AnswerLaws::entry_found), unfolding(crate::specs::Count::card))]
pub fn value_of_count(count: u8) -> Result<u8, Refusal>
    ensures { found_answer result ≡ value_answer count }
{
    CARD.get(usize::from(count)).copied().ok_or(Refusal::NoSuch)
}

// The count of a value; refusal 10 for 111111 and over 63.
pub fn count_of_value(value: u8) -> Result<u8, Refusal>
    ensures { found_answer result ≡ count_answer value }
{
    (0..COUNTS)
        .find(|count| CARD[usize::from(*count)] == value)
        .ok_or(Refusal::NoSuch)
}
