// Numbers back to a record.
ghost use Rattle.std.specs.Prelude.{◌≡◌};
ghost use Rattle.record_numbers.specs.FromNumbers.{most_count, most_numbers, fits, record_of_numbers};
ghost use Rattle.record_numbers.specs.Answers.{fitting_of, maybe_fitting, maybe_record};

use crate::RECORD_NUMBERS;
use crate::fitting::{DEBUG_FLAG, Fitting, TYPES_FLAG};
use record::Container;

// The most that fields of 1, 2 and 4 bytes hold.
const MOST_1: u64 = 255;

const MOST_2: u64 = 65535;

const MOST_4: u64 = 4294967295;

// What each number can be at most, whatever the flags are.
// Kept: by place, as the numbers that C lends.
const MOST_OF_FIELDS: [u64; RECORD_NUMBERS] = [
    0, MOST_2, MOST_1, MOST_1, MOST_4, MOST_4, MOST_4, MOST_4, MOST_4, MOST_4, MOST_4, MOST_4,
    MOST_4, MOST_4, MOST_4, MOST_4, MOST_4, MOST_4, MOST_2, MOST_2, MOST_2, MOST_4, MOST_2, MOST_4,
    MOST_2, MOST_2, MOST_2, MOST_2, MOST_2, MOST_2, MOST_2, MOST_2, 1, MOST_2, MOST_2, MOST_2,
    MOST_2, 1, MOST_2, MOST_2, MOST_2, MOST_2, MOST_2, MOST_2,
];

// Kept: a flag is a number here, since C may lend any.
fn most_count(flag: u64) -> u64
    ensures { result ≡ most_count flag }
{
    if flag == 0 { 0 } else { MOST_2 }
}

// What each number can be at most, by the flags of types and debug.
fn most_numbers(types: u64, debug: u64) -> [u64; RECORD_NUMBERS]
    ensures { result ≡ most_numbers types debug }
{
    let mut most = MOST_OF_FIELDS;
    most[TYPES_FLAG + 1..TYPES_FLAG + 4].fill(most_count(types));
    most[DEBUG_FLAG + 1..].fill(most_count(debug));
    most
}

// Whether each number is at most what it can be.
fn all_fit(most: &[u64; RECORD_NUMBERS], numbers: &[u64; RECORD_NUMBERS]) -> bool
    ensures { result ≡ fits most.now numbers.now }
{
    numbers.iter().zip(most).all(|(n, most)| n <= most)
}

// These numbers, where they are those of a record.
fn fitting_of(n: [u64; RECORD_NUMBERS]) -> Option<Fitting>
    ensures { maybe_fitting result ≡ fitting_of n }
{
    let most = most_numbers(n[TYPES_FLAG], n[DEBUG_FLAG]);
    if all_fit(&most, &n) {
        return Some(Fitting { n });
    }
    None
}

// The record of a list of numbers: the 0 of a file that loads, the record's numbers, and any numbers behind them.
#[tactic(auto, using(crate::proofs::Laws::too_few))]
pub fn record_of_numbers(numbers: &[u64]) -> Option<Container>
    ensures { maybe_record result ≡ record_of_numbers numbers.now }
{
    Some(fitting_of(*numbers.first_chunk()?)?.record())
}
