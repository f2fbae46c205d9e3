// The numbers of each kind of answer: a refusal's number and values, or 0 and the answer's fields.
#![tactic(auto)]

mod debug;
mod run;
mod values;

ghost use Rattle.std.specs.Prelude.{List, ℕ, ◌≡◌, [], ◌∷◌, ◌≤◌, length};
ghost use Rattle.base.specs.Answers.{got_from};
ghost use Rattle.base.specs.Error.{fault_of};
ghost use Rattle.answer_numbers.specs.Answers.{capacity, numbers_of, numbers_in};
ghost use Rattle.answer_numbers.specs.Fields.{refusal_numbers, answer_numbers};

use base::error::ContainerError;

// The most numbers of an answer.
pub const CAPACITY: usize = 12;

// The first `count` of these numbers; zeros stand behind them.
// Kept: a buffer with a count beside it, since an answer has up to 12 numbers and there is no heap.
#[derive(Clone, Copy)]
pub struct Numbers {
    pub numbers: [u64; CAPACITY],
    pub count: usize,
}

impl Numbers {
    // These numbers.
    pub fn of(numbers: &[u64]) -> Numbers
        requires { length numbers.now ≤ capacity }
        ensures { result ≡ numbers_of numbers.now }
    {
        let count = numbers.len();
        let mut all = [0; CAPACITY];
        all[..count].copy_from_slice(numbers);
        Numbers {
            numbers: all,
            count,
        }
    }

    // The numbers that it stands for.
    pub fn as_slice(&self) -> &[u64]
        ensures { result.now ≡ numbers_in self.now }
    {
        &self.numbers[..self.count.min(CAPACITY)]
    }
}

// No numbers: there is no answer.
pub fn no_numbers() -> Numbers
    ensures { result ≡ numbers_of [] }
{
    Numbers::of(&[])
}

pub fn refusal(e: ContainerError) -> Numbers
    ensures { result ≡ numbers_of (refusal_numbers (fault_of e)) }
{
    let values = e.values();
    let all = [e.number() as u64, values.first as u64, values.second as u64];
    Numbers::of(&all[..1 + values.count])
}

// What an answer has that is no refusal: document 01's answer that it stands for, and the numbers of that.
// Kept: an impl for each type, since each lists other fields; they have no more in common than the call of `of`.
pub trait InNumbers: Copy {
    ghost Kept: { Type 0 };

    ghost view: { Self → Kept };

    ghost said: { Kept → List ℕ };

    fn numbers(self) -> Numbers
        ensures { result ≡ numbers_of (0 ∷ said (view self)) };
}

// The numbers of an answer.
pub fn answer_numbers<T: InNumbers>(answer: Result<T, ContainerError>) -> Numbers
    ensures { result ≡ numbers_of (answer_numbers T.said (got_from T.view answer)) }
{
    match answer {
        Ok(x) => x.numbers(),
        Err(e) => refusal(e),
    }
}
