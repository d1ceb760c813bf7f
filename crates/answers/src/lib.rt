// The answer of an entry: outcome, number, place and length in one number.
#![tactic(auto)]

ghost use Rattle.std.specs.Prelude.{◌≡◌, ◌<◌};
ghost use Rattle.policy.specs.Good.{Good};
ghost use Rattle.policy.specs.Outcome.{number, accepted};
ghost use Rattle.reading.specs.File.{as_how, error_number, error_place};
ghost use Rattle.parts.specs.Parts.{as_part};
ghost use Rattle.answers.specs.Answers.{fields, packed, refusal, Fit, of_file, of_written, of_listed, of_reply, of_part};
ghost use Rattle.answers.specs.Carried.{CarriedOut};

use parts::PartError;
use policy::{Policy, Refusal};
use reading::FileError;
use writing::write_policy;

// Each in its bits: 0 to 7, 8 to 15, 16 to 31 and 32 to 63. Whoever has a refusal's number and place, and no error that holds them, has its answer here.
pub fn pack(outcome: u64, number: u64, place: usize, length: usize) -> u64
    requires { Fit (fields outcome number place length) }
    ensures { result ≡ packed (fields outcome number place length) }
{
    outcome + number * 256 + place as u64 * 65536 + length as u64 * 4294967296
}

// A bad file's refusal, with its place.
pub fn of_bad_file(e: FileError) -> u64
    requires { Fit (refusal (error_number e) (error_place e)) }
    ensures { result ≡ packed (refusal (error_number e) (error_place e)) }
{
    pack(e.number(), 0, e.place(), 0)
}

pub fn of_file(read: Result<(), FileError>) -> u64
    requires { Fit (of_file (as_how read)) }
    ensures { result ≡ packed (of_file (as_how read)) }
{
    match read {
        Ok(()) => pack(0, 0, 0, 0),
        Err(e) => of_bad_file(e),
    }
}

// A request that is refused: nothing is written.
pub fn of_refusal(outcome: u64) -> u64
    requires { outcome < 256 }
    ensures { result ≡ packed (refusal outcome 0) }
{
    pack(outcome, 0, 0, 0)
}

#[tactic(auto, unfolding(writing::specs::Writing::written_outcome, writing::specs::Writing::written_length))]
fn of_written(number: u64, written: Result<usize, Refusal>) -> u64
    requires { Fit (of_written number written) }
    ensures { result ≡ packed (of_written number written) }
{
    match written {
        Ok(length) => pack(0, number, 0, length),
        Err(too_short) => of_refusal(too_short.number()),
    }
}

#[tactic(auto, unfolding(listing::specs::Listing::listed_count))]
pub fn of_listed(listed: Result<usize, Refusal>) -> u64
    requires { Fit (of_listed listed) }
    ensures { result ≡ packed (of_listed listed) }
{
    match listed {
        Ok(count) => pack(0, 0, 0, count),
        Err(refused) => of_refusal(refused.number()),
    }
}

#[tactic(auto, unfolding(policy::specs::Question::reply_value))]
pub fn of_reply(reply: Result<bool, Refusal>) -> u64
    ensures { result ≡ packed (of_reply reply) }
{
    match reply {
        Ok(true) => pack(0, 1, 0, 0),
        Ok(false) => pack(0, 0, 0, 0),
        Err(unknown) => of_refusal(unknown.number()),
    }
}

pub fn of_part(part: Result<(usize, usize), PartError>) -> u64
    requires { Fit (of_part (as_part part)) }
    ensures { result ≡ packed (of_part (as_part part)) }
{
    match part {
        Ok((start, length)) => pack(0, 0, start, length),
        Err(PartError::NoTable) => pack(1, 0, 0, 0),
        Err(PartError::File(e)) => of_bad_file(e),
    }
}

// Writes the policy that an accepted request leaves.
pub fn carry_out(p: Policy, number: u64, out: &mut [u8]) -> u64
    requires { Good p × (number < 256) }
    ensures { CarriedOut (accepted p number) out.old result out.new }
{
    of_written(number, write_policy(p, out))
}
