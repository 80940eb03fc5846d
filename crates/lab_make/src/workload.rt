//! The size of a workload, as words of a command line give it.
ghost use Rattle.std.specs.Prelude.{◌≡◌, ◌≤◌, IfOk, IfSome};
ghost use Rattle.lab_make.specs.Workload.{IsWorkload, is_numeral, number_in, number_between, workload_of};

use std::fmt;
use text_words::{are_digits, checked_value};
use thiserror::Error;

/// What a workload is made from: the seed of its samples, how many clients it has, and in how many
/// turns they write and the card plays.
#[derive(Clone, Copy, Debug, PartialEq, Eq)]
pub struct Workload {
    /// The seed of the generator of the samples.
    pub seed: u64,
    /// How many clients there are.
    pub clients: u32,
    /// How many turns there are: in each every client writes, and then the card plays one period.
    pub phases: u32,
}

/// Which of the three words of a workload is refused. The first that is refused decides.
#[derive(Clone, Copy, Debug, PartialEq, Eq, Error)]
pub enum WorkloadError {
    /// The seed isn't a decimal number of 1 to 20 digits below `2^64`.
    Seed,
    /// The number of clients isn't a decimal number of 1 to 20 digits from 1 to 64.
    Clients,
    /// The number of phases isn't a decimal number of 1 to 20 digits from 1 to 1,000.
    Phases,
}

impl WorkloadError {
    /// The name of the word that is refused, by which it is printed.
    fn name(&self) -> &'static str {
        match self {
            WorkloadError::Seed => "seed",
            WorkloadError::Clients => "clients",
            WorkloadError::Phases => "phases",
        }
    }
}

impl fmt::Display for WorkloadError {
    fn fmt<W: fmt::Write>(&self, f: &mut fmt::Formatter<W>) -> fmt::Result {
        f.write_str(self.name())
    }
}

/// Whether a word has 1 to 20 bytes, each a decimal digit.
fn is_numeral(word: &[u8]) -> bool
    ensures { result ≡ is_numeral word.now }
{
    !word.is_empty() && word.len() <= 20 && are_digits(word)
}

/// A number, where it is in a range.
fn number_between(least: u64, most: u64, value: u64) -> Option<u64>
    ensures { result ≡ number_between least most value }
{
    if least <= value && value <= most {
        Some(value)
    } else {
        None
    }
}

/// The number that a word means, where it has 1 to 20 decimal digits and the number is in a range.
#[tactic(auto, unfolding(crate::specs::Workload::number_in))]
fn number_in(least: u64, most: u64, word: &[u8]) -> Option<u64>
    ensures value { result ≡ number_in least most word.now }
    ensures least { IfSome result (λ n. least ≤ n) }
    ensures most { IfSome result (λ n. n ≤ most) }
{
    if !is_numeral(word) {
        return None;
    }
    let value = checked_value(word)?;
    number_between(least, most, value)
}

/// The workload of three words: the seed, below `2^64`; the number of clients, 1 to 64; and the number
/// of phases, 1 to 1,000. Each word has 1 to 20 decimal digits, which may begin with zeros, and no sign.
///
/// # Errors
///
/// `Seed`, `Clients` or `Phases`, for the first word that isn't such a number.
pub fn read_workload(seed: &[u8], clients: &[u8], phases: &[u8]) -> Result<Workload, WorkloadError>
    ensures value { result ≡ workload_of seed.now clients.now phases.now }
    ensures range { IfOk result IsWorkload }
{
    let Some(seed) = number_in(0, u64::MAX, seed) else {
        return Err(WorkloadError::Seed);
    };
    let Some(clients) = number_in(1, 64, clients) else {
        return Err(WorkloadError::Clients);
    };
    let Some(phases) = number_in(1, 1000, phases) else {
        return Err(WorkloadError::Phases);
    };
    Ok(Workload {
        seed,
        clients: clients as u32,
        phases: phases as u32,
    })
}
