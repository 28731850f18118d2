//! The words of the command line.
ghost use Rattle.closing.specs.Closer.{most_rounds};
ghost use Rattle.controller.specs.Certificates.{IsGap};
ghost use Rattle.controller.specs.Data.{fraction_data};
ghost use Rattle.hsvi_trial.specs.Run.{most_trials};
ghost use Rattle.option_words.specs.Options.{values_read};
ghost use Rattle.osposg_cli.specs.Words.{IsWithinLimits, command_from, digits_of, gap_data, gap_in, gap_of, gen_names};
ghost use Rattle.osposg_cli.specs.Words.{gen_of, most_size, named, number_in, number_of, read_by, reads_input, size_in};
ghost use Rattle.osposg_cli.specs.Words.{close_names, close_of, own_gap_in, rival_in, rival_of, rounds_in, seed_in};
ghost use Rattle.osposg_cli.specs.Words.{simulate_names, simulate_of, solve_names, solve_of, stages_in, trials_in};
ghost use Rattle.std.specs.Prelude.{IfOk, IfSome, Some, [], map, ◌≡◌, ◌≤◌};
ghost use Rattle.std.specs.String.{string_bytes};

use clap::ArgMatches;
use controller::{MOST_GAP, MOST_GAP_UNDER};
use option_words::read;
use scaled_num::Fraction;
use simulate::Rival;
use std::alloc::{AllocError, Global};

/// A tolerance on the bounds of a certificate.
#[derive(Clone, Copy, Debug, PartialEq, Eq)]
pub struct Gap {
    /// 0 to 2^40.
    pub num: u64,
    /// 1 to 2^20.
    pub den: u32,
}

impl Gap {
    /// The tolerance as a fraction.
    pub fn fraction(self) -> Fraction
        requires { IsGap (gap_data self) }
        ensures { fraction_data result ≡ gap_data self }
    {
        Fraction {
            num: i128::from(self.num),
            den: i128::from(self.den),
        }
    }
}

/// A command of the program.
#[derive(Clone, Copy, Debug, PartialEq, Eq)]
pub enum Command {
    /// The guaranteed bound of the best fixed action.
    Floor,
    /// The certificate that a search makes.
    Solve {
        /// How many trials the search may make.
        trials: u32,
        /// How near the bounds are to come.
        gap: Gap,
    },
    /// The verdict on a certificate.
    Check,
    /// A certificate made better.
    Close {
        /// How many rounds may be made.
        rounds: u32,
        /// How near the bounds are to come; the certificate's own tolerance where there is none.
        gap: Option<Gap>,
    },
    /// The canonical text of a game.
    Show,
    /// The text of a generated game.
    Gen {
        /// Which game of its size.
        number: u64,
        /// 1 to 16.
        size: u32,
    },
    /// A play of a certificate.
    Simulate {
        /// What is drawn.
        seed: u64,
        /// 1 to 64: how many stages are asked for.
        stages: u32,
        /// How the informed player plays.
        rival: Rival,
    },
    /// What solving a generated game comes to.
    Summary {
        /// Which game of its size.
        number: u64,
        /// 1 to 16.
        size: u32,
        /// How many trials the search may make.
        trials: u32,
        /// How near the bounds are to come.
        gap: Gap,
    },
}

impl Command {
    /// Whether the command reads its input.
    pub fn reads_input(self) -> bool
        ensures { result ≡ reads_input self }
    {
        !matches!(self, Command::Gen { .. } | Command::Summary { .. })
    }
}

/// The most digits of a value.
const MOST_DIGITS: usize = 30;

/// The most trials, and how many there are where the words say nothing.
const MOST_TRIALS: u128 = 10_000;

const TRIALS: u32 = 100;

/// The greatest size of a generated game.
const MOST_SIZE: u128 = 16;

/// The most rounds of `close`, and how many there are where the words say nothing.
const MOST_CLOSING: u128 = 10_000;

const ROUNDS: u32 = 100;

/// The options of `close`, of `solve` and of `gen`.
const CLOSE: [&str; 2] = ["rounds", "gap"];

const SOLVE: [&str; 2] = ["trials", "gap"];

const GEN: [&str; 4] = ["number", "size", "trials", "gap"];

/// The options of `simulate`.
const SIMULATE: [&str; 3] = ["seed", "stages", "rival"];

/// The most stages of a play, and how many there are where the words say nothing.
const MOST_STAGES: u128 = 64;

const STAGES: u32 = 10;

/// The command that the words name, without the program's own name; `None` where they name none.
#[tactic(auto, unfolding(crate::specs::Words::command_of))]
pub fn parse(alloc: Global, words: &[String]) -> Result<Option<Command>, AllocError>
    ensures command { IfOk result (λ command. command ≡ named words.now) }
    ensures within { IfOk result (λ command. IfSome command IsWithinLimits) }
{
    match words {
        [word, rest @ ..] => command_from(alloc, word.as_str(), rest),
        [] => Ok(None),
    }
}

/// The command that a word names, with the words after it as its options.
#[tactic(auto, unfolding(crate::specs::Words::command_from))]
fn command_from(alloc: Global, word: &str, words: &[String]) -> Result<Option<Command>, AllocError>
    ensures command { IfOk result (λ command. command ≡ command_from word.now (map string_bytes words.now)) }
    ensures within { IfOk result (λ command. IfSome command IsWithinLimits) }
{
    if word == "floor" {
        alone(alloc, Command::Floor, words)
    } else if word == "solve" {
        solve(alloc, words)
    } else if word == "check" {
        alone(alloc, Command::Check, words)
    } else if word == "show" {
        alone(alloc, Command::Show, words)
    } else if word == "close" {
        close(alloc, words)
    } else if word == "simulate" {
        simulate(alloc, words)
    } else if word == "gen" {
        generate(alloc, words)
    } else {
        Ok(None)
    }
}

/// A command that takes no options.
fn alone(alloc: Global, command: Command, words: &[String]) -> Result<Option<Command>, AllocError>
    requires { IsWithinLimits command }
    ensures command { IfOk result (λ named. named ≡ read_by [] (λ values. Some command) (map string_bytes words.now)) }
    ensures within { IfOk result (λ named. IfSome named IsWithinLimits) }
{
    match read(alloc, &[], words)? {
        Some(_) => Ok(Some(command)),
        None => Ok(None),
    }
}

/// `solve` with its options.
fn solve(alloc: Global, words: &[String]) -> Result<Option<Command>, AllocError>
    ensures command { IfOk result (λ named. named ≡ read_by solve_names solve_of (map string_bytes words.now)) }
    ensures within { IfOk result (λ named. IfSome named IsWithinLimits) }
{
    match read(alloc, SOLVE.as_slice(), words)? {
        Some(options) => Ok(solve_of(&options)),
        None => Ok(None),
    }
}

/// `solve` by the values of its options.
#[tactic(auto, unfolding(crate::specs::Words::solve_of))]
fn solve_of(options: &ArgMatches<'_>) -> Option<Command>
    ensures command { result ≡ solve_of (values_read options.now) }
    ensures within { IfSome result IsWithinLimits }
{
    let trials = trials_in(options)?;
    let gap = gap_in(options)?;
    Some(Command::Solve { trials, gap })
}

/// How many trials a search may make.
fn trials_in(options: &ArgMatches<'_>) -> Option<u32>
    ensures value { result ≡ trials_in (values_read options.now) }
    ensures within { IfSome result (λ trials. trials ≤ most_trials) }
{
    match options.get_str("trials") {
        Some(text) => Some(number(text, 0, MOST_TRIALS)? as u32),
        None => Some(TRIALS),
    }
}

/// How near the bounds are to come.
fn gap_in(options: &ArgMatches<'_>) -> Option<Gap>
    ensures value { result ≡ gap_in (values_read options.now) }
    ensures within { IfSome result (λ gap. IsGap (gap_data gap)) }
{
    match options.get_str("gap") {
        Some(text) => gap_of(text),
        None => Some(Gap { num: 1, den: 100 }),
    }
}

/// The gap that a text spells: numerator and denominator around the first slash.
#[tactic(auto, unfolding(crate::specs::Words::gap_of))]
fn gap_of(text: &str) -> Option<Gap>
    ensures value { result ≡ gap_of text.now }
    ensures within { IfSome result (λ gap. IsGap (gap_data gap)) }
{
    let (num, den) = text.split_once('/')?;
    let num = number(num, 0, MOST_GAP as u128)?;
    let den = number(den, 1, MOST_GAP_UNDER as u128)?;
    Some(Gap {
        num: num as u64,
        den: den as u32,
    })
}

/// `close` with its options.
fn close(alloc: Global, words: &[String]) -> Result<Option<Command>, AllocError>
    ensures command { IfOk result (λ named. named ≡ read_by close_names close_of (map string_bytes words.now)) }
    ensures within { IfOk result (λ named. IfSome named IsWithinLimits) }
{
    match read(alloc, CLOSE.as_slice(), words)? {
        Some(options) => Ok(close_of(&options)),
        None => Ok(None),
    }
}

/// `close` by the values of its options.
#[tactic(auto, unfolding(crate::specs::Words::close_of))]
fn close_of(options: &ArgMatches<'_>) -> Option<Command>
    ensures command { result ≡ close_of (values_read options.now) }
    ensures within { IfSome result IsWithinLimits }
{
    let rounds = rounds_in(options)?;
    let gap = own_gap_in(options)?;
    Some(Command::Close { rounds, gap })
}

/// How many rounds may be made.
fn rounds_in(options: &ArgMatches<'_>) -> Option<u32>
    ensures value { result ≡ rounds_in (values_read options.now) }
    ensures within { IfSome result (λ rounds. rounds ≤ most_rounds) }
{
    match options.get_str("rounds") {
        Some(text) => Some(number(text, 0, MOST_CLOSING)? as u32),
        None => Some(ROUNDS),
    }
}

/// How near the bounds are to come, where an option says it.
fn own_gap_in(options: &ArgMatches<'_>) -> Option<Option<Gap>>
    ensures value { result ≡ own_gap_in (values_read options.now) }
    ensures within { IfSome result (λ gap. IfSome gap (λ gap. IsGap (gap_data gap))) }
{
    match options.get_str("gap") {
        Some(text) => match gap_of(text) {
            Some(gap) => Some(Some(gap)),
            None => None,
        },
        None => Some(None),
    }
}

/// `simulate` with its options.
fn simulate(alloc: Global, words: &[String]) -> Result<Option<Command>, AllocError>
    ensures command { IfOk result (λ named. named ≡ read_by simulate_names simulate_of (map string_bytes words.now)) }
    ensures within { IfOk result (λ named. IfSome named IsWithinLimits) }
{
    match read(alloc, SIMULATE.as_slice(), words)? {
        Some(options) => Ok(simulate_of(&options)),
        None => Ok(None),
    }
}

/// `simulate` by the values of its options.
#[tactic(auto, unfolding(crate::specs::Words::simulate_of))]
fn simulate_of(options: &ArgMatches<'_>) -> Option<Command>
    ensures command { result ≡ simulate_of (values_read options.now) }
    ensures within { IfSome result IsWithinLimits }
{
    let seed = seed_in(options)?;
    let stages = stages_in(options)?;
    let rival = rival_in(options)?;
    Some(Command::Simulate {
        seed,
        stages,
        rival,
    })
}

/// What a play draws.
fn seed_in(options: &ArgMatches<'_>) -> Option<u64>
    ensures { result ≡ seed_in (values_read options.now) }
{
    match options.get_str("seed") {
        Some(text) => Some(number(text, 0, u64::MAX as u128)? as u64),
        None => Some(0),
    }
}

/// How many stages a play is to have.
fn stages_in(options: &ArgMatches<'_>) -> Option<u32>
    ensures { result ≡ stages_in (values_read options.now) }
{
    match options.get_str("stages") {
        Some(text) => Some(number(text, 1, MOST_STAGES)? as u32),
        None => Some(STAGES),
    }
}

/// How the informed player plays.
fn rival_in(options: &ArgMatches<'_>) -> Option<Rival>
    ensures { result ≡ rival_in (values_read options.now) }
{
    match options.get_str("rival") {
        Some(text) => rival_of(text),
        None => Some(Rival::Uniform),
    }
}

/// The rival of a word.
fn rival_of(text: &str) -> Option<Rival>
    ensures { result ≡ rival_of text.now }
{
    if text == "uniform" {
        Some(Rival::Uniform)
    } else if text == "points" {
        Some(Rival::Points)
    } else {
        None
    }
}

/// `gen` with its options.
fn generate(alloc: Global, words: &[String]) -> Result<Option<Command>, AllocError>
    ensures command { IfOk result (λ named. named ≡ read_by gen_names gen_of (map string_bytes words.now)) }
    ensures within { IfOk result (λ named. IfSome named IsWithinLimits) }
{
    match read(alloc, GEN.as_slice(), words)? {
        Some(options) => Ok(gen_of(&options)),
        None => Ok(None),
    }
}

/// `gen` by the values of its options: with trials the game is solved, and without them no tolerance is taken.
#[tactic(auto, unfolding(crate::specs::Words::gen_of))]
fn gen_of(options: &ArgMatches<'_>) -> Option<Command>
    ensures command { result ≡ gen_of (values_read options.now) }
    ensures within { IfSome result IsWithinLimits }
{
    let number = number_in(options)?;
    let size = size_in(options)?;
    if options.get_str("trials").is_some() {
        let trials = trials_in(options)?;
        let gap = gap_in(options)?;
        Some(Command::Summary {
            number,
            size,
            trials,
            gap,
        })
    } else if options.get_str("gap").is_some() {
        None
    } else {
        Some(Command::Gen { number, size })
    }
}

/// Which game of its size `gen` makes.
fn number_in(options: &ArgMatches<'_>) -> Option<u64>
    ensures { result ≡ number_in (values_read options.now) }
{
    let text = options.get_str("number")?;
    Some(number(text, 0, u64::MAX as u128)? as u64)
}

/// The size of the game that `gen` makes.
fn size_in(options: &ArgMatches<'_>) -> Option<u32>
    ensures value { result ≡ size_in (values_read options.now) }
    ensures within { IfSome result (λ size. (1 ≤ size) × (size ≤ most_size)) }
{
    let text = options.get_str("size")?;
    Some(number(text, 1, MOST_SIZE)? as u32)
}

/// The number that digits spell, from `low` to `high`.
#[tactic(auto, unfolding(crate::specs::Words::number_of))]
fn number(text: &str, low: u128, high: u128) -> Option<u128>
    ensures value { result ≡ number_of low high text.now }
    ensures within { IfSome result (λ n. (low ≤ n) × (n ≤ high)) }
{
    let n = digits(text.as_bytes())?;
    if low <= n && n <= high { Some(n) } else { None }
}

/// The number that digits stand for, 1 to 30 of them.
fn digits(text: &[u8]) -> Option<u128>
    ensures { result ≡ digits_of text.now }
{
    if text.is_empty() || text.len() > MOST_DIGITS {
        return None;
    }
    let mut value: u128 = 0;
    for digit in text {
        if !digit.is_ascii_digit() {
            return None;
        }
        value = value * 10 + u128::from(*digit - b'0');
    }
    Some(value)
}
