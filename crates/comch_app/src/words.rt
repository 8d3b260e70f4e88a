ghost use Rattle.std.specs.Prelude.{◌≡◌, Some, IfOk, IfSome, map, MatchResult, string_bytes, option_map};
ghost use Rattle.clap.specs.Words.{app_of, kind_of, found_of};
ghost use Rattle.comch_app.specs.{Names.{given, given_in, GivesUp, IsRule, command_rule, numbers_rule, terms_rule, IsAnswerable, alone, certify_request, limit_of, may_at, may_request, sample_at, sample_request, report_request, request_of, request_by, request_named}, CommandLine.line, Requests.number_word};
ghost use Rattle.complex_file.specs.Names.{is_digit};

use crate::request::{DEFAULT_LIMIT, Request};
use clap::error::ErrorKind;
use clap::{Arg, ArgMatches, Command, Error};
use fp_field::served;
use std::alloc::{AllocError, Global};

// The greatest degree of a May element that may be asked for.
const MOST_DEGREE: u64 = 60;

// The greatest number of a torus of the sample family.
const MOST_NUMBER: u64 = 994;

// The greatest limit on the counted terms.
const MOST_TERMS: u64 = 1_000_000_000_000;

// The word that names a command.
fn command_arg<'a>(alloc: Global) -> Arg<'a>
    ensures { IsRule command_rule result }
{
    Arg::new(alloc, "command").required(true)
}

// The numbers behind it.
fn numbers_arg<'a>(alloc: Global) -> Arg<'a>
    ensures { IsRule numbers_rule result }
{
    Arg::new(alloc, "numbers").num_args(0..=2)
}

// The option with a limit.
fn terms_arg<'a>(alloc: Global) -> Arg<'a>
    ensures { IsRule terms_rule result }
{
    Arg::new(alloc, "terms").long("terms")
}

// The whole command line.
fn command_line<'a>(alloc: Global) -> Result<Command<'a>, AllocError>
    ensures { IfOk result (λ c. app_of c ≡ line) }
{
    Command::new(alloc, "comch")
        .no_binary_name(true)
        .arg(command_arg(alloc))?
        .arg(numbers_arg(alloc))?
        .arg(terms_arg(alloc))
}

// What clap makes of the words.
fn matches_of<'a>(alloc: Global, words: &'a [String]) -> Result<ArgMatches<'a>, Error>
    ensures given { MatchResult result
        (λ m. given (map string_bytes words.entry.now) ≡ Some (given_in (found_of m)))
        (λ e. GivesUp (kind_of e) (given (map string_bytes words.entry.now))) }
{
    let line = command_line(alloc)?;
    line.try_get_matches_from(words)
}

fn is_digit(b: u8) -> bool
    ensures { result ≡ is_digit b }
{
    48 <= b && b <= 57
}

// The number that a word of one to thirteen digits writes.
#[tactic(auto, unfolding(crate::specs::Requests::number_word))]
fn number_of(word: &str) -> Option<u64>
    ensures { result ≡ number_word word.now }
{
    let digits = word.as_bytes();
    if digits.is_empty() || digits.len() > 13 {
        return None;
    }
    let mut value = 0u64;
    for digit in digits {
        if !is_digit(*digit) {
            return None;
        }
        value = value * 10 + u64::from(*digit - b'0');
    }
    Some(value)
}

// The request, where neither numbers nor `--terms` stand behind it.
fn alone(request: Request, numbers: &[&str], terms: Option<&str>) -> Option<Request>
    ensures { result ≡ alone request (map (λ s. s.now) numbers.now) (option_map (λ s. s.now) terms.entry) }
{
    match (numbers, terms) {
        ([], None) => Some(request),
        _ => None,
    }
}

// The limit that `--terms` gives, or the one that stands where it is not given.
fn limit_of(terms: Option<&str>) -> Option<u64>
    ensures { result ≡ limit_of (option_map (λ s. s.now) terms.entry) }
{
    let Some(word) = terms else {
        return Some(DEFAULT_LIMIT);
    };
    let limit = number_of(word)?;
    if 1 <= limit && limit <= MOST_TERMS {
        Some(limit)
    } else {
        None
    }
}

fn report_request(numbers: &[&str], terms: Option<&str>) -> Option<Request>
    ensures { result ≡ report_request (map (λ s. s.now) numbers.now) (option_map (λ s. s.now) terms.entry) }
{
    if !numbers.is_empty() {
        return None;
    }
    let limit = limit_of(terms)?;
    Some(Request::Report { limit })
}

fn certify_request(numbers: &[&str], terms: Option<&str>) -> Option<Request>
    ensures { result ≡ certify_request (map (λ s. s.now) numbers.now) (option_map (λ s. s.now) terms.entry) }
{
    if !numbers.is_empty() {
        return None;
    }
    let limit = limit_of(terms)?;
    Some(Request::Certify { limit })
}

// The request of the element of a degree for a prime, where both are within their limits.
fn may_at(prime: u64, degree: u64) -> Option<Request>
    ensures { result ≡ may_at prime degree }
{
    if prime <= 5 && served(prime as u32) && degree <= MOST_DEGREE {
        Some(Request::May {
            prime: prime as u32,
            degree: degree as u32,
        })
    } else {
        None
    }
}

fn may_request(numbers: &[&str], terms: Option<&str>) -> Option<Request>
    ensures { result ≡ may_request (map (λ s. s.now) numbers.now) (option_map (λ s. s.now) terms.entry) }
{
    match (numbers, terms) {
        ([prime, degree], None) => may_at(number_of(prime)?, number_of(degree)?),
        _ => None,
    }
}

// The request of the torus of a number at a prime, where both are within their limits.
fn sample_at(number: u64, prime: u64) -> Option<Request>
    ensures { result ≡ sample_at number prime }
{
    if 1 <= number && number <= MOST_NUMBER && prime <= 5 && served(prime as u32) {
        Some(Request::Sample {
            number: number as u32,
            prime: prime as u32,
        })
    } else {
        None
    }
}

fn sample_request(numbers: &[&str], terms: Option<&str>) -> Option<Request>
    ensures { result ≡ sample_request (map (λ s. s.now) numbers.now) (option_map (λ s. s.now) terms.entry) }
{
    match (numbers, terms) {
        ([number, prime], None) => sample_at(number_of(number)?, number_of(prime)?),
        _ => None,
    }
}

// The request of these parts of the words, if there is one.
fn request_named(word: &str, numbers: &[&str], terms: Option<&str>) -> Option<Request>
    ensures { result ≡ request_named word.now (map (λ s. s.now) numbers.now) (option_map (λ s. s.now) terms.entry) }
{
    if word == "basis" {
        alone(Request::Basis, numbers, terms)
    } else if word == "report" {
        report_request(numbers, terms)
    } else if word == "certify" {
        certify_request(numbers, terms)
    } else if word == "bockstein" {
        alone(Request::Bockstein, numbers, terms)
    } else if word == "check" {
        alone(Request::Check, numbers, terms)
    } else if word == "may" {
        may_request(numbers, terms)
    } else if word == "sample" {
        sample_request(numbers, terms)
    } else {
        None
    }
}

fn request_in(matches: &ArgMatches<'_>) -> Option<Request>
    ensures { result ≡ request_by (given_in (found_of matches.now)) }
{
    let terms = matches.get_str("terms");
    match (matches.get_str("command"), matches.get_raw("numbers")) {
        (None, _) => None,
        (Some(word), Some(numbers)) => request_named(word, numbers, terms),
        (Some(word), None) => request_named(word, &[], terms),
    }
}

/// What the words ask for, or `None` where they are not taken.
pub fn request_of(alloc: Global, words: &[String]) -> Result<Option<Request>, AllocError>
    ensures request { IfOk result (λ r. r ≡ request_of (map string_bytes words.now)) }
    ensures known { IfOk result (λ r. IfSome r IsAnswerable) }
{
    match matches_of(alloc, words) {
        Ok(matches) => Ok(request_in(&matches)),
        Err(error) => match error.kind() {
            ErrorKind::OutOfMemory => Err(AllocError),
            _ => Ok(None),
        },
    }
}
