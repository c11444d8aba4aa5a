// The arguments of the daemon that volumes are adopted by at its start.
ghost use Rattle.std.specs.Prelude.{◌≡◌, IfErr, IfOk, codes, false, map};
ghost use Rattle.clap.specs.Words.{found_of, rows_of, rule_of};
ghost use Rattle.sd_arguments.specs.Lines.{flag_rule, texts_at};
ghost use Rattle.sd_arguments.specs.Daemon.{IsBadName, adopt_damaged_rule};

use crate::arguments::flag_argument;
use crate::misuse::Misuse;
use clap::{Arg, ArgAction, ArgMatches};
use sd_base::VolName;
use std::alloc::Global;

/// The argument that damaged volumes are named by.
const ADOPT_DAMAGED: &str = "adopt-damaged";

pub(crate) fn adopt_argument<'a>(alloc: Global) -> Arg<'a>
    ensures rule { rule_of result ≡ flag_rule (codes "adopt") }
    ensures local { result.global ≡ false }
{
    flag_argument(
        alloc,
        "adopt",
        "Adopts the volumes of the drives' folders first, by their notes",
    )
}

pub(crate) fn adopt_damaged_argument<'a>(alloc: Global) -> Arg<'a>
    ensures rule { rule_of result ≡ adopt_damaged_rule }
    ensures local { result.global ≡ false }
{
    Arg::new(alloc, ADOPT_DAMAGED)
        .long(ADOPT_DAMAGED)
        .value_name("VOLUME")
        .action(ArgAction::Append)
        .help("Adopts this volume even if it is damaged, and cuts it there; may be repeated")
}

/// The volumes that are named as damaged.
pub(crate) fn names_of<'a>(
    alloc: Global,
    given: &ArgMatches<'a>,
) -> Result<Vec<VolName>, Misuse<'a>>
    ensures ok { IfOk result (λ names.
        names.items ≡ texts_at (codes "adopt-damaged") (rows_of (found_of given.now))) }
    ensures err { IfErr result (λ misuse. IsBadName misuse
        (texts_at (codes "adopt-damaged") (rows_of (found_of given.now)))) }
{
    match given.get_strs(ADOPT_DAMAGED) {
        Some(words) => names_in(alloc, words),
        None => Ok(Vec::new(alloc)),
    }
}

// The names that these words are. Calls itself for those before the last one.
fn names_in<'a>(alloc: Global, words: &[&'a str]) -> Result<Vec<VolName>, Misuse<'a>>
    ensures ok { IfOk result (λ names. names.items ≡ map (λ w. w.now) words.now) }
    ensures err { IfErr result (λ misuse. IsBadName misuse (map (λ w. w.now) words.now)) }
{
    let Some((last, front)) = words.split_last() else {
        return Ok(Vec::new(alloc));
    };
    let mut names = names_in(alloc, front)?;
    let word: &'a str = *last;
    let Ok(name) = VolName::parse(word) else {
        return Err(Misuse::BadName(word));
    };
    match names.push(name) {
        Ok(()) => Ok(names),
        Err(_) => Err(Misuse::Memory),
    }
}
