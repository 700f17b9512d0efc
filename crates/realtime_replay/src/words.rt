ghost use Rattle.std.specs.Prelude.{◌≡◌, map, MatchOption, ◌∷◌, []};
ghost use Rattle.realtime_replay.specs.Words.{IsCommand, NoCommand, is_option};

use rt_form::number_of;

/// What the program can be asked for.
#[derive(Clone, Copy)]
pub enum Command {
    /// `replay CATALOGUE SCRIPT`: what each slot was given.
    Replay,
    /// `audit CATALOGUE SCRIPT`: the verdict on each change for each subscription.
    Audit,
    /// `check CATALOGUE`: the counts of a catalogue.
    Check,
    /// `gen N`: the digest of a generated run.
    Generate(u32),
    /// `cluster SCRIPT`: what several nodes show of presence.
    Cluster,
}

/// An option begins with `-` and is longer than that; the program has none.
fn is_option(word: &str) -> bool
    ensures { result ≡ is_option word.now }
{
    match word.as_bytes() {
        [b'-', _, ..] => true,
        _ => false,
    }
}

fn of_one(name: &str, first: &str) -> Option<Command>
    ensures { MatchOption result (NoCommand (name.now ∷ first.now ∷ []))
        (IsCommand (name.now ∷ first.now ∷ [])) }
{
    match name {
        "check" if !is_option(first) => Some(Command::Check),
        "cluster" if !is_option(first) => Some(Command::Cluster),
        "gen" => number_of(first).map(Command::Generate),
        _ => None,
    }
}

fn of_two(name: &str, first: &str, second: &str) -> Option<Command>
    ensures { MatchOption result (NoCommand (name.now ∷ first.now ∷ second.now ∷ []))
        (IsCommand (name.now ∷ first.now ∷ second.now ∷ [])) }
{
    if is_option(first) || is_option(second) {
        return None;
    }
    match name {
        "replay" => Some(Command::Replay),
        "audit" => Some(Command::Audit),
        _ => None,
    }
}

/// The command that the words are, None where they are none.
pub fn command_of(words: &[&str]) -> Option<Command>
    ensures { MatchOption result (NoCommand (map (λ w. w.now) words.now))
        (IsCommand (map (λ w. w.now) words.now)) }
{
    match words {
        [name, first] => of_one(name, first),
        [name, first, second] => of_two(name, first, second),
        _ => None,
    }
}
