ghost use Rattle.std.specs.Prelude.{◌≡◌, MatchOption, None, Some};
ghost use Rattle.rt_cluster_script.specs.Script.{node_in, pair_in, place_in};

use rt_lines::{number_of, parted};

/// A number, and what stands behind it and a blank.
pub fn node_and_rest(text: &str) -> Option<(u64, &str)>
    ensures { MatchOption result (node_in text.now ≡ None)
        (λ found. node_in text.now ≡ Some (found.0, found.1.now)) }
{
    match parted(text) {
        None => None,
        Some((node, rest)) => match number_of(node) {
            None => None,
            Some(number) => Some((number, rest)),
        },
    }
}

/// Two numbers.
pub fn two_numbers(text: &str) -> Option<(u64, u64)>
    ensures { result ≡ pair_in text.now }
{
    match node_and_rest(text) {
        None => None,
        Some((first, rest)) => match number_of(rest) {
            None => None,
            Some(second) => Some((first, second)),
        },
    }
}

/// A node, a topic, and what stands behind them.
#[derive(Clone, Copy)]
pub struct Placed<'a> {
    pub node: u64,
    pub topic: &'a str,
    pub rest: &'a str,
}

/// A number, a word, and what stands behind them.
pub fn topic_and_rest(text: &str) -> Option<Placed<'_>>
    ensures { MatchOption result (place_in text.now ≡ None)
        (λ found. place_in text.now ≡ Some (found.node, (found.topic.now, found.rest.now))) }
{
    match node_and_rest(text) {
        None => None,
        Some((node, behind)) => match parted(behind) {
            None => None,
            Some((topic, rest)) => Some(Placed { node, topic, rest }),
        },
    }
}
