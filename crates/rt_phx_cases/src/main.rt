//! What frames of the channel protocol say, and what the server says.
//!
//! A case begins with a word. After `V1` and `V2` comes a frame of that version, and the answer is
//! its message as the other version spells it; after `size` a frame of version 2, and the answer is
//! its length. `told` is the message of a frame of version 2 under another join_ref, `spliced` a
//! change of a version, of which the text of what it shows is given. `end` names an `EndName`. Else
//! the word names a function of `rt_phx::saying`: its arguments come behind it, with ` | ` between
//! two, and the answer is its message as version 2 spells it.
#![tactic(auto)]

mod ends;
mod frames;
mod sayings;
mod told;

use case_lines::{answer_cases, text_of};
use rt_phx::Version;
use std::alloc::Global;
use std::io;

fn answer(alloc: Global, case: &[u8]) -> io::Result<String> {
    let (word, rest) = frames::first_word(case);
    match word {
        b"V1" => frames::respelled(alloc, rest, Version::V1, Version::V2),
        b"V2" => frames::respelled(alloc, rest, Version::V2, Version::V1),
        b"size" => frames::size(alloc, rest),
        b"told" => told::told(alloc, text_of(rest)?),
        b"spliced" => told::spliced(alloc, rest),
        b"end" => ends::end_text(alloc, text_of(rest)?),
        _ => sayings::said(alloc, text_of(word)?, text_of(rest)?),
    }
}

fn main(rt: HostRuntime) -> io::Result<()> {
    answer_cases(&rt, answer)
}
