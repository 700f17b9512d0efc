//! Both ends in one hand.
ghost use Rattle.std.specs.Prelude.{◌≡◌};

use crate::number;
use rt_fifo::{Full, Rx, Settled, Tx, make, settle};
use std::alloc::Global;
use std::fmt::Write;
use std::io;
use std::sync::Wait;

#[derive(Drop)]
struct Ends {
    tx: Tx<usize>,
    rx: Rx<usize>,
    ghost of_one_queue: { tx.queue ≡ rx.queue },
}

#[derive(Drop)]
enum Hand {
    Parted(Ends),
    Joined(Settled<usize>),
}

impl Ends {
    fn push<R: Wait>(&mut self, rt: &R, item: usize) -> Result<(), Full<usize>> {
        self.tx.push(rt, item)
    }

    fn pop<R: Wait>(&mut self, rt: &R) -> Option<usize> {
        self.rx.pop(rt)
    }

    fn joined(self) -> Settled<usize> {
        settle(self.tx, self.rx)
    }
}

// A step that is none, or that this hand can't take, is an error.
fn step<R: Wait>(rt: &R, hand: Hand, step: &str, answer: &mut String) -> io::Result<Hand> {
    match hand {
        Hand::Parted(ends) if step == "settle" => {
            write!(answer, "joined")?;
            Ok(Hand::Joined(ends.joined()))
        }
        Hand::Parted(mut ends) => {
            parted_step(rt, &mut ends, step, answer)?;
            Ok(Hand::Parted(ends))
        }
        Hand::Joined(mut settled) if step == "next" => {
            write_item(settled.next(rt), answer)?;
            Ok(Hand::Joined(settled))
        }
        Hand::Joined(_) => Err(io::ErrorKind::InvalidInput.into()),
    }
}

fn parted_step<R: Wait>(
    rt: &R,
    ends: &mut Ends,
    step: &str,
    answer: &mut String,
) -> io::Result<()> {
    if step == "pop" {
        return write_item(ends.pop(rt), answer);
    }
    let Some(item) = step.strip_prefix("push ") else {
        return Err(io::ErrorKind::InvalidInput.into());
    };
    match ends.push(rt, number(item)?) {
        Ok(()) => write!(answer, "ok")?,
        Err(Full(item)) => write!(answer, "full({item})")?,
    }
    Ok(())
}

fn write_item(item: Option<usize>, answer: &mut String) -> io::Result<()> {
    match item {
        Some(item) => write!(answer, "{item}")?,
        None => write!(answer, "none")?,
    }
    Ok(())
}

/// Takes the steps, which are parted by `, `, and says what each answers.
pub fn answer<R: Wait>(rt: &R, alloc: Global, capacity: usize, steps: &str) -> io::Result<String> {
    if capacity == 0 {
        return Err(io::ErrorKind::InvalidInput.into());
    }
    let (tx, rx) = make(alloc, capacity)?;
    let mut hand = Hand::Parted(Ends { tx, rx });
    let mut answer = String::new(alloc);
    for word in steps.split(", ") {
        if !answer.is_empty() {
            answer.push_str(", ")?;
        }
        hand = step(rt, hand, word, &mut answer)?;
    }
    Ok(answer)
}
