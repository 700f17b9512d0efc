//! The one place where the output's bytes are made.
ghost use Rattle.std.specs.Prelude.{◌≡◌, ◌++◌, IfOk, OnOk};
ghost use Rattle.rt_form.specs.Printed.{printed, printed_line};

use rt_json::{Json, write};
use rt_value::Bytes;
use std::alloc::{AllocError, Global};

fn print_line(
    alloc: Global,
    lines: &mut Vec<u8>,
    slot: u8,
    message: &Json,
) -> Result<(), AllocError>
    ensures { OnOk result (lines.new.items ≡ lines.old.items ++ printed_line slot message.now) }
{
    lines.extend_from_slice(format!(in alloc; "{slot} ")?.as_bytes())?;
    lines.extend_from_slice(write(alloc, message)?.get())?;
    lines.push(b'\n')?;
    Ok(())
}

/// A line for each message that a slot was given: the slot, a blank, the message.
pub fn print_slot(alloc: Global, slot: u8, messages: &[Json]) -> Result<Bytes, AllocError>
    ensures { IfOk result (λ bytes. bytes ≡ printed slot messages.now) }
{
    let mut lines = Vec::new(alloc);
    for message in messages {
        print_line(alloc, &mut lines, slot, message)?;
    }
    Ok(Bytes::new(lines))
}
