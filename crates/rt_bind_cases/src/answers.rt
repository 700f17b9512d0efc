//! What a case is answered.
use case_lines::text_of;
use rt_change::{Change, ChangeFault};
use rt_json::{Json, write};
use rt_value::{Edit, Key, Value};
use std::alloc::{AllocError, Global};
use std::io;

pub fn value(alloc: Global, value: &Value) -> Result<String, AllocError> {
    match value {
        Value::Null => String::from_str(alloc, "null"),
        Value::Int(number) => format!(in alloc; "{number}"),
        Value::Text(text) => {
            let text = text.get();
            format!(in alloc; "'{text}'")
        }
        Value::Bool(truth) => format!(in alloc; "{truth}"),
        Value::Uuid(number) => format!(in alloc; "uuid {number}"),
        Value::Moment(number) => format!(in alloc; "moment {number}"),
        Value::Opaque => String::from_str(alloc, "opaque"),
    }
}

/// Returns the spelling of a tree.
pub fn tree(alloc: Global, tree: &Json) -> io::Result<String> {
    let spelling = write(alloc, tree)?;
    Ok(String::from_str(alloc, text_of(spelling.get())?)?)
}

fn push_cells(
    alloc: Global,
    answer: &mut String,
    cells: &[Option<Value>],
) -> Result<(), AllocError> {
    answer.push_str(" |")?;
    for cell in cells {
        answer.push(' ')?;
        match cell {
            Some(cell) => answer.push_str(value(alloc, cell)?.as_str())?,
            None => answer.push('-')?,
        }
    }
    Ok(())
}

fn push_trees(alloc: Global, answer: &mut String, trees: &[Option<Json>]) -> io::Result<()> {
    answer.push_str(" |")?;
    for shown in trees {
        answer.push(' ')?;
        match shown {
            Some(shown) => answer.push_str(tree(alloc, shown)?.as_str())?,
            None => answer.push('-')?,
        }
    }
    Ok(())
}

fn push_key(alloc: Global, answer: &mut String, key: &Key) -> Result<(), AllocError> {
    for part in key.values.get() {
        answer.push(' ')?;
        answer.push_str(value(alloc, part)?.as_str())?;
    }
    Ok(())
}

fn push_edit(alloc: Global, answer: &mut String, edit: &Edit) -> Result<(), AllocError> {
    match edit {
        Edit::Put { old, new, cells } => {
            answer.push_str(" | put")?;
            push_key(alloc, answer, new)?;
            if let Some(old) = old {
                answer.push_str(" from")?;
                push_key(alloc, answer, old)?;
            }
            push_cells(alloc, answer, cells.get())
        }
        Edit::Remove { key } => {
            answer.push_str(" | remove")?;
            push_key(alloc, answer, key)
        }
        Edit::Clear => answer.push_str(" | clear"),
        Edit::Nothing => answer.push_str(" | nothing"),
    }
}

/// Returns the change's verb and whether it names its key, its new and old cells, these as they are shown, and its edit.
pub fn change(alloc: Global, change: &Change) -> io::Result<String> {
    let verb = change.verb;
    let number = change.table;
    let mut answer = format!(in alloc; "{verb:?} {number}")?;
    if change.has_key {
        answer.push_str(" keyed")?;
    }
    if let Some(moment) = &change.moment {
        answer.push(' ')?;
        answer.push_str(moment.get())?;
    }
    push_cells(alloc, &mut answer, change.new.get())?;
    push_cells(alloc, &mut answer, change.old.get())?;
    push_trees(alloc, &mut answer, change.new_trees.get())?;
    push_trees(alloc, &mut answer, change.old_trees.get())?;
    push_edit(alloc, &mut answer, &change.edit)?;
    Ok(answer)
}

/// Returns the refusal's name.
///
/// # Errors
///
/// `OutOfMemory` where that is the fault.
pub fn fault(alloc: Global, fault: ChangeFault) -> io::Result<String> {
    match fault {
        ChangeFault::NoMemory => Err(io::ErrorKind::OutOfMemory.into()),
        ChangeFault::KeyDiffers => Ok(String::from_str(alloc, "key differs")?),
        ChangeFault::ColumnUnknown { name } => {
            let name = name.get();
            Ok(format!(in alloc; "column unknown: {name}")?)
        }
        ChangeFault::BadValue { name } => {
            let name = name.get();
            Ok(format!(in alloc; "bad value: {name}")?)
        }
    }
}
