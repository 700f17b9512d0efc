use case_lines::text_of;
use rt_json::write;
use rt_value::Text;
use rt_wal::{Field, Record, WalFault, parse_record};
use std::alloc::{AllocError, Global};
use std::fmt::Write;
use std::io;

/// What a line says: the record's fields, or why it is none.
pub fn record(alloc: Global, line: &[u8]) -> io::Result<String> {
    match parse_record(alloc, line) {
        Ok(record) => described(alloc, &record),
        Err(fault) => refused(alloc, fault),
    }
}

/// The commit time that a text is.
pub fn moment(alloc: Global, text: &str) -> io::Result<String> {
    let line = format!(in alloc; "{{\"action\":\"C\",\"timestamp\":\"{text}\"}}")?;
    match parse_record(alloc, line.as_bytes()) {
        Ok(record) => Ok(String::from_str(alloc, moment_text(&record.moment))?),
        Err(fault) => refused(alloc, fault),
    }
}

/// `no record: Shape`.
pub fn refused(alloc: Global, fault: WalFault) -> io::Result<String> {
    match fault {
        WalFault::BadRecord { .. } => Ok(format!(in alloc; "{fault}")?),
        WalFault::NoMemory => Err(io::ErrorKind::OutOfMemory.into()),
    }
}

fn described(alloc: Global, record: &Record) -> io::Result<String> {
    let action = record.action;
    let schema = record.schema.get();
    let table = record.table.get();
    let mut answer = format!(in alloc; "{action:?} | {schema} | {table} |")?;
    push_fields(alloc, &mut answer, record.columns.get())?;
    answer.push_str(" |")?;
    push_fields(alloc, &mut answer, record.identity.get())?;
    answer.push_str(" |")?;
    push_names(&mut answer, record.keys.get())?;
    let moment = moment_text(&record.moment);
    let size = record.size;
    write!(answer, " | {moment} | {size}")?;
    Ok(answer)
}

fn moment_text(moment: &Option<Text>) -> &str {
    match moment {
        Some(moment) => moment.get(),
        None => "none",
    }
}

fn push_names(answer: &mut String, names: &[Text]) -> Result<(), AllocError> {
    for name in names {
        answer.push(' ')?;
        answer.push_str(name.get())?;
    }
    Ok(())
}

fn push_fields(alloc: Global, answer: &mut String, fields: &[Field]) -> io::Result<()> {
    for field in fields {
        let name = field.name.get();
        let spelling = write(alloc, &field.tree)?;
        let value = text_of(spelling.get())?;
        write!(answer, " {name}={value}")?;
    }
    Ok(())
}
