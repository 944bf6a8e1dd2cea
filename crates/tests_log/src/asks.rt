//! What a scan is asked, in the words of a test.

use fish_scan::{Ask, How};
use fish_value::{Text, Value};
use std::alloc::{AllocError, Global};

/// The value that is asked for.
#[derive(Clone, Copy)]
pub enum Wanted {
    Text(&'static str),
    Int(i64),
    Bool(bool),
}

/// What a scan is asked.
#[derive(Clone, Copy)]
pub struct Question {
    pub name: &'static str,
    pub value: Wanted,
    pub from: Option<u32>,
    pub to: Option<u32>,
    pub how: How,
}

/// The value that is asked for.
fn value_of(alloc: Global, wanted: Wanted) -> Result<Value, AllocError> {
    match wanted {
        Wanted::Text(text) => Ok(Value::Text(Text::copy_of(alloc, text)?)),
        Wanted::Int(int) => Ok(Value::Int(int)),
        Wanted::Bool(bool) => Ok(Value::Bool(bool)),
    }
}

/// The question as a scan takes it.
pub fn ask_of(alloc: Global, question: Question) -> Result<Ask, AllocError> {
    let name = Text::copy_of(alloc, question.name)?;
    let value = value_of(alloc, question.value)?;
    Ok(Ask {
        name,
        value,
        from: question.from,
        to: question.to,
        how: question.how,
    })
}
