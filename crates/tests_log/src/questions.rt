//! What is asked beside lanes, and what is kept of an answer.

ghost use Rattle.std.specs.Prelude.{◌<◌};

use crate::asks::{Question, Wanted, ask_of};
use fish_scan::{Answer, Ask, How, ScanRefusal};
use std::alloc::{AllocError, Global};

/// The definition that stays, from before the first record on, and those that come and go.
pub(crate) const KIND: (&str, &str) = ("kind", "take kind");

pub(crate) const CHANGING: &[(&str, &str)] = &[
    ("size", "bucket size by 10"),
    ("small", "flag when kind = \"a\" and size < 20"),
];

/// What is asked, in turn, and a text that stands in the payloads of the records that have the value, and in no others.
pub(crate) const ASKED: &[(&str, Wanted, How, &str)] = &[
    ("kind", Wanted::Text("a"), How::Index, "\"kind\":\"a\""),
    ("size", Wanted::Int(20), How::Auto, "\"size\":2"),
    ("kind", Wanted::Text("b"), How::Auto, "\"kind\":\"b\""),
    (
        "small",
        Wanted::Bool(true),
        How::Index,
        "\"kind\":\"a\",\"size\":1",
    ),
    ("kind", Wanted::Text("c"), How::Full, "\"kind\":\"c\""),
    ("size", Wanted::Int(10), How::Full, "\"size\":1"),
    (
        "small",
        Wanted::Bool(true),
        How::Auto,
        "\"kind\":\"a\",\"size\":1",
    ),
    ("size", Wanted::Int(30), How::Index, "\"size\":3"),
    ("kind", Wanted::Text("d"), How::Auto, "\"kind\":\"d\""),
];

/// The text that stands in the payloads that an answer to the question at a place has to list.
pub(crate) fn text_at(place: usize) -> Option<&'static str> {
    let (_, _, _, text) = ASKED.get(place)?;
    Some(*text)
}

/// Whether the question at a place is about the definition that stays, and asks in a way.
pub(crate) fn asks_kind(place: usize, way: How) -> bool {
    match ASKED.get(place) {
        Some((name, _, how, _)) => *name == KIND.0 && *how == way,
        None => false,
    }
}

/// The question at a place, about the whole log.
pub(crate) fn ask_at(alloc: Global, place: usize) -> Result<Ask, AllocError>
    requires { place < 9 }
{
    let (name, value, how, _) = ASKED[place];
    let question = Question {
        name,
        value,
        from: None,
        to: None,
        how,
    };
    ask_of(alloc, question)
}

/// What a scan answered.
#[derive(Drop)]
pub(crate) struct Kept {
    pub(crate) lane: u8,
    /// How many records its lane had stored before.
    pub(crate) stored: usize,
    /// The place of what was asked.
    pub(crate) asked: usize,
    pub(crate) answer: Answer,
}

/// Keeps what a scan answered after so many records of its lane. A definition may not be there yet, and an index may
/// miss a number.
pub(crate) fn keep(
    kept: &mut Vec<Kept>,
    lane: u8,
    stored: usize,
    asked: usize,
    answer: Result<Answer, ScanRefusal>,
) -> Result<(), AllocError> {
    match answer {
        Ok(answer) => Ok(kept.push(Kept {
            lane,
            stored,
            asked,
            answer,
        })?),
        Err(ScanRefusal::UnknownName { .. } | ScanRefusal::NotCovered { .. }) => Ok(()),
        Err(_) => Err(AllocError),
    }
}
