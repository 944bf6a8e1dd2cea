//! Lists of statements, and what each of them answers on an empty log of sixteen buckets.

use crate::asks::{Question, Wanted};
use Statement::{Begin, End, Explain, Look, Scan, Store, StoreLong};
use fish_scan::How;

/// One statement.
#[derive(Clone, Copy)]
pub(crate) enum Statement {
    /// Stores a payload.
    Store(&'static [u8]),
    /// Stores a payload of so many bytes.
    StoreLong(usize),
    /// Registers a definition under a name.
    Begin(&'static str, &'static str),
    /// Looks at the lanes.
    Look,
    /// Ends the definition of a name.
    End(&'static str),
    Explain(Question),
    Scan(Question),
}

/// Statements, and what they answer.
pub(crate) type Story = &'static [(Statement, &'static str)];

/// Three payloads.
const FIRST_PUSH: &[u8] = b"{\"type\":\"Push\",\"n\":1}";

const OPEN: &[u8] = b"{\"type\":\"Open\",\"n\":2}";

const LAST_PUSH: &[u8] = b"{\"type\":\"Push\",\"n\":3}";

/// The pushes, in any way.
pub(crate) const PUSHES: Question = Question {
    name: "t",
    value: Wanted::Text("Push"),
    from: None,
    to: None,
    how: How::Auto,
};

/// Three records before a registration and three after it.
pub(crate) const BEHIND_RECORDS: Story = &[
    (Store(FIRST_PUSH), "0"),
    (Store(OPEN), "1"),
    (Store(LAST_PUSH), "2"),
    (Begin("t", "take type"), "id 0"),
    (Look, "id 0 from 3"),
    (Store(FIRST_PUSH), "3"),
    (Store(OPEN), "4"),
    (Store(LAST_PUSH), "5"),
    (Explain(PUSHES), "0..6 index 3..6 by 0 full 0..3"),
    (
        Scan(PUSHES),
        "0..6 index 3..6 by 0 full 0..3; 5 {\"type\":\"Push\",\"n\":3}; 3 {\"type\":\"Push\",\"n\":1}; \
         2 {\"type\":\"Push\",\"n\":3}; 0 {\"type\":\"Push\",\"n\":1}",
    ),
    (
        Scan(Question {
            how: How::Index,
            ..PUSHES
        }),
        "no index holds the numbers 0..3",
    ),
];

/// Three records before a definition ends, three past its end, and three once it is registered again in other words.
pub(crate) const AGAIN: Story = &[
    (Begin("t", "take type"), "id 0"),
    (Look, "id 0 from 0"),
    (Store(FIRST_PUSH), "0"),
    (Store(OPEN), "1"),
    (Store(LAST_PUSH), "2"),
    (End("t"), "id 0 to 3"),
    (Store(FIRST_PUSH), "3"),
    (Store(OPEN), "4"),
    (Store(LAST_PUSH), "5"),
    (Begin("t", "take \"type\""), "id 1"),
    (Look, "id 1 from 6"),
    (Store(FIRST_PUSH), "6"),
    (Store(OPEN), "7"),
    (Store(LAST_PUSH), "8"),
    (
        Explain(PUSHES),
        "0..9 index 6..9 by 1 full 3..6 index 0..3 by 0",
    ),
];

/// The refusals of names and of an empty range.
pub(crate) const REFUSALS: Story = &[
    (Scan(NUMBERED), "no definition up to version 0 has the name"),
    (End("t"), "no active definition has the name"),
    (Begin("t", "take n"), "id 0"),
    (Look, "id 0 from 0"),
    (Begin("t", "take n"), "the name is active"),
    (
        Scan(Question {
            from: Some(5),
            to: Some(5),
            ..NUMBERED
        }),
        "the range 5..5 is empty",
    ),
];

/// The records with 1, in any way.
const NUMBERED: Question = Question {
    name: "t",
    value: Wanted::Int(1),
    from: None,
    to: None,
    how: How::Auto,
};

/// One registration waits at a time.
pub(crate) const WAITING: Story = &[
    (End("a"), "no active definition has the name"),
    (Begin("a", "take type"), "id 0"),
    (
        Begin("b", "take type"),
        "the index of definition 0 hasn't begun",
    ),
    (End("a"), "the index of definition 0 hasn't begun"),
    (Look, "id 0 from 0"),
    (Begin("a", "take type"), "the name is active"),
    (Look, "none waits"),
];

/// A range and a way, for each of which the question is asked after five numbers, where the index begins at the
/// second one.
pub(crate) const RANGES: Story = &[
    (Store(b"{\"type\":\"a\"}"), "0"),
    (Begin("t", "take type"), "id 0"),
    (Look, "id 0 from 1"),
    (Store(b"{\"type\":\"a\"}"), "1"),
    (Store(b"{\"type\":\"b\"}"), "2"),
    (Store(b"{\"type\":\"a\",\"n\":1}"), "3"),
    (Store(b"{\"n\":2}"), "4"),
    (Explain(LETTER), "0..5 index 1..5 by 0 full 0..1"),
    (
        Scan(LETTER),
        "0..5 index 1..5 by 0 full 0..1; 3 {\"type\":\"a\",\"n\":1}; 1 {\"type\":\"a\"}; 0 {\"type\":\"a\"}",
    ),
    (
        Scan(Question {
            how: How::Full,
            ..LETTER
        }),
        "0..5 full 0..5; 3 {\"type\":\"a\",\"n\":1}; 1 {\"type\":\"a\"}; 0 {\"type\":\"a\"}",
    ),
    (
        Scan(Question {
            from: Some(1),
            how: How::Index,
            ..LETTER
        }),
        "1..5 index 1..5 by 0; 3 {\"type\":\"a\",\"n\":1}; 1 {\"type\":\"a\"}",
    ),
    (
        Scan(Question {
            value: Wanted::Text("b"),
            to: Some(3),
            ..LETTER
        }),
        "0..3 index 1..3 by 0 full 0..1; 2 {\"type\":\"b\"}",
    ),
    (
        Scan(Question {
            value: Wanted::Text("c"),
            ..LETTER
        }),
        "0..5 index 1..5 by 0 full 0..1",
    ),
    (
        Scan(Question {
            from: Some(7),
            ..LETTER
        }),
        "5..5",
    ),
    (
        Scan(Question {
            how: How::Index,
            ..LETTER
        }),
        "no index holds the numbers 0..1",
    ),
    (
        Scan(Question {
            from: Some(3),
            to: Some(3),
            ..LETTER
        }),
        "the range 3..3 is empty",
    ),
    (
        Scan(Question {
            name: "kind",
            ..LETTER
        }),
        "no definition up to version 1 has the name",
    ),
];

/// The records of one letter, in any way.
const LETTER: Question = Question {
    name: "t",
    value: Wanted::Text("a"),
    from: None,
    to: None,
    how: How::Auto,
};

/// Ranges that begin at the end of a log, or past it, which is full after two records: a mark stands there.
pub(crate) const PAST_THE_END: Story = &[
    (Begin("t", "take type"), "id 0"),
    (Look, "id 0 from 0"),
    (StoreLong(524_000), "0"),
    (StoreLong(524_000), "1"),
    (StoreLong(600), "full at line 32752, 19 lines of 32768"),
    (Explain(LETTER), "0..2 index 0..2 by 0"),
    (
        Scan(Question {
            from: Some(2),
            ..LETTER
        }),
        "2..2",
    ),
    (
        Explain(Question {
            from: Some(3),
            ..LETTER
        }),
        "2..2",
    ),
    (
        Scan(Question {
            from: Some(3),
            ..LETTER
        }),
        "2..2",
    ),
    (
        Scan(Question {
            from: Some(3),
            how: How::Index,
            ..LETTER
        }),
        "2..2",
    ),
    (
        Scan(Question {
            from: Some(4),
            to: Some(9),
            how: How::Full,
            ..LETTER
        }),
        "2..2",
    ),
];
