//! Definitions: which records have a value, and which value.

use fish_value::{Path, Text, Value};

/// How a field is compared with a literal.
#[derive(Clone, Copy, Debug, PartialEq, Eq)]
pub enum Op {
    /// `=`
    Eq,
    /// `!=`
    Ne,
    /// `<`
    Lt,
    /// `<=`
    Le,
    /// `>`
    Gt,
    /// `>=`
    Ge,
}

/// A condition on a record.
#[derive(Debug, Drop)]
pub enum Cond {
    /// The field at a path compares so with a literal.
    Compare {
        /// Where the field stands.
        path: Path,
        /// How it is compared.
        op: Op,
        /// What it is compared with.
        literal: Value,
    },
    /// There is a field at a path.
    Exists {
        /// Where it stands.
        path: Path,
    },
    /// The field at a path is a text that begins so.
    Starts {
        /// Where the field stands.
        path: Path,
        /// How it begins.
        prefix: Text,
    },
    /// A condition does not hold.
    Not(Box<Cond>),
    /// Both conditions hold.
    And(Box<Cond>, Box<Cond>),
    /// At least one of two conditions holds.
    Or(Box<Cond>, Box<Cond>),
}

/// A definition: which records have a value, and which.
#[derive(Debug, Drop)]
pub enum Def {
    /// The field at a path.
    Take {
        /// Where the field stands.
        path: Path,
        /// Which records have the value.
        when: Option<Cond>,
    },
    /// The values of the elements of the array at a path, each once, and of these the first eight.
    Each {
        /// Where the array stands.
        path: Path,
        /// Which records have the values.
        when: Option<Cond>,
    },
    /// The whole number at a path, rounded down to a multiple of a width.
    Bucket {
        /// Where the number stands.
        path: Path,
        /// The width, at least 1.
        width: i64,
        /// Which records have the value.
        when: Option<Cond>,
    },
    /// Whether a condition holds.
    Flag {
        /// The condition.
        when: Cond,
    },
}
