//! What is asked of the words of a log, as a checker keeps it.

ghost use Rattle.std.specs.Prelude.{◌≤◌};

use fish_lang::Def;

/// A definition, and where its index begins and ends.
#[derive(Debug, Drop)]
pub(crate) struct IndexRow {
    pub def: Def,
    pub from: Option<u32>,
    pub to: Option<u32>,
}

/// What a commit tells of its log.
#[derive(Debug, Drop)]
pub(crate) struct Terms {
    /// How many entries it has.
    pub count: u32,
    /// How many lines they take.
    pub lines: u64,
    /// The definitions, by id.
    pub rows: Vec<IndexRow>,
    ghost few_lines: { lines ≤ 68719176736 },
    ghost few: { count ≤ 268435439 },
}
