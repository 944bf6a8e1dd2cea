//! Whether a condition holds on a record.

ghost use Rattle.std.specs.Prelude.{◌≡◌};
ghost use Rattle.std.specs.Ordering.{bool_cmp};
ghost use Rattle.fish_value.specs.Seen.{field_seen};
ghost use Rattle.fish_lang.specs.Definition.{formula_of};
ghost use Rattle.fish_psf.specs.Eval.{begins_with, exists, holds, meets, meets_order, meets_other, order_of};

use crate::parsed::Parsed;
use fish_lang::{Cond, Op};
use fish_value::{FieldView, Text, Value};
use std::cmp::Ordering;

/// Whether a condition holds on a record. It looks at the fields from the left, and no further than
/// it has to. It takes no memory.
pub fn holds<R: Parsed>(cond: &Cond, rec: &R) -> bool
    ensures { result ≡ holds (formula_of cond.now) (R.fields rec.now) }
{
    match cond {
        Cond::Compare { path, op, literal } => compares(*op, &rec.look(path), literal),
        Cond::Exists { path } => exists(&rec.look(path)),
        Cond::Starts { path, prefix } => begins_with(prefix, &rec.look(path)),
        Cond::Not(inner) => !holds(inner, rec),
        Cond::And(left, right) => holds(left, rec) && holds(right, rec),
        Cond::Or(left, right) => holds(left, rec) || holds(right, rec),
    }
}

/// Whether a field compares so with a literal.
fn compares(op: Op, field: &FieldView<'_>, literal: &Value) -> bool
    ensures { result ≡ meets_order op (field_seen field.now)
        (order_of (field_seen field.now) literal.now) }
{
    match order_of(field, literal) {
        Some(order) => meets(op, order),
        None => meets_other(op, field),
    }
}

/// The order of a field and a literal of one kind.
fn order_of(field: &FieldView<'_>, literal: &Value) -> Option<Ordering>
    ensures { result ≡ order_of (field_seen field.now) literal.now }
{
    match (field, literal) {
        (FieldView::Bool(a), Value::Bool(b)) => Some(a.cmp(b)),
        (FieldView::Int(a), Value::Int(b)) => Some(a.cmp(b)),
        (FieldView::Text(a), Value::Text(b)) => Some(a.as_bytes().cmp(b.as_bytes())),
        _ => None,
    }
}

/// Whether an order is one that an operator wants.
fn meets(op: Op, order: Ordering) -> bool
    ensures { result ≡ meets op order }
{
    match op {
        Op::Eq => order.is_eq(),
        Op::Ne => order.is_ne(),
        Op::Lt => order.is_lt(),
        Op::Le => order.is_le(),
        Op::Gt => order.is_gt(),
        Op::Ge => order.is_ge(),
    }
}

/// Whether a field of another kind than the literal's compares so.
fn meets_other(op: Op, field: &FieldView<'_>) -> bool
    ensures { result ≡ meets_other op (field_seen field.now) }
{
    match op {
        Op::Ne => exists(field),
        Op::Eq | Op::Lt | Op::Le | Op::Gt | Op::Ge => false,
    }
}

/// Whether there is something, be it null.
fn exists(field: &FieldView<'_>) -> bool
    ensures { result ≡ exists (field_seen field.now) }
{
    match field {
        FieldView::Missing => false,
        FieldView::Null
        | FieldView::Bool(_)
        | FieldView::Int(_)
        | FieldView::Text(_)
        | FieldView::Other => true,
    }
}

/// Whether a field is a text that begins so.
fn begins_with(prefix: &Text, field: &FieldView<'_>) -> bool
    ensures { result ≡ begins_with prefix.now (field_seen field.now) }
{
    match field {
        FieldView::Text(text) => text.as_bytes().starts_with(prefix.as_bytes()),
        _ => false,
    }
}
