// A whole specification.

use crate::class_def::ClassDef;

/// A specification: its classes, in text order.
#[derive(Drop)]
pub struct Spec {
    pub classes: Vec<ClassDef>,
}
