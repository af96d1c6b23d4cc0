//! The rules of the pad once more, written from the documents: nothing here uses a crate of the pad.
pub mod answer;
pub mod broken;
pub mod clearing;
pub mod desk;
pub mod entry;
pub mod exact;
pub mod filing;
pub mod marking;
pub mod operation;
pub mod span;
pub mod truths;
