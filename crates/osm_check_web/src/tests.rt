//! What is told of right and wrong answers over small sets, and the documents that are handed over.

mod documents;
mod rows;
mod sets;
