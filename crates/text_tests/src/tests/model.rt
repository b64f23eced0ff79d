//! Degrees, moments, boxes, objects and sets. The rows of their limits are read by the program, in tests/system.

mod boxes;
mod made;
mod objects;
mod sets;
mod values;
