//! A page that fetches what it needs, and what is told where there is no answer.

mod call;
mod four_objects;
mod heads;
mod page;
mod reader;
mod statuses;
