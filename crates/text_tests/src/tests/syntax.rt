//! Queries: their trees. Queries that are refused are rows of tests/system/text_rows_test.py.

mod formats;
mod queries;
