//! Rows of small sets: entries, nodes and roots where lines are nodes, computed by an independent program,
//! `tests/system/light_trees.py`; `light_trees_test.py` has its own rows, which were worked by hand.

mod publications;
mod texts_of_sets;
