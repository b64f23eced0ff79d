//! Works of queries over four objects, by hand.

/// A query over `texts_of_sets::ALL_KINDS`, and its work in OPL: 1 for a byte, 100 for a step.
pub(super) const WORK_ROWS: [(&str, u64); 7] = [
    ("node(1);out;", 733),
    ("node(99);out;", 400),
    ("way(10);>;out ids;", 1206),
    ("nwr[highway];out ids;", 1107),
    ("node[highway][!name];out ids;", 1003),
    ("(node(1);way(10););out ids;", 1607),
    // Both nodes lie in a cell that the box meets, one of them in the box.
    ("node(52.49999999999,13.40000004,52.6,13.5);out ids;", 803),
];
