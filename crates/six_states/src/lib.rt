//! A machine of six states and two inputs, worked by hand: the example that tests share.
#![tactic(auto)]

/// Its cells from state 0 on, for inputs 0 and 1: next state and command. It starts at 0.
pub const CELLS: [(u16, u16); 12] = [
    (4, 0),
    (5, 0),
    (3, 0),
    (2, 0),
    (0, 1),
    (1, 0),
    (1, 0),
    (5, 0),
    (0, 0),
    (2, 0),
    (2, 1),
    (0, 0),
];

/// Its chain: the numbers in front, and the heads.
pub const FRONT: [u16; 10] = [6, 2, 0, 12, 1, 3, 5, 7, 9, 11];

/// Its records: from, to, next, output, link.
pub const RECORDS: [[u16; 5]; 12] = [
    [0, 0, 4, 0, 2],
    [1, 1, 5, 0, 0],
    [0, 0, 3, 0, 4],
    [1, 1, 2, 0, 0],
    [0, 0, 0, 1, 6],
    [1, 1, 1, 0, 0],
    [0, 0, 1, 0, 8],
    [1, 1, 5, 0, 0],
    [0, 0, 0, 0, 10],
    [1, 1, 2, 0, 0],
    [0, 0, 2, 1, 12],
    [1, 1, 0, 0, 0],
];
