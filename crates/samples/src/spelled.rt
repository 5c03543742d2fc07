// What is written is the gate with these fields.
use super::{FIVE, Gate};
use crate::gate;

// Gates as they are written, each with its fields.
const SPELLED: [(Gate, (u8, u8, u32, u32)); 5] = [
    (gate!(t 2), (2, 0, 0, 0)),
    (gate!(t 3 +0 +1 -2), (3, 0, 3, 4)),
    (gate!(t 0 -31), (0, 0, 0, 0x8000_0000)),
    (gate!(f 1 0), (1, 0, 0, 0)),
    (gate!(f 0 1 +3 -2), (0, 1, 8, 4)),
];

#[test]
fn spelled_gates(rt: HostRuntime) {
    for (gate, fields) in SPELLED {
        assert_eq!(rt; (gate.a, gate.b, gate.positive, gate.negative), fields);
    }
    assert_eq!(rt;
        FIVE.map(|gate| (gate.a, gate.positive)),
        [(0, 2), (1, 0), (0, 2), (1, 0), (0, 0)]
    );
}
