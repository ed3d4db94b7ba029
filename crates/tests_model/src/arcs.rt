use ring_guard::one_arc;

/// The rings of one arc, where bit `i` of the number is entry `i`.
const ARCS: [u8; 31] = [
    0b000001, 0b000010, 0b000100, 0b001000, 0b010000, 0b100000, // one neighbour
    0b000011, 0b000110, 0b001100, 0b011000, 0b110000, 0b100001, // two
    0b000111, 0b001110, 0b011100, 0b111000, 0b110001, 0b100011, // three
    0b001111, 0b011110, 0b111100, 0b111001, 0b110011, 0b100111, // four
    0b011111, 0b111110, 0b111101, 0b111011, 0b110111, 0b101111, // five
    0b111111, // all six
];

#[test]
fn of_the_64_rings_these_31_are_one_arc(rt: HostRuntime) {
    for number in 0..64u8 {
        let mut ring = [false; 6];
        for i in 0..6 {
            ring[i] = (number >> i) & 1 == 1;
        }
        assert!(rt; one_arc(ring) == ARCS.contains(&number), "ring {number}");
    }
}

#[test]
fn opposite_neighbours_are_two_arcs(rt: HostRuntime) {
    assert!(rt; one_arc([true, false, false, true, false, false]) == false);
}
