//! Drawn shapes, each with connected and hexagon written down by hand.

/// A shape, drawn row by row from the least y on: `o` is a contracted amoebot,
/// `<` the tail and then `=` the head of an expanded one, `.` an empty node.
/// The area is as large as the drawing and begins at (x0, y0).
pub struct Shape {
    pub x0: i16,
    pub y0: i16,
    pub w: u16,
    pub drawing: &'static str,
    pub connected: bool,
    pub hexagon: bool,
}

/// Small shapes.
pub static SMALL: [Shape; 24] = [
    // no amoebot
    Shape {
        x0: 0,
        y0: 0,
        w: 3,
        drawing: "\
            ...",
        connected: true,
        hexagon: false,
    },
    // one amoebot, radius 1 with an empty last ring
    Shape {
        x0: 0,
        y0: 0,
        w: 1,
        drawing: "\
            o",
        connected: true,
        hexagon: true,
    },
    // one in the middle of an area
    Shape {
        x0: 0,
        y0: 0,
        w: 3,
        drawing: "\
            ...\
            .o.\
            ...",
        connected: true,
        hexagon: true,
    },
    // an expanded one
    Shape {
        x0: 0,
        y0: 0,
        w: 2,
        drawing: "\
            <=",
        connected: true,
        hexagon: false,
    },
    // two: one node of the first ring
    Shape {
        x0: 0,
        y0: 0,
        w: 2,
        drawing: "\
            oo",
        connected: true,
        hexagon: true,
    },
    // two in other directions
    Shape {
        x0: 0,
        y0: 0,
        w: 2,
        drawing: "\
            .o\
            o.",
        connected: true,
        hexagon: true,
    },
    // two that touch at no node
    Shape {
        x0: 0,
        y0: 0,
        w: 3,
        drawing: "\
            o.o",
        connected: false,
        hexagon: false,
    },
    // two on a diagonal that is no adjacency
    Shape {
        x0: 0,
        y0: 0,
        w: 2,
        drawing: "\
            o.\
            .o",
        connected: false,
        hexagon: false,
    },
    // three in a row
    Shape {
        x0: 0,
        y0: 0,
        w: 3,
        drawing: "\
            ooo",
        connected: true,
        hexagon: false,
    },
    // three round one corner
    Shape {
        x0: 0,
        y0: 0,
        w: 2,
        drawing: "\
            .o\
            oo",
        connected: true,
        hexagon: true,
    },
    // a full hexagon of radius 1
    Shape {
        x0: 0,
        y0: 0,
        w: 3,
        drawing: "\
            .oo\
            ooo\
            oo.",
        connected: true,
        hexagon: true,
    },
    // radius 1 with a gap of one
    Shape {
        x0: 0,
        y0: 0,
        w: 3,
        drawing: "\
            .oo\
            oo.\
            oo.",
        connected: true,
        hexagon: true,
    },
    // radius 1 with a gap of two
    Shape {
        x0: 0,
        y0: 0,
        w: 3,
        drawing: "\
            .oo\
            oo.\
            o..",
        connected: true,
        hexagon: true,
    },
    // radius 1 with two arcs
    Shape {
        x0: 0,
        y0: 0,
        w: 3,
        drawing: "\
            .oo\
            .o.\
            oo.",
        connected: true,
        hexagon: false,
    },
    // radius 1 with two single nodes opposite
    Shape {
        x0: 0,
        y0: 0,
        w: 3,
        drawing: "\
            o..\
            .o.\
            ..o",
        connected: false,
        hexagon: false,
    },
    // radius 1 with opposite nodes
    Shape {
        x0: 0,
        y0: 0,
        w: 3,
        drawing: "\
            ..o\
            .o.\
            o..",
        connected: true,
        hexagon: false,
    },
    // a ring without its centre
    Shape {
        x0: 0,
        y0: 0,
        w: 3,
        drawing: "\
            .oo\
            o.o\
            oo.",
        connected: true,
        hexagon: false,
    },
    // a full hexagon with an expanded amoebot
    Shape {
        x0: 0,
        y0: 0,
        w: 3,
        drawing: "\
            .oo\
            o<=\
            oo.",
        connected: true,
        hexagon: false,
    },
    // a full hexagon of radius 2
    Shape {
        x0: 0,
        y0: 0,
        w: 5,
        drawing: "\
            ..ooo\
            .oooo\
            ooooo\
            oooo.\
            ooo..",
        connected: true,
        hexagon: true,
    },
    // radius 2, last ring with a gap
    Shape {
        x0: 0,
        y0: 0,
        w: 5,
        drawing: "\
            ..ooo\
            .oooo\
            ooooo\
            oooo.\
            oo...",
        connected: true,
        hexagon: true,
    },
    // radius 2, one node of the last ring
    Shape {
        x0: 0,
        y0: 0,
        w: 5,
        drawing: "\
            .....\
            ..oo.\
            .ooo.\
            .oo..\
            .o...",
        connected: true,
        hexagon: true,
    },
    // radius 1 round a node at the area's edge: two nodes of the last ring would lie outside
    Shape {
        x0: 0,
        y0: 0,
        w: 2,
        drawing: "\
            oo\
            oo\
            o.",
        connected: true,
        hexagon: true,
    },
    // half of a full hexagon of radius 2, cut off at the area's edge
    Shape {
        x0: 0,
        y0: 0,
        w: 3,
        drawing: "\
            ooo\
            ooo\
            ooo\
            oo.\
            o..",
        connected: true,
        hexagon: false,
    },
    // two hexagons that touch at no node
    Shape {
        x0: 0,
        y0: 0,
        w: 7,
        drawing: "\
            .oo..oo\
            ooo.ooo\
            oo..oo.",
        connected: false,
        hexagon: false,
    },
];

/// Larger ones.
pub static LARGE: [Shape; 23] = [
    // radius 2, two arcs
    Shape {
        x0: 0,
        y0: 0,
        w: 5,
        drawing: "\
            ..oo.\
            .oooo\
            .ooo.\
            oooo.\
            ooo..",
        connected: true,
        hexagon: false,
    },
    // radius 2, a hole in the first ring
    Shape {
        x0: 0,
        y0: 0,
        w: 5,
        drawing: "\
            ..ooo\
            .o.oo\
            ooooo\
            oooo.\
            ooo..",
        connected: true,
        hexagon: false,
    },
    // radius 2, one node too far away
    Shape {
        x0: 0,
        y0: 0,
        w: 7,
        drawing: "\
            ..ooo.o\
            .oooo..\
            ooooo..\
            oooo...\
            ooo....",
        connected: false,
        hexagon: false,
    },
    // a full hexagon of radius 3
    Shape {
        x0: 0,
        y0: 0,
        w: 7,
        drawing: "\
            ...oooo\
            ..ooooo\
            .oooooo\
            ooooooo\
            oooooo.\
            ooooo..\
            oooo...",
        connected: true,
        hexagon: true,
    },
    // radius 3, last ring with a gap of two
    Shape {
        x0: 0,
        y0: 0,
        w: 7,
        drawing: "\
            ...oooo\
            ..ooooo\
            .oooooo\
            oooooo.\
            ooooo..\
            ooooo..\
            oooo...",
        connected: true,
        hexagon: true,
    },
    // radius 3, half of the last ring
    Shape {
        x0: 0,
        y0: 0,
        w: 7,
        drawing: "\
            ...oooo\
            ..ooooo\
            .oooooo\
            .oooooo\
            .ooooo.\
            .oooo..\
            .......",
        connected: true,
        hexagon: true,
    },
    // radius 3, one node of the last ring
    Shape {
        x0: 0,
        y0: 0,
        w: 7,
        drawing: "\
            .......\
            ...ooo.\
            ..oooo.\
            .ooooo.\
            .ooooo.\
            .ooo...\
            .......",
        connected: true,
        hexagon: true,
    },
    // radius 3, two arcs
    Shape {
        x0: 0,
        y0: 0,
        w: 7,
        drawing: "\
            ...oo.o\
            ..ooooo\
            .oooooo\
            .oooooo\
            .ooooo.\
            .oooo..\
            .......",
        connected: true,
        hexagon: false,
    },
    // a full hexagon of radius 4
    Shape {
        x0: 0,
        y0: 0,
        w: 9,
        drawing: "\
            ....ooooo\
            ...oooooo\
            ..ooooooo\
            .oooooooo\
            ooooooooo\
            oooooooo.\
            ooooooo..\
            oooooo...\
            ooooo....",
        connected: true,
        hexagon: true,
    },
    // radius 4, one node of the last ring is missing
    Shape {
        x0: 0,
        y0: 0,
        w: 9,
        drawing: "\
            ....ooooo\
            ...oooooo\
            ..ooooooo\
            .oooooooo\
            oooooooo.\
            oooooooo.\
            ooooooo..\
            oooooo...\
            ooooo....",
        connected: true,
        hexagon: true,
    },
    // radius 4, two nodes of the last ring are missing
    Shape {
        x0: 0,
        y0: 0,
        w: 9,
        drawing: "\
            ....oo.oo\
            ...oooooo\
            ..ooooooo\
            .oooooooo\
            oooooooo.\
            oooooooo.\
            ooooooo..\
            oooooo...\
            ooooo....",
        connected: true,
        hexagon: false,
    },
    // radius 4, one node of the last ring
    Shape {
        x0: 0,
        y0: 0,
        w: 9,
        drawing: "\
            .........\
            ....oooo.\
            ...ooooo.\
            ..oooooo.\
            .ooooooo.\
            .oooooo..\
            .ooooo...\
            .oooo.o..\
            .........",
        connected: false,
        hexagon: false,
    },
    // radius 4, one node at a corner of the last ring
    Shape {
        x0: 0,
        y0: 0,
        w: 9,
        drawing: "\
            .........\
            ....oooo.\
            ...ooooo.\
            ..oooooo.\
            .oooooooo\
            .oooooo..\
            .ooooo...\
            .oooo....\
            .........",
        connected: true,
        hexagon: true,
    },
    // negative coordinates
    Shape {
        x0: -7,
        y0: -9,
        w: 3,
        drawing: "\
            .oo\
            ooo\
            oo.",
        connected: true,
        hexagon: true,
    },
    // at the least corner of all areas
    Shape {
        x0: -4096,
        y0: -4096,
        w: 3,
        drawing: "\
            .oo\
            ooo\
            o..",
        connected: true,
        hexagon: true,
    },
    // at the greatest corner of all areas
    Shape {
        x0: 4096,
        y0: 4096,
        w: 3,
        drawing: "\
            .oo\
            .oo\
            oo.",
        connected: true,
        hexagon: true,
    },
    // a rhomb of nine, in whose corners two nodes are too far away
    Shape {
        x0: 0,
        y0: 0,
        w: 3,
        drawing: "\
            ooo\
            ooo\
            ooo",
        connected: true,
        hexagon: false,
    },
    // a square of four
    Shape {
        x0: 0,
        y0: 0,
        w: 2,
        drawing: "\
            oo\
            oo",
        connected: true,
        hexagon: true,
    },
    // two expanded ones in a row
    Shape {
        x0: 0,
        y0: 0,
        w: 4,
        drawing: "\
            <=<=",
        connected: true,
        hexagon: false,
    },
    // two expanded ones apart
    Shape {
        x0: 0,
        y0: 0,
        w: 5,
        drawing: "\
            <=.<=",
        connected: false,
        hexagon: false,
    },
    // a ring of radius 2
    Shape {
        x0: 0,
        y0: 0,
        w: 5,
        drawing: "\
            ..ooo\
            .o..o\
            o...o\
            o..o.\
            ooo..",
        connected: true,
        hexagon: false,
    },
    // a ring of radius 2 that is open
    Shape {
        x0: 0,
        y0: 0,
        w: 5,
        drawing: "\
            ..ooo\
            .o..o\
            o...o\
            ...o.\
            ooo..",
        connected: true,
        hexagon: false,
    },
    // a ring of radius 2 in two halves
    Shape {
        x0: 0,
        y0: 0,
        w: 5,
        drawing: "\
            ..ooo\
            .o..o\
            .....\
            o..o.\
            ooo..",
        connected: false,
        hexagon: false,
    },
];
