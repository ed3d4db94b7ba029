//! Documents whose callers meet, and one whose callers never do.

/// The words that make the turns of each list by a worker of its own.
pub const ON_THREADS: [&str; 2] = ["run", "tickets"];

/// An amoebot that marks itself, in the list of each of sixteen callers.
pub const ONE_FOR_SIXTEEN: &str =
    "{MARK}shape\narea 0 0 8 8\nbot 2 3 2 3 0 + 0\nend\nlists\nturns 4\n\
    {16:list 0\n}end\n";

/// Worlds with few amoebots whose zones meet, in the lists of two, four and sixteen callers.
pub const MEETINGS: [&str; 4] = [
    // A light spreads from one amoebot to the three others.
    "amoebot 1\nprogram\nvar lit 1\n\
    action light when lit = 0 and any p in ports ( p . lit = 1 ) do lit := 1\nend\n\
    shape\narea 0 0 8 8\n\
    bot 2 3 2 3 0 + 1\nbot 3 3 3 3 0 + 0\nbot 4 3 4 3 0 + 0\nbot 4 2 4 2 0 + 0\n\
    end\nlists\nturns 6\nlist 3 2 1\nlist 1 2 3\nend\n",
    // Two amoebots want one node, one has the border before it, and one has that one before it.
    // The journal has old values.
    "amoebot 3\nprogram\naction out when contracted move expand head 0\n\
    action back when expanded move contract tail\nend\n\
    shape\narea 0 0 8 8\nbot 2 3 2 3 0 +\nbot 4 3 4 3 3 +\nbot 7 4 7 4 0 +\nbot 6 4 6 4 0 +\n\
    end\nlists\nturns 6\nlist 0 2\nlist 1\nlist 3 0 1\nlist 2 3\nend\n",
    // Two amoebots go towards each other in a corridor of walls, which each caller claims too.
    "amoebot 2\nprogram\naction out when contracted move expand head 0\n\
    action back when expanded move contract tail\nend\n\
    shape\narea 0 0 8 3\nwall 0 1\nwall 7 1\nwall 4 1\n\
    wall 1 0\nwall 2 0\nwall 3 0\nwall 4 0\nwall 5 0\nwall 6 0\n\
    wall 1 2\nwall 2 2\nwall 3 2\nwall 4 2\nwall 5 2\nwall 6 2\n\
    bot 1 1 1 1 0 +\nbot 6 1 6 1 3 +\n\
    end\nlists\nturns 8\nlist 0 1\nlist 1 0\nend\n",
    ONE_FOR_SIXTEEN,
];

/// Two amoebots far from each other, each in the list of one caller.
pub const TWO_APART: &str = "{OUT}{FAR}lists\nturns 3\nlist 0\nlist 1\nend\n";

/// Four amoebots that are eight columns apart. In each turn each of them goes out or comes back.
pub const FOUR_APART: &str = "{OUT_AND_BACK}shape\narea 0 0 32 8\n\
    bot 3 3 3 3 0 +\nbot 11 3 11 3 0 +\nbot 19 3 19 3 0 +\nbot 27 3 27 3 0 +\n\
    end\nlists\nturns 64\nlist 0\nlist 1\nlist 2\nlist 3\nend\n";

/// Sixteen amoebots that are eight columns or rows apart.
/// In each turn each of them goes out or comes back.
pub const SIXTEEN_APART: &str = "{OUT_AND_BACK}shape\narea 0 0 40 40\n\
    bot 4 4 4 4 0 +\nbot 12 4 12 4 0 +\nbot 20 4 20 4 0 +\nbot 28 4 28 4 0 +\n\
    bot 4 12 4 12 0 +\nbot 12 12 12 12 0 +\nbot 20 12 20 12 0 +\nbot 28 12 28 12 0 +\n\
    bot 4 20 4 20 0 +\nbot 12 20 12 20 0 +\nbot 20 20 20 20 0 +\nbot 28 20 28 20 0 +\n\
    bot 4 28 4 28 0 +\nbot 12 28 12 28 0 +\nbot 20 28 20 28 0 +\nbot 28 28 28 28 0 +\n\
    end\nlists\nturns 16\nlist 0\nlist 1\nlist 2\nlist 3\nlist 4\nlist 5\nlist 6\nlist 7\n\
    list 8\nlist 9\nlist 10\nlist 11\nlist 12\nlist 13\nlist 14\nlist 15\nend\n";

/// Sixteen amoebots in a square of four by four that mark themselves,
/// in this order in the list of each of sixteen callers.
pub const SIXTEEN_FOR_SIXTEEN: &str = "{MARK}shape\narea 0 0 8 8\n\
    bot 2 2 2 2 0 + 0\nbot 3 2 3 2 0 + 0\nbot 4 2 4 2 0 + 0\nbot 5 2 5 2 0 + 0\n\
    bot 2 3 2 3 0 + 0\nbot 3 3 3 3 0 + 0\nbot 4 3 4 3 0 + 0\nbot 5 3 5 3 0 + 0\n\
    bot 2 4 2 4 0 + 0\nbot 3 4 3 4 0 + 0\nbot 4 4 4 4 0 + 0\nbot 5 4 5 4 0 + 0\n\
    bot 2 5 2 5 0 + 0\nbot 3 5 3 5 0 + 0\nbot 4 5 4 5 0 + 0\nbot 5 5 5 5 0 + 0\n\
    end\nlists\nturns 64\n\
    {16:list 0 1 2 3 4 5 6 7 8 9 10 11 12 13 14 15\n}\
    end\n";
