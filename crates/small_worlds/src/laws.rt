//! Laws of small runs. Each is the clause of a function with an empty body.

ghost use Rattle.small_worlds.specs.{Rows.{SmallInterleaving}, Tickets.{SmallTickets}};
ghost use Rattle.small_worlds.specs.Turns.{SmallSerialTurns};

/// A small interleaving of two callers whose zones meet, with the report that it leaves:
/// one turn is Busy, the other Done.
pub fn small_interleaving()
    ensures { SmallInterleaving }
{}

/// Three turns of two amoebots, one after another: one fails, one is done, and one is idle.
pub fn small_serial_turns()
    ensures { SmallSerialTurns }
{}

/// Two callers far apart whose commits draw tickets, with the report that they leave:
/// both turns are Done, and the journal is the merge of the callers' own lists.
pub fn small_tickets()
    ensures { SmallTickets }
{}
