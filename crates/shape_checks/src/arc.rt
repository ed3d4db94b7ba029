ghost use Rattle.std.specs.Prelude.{◌<◌, ◌≤◌, ◌+◌, ◌-◌, ◌%◌, length, Decides, false, true, ℕ, IfSome, IfNone};
ghost use Rattle.shape_checks.specs.{Hexagons.{IsArc}, Arcs.{circle_entry, IsStart}};
ghost use Rattle.shape_checks.specs.Candidates.{most_places};

/// Whether the true places of a circle are those of an arc: none, all,
/// or some that follow one another.
pub(crate) fn is_arc(circle: &[bool]) -> bool
    requires some { 0 < length circle.now }
    requires few { length circle.now ≤ most_places }
    ensures { Decides result (IsArc (circle_entry circle.now) (length circle.now)) }
{
    match start(circle) {
        Some(from) => is_one_arc(circle, from),
        None => true,
    }
}

/// A place that is true and follows a false one.
fn start(circle: &[bool]) -> Option<usize>
    requires some { 0 < length circle.now }
    requires few { length circle.now ≤ most_places }
    ensures some { IfSome result (IsStart circle.now) }
    ensures none { IfNone result ((i : ℕ) → ¬ IsStart circle.now i) }
{
    for i in 0..circle.len() {
        if circle[i] && !circle[(i + circle.len() - 1) % circle.len()] {
            return Some(i);
        }
    }
    None
}

/// Whether all true places follow the one at which an arc starts.
fn is_one_arc(circle: &[bool], from: usize) -> bool
    requires start { IsStart circle.now from }
    requires few { length circle.now ≤ most_places }
    ensures { Decides result (IsArc (circle_entry circle.now) (length circle.now)) }
{
    let mut over = false;
    for j in 0..circle.len() {
        if circle[(from + j) % circle.len()] {
            if over {
                return false;
            }
        } else {
            over = true;
        }
    }
    true
}
