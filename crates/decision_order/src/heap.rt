//! A binary heap of variables in an array, the most active first, with the index of each variable in it.

ghost use Rattle.std.specs.Prelude.{◌≡◌, ℕ, ◌+◌, ◌*◌, ◌/◌, ◌<◌, ◌≤◌, length};
ghost use Rattle.decision_order.specs.Orders.{AreVars};

/// Puts a variable at an index of the heap.
fn put(heap: &mut Vec<usize>, indices: &mut Vec<usize>, at: usize, var: usize)
    requires at { at < length heap.old.items }
    requires var { var < length indices.old.items }
    ensures vars { (vars : ℕ) → var < vars → AreVars vars heap.old.items → AreVars vars heap.new.items }
    ensures heap_long { length heap.new.items ≡ length heap.old.items }
    ensures indices_long { length indices.new.items ≡ length indices.old.items }
{
    heap[at] = var;
    indices[var] = at;
}

/// The variable at an index of the heap.
fn var_at(heap: &[usize], vars: usize, at: usize) -> usize
    requires at { at < length heap.now }
    requires vars { AreVars vars heap.now }
    ensures { result < vars }
{
    heap[at]
}

/// Lets a variable rise from an index while it is more active than the one above.
pub(crate) fn sift_up(
    heap: &mut Vec<usize>,
    indices: &mut Vec<usize>,
    activities: &[u64],
    from: usize,
)
    requires from { from < length heap.old.items }
    requires vars { AreVars (length activities.now) heap.old.items }
    requires long { length activities.now ≤ length indices.old.items }
    ensures vars { AreVars (length activities.now) heap.new.items }
    ensures heap_long { length heap.new.items ≡ length heap.old.items }
    ensures indices_long { length indices.new.items ≡ length indices.old.items }
{
    let var = var_at(heap, activities.len(), from);
    let mut at = from;
    'up: while at > 0 {
        let parent = (at - 1) / 2;
        let above = var_at(heap, activities.len(), parent);
        if activities[above] >= activities[var] {
            break;
        }
        put(heap, indices, at, above);
        at = parent;
    }
    put(heap, indices, at, var);
}

/// The more active of the variables below an index: its index.
fn child_of(heap: &[usize], activities: &[u64], at: usize) -> usize
    requires at { at < length heap.now / 2 }
    requires vars { AreVars (length activities.now) heap.now }
    ensures below { at < result }
    ensures within { result < length heap.now }
{
    let left = 2 * at + 1;
    let right = left + 1;
    if right >= heap.len() {
        return left;
    }
    let left_var = var_at(heap, activities.len(), left);
    let right_var = var_at(heap, activities.len(), right);
    if activities[right_var] > activities[left_var] {
        return right;
    }
    left
}

/// Lets a variable sink from an index while one below is more active.
pub(crate) fn sift_down(
    heap: &mut Vec<usize>,
    indices: &mut Vec<usize>,
    activities: &[u64],
    from: usize,
)
    requires from { from < length heap.old.items }
    requires vars { AreVars (length activities.now) heap.old.items }
    requires long { length activities.now ≤ length indices.old.items }
    ensures vars { AreVars (length activities.now) heap.new.items }
    ensures heap_long { length heap.new.items ≡ length heap.old.items }
    ensures indices_long { length indices.new.items ≡ length indices.old.items }
{
    let var = var_at(heap, activities.len(), from);
    let mut at = from;
    'down: while at < heap.len() / 2 {
        let child = child_of(heap, activities, at);
        let below = var_at(heap, activities.len(), child);
        if activities[below] <= activities[var] {
            break;
        }
        put(heap, indices, at, below);
        at = child;
    }
    put(heap, indices, at, var);
}
